//! The outcome of each extern of an object over a kernel, also behind one that is refused.

ghost use Rattle.std.specs.Iterator.{IsFinite};
ghost use Rattle.std.specs.Option.{option_copied};
ghost use Rattle.std.specs.Prelude.{◌≡◌, IfOk, IfErr, MatchBool, ⊤};
ghost use Rattle.ebpf_ksyms.specs.Addresses.{is_ksyms_memory};
ghost use Rattle.ebpf_ksyms.specs.Outcomes.{AreExternOutcomes, IsLineFault, refusal_of, typed_outcomes, with_result};

use crate::error::KsymsError;
use crate::externs::{kept_outcomes, outcomes_of};
use crate::lines::addresses_in;
use crate::named::{entries_of, wanted_names};
use ebpf_base::{ByName, Items};
use ebpf_btf::Btf;
use ebpf_model::ExternDesc;
use std::alloc::{AllocError, Global};
use std::io;
use std::marker::Model;

/// The outcome of an extern over a kernel.
#[derive(Debug, Drop)]
pub struct ExternOutcome<'a> {
    /// The name of the extern.
    pub name: &'a str,
    /// The extern before resolution.
    pub desc: ExternDesc,
    /// The result of its look-up.
    pub result: ExternResult,
}

impl<'a> Model for ExternOutcome<'a> {
    ghost use Rattle.ebpf_ksyms.specs.Outcomes.{OutcomeValue};

    ghost Value = { OutcomeValue };

    ghost view = { λ o. record { name = o.name.now; desc = o.desc; result = o.result } };
}

/// The result of the look-up of an extern in a kernel.
#[derive(Debug, Drop)]
pub enum ExternResult {
    /// The kernel has a function or a variable with a compatible type: its id in the kernel's types.
    Id(u32),
    /// The kernel's symbols have the name: its address, which isn't 0.
    Address(u64),
    /// The extern is weak, and the kernel has none of the name or one with another type.
    Absent,
    /// Resolution refuses the extern with this error, which isn't `OutOfMemory`.
    Refused(KsymsError),
    /// The extern has no type and needs the kernel's symbols. `extern_outcomes` gives none of these.
    Untyped,
    /// The extern stays: it is resolved, or the object has no types.
    Kept,
}

impl ExternResult {
    /// The extern with this result written.
    ///
    /// - `Id`: the id of the kernel, and resolved.
    /// - `Address`: the address, and resolved.
    /// - `Absent`: the address 0, as libbpf gives a weak extern.
    /// - `Refused`, `Untyped` and `Kept`: the extern as it is.
    pub fn apply_to(&self, desc: ExternDesc) -> ExternDesc
        ensures { result ≡ with_result desc self.now }
    {
        match self {
            ExternResult::Id(id) => ExternDesc {
                kernel_btf_id: Some(*id),
                is_resolved: true,
                ..desc
            },
            ExternResult::Address(address) => ExternDesc {
                ksym_addr: Some(*address),
                is_resolved: true,
                ..desc
            },
            ExternResult::Absent => ExternDesc {
                ksym_addr: Some(0),
                ..desc
            },
            _ => desc,
        }
    }

    /// The reason why resolution refuses the extern. `None` of each other result.
    pub fn refusal(&self) -> Option<&KsymsError>
        ensures { option_copied result ≡ refusal_of self.now }
    {
        match self {
            ExternResult::Refused(error) => Some(error),
            _ => None,
        }
    }
}

/// The outcome of each extern by the types of a kernel, also behind one that is refused. They are in the order of the
/// bytes of the names. The kernel's symbols aren't read.
///
/// - An unresolved extern with a type is `Id`, `Absent` or `Refused`. It is looked up in `kernel` as `resolve_lines`
///   does.
/// - An unresolved extern without a type is `Untyped`.
/// - A resolved extern is `Kept`. Without the object's types `btf` each extern is.
///
/// # Errors
///
/// `AllocError`: out of memory, and no other.
pub fn typed_outcomes<'a>(
    alloc: Global,
    btf: Option<&Btf>,
    externs: &'a ByName<ExternDesc>,
    kernel: Option<&Btf>,
) -> Result<Items<ExternOutcome<'a>>, AllocError>
    ensures { IfOk result (λ outcomes.
        outcomes
        ≡ typed_outcomes (option_copied btf.entry) (option_copied kernel.entry) externs.now) }
{
    let all = entries_of(alloc, externs)?;
    let Some(local) = btf else {
        return Ok(Items::from_vec(kept_outcomes(alloc, &all)?));
    };
    let outcomes = outcomes_of(alloc, local, kernel, None, &all)?;
    Ok(Items::from_vec(outcomes))
}

/// The outcome of each extern by the types of a kernel and the lines of its symbols, also behind one that is refused.
/// They are in the order of the bytes of the names.
///
/// - An unresolved extern with a type and a resolved extern are as `typed_outcomes` gives them.
/// - An unresolved extern without a type is looked up in the lines as `resolve_lines` does. It is `Address`, else
///   `Absent` if it is weak, else `Refused` with `VariableNotFound`.
///
/// If no extern needs the lines, none is read.
///
/// # Errors
///
/// The first fault of the lines, whatever the outcomes of externs with a type:
///
/// - `KallsymsAccessError`: a line could not be read.
/// - `KallsymsParseError`: a line has a wanted name and no address below 2^64.
/// - `AmbiguousResolution`: a line has a second address of a wanted name.
/// - `OutOfMemory`: out of memory, also if a line's error says so.
pub fn extern_outcomes<'a, I: Iterator<Item = io::Result<String>> + Drop>(
    alloc: Global,
    btf: Option<&Btf>,
    externs: &'a ByName<ExternDesc>,
    kernel: Option<&Btf>,
    lines: I,
) -> Result<Items<ExternOutcome<'a>>, KsymsError>
    requires can { I.can_next lines }
    requires ends { IsFinite (I.remaining lines) }
    ensures ok { IfOk result (λ outcomes.
        AreExternOutcomes I.next_gives lines (option_copied btf.entry)
        (option_copied kernel.entry) externs.now outcomes) }
    ensures fault { IfErr result (λ e.
        MatchBool (is_ksyms_memory e) ⊤
        (IsLineFault I.next_gives lines (option_copied btf.entry) externs.now e)) }
{
    let all = entries_of(alloc, externs)?;
    let Some(local) = btf else {
        return Ok(Items::from_vec(kept_outcomes(alloc, &all)?));
    };
    let addresses = addresses_in(alloc, &wanted_names(alloc, &all)?, lines)?;
    let outcomes = outcomes_of(alloc, local, kernel, Some(&addresses), &all)?;
    Ok(Items::from_vec(outcomes))
}
