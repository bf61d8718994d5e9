//! The resolution of externs, and the sources of the lines of a kernel's symbols.

ghost use Rattle.std.specs.Iterator.{IsFinite};
ghost use Rattle.std.specs.Option.{option_copied};
ghost use Rattle.std.specs.Prelude.{IfOk, IfErr, MatchBool, ⊤};
ghost use Rattle.ebpf_ksyms.specs.Externs.{IsResolutionFault, IsResolved};
ghost use Rattle.ebpf_ksyms.specs.Addresses.{is_ksyms_memory};
ghost use Rattle.ebpf_ksyms.specs.Sources.{IsRefusedFrom, IsResolvedFrom, Reader, Source, Text, IsRefusedIn, IsResolvedIn, IsRefusedBy, IsResolvedBy};

use crate::error::KsymsError;
use crate::externs::{with_addresses, with_types};
use crate::lines::{TextLines, addresses_in};
use crate::named::{entries_of, externs_from, wanted_names};
use ebpf_base::ByName;
use ebpf_btf::Btf;
use ebpf_model::ExternDesc;
use std::alloc::Global;
use std::io::{self, BufRead};

/// A source of the lines of a kernel's symbols: a reader, or a text in memory.
pub trait SymbolSource: Drop {
    ghost source: { Self → Source };

    /// Resolves the externs of an object with these lines.
    ///
    /// # Errors
    ///
    /// Those of `resolve_lines` in its order.
    fn resolve(
        self,
        alloc: Global,
        btf: Option<&Btf>,
        externs: &ByName<ExternDesc>,
        kernel_btf: Option<&Btf>,
    ) -> Result<ByName<ExternDesc>, KsymsError>
    where
        Self: Sized,
        ensures ok { IfOk result (λ after.
            IsResolvedFrom (source self) (option_copied btf.entry)
            (option_copied kernel_btf.entry) externs.now after) }
        ensures fault { IfErr result (λ e.
            MatchBool (is_ksyms_memory e) ⊤
            (IsRefusedFrom (source self) (option_copied btf.entry)
            (option_copied kernel_btf.entry) externs.now e)) };
}

impl<R: BufRead + Drop> SymbolSource for R {
    ghost source = { λ reader. Reader (R.remaining reader) };

    fn resolve(
        self,
        alloc: Global,
        btf: Option<&Btf>,
        externs: &ByName<ExternDesc>,
        kernel_btf: Option<&Btf>,
    ) -> Result<ByName<ExternDesc>, KsymsError> {
        resolve_externs(alloc, btf, externs, kernel_btf, self)
    }
}

/// A text in memory with the lines of a kernel's symbols, as `/proc/kallsyms` has them. Its only access error is that
/// of a line that is not UTF-8.
#[derive(Clone, Copy)]
pub struct SymbolText<'a>(pub &'a [u8]);

impl<'a> SymbolSource for SymbolText<'a> {
    ghost source = { λ text. Text text.0.now };

    fn resolve(
        self,
        alloc: Global,
        btf: Option<&Btf>,
        externs: &ByName<ExternDesc>,
        kernel_btf: Option<&Btf>,
    ) -> Result<ByName<ExternDesc>, KsymsError> {
        resolve_text(alloc, btf, externs, kernel_btf, self.0)
    }
}

/// Resolves the externs of an object with a kernel's types and the lines of its symbols.
///
/// - A resolved extern stays. Without the object's types `btf` all externs stay.
/// - An extern with a type is looked up in `kernel_btf`, a function by its name before `___`, a variable by its whole
///   name. The type with the lowest id counts. The extern gets this id if both types, resolved, are compatible
///   (`types_are_compatible`).
/// - An extern without a type is looked up in the lines, and gets the address that they state of its name.
/// - A weak extern that is not found gets the address 0 and stays unresolved.
///
/// Each line is cut into words at runs of the bytes 0x09, 0x0a, 0x0c, 0x0d and 0x20. Its first word is an address in
/// hexadecimal digits, after an optional plus. Its third word is a name. Lines of fewer words, lines of other names and
/// the address 0 are passed over. All lines are read, one at a time. If no extern needs the lines, none is read.
///
/// `typed_outcomes` and `extern_outcomes` give each extern's outcome, also behind one that is refused.
///
/// # Errors
///
/// First come the externs with a type in the order of their names, next the lines, last the externs without a type in
/// the order of their names. Names in errors are those that were looked up.
///
/// - `TypedKsymRequiresKernelBtf`: an extern with a type is not weak, and there is no `kernel_btf`.
/// - `BtfError`: a type that is needed can't be found or resolved, or the comparison refuses.
/// - `InvalidExternType`: the type of an extern is neither a FUNC nor a VAR.
/// - `FunctionNotFound`, `VariableNotFound`: the kernel's types lack an extern that is not weak.
/// - `IncompatibleFunctionSignature`, `IncompatibleVariableType`: an extern that is not weak has another type in the
///   kernel.
/// - `KallsymsAccessError`: a line could not be read.
/// - `KallsymsParseError`: a line has a wanted name and no address below 2^64.
/// - `AmbiguousResolution`: a line has a second address of a wanted name.
/// - `VariableNotFound`: the lines lack an extern that is not weak.
/// - `OutOfMemory`: out of memory, also if a line's error says so.
pub fn resolve_lines<I: Iterator<Item = io::Result<String>> + Drop>(
    alloc: Global,
    btf: Option<&Btf>,
    externs: &ByName<ExternDesc>,
    kernel_btf: Option<&Btf>,
    lines: I,
) -> Result<ByName<ExternDesc>, KsymsError>
    requires can { I.can_next lines }
    requires ends { IsFinite (I.remaining lines) }
    ensures ok { IfOk result (λ after.
        IsResolved I.next_gives lines (option_copied btf.entry) (option_copied kernel_btf.entry)
        externs.now after) }
    ensures fault { IfErr result (λ e.
        MatchBool (is_ksyms_memory e) ⊤
        (IsResolutionFault I.next_gives lines (option_copied btf.entry)
        (option_copied kernel_btf.entry) externs.now e)) }
{
    let all = entries_of(alloc, externs)?;
    let Some(local) = btf else {
        return Ok(externs_from(alloc, &all)?);
    };
    let typed = with_types(alloc, local, kernel_btf, &all)?;
    let addresses = addresses_in(alloc, &wanted_names(alloc, &all)?, lines)?;
    let after = with_addresses(alloc, &addresses, &typed)?;
    Ok(externs_from(alloc, &after)?)
}

/// Resolves the externs of an object as `resolve_lines` does, with the lines of a reader. A line ends before a byte
/// 0x0a.
///
/// # Errors
///
/// Those of `resolve_lines` in its order. `KallsymsAccessError`: a read fails, or a line is not UTF-8.
pub fn resolve_externs<R: BufRead + Drop>(
    alloc: Global,
    btf: Option<&Btf>,
    externs: &ByName<ExternDesc>,
    kernel_btf: Option<&Btf>,
    kallsyms: R,
) -> Result<ByName<ExternDesc>, KsymsError>
    ensures ok { IfOk result (λ after.
        IsResolvedIn (R.remaining kallsyms) (option_copied btf.entry)
        (option_copied kernel_btf.entry) externs.now after) }
    ensures fault { IfErr result (λ e.
        MatchBool (is_ksyms_memory e) ⊤
        (IsRefusedIn (R.remaining kallsyms) (option_copied btf.entry)
        (option_copied kernel_btf.entry) externs.now e)) }
{
    resolve_lines(alloc, btf, externs, kernel_btf, kallsyms.lines(alloc))
}

/// Resolves the externs of an object as `resolve_lines` does, with the lines of a text in memory. They are those that
/// `resolve_externs` reads of the same bytes.
///
/// # Errors
///
/// Those of `resolve_lines` in its order, and exactly where there is a fault. `KallsymsAccessError`: lines are read,
/// and one is not UTF-8. The kind of its error is `InvalidData`.
pub fn resolve_text(
    alloc: Global,
    btf: Option<&Btf>,
    externs: &ByName<ExternDesc>,
    kernel_btf: Option<&Btf>,
    text: &[u8],
) -> Result<ByName<ExternDesc>, KsymsError>
    ensures ok { IfOk result (λ after.
        IsResolvedBy text.now (option_copied btf.entry) (option_copied kernel_btf.entry)
        externs.now after) }
    ensures fault { IfErr result (λ e.
        MatchBool (is_ksyms_memory e) ⊤
        (IsRefusedBy text.now (option_copied btf.entry) (option_copied kernel_btf.entry)
        externs.now e)) }
{
    resolve_lines(alloc, btf, externs, kernel_btf, TextLines::new(alloc, text))
}
