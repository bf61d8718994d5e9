//! The kernel types to which programs are attached.

ghost use Rattle.std.specs.Prelude.{◌≡◌, ◌==◌, ◌++◌, IfOk};
ghost use Rattle.std.specs.List.{after_first};
ghost use Rattle.ebpf_parts.specs.ProgramTypes.{lookup_piece, without_mark, first_piece};
ghost use Rattle.ebpf_load_info.specs.AttachTargets.{kind_of_target, prefix_of, targets, attach_target, in_kernel};
ghost use Rattle.ebpf_load_info.specs.PrivateContracts.{attached, id_wanted, wanted_in, wanted_type};

use crate::texts::{id_of_name, without_prefix};
use ebpf_base::Text;
use ebpf_btf::{Btf, BtfKind};
use std::alloc::{AllocError, Global};

/// The kind of a target to which a program is attached, where the target is a type.
#[derive(Clone, Copy)]
pub enum TargetKind {
    /// A tracepoint of the kernel.
    TracePoint,
    /// A hook of the kernel's security modules (LSM).
    SecurityHook,
    /// An iterator over objects of the kernel.
    Iterator,
    /// A function, of the kernel or of another program.
    Function,
}

/// The kind of target of the programs of a section, by the first part of the section's name. `None` for other programs.
#[tactic(auto, unfolding(crate::specs::AttachTargets::targets))]
pub fn target_by(piece: &str) -> Option<TargetKind>
    ensures { result ≡ lookup_piece targets piece.now }
{
    match piece {
        "tp_btf" => Some(TargetKind::TracePoint),
        "lsm" | "lsm.s" | "lsm_cgroup" => Some(TargetKind::SecurityHook),
        "iter" | "iter.s" => Some(TargetKind::Iterator),
        "fentry" | "fentry.s" => Some(TargetKind::Function),
        "fexit" | "fexit.s" => Some(TargetKind::Function),
        "fmod_ret" | "fmod_ret.s" => Some(TargetKind::Function),
        "freplace" => Some(TargetKind::Function),
        _ => None,
    }
}

impl TargetKind {
    /// The prefix of a target's name in the name of its type.
    #[tactic(auto, unfolding(crate::specs::AttachTargets::prefix_of))]
    pub fn prefix(self) -> &'static str
        ensures { result.now ≡ prefix_of self }
    {
        match self {
            TargetKind::TracePoint => "btf_trace_",
            TargetKind::SecurityHook => "bpf_lsm_",
            TargetKind::Iterator => "bpf_iter_",
            TargetKind::Function => "",
        }
    }

    /// The BTF kind of the target's type.
    #[tactic(auto, unfolding(crate::specs::AttachTargets::kind_of_target))]
    pub fn kind(self) -> BtfKind
        ensures { result ≡ kind_of_target self }
    {
        match self {
            TargetKind::TracePoint => BtfKind::Typedef,
            TargetKind::SecurityHook | TargetKind::Iterator | TargetKind::Function => BtfKind::Func,
        }
    }
}

/// The target to which the programs of a section are attached, as a type.
#[derive(Debug, Drop)]
pub enum AttachTarget {
    /// The programs are loaded without the id of a type.
    NotWanted,
    /// The programs are loaded with the id of a type, and the section's name holds no name of a target.
    Unnamed,
    /// The target has a type.
    Found {
        /// The id of the target's type.
        type_id: u32,
    },
    /// No type has the name of the target.
    NotFound {
        /// The name of the missing type.
        name: Text,
    },
}

/// The type to which programs are attached.
#[derive(Drop)]
pub enum WantedType {
    /// The programs are loaded without the id of a type.
    Other,
    /// The section's name holds no name of a target.
    Nameless,
    /// A type with a kind and a name.
    Named {
        /// The kind.
        kind: BtfKind,
        /// The name.
        name: Text,
    },
}

/// The name of a section without a leading `?`.
fn without_mark(section_name: &str) -> &str
    ensures { result.now ≡ without_mark section_name.now }
{
    match section_name.strip_prefix('?') {
        Some(rest) => rest,
        None => section_name,
    }
}

/// The part of a name before the first slash.
fn before_slash(name: &str) -> &str
    ensures { result.now ≡ first_piece name.now }
{
    match name.split_once('/') {
        Some((piece, _)) => piece,
        None => name,
    }
}

/// The part of a name behind the first slash; empty where there is no slash.
fn behind_slash(name: &str) -> &str
    ensures { result.now ≡ after_first (λ b. b == 47) name.now }
{
    match name.split_once('/') {
        Some((_, rest)) => rest,
        None => "",
    }
}

/// The name of a target without a leading `vmlinux:`.
fn in_kernel(name: &str) -> &str
    ensures { result.now ≡ in_kernel name.now }
{
    without_prefix(name, "vmlinux:").unwrap_or(name)
}

/// The name of a target's type.
fn type_name(alloc: Global, target: TargetKind, name: &str) -> Result<Text, AllocError>
    ensures { IfOk result (λ full. full ≡ prefix_of target ++ name.now) }
{
    let mut full = String::from_str(alloc, target.prefix())?;
    full.push_str(name)?;
    Ok(Text::from_string(full))
}

/// The type of a target, where it has a name.
fn wanted_in(alloc: Global, target: TargetKind, name: &str) -> Result<WantedType, AllocError>
    ensures { IfOk result (λ wanted. wanted ≡ wanted_in target name.now) }
{
    if name.is_empty() {
        return Ok(WantedType::Nameless);
    }
    let name = type_name(alloc, target, name)?;
    Ok(WantedType::Named {
        kind: target.kind(),
        name,
    })
}

/// The type to which the programs of a section are attached, before it is looked up.
pub fn wanted_type(alloc: Global, section_name: &str) -> Result<WantedType, AllocError>
    ensures { IfOk result (λ wanted. wanted ≡ wanted_type section_name.now) }
{
    let name = without_mark(section_name);
    let Some(target) = target_by(before_slash(name)) else {
        return Ok(WantedType::Other);
    };
    wanted_in(alloc, target, in_kernel(behind_slash(name)))
}

/// The id of a type that is wanted.
fn id_wanted(types: &Btf, wanted: &WantedType) -> Option<u32>
    ensures { result ≡ id_wanted types.now wanted.now }
{
    match wanted {
        WantedType::Named { kind, name } => id_of_name(types, name.as_str(), *kind),
        WantedType::Nameless => None,
        WantedType::Other => None,
    }
}

impl WantedType {
    /// Returns the target, by the id of its type.
    pub fn attached(self, found: Option<u32>) -> AttachTarget
        ensures { result ≡ attached self found }
    {
        match self {
            WantedType::Other => AttachTarget::NotWanted,
            WantedType::Nameless => AttachTarget::Unnamed,
            WantedType::Named { name, .. } => match found {
                Some(type_id) => AttachTarget::Found { type_id },
                None => AttachTarget::NotFound { name },
            },
        }
    }
}

/// Returns the target of the programs of a section, as a type.
///
/// `types` are the types of the kernel, or for `freplace` the types of the program that is replaced.
///
/// The name of the target is the part of the section's name behind the first slash. A leading `?` of the section's name
/// and a leading `vmlinux:` of the target's name are skipped. The type is searched by kind and name:
///
/// - `tp_btf/NAME`: the TYPEDEF `btf_trace_NAME`.
/// - `lsm`, `lsm.s` and `lsm_cgroup`: the FUNC `bpf_lsm_NAME`.
/// - `iter` and `iter.s`: the FUNC `bpf_iter_NAME`.
/// - `fentry`, `fexit` and `fmod_ret`, each also with `.s`, and `freplace`: the FUNC `NAME`.
///
/// Of several types the one with the lowest id is found. A type whose name can't be read is skipped. Names are compared
/// in place: no name of the types is copied.
///
/// Two differences to libbpf 1.5:
///
/// - libbpf refuses type names of 128 bytes or more. This function searches for names of any length.
/// - libbpf reads the types of the module for `fentry/MODULE:NAME`. This function searches for a type with the whole
///   name behind the slash.
///
/// # Errors
///
/// - `AllocError`: an allocation for the name of the type failed.
#[tactic(auto, using(crate::proofs::Wanted::attached_as_wanted))]
pub fn attach_target(
    alloc: Global,
    section_name: &str,
    types: &Btf,
) -> Result<AttachTarget, AllocError>
    ensures { IfOk result (λ target. target ≡ attach_target section_name.now types.now) }
{
    let wanted = wanted_type(alloc, section_name)?;
    let found = id_wanted(types, &wanted);
    Ok(wanted.attached(found))
}
