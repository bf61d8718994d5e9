//! The attach targets of programs in a kernel.

ghost use Rattle.std.specs.Prelude.{◌≡◌, IfOk, codes, nat_eq};
ghost use Rattle.std.specs.List.{starts_with};
ghost use Rattle.ebpf_load_info.specs.AttachTargets.{attach_target};
ghost use Rattle.ebpf_parts.specs.ProgramTypes.{without_mark};
ghost use Rattle.ebpf_verdict.specs.Targets.{found_target, replaces, target_by, target_of};

use ebpf_base::Text;
use ebpf_btf::Btf;
use ebpf_load_info::{AttachTarget, attach_target};
use std::alloc::{AllocError, Global};

/// The attach target of a program in a kernel.
#[derive(Debug, Drop)]
pub enum KernelTarget {
    /// A type of the kernel.
    Found {
        /// Its id.
        type_id: u32,
    },
    /// The kernel has no type of the target. A module may have it.
    NotFound {
        /// The name of the type.
        name: Text,
    },
    /// The program is loaded without a type, or the name of its section names no target.
    NotAsked,
    /// The program replaces one of another object, whose types have the target.
    Replaces,
}

/// A section's name without the mark before it, `?`.
fn without_mark(section: &str) -> &str
    ensures { result.now ≡ without_mark section.now }
{
    match section.strip_prefix('?') {
        Some(rest) => rest,
        None => section,
    }
}

/// Whether the programs of a section replace those of another object.
fn replaces(section: &str) -> bool
    ensures { result ≡ replaces section.now }
{
    without_mark(section).starts_with("freplace")
}

/// A target, by the type that was looked up.
#[tactic(auto, unfolding(crate::specs::Targets::found_target))]
fn found_target(found: AttachTarget) -> KernelTarget
    ensures { result ≡ found_target found }
{
    match found {
        AttachTarget::Found { type_id } => KernelTarget::Found { type_id },
        AttachTarget::NotFound { name } => KernelTarget::NotFound { name },
        AttachTarget::NotWanted => KernelTarget::NotAsked,
        AttachTarget::Unnamed => KernelTarget::NotAsked,
    }
}

/// The attach target of the programs of a section, by the type that `ebpf_load_info::attach_targets` found for it in a kernel's
/// types.
pub fn kernel_target(section: &str, found: AttachTarget) -> KernelTarget
    ensures { result ≡ target_by section.now found }
{
    if replaces(section) {
        return KernelTarget::Replaces;
    }
    found_target(found)
}

/// The attach target of the programs of a section in a kernel with these types, as `ebpf_load_info::attach_target` looks it
/// up. A program without a target isn't said to break: its target may be in a module, whose types aren't given.
///
/// # Errors
///
/// - `AllocError`: out of memory.
#[tactic(auto, unfolding(crate::specs::Targets::target_of))]
pub fn find_target(alloc: Global, section: &str, kernel: &Btf) -> Result<KernelTarget, AllocError>
    ensures { IfOk result (λ target. target ≡ target_of section.now kernel.now) }
{
    let found = attach_target(alloc, section, kernel)?;
    Ok(kernel_target(section, found))
}
