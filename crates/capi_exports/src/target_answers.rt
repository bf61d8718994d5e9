//! The types that programs are attached to.

ghost use Rattle.std.specs.Prelude.{◌≡◌, ◌<◌, IfOk, IfErr, ℕ, List, Result};
ghost use Rattle.capi_rows.specs.Answers.{LeavesList};
ghost use Rattle.capi_rows.specs.declared.refusal.Refusal.{Refusal};
ghost use Rattle.capi_exports.specs.Answers.{target_number, target_type_id, CannotFindTarget, IsTarget, TellsNone, TellsTarget};
ghost use Rattle.capi_exports.specs.Passes.{AreTypesForKernel};

use capi_rows::buffers::tell_items;
use capi_rows::codes::{BAD_NAME, DONE, MEMORY};
use capi_rows::info::read_types;
use capi_rows::reads::text_of;
use capi_rows::refusal::{Refusal, ebpf_refusal};
use capi_rows::refusals::kernel_types_refusal;
use ebpf_base::Items;
use ebpf_btf_load::kernel_types;
use ebpf_load_info::{AttachTarget, attach_target};
use std::alloc::Global;

/// The number of what is known of a target.
pub fn target_number(target: &AttachTarget) -> u32
    ensures { result ≡ target_number target.now }
{
    match target {
        AttachTarget::NotWanted => 0,
        AttachTarget::Unnamed => 1,
        AttachTarget::Found { .. } => 2,
        AttachTarget::NotFound { .. } => 3,
    }
}

/// The id of a target's type, 0 where none is found.
pub fn target_type_id(target: &AttachTarget) -> u32
    ensures { result ≡ target_type_id target.now }
{
    match target {
        AttachTarget::Found { type_id } => *type_id,
        AttachTarget::NotWanted | AttachTarget::Unnamed | AttachTarget::NotFound { .. } => 0,
    }
}

/// What the programs of a section of a name are attached to, among the types that the bytes spell.
fn find_target(alloc: Global, name: &[u8], types: &[u8]) -> Result<AttachTarget, Refusal>
    ensures target { IfOk result (IsTarget name.now types.now) }
    ensures why { IfErr result (CannotFindTarget name.now types.now) }
    ensures refuses { IfErr result (λ r. 0 < r.number) }
{
    let Some(section) = text_of(name) else {
        return Err(Refusal::plain(BAD_NAME));
    };
    let types = read_types(alloc, types)?;
    Ok(attach_target(alloc, section, &types)?)
}

/// Says what the programs of a section of this name are attached to, as a type of the kernel's, or for `freplace` of
/// the program that is replaced: 0 in `answer` where they are loaded without the id of a type, 1 where the name has no
/// name of a target, 2 where the type is found, and 3 where there is none; and its id, 0 but for 2. The types are raw
/// BTF in the byte order that its magic number tells.
///
/// # Answers
///
/// 0; 2; 6 where the name is no text; then 200 to 214 where the types can't be read. `answer` and `type_id` are then as
/// they were.
#[unsafe(no_mangle)]
pub extern "C" fn exact_ebpf_attach_target(
    alloc: Global,
    section_name: &[u8],
    types: &[u8],
    answer: &mut u32,
    type_id: &mut u32,
) -> u32
    ensures found { result ≡ DONE → TellsTarget section_name.now types.now answer.new type_id.new }
    ensures refused { ¬ (result ≡ DONE)
        → TellsNone section_name.now types.now result answer.old answer.new type_id.old
        type_id.new }
{
    match find_target(alloc, section_name, types) {
        Ok(target) => {
            *answer = target_number(&target);
            *type_id = target_type_id(&target);
            DONE
        }
        Err(refusal) => refusal.number,
    }
}

/// The bytes of the types, none where the file has no .BTF.
fn types_for_kernel(alloc: Global, file: &[u8]) -> Result<Items<u8>, Refusal>
    ensures { AreTypesForKernel file.now result }
{
    match kernel_types(alloc, file) {
        Ok(Some(types)) => Ok(Items::from_vec(types)),
        Ok(None) => Ok(Items::new(alloc)),
        Err(error) => Err(kernel_types_refusal(alloc, file, error)?),
    }
}

/// Writes the types of a file as the kernel takes them (`BPF_BTF_LOAD`), and how many bytes they are: 0 where the file
/// has no section .BTF. They are its .BTF, but for the sizes and offsets of sections, the linkage of what is hidden,
/// and the externs of .ksyms and .kconfig (`ebpf_btf_load::kernel_types`); ids and offsets of strings stay.
///
/// # Answers
///
/// 0; 1 where they don't fit; 2; 700 to 709 where the bytes are no file or .BTF passes its end; 720 to 734 where .BTF
/// can't be read; 740 to 743 for the first fault of its sections, about the section, the variable or the extern, where
/// its name can be read; 744 where what comes out passes 32 bits. The buffer is then as it was, and `len` too but for
/// 1.
#[unsafe(no_mangle)]
pub extern "C" fn exact_ebpf_kernel_types(
    alloc: Global,
    file: &[u8],
    types: &mut [u8],
    len: &mut usize,
    about: &mut [u8],
    report: &mut ebpf_refusal,
) -> u32
    ensures { (found : Result (List ℕ) Refusal)
        × AreTypesForKernel file.now found
        × LeavesList found result types.old types.new len.old len.new about.old about.new report.old
        report.new }
{
    let found = types_for_kernel(alloc, file);
    tell_items(found, types, len, about, report)
}
