//! What needs the ids of the kernel's own types.

ghost use Rattle.std.specs.Prelude.{◌≡◌, ◌++◌, IfOk, OnOk, slice_get};
ghost use Rattle.std.specs.FinMap as map;
ghost use Rattle.std.specs.List.{flat_map};
ghost use Rattle.std.specs.Option.{option_copied};
ghost use Rattle.ebpf_base.specs.Faults.{Refuses};
ghost use Rattle.ebpf_btf.specs.TypeInfo.{no_types};
ghost use Rattle.ebpf_least_types.specs.IdUses.{extern_use, extern_uses, first_id_use, id_uses, is_replacement, name_of_missing, program_use, program_uses, record_use, record_uses, section_name, section_uses, target_of};
ghost use Rattle.ebpf_least_types.specs.Memory.{is_least_memory};
ghost use Rattle.ebpf_parts.specs.ProgramTypes.{without_mark};

use crate::error::LeastTypesError;
use crate::same_outcomes::asks_for_kernel_id;
use ebpf_base::{ByName, Items, Text};
use ebpf_btf::{Btf, BtfError};
use ebpf_btf_ext::Relocation;
use ebpf_elf::SectionIndex;
use ebpf_load_info::{AttachTarget, attach_target};
use ebpf_model::{ExternDesc, Program};
use ebpf_object::Object;
use std::alloc::{AllocError, Global};
use std::fmt;

/// Something in an object that needs an id of the kernel's own types.
#[derive(Debug, Drop)]
pub enum KernelIdUse {
    /// A CO-RE relocation of kind BPF_CORE_TYPE_ID_TARGET.
    Record {
        /// The offset of the name of the relocation's section in the strings of the object's `.BTF`.
        section_name: u32,
        /// The index of the relocation in its section of `.BTF.ext`, from 0 on.
        number: usize,
    },
    /// An extern whose type the kernel's is compared with.
    Extern {
        /// The extern's name.
        name: Text,
    },
    /// An attach target in the kernel that the name of a program's section states.
    Target {
        /// The program's name.
        program: Text,
        /// The name of the target's type in the kernel, as `bpf_lsm_file_open`.
        target: Text,
    },
}

impl fmt::Display for KernelIdUse {
    fn fmt<W: fmt::Write>(&self, f: &mut fmt::Formatter<W>) -> fmt::Result {
        match self {
            KernelIdUse::Record { number, .. } => {
                write!(f, "the kernel's id of a type in CO-RE relocation {number}")
            }
            KernelIdUse::Extern { name } => {
                write!(f, "the kernel's id of the extern {:?}", name.as_str())
            }
            KernelIdUse::Target { program, target } => write!(
                f,
                "the kernel's id of {:?}, the target of the program {:?}",
                target.as_str(),
                program.as_str()
            ),
        }
    }
}

/// Adds a relocation of the section whose name is at an offset, where it asks for an id.
fn add_record_use(
    uses: &mut Items<KernelIdUse>,
    section_name: u32,
    relocation: &Relocation,
) -> Result<(), AllocError>
    ensures { OnOk result (uses.new ≡ uses.old ++ record_use section_name relocation.now) }
{
    if !asks_for_kernel_id(relocation) {
        return Ok(());
    }
    uses.push(KernelIdUse::Record {
        section_name,
        number: relocation.number,
    })?;
    Ok(())
}

/// Adds the relocations of a section that ask for ids. The section's name is at an offset.
fn add_section_uses(
    uses: &mut Items<KernelIdUse>,
    section_name: u32,
    records: &[Relocation],
) -> Result<(), AllocError>
    ensures { OnOk result
        (uses.new ≡ uses.old ++ flat_map (record_use section_name) records.now) }
{
    for relocation in records {
        add_record_use(uses, section_name, relocation)?;
    }
    Ok(())
}

/// Adds the relocations of some sections that ask for ids.
fn add_sections_uses(
    uses: &mut Items<KernelIdUse>,
    sections: &[(u32, Items<Relocation>)],
) -> Result<(), AllocError>
    ensures { OnOk result (uses.new ≡ uses.old ++ flat_map section_uses sections.now) }
{
    for section in sections {
        add_section_uses(uses, section.0, section.1.as_slice())?;
    }
    Ok(())
}

/// Adds the relocations of an object that ask for ids.
fn add_record_uses(uses: &mut Items<KernelIdUse>, object: &Object) -> Result<(), AllocError>
    ensures { OnOk result (uses.new ≡ uses.old ++ record_uses object.now) }
{
    let (Some(_), Some(ext)) = (&object.btf, &object.btf_ext) else {
        return Ok(());
    };
    add_sections_uses(uses, ext.relocations())
}

/// Adds an extern whose type is compared.
fn add_extern_use(
    alloc: Global,
    uses: &mut Items<KernelIdUse>,
    name: &str,
    known: &ExternDesc,
) -> Result<(), AllocError>
    ensures { OnOk result (uses.new ≡ uses.old ++ extern_use (name.now, known.now)) }
{
    if !known.is_typed {
        return Ok(());
    }
    let name = Text::from_str(alloc, name)?;
    uses.push(KernelIdUse::Extern { name })?;
    Ok(())
}

/// Adds the externs whose types are compared.
fn add_all_externs(
    alloc: Global,
    uses: &mut Items<KernelIdUse>,
    externs: &ByName<ExternDesc>,
) -> Result<(), AllocError>
    ensures { OnOk result
        (uses.new ≡ uses.old ++ flat_map extern_use (map.entries externs.now)) }
{
    for (name, known) in externs.iter() {
        add_extern_use(alloc, uses, name.as_str(), known)?;
    }
    Ok(())
}

/// Adds the externs of an object whose types are compared.
fn add_extern_uses(
    alloc: Global,
    uses: &mut Items<KernelIdUse>,
    object: &Object,
) -> Result<(), AllocError>
    ensures { OnOk result (uses.new ≡ uses.old ++ extern_uses object.now.btf object.now.externs) }
{
    if object.btf.is_none() {
        return Ok(());
    }
    add_all_externs(alloc, uses, &object.externs)
}

/// Returns the first name of the section with an index.
fn section_name(infos: &ByName<SectionIndex>, index: usize) -> Option<&str>
    ensures { option_copied result ≡ section_name infos.now index }
{
    for (name, known) in infos.iter() {
        if known.0 == index {
            return Some(name.as_str());
        }
    }
    None
}

/// Returns the name of a section without the mark before it, `?`.
fn without_mark(section: &str) -> &str
    ensures { result.now ≡ without_mark section.now }
{
    match section.strip_prefix('?') {
        Some(rest) => rest,
        None => section,
    }
}

/// Returns whether the programs of a section replace those of another object.
fn is_replacement(section: &str) -> bool
    ensures { result ≡ is_replacement section.now }
{
    without_mark(section).starts_with("freplace")
}

/// Returns the name of a target's type, where no type was found.
fn name_of_missing(target: AttachTarget) -> Option<Text>
    ensures { result ≡ name_of_missing target }
{
    match target {
        AttachTarget::NotFound { name } => Some(name),
        _ => None,
    }
}

/// Returns type information without types.
fn no_types(alloc: Global) -> Result<Btf, AllocError>
    ensures { IfOk result (λ types. types ≡ no_types) }
{
    match Btf::new(alloc) {
        Ok(types) => Ok(types),
        Err(_) => Err(AllocError),
    }
}

/// Returns the name of the kernel's type that the programs of a section are attached to.
fn target_of(alloc: Global, section: &str) -> Result<Option<Text>, AllocError>
    ensures { IfOk result (λ target. target ≡ target_of section.now) }
{
    if is_replacement(section) {
        return Ok(None);
    }
    let types = no_types(alloc)?;
    let target = attach_target(alloc, section, &types)?;
    Ok(name_of_missing(target))
}

/// Adds the target of a program.
fn add_program_use(
    alloc: Global,
    uses: &mut Items<KernelIdUse>,
    infos: &ByName<SectionIndex>,
    name: &str,
    program: &Program,
) -> Result<(), AllocError>
    ensures { OnOk result (uses.new ≡ uses.old ++ program_use infos.now (name.now, program.now)) }
{
    let Some(section) = section_name(infos, program.section_index) else {
        return Ok(());
    };
    let Some(target) = target_of(alloc, section)? else {
        return Ok(());
    };
    let program = Text::from_str(alloc, name)?;
    uses.push(KernelIdUse::Target { program, target })?;
    Ok(())
}

/// Adds the targets of an object's programs.
fn add_program_uses(
    alloc: Global,
    uses: &mut Items<KernelIdUse>,
    object: &Object,
) -> Result<(), AllocError>
    ensures { OnOk result (uses.new ≡ uses.old ++ program_uses object.now) }
{
    for (name, program) in object.programs.iter() {
        add_program_use(alloc, uses, &object.section_infos, name.as_str(), program)?;
    }
    Ok(())
}

/// Returns what in an object needs ids of the kernel's own types: CO-RE relocations in order, then externs by name, then
/// programs by name.
///
/// - Of the CO-RE relocations those of kind BPF_CORE_TYPE_ID_TARGET.
/// - Of the externs those whose type the kernel's is compared with; none without type information.
/// - Of the programs those whose section names an attach target, as `ebpf_load_info::attach_target` reads the name. A
///   section `freplace` names a target in another object.
///
/// # Errors
///
/// - `AllocError`: out of memory.
pub fn kernel_id_uses(alloc: Global, object: &Object) -> Result<Items<KernelIdUse>, AllocError>
    ensures { IfOk result (λ uses. uses ≡ id_uses object.now) }
{
    let mut uses = Items::new(alloc);
    add_record_uses(&mut uses, object)?;
    add_extern_uses(alloc, &mut uses, object)?;
    add_program_uses(alloc, &mut uses, object)?;
    Ok(uses)
}

/// Returns the first use of an id in an object.
fn first_use(alloc: Global, object: &Object) -> Result<Option<KernelIdUse>, AllocError>
    ensures { IfOk result (λ first. first ≡ slice_get (id_uses object.now) 0) }
{
    let uses = kernel_id_uses(alloc, object)?;
    Ok(uses.into_vec().into_iter().next())
}

/// Refuses objects of which one needs an id of the kernel's own types.
///
/// # Errors
///
/// - `NeedsKernelId`: an object needs an id: the first use, object by object.
/// - `OutOfMemory`: out of memory.
#[tactic(auto, using(crate::proofs::FirstUses::used_here, crate::proofs::FirstUses::used_later))]
pub fn refuse_id_uses(alloc: Global, objects: &[Object]) -> Result<(), LeastTypesError>
    ensures { Refuses is_least_memory result (first_id_use objects.now) }
{
    for number in 0..objects.len() {
        if let Some(needed) = first_use(alloc, &objects[number])? {
            return Err(LeastTypesError::NeedsKernelId {
                object: number,
                needed,
            });
        }
    }
    Ok(())
}
