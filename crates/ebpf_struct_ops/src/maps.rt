//! The maps of struct_ops as a kernel takes them.

ghost use Rattle.std.specs.Prelude.{◌≡◌, ◌++◌, IfOk};
ghost use Rattle.std.specs.Option.{option_to_list};
ghost use Rattle.ebpf_base.specs.Faults.{Gives, Refuses};
ghost use Rattle.ebpf_struct_ops.specs.KernelStructs.{is_struct_ops_memory};
ghost use Rattle.ebpf_struct_ops.specs.StructOpsMaps.{map_of, members_fault, placements, program_at, programs, struct_ops_map};
ghost use Rattle.ebpf_struct_ops.specs.StructOpsMaps as definitions;

use crate::error::StructOpsError;
use crate::faults::MemberFault;
use crate::kernel::{KernelStruct, kernel_struct};
use crate::placement::{Placement, placement_of};
use crate::type_facts::type_behind;
use crate::value::value_bytes;
use crate::variable::{StructOpsMember, StructOpsVariable};
use ebpf_base::{Items, Text};
use ebpf_btf::{Btf, BtfType};
use std::alloc::{AllocError, Global};

/// A program whose descriptor a map of struct_ops holds.
#[derive(Debug, Drop)]
pub struct StructOpsProgram {
    /// The name of the program.
    pub program: Text,
    /// The index of the member in the kernel's struct, which the program is loaded with (`expected_attach_type`).
    pub member: usize,
    /// The offset of the descriptor in the value, in bytes. It is written there as a number of 8 bytes.
    pub offset: u64,
}

/// A map of struct_ops as a kernel takes it.
#[derive(Debug, Drop)]
pub struct StructOpsMap {
    /// The name of the map.
    pub name: Text,
    /// Whether a link attaches the map (`BPF_F_LINK`).
    pub is_link: bool,
    /// The id of the kernel's struct, which the programs are loaded with (`attach_btf_id`).
    pub struct_id: u32,
    /// The id of the STRUCT that is the map's value (`btf_vmlinux_value_type_id`).
    pub value_type_id: u32,
    /// The bytes of the value. They are zero where descriptors of programs go.
    pub value: Items<u8>,
    /// The programs whose descriptors the value holds, in the order of the members of the object's struct.
    pub programs: Items<StructOpsProgram>,
}

/// What the members of a struct put into the value of its map.
#[derive(Drop)]
struct PlacedMembers {
    placements: Items<Placement>,
    programs: Items<StructOpsProgram>,
}

/// The error for a member that has no place.
fn member_error(map: &Text, member: &Text, fault: MemberFault) -> Result<StructOpsError, AllocError>
    ensures { IfOk result (λ error. error ≡ definitions.member_error map.now member.now fault) }
{
    Ok(StructOpsError::Member {
        map: map.clone()?,
        member: member.clone()?,
        fault,
    })
}

/// The placement of a member of a variable.
fn member_placement(
    variable: &StructOpsVariable,
    kernel: &Btf,
    ty: &BtfType<'_>,
    into: KernelStruct,
    member: &StructOpsMember,
) -> Result<Placement, StructOpsError>
    ensures { Gives is_struct_ops_memory result
        (definitions.member_placement variable.now kernel.now ty.now into member.now) }
{
    match placement_of(variable.bytes.as_slice(), kernel, ty, into, member) {
        Ok(placement) => Ok(placement),
        Err(fault) => Err(member_error(&variable.name, &member.name, fault)?),
    }
}

/// The program whose descriptor a member puts into the value.
fn program_at(
    member: &StructOpsMember,
    placement: Placement,
) -> Result<Option<StructOpsProgram>, AllocError>
    ensures { IfOk result (λ program. program ≡ program_at member.now placement) }
{
    let Placement::Program { member: index, to } = placement else {
        return Ok(None);
    };
    let Some(name) = &member.program else {
        return Ok(None);
    };
    Ok(Some(StructOpsProgram {
        program: name.clone()?,
        member: index,
        offset: to,
    }))
}

/// The programs, and the one that a member puts into the value.
fn with_program(
    mut programs: Items<StructOpsProgram>,
    member: &StructOpsMember,
    placement: Placement,
) -> Result<Items<StructOpsProgram>, AllocError>
    ensures { IfOk result (λ all.
        all ≡ programs ++ option_to_list (program_at member.now placement)) }
{
    if let Some(program) = program_at(member, placement)? {
        programs.push(program)?;
    }
    Ok(programs)
}

/// What the members of a variable put into the value of its map.
///
/// # Errors
///
/// - The fault of the first member that has no place.
/// - `OutOfMemory`: an allocation failed.
fn placed(
    alloc: Global,
    variable: &StructOpsVariable,
    kernel: &Btf,
    ty: &BtfType<'_>,
    into: KernelStruct,
    members: &[StructOpsMember],
) -> Result<PlacedMembers, StructOpsError>
    ensures placements { IfOk result (λ placed.
        placed.placements ≡ placements variable.now kernel.now ty.now into members.now) }
    ensures programs { IfOk result (λ placed.
        placed.programs ≡ programs variable.now kernel.now ty.now into members.now) }
    ensures fault { Refuses is_struct_ops_memory result
        (members_fault variable.now kernel.now ty.now into members.now) }
{
    let mut placements = Items::new(alloc);
    let mut programs = Items::new(alloc);
    for member in members {
        let placement = member_placement(variable, kernel, ty, into, member)?;
        programs = with_program(programs, member, placement)?;
        placements.push(placement)?;
    }
    Ok(PlacedMembers {
        placements,
        programs,
    })
}

/// The map of a variable, by the kernel's struct.
fn map_of(
    alloc: Global,
    variable: &StructOpsVariable,
    kernel: &Btf,
    into: KernelStruct,
) -> Result<StructOpsMap, StructOpsError>
    ensures map { IfOk result (λ map. map ≡ map_of variable.now kernel.now into) }
    ensures fault { Refuses is_struct_ops_memory result
        (definitions.map_of_fault variable.now kernel.now into) }
{
    let ty = type_behind(kernel, into.struct_id);
    let members = variable.members.as_slice();
    let placed = placed(alloc, variable, kernel, &ty, into, members)?;
    let bytes = variable.bytes.as_slice();
    let value = value_bytes(alloc, bytes, placed.placements.as_slice(), into.value_size)?;
    Ok(StructOpsMap {
        name: variable.name.clone()?,
        is_link: variable.is_link,
        struct_id: into.struct_id,
        value_type_id: into.value_type_id,
        value,
        programs: placed.programs,
    })
}

/// Returns the map of struct_ops that a variable declares, as a kernel takes it.
///
/// `kernel` has the types of the kernel, or of the module that defines the struct.
#[tactic(auto, unfolding(crate::specs::StructOpsMaps::struct_ops_map, crate::specs::StructOpsMaps::struct_ops_map_fault))]
pub fn struct_ops_map(
    alloc: Global,
    variable: &StructOpsVariable,
    kernel: &Btf,
) -> Result<StructOpsMap, StructOpsError>
    ensures map { IfOk result (λ map.
        definitions.struct_ops_map variable.now kernel.now ≡ Some map) }
    ensures fault { Refuses is_struct_ops_memory result
        (definitions.struct_ops_map_fault variable.now kernel.now) }
{
    let into = kernel_struct(alloc, kernel, &variable.name, variable.type_name.as_str())?;
    map_of(alloc, variable, kernel, into)
}
