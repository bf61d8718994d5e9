//! The places of an object's members in the value of a map of struct_ops.

ghost use Rattle.std.specs.Prelude.{◌≡◌, ◌+◌, ◌≤◌, ◌==◌, drop, is_some, length, take};
ghost use Rattle.std.specs.List.{list_all};
ghost use Rattle.ebpf_struct_ops.specs.Placements.{are_zero, data_placement, found_placement, either_placement, inside_value, is_inside, local_member, placement_of, pointer_placement, same_kind};

use crate::faults::MemberFault;
use crate::kernel::{KernelMember, KernelStruct, kernel_member};
use crate::variable::StructOpsMember;
use ebpf_btf::{Btf, BtfKind, BtfType};

/// What a member of an object's struct puts into the value of its map.
#[derive(Clone, Copy, Debug, PartialEq, Eq)]
pub enum Placement {
    /// Nothing.
    Nothing,
    /// Bytes of the object's struct.
    Bytes {
        /// Their offset in the object's struct.
        from: u32,
        /// Their offset in the value.
        to: u64,
        /// Their number.
        size: u32,
    },
    /// The descriptor of a program.
    Program {
        /// The index of the member in the kernel's struct.
        member: usize,
        /// The offset of the descriptor in the value.
        to: u64,
    },
}

/// A member of an object's struct, with what its bytes are.
#[derive(Clone, Copy, Debug, PartialEq, Eq)]
pub struct LocalMember {
    /// Its offset in bytes.
    pub offset: u32,
    /// Its size in bytes.
    pub size: u32,
    /// The kind of its type, behind modifiers.
    pub kind: BtfKind,
    /// Whether all of its bytes are zero.
    pub is_zero: bool,
    /// Whether a program stands there.
    pub has_program: bool,
}

/// Whether some bytes are zero.
fn are_zero(bytes: &[u8]) -> bool
    ensures { result ≡ are_zero bytes.now }
{
    bytes.iter().all(|b| *b == 0)
}

/// Whether `size` bytes from an offset on are zero.
fn are_zero_at(bytes: &[u8], offset: usize, size: usize) -> bool
    requires { offset + size ≤ length bytes.now }
    ensures { result ≡ are_zero (take size (drop offset bytes.now)) }
{
    are_zero(&bytes[offset..offset + size])
}

/// A member of an object's struct.
///
/// # Errors
///
/// - `UnknownSize`: its type has no size.
/// - `BitField`: it is a bit field.
/// - `OutsideStruct`: its bytes pass the end of the struct.
#[tactic(auto, unfolding(crate::specs::Placements::local_member))]
fn local_member(bytes: &[u8], member: &StructOpsMember) -> Result<LocalMember, MemberFault>
    ensures { result ≡ local_member bytes.now member.now }
{
    let Some(size) = member.size else {
        return Err(MemberFault::UnknownSize);
    };
    if member.is_bit_field {
        return Err(MemberFault::BitField);
    }
    let offset = member.offset;
    if bytes.len() < offset as usize + size as usize {
        return Err(MemberFault::OutsideStruct);
    }
    Ok(LocalMember {
        offset,
        size,
        kind: member.kind,
        is_zero: are_zero_at(bytes, offset as usize, size as usize),
        has_program: member.program.is_some(),
    })
}

/// Whether two kinds are the same.
#[tactic(auto, unfolding(ebpf_btf::specs::Types::kind_number))]
fn is_same_kind(one: BtfKind, other: BtfKind) -> bool
    ensures { result ≡ same_kind one other }
{
    one == other
}

/// The placement of a pointer that the kernel's struct has.
fn pointer_placement(
    local: LocalMember,
    base: u32,
    member: KernelMember,
) -> Result<Placement, MemberFault>
    ensures { result ≡ pointer_placement local base member }
{
    if !local.has_program {
        if local.is_zero {
            return Ok(Placement::Nothing);
        }
        return Err(MemberFault::NotAProgram);
    }
    if !member.is_function_pointer {
        return Err(MemberFault::NotAFunctionPointer);
    }
    Ok(Placement::Program {
        member: member.index,
        to: u64::from(base) + u64::from(member.offset),
    })
}

/// The placement of a member that is no pointer, and that the kernel's struct has.
fn data_placement(
    local: LocalMember,
    base: u32,
    found: KernelMember,
) -> Result<Placement, MemberFault>
    ensures { result ≡ data_placement local base found }
{
    match found.size {
        Some(size) if size == local.size => Ok(Placement::Bytes {
            from: local.offset,
            to: u64::from(base) + u64::from(found.offset),
            size,
        }),
        _ => Err(MemberFault::DifferentSizes),
    }
}

/// The placement of a member that the kernel's struct has.
#[tactic(auto, unfolding(crate::specs::Placements::found_placement))]
fn found_placement(
    local: LocalMember,
    base: u32,
    found: KernelMember,
) -> Result<Placement, MemberFault>
    ensures { result ≡ found_placement local base found }
{
    if found.is_bit_field {
        return Err(MemberFault::BitField);
    }
    if !is_same_kind(local.kind, found.kind) {
        return Err(MemberFault::DifferentKinds);
    }
    if is_same_kind(local.kind, BtfKind::Ptr) {
        return pointer_placement(local, base, found);
    }
    data_placement(local, base, found)
}

/// The placement of a member, where the kernel's struct has it or lacks it.
fn either_placement(
    local: LocalMember,
    base: u32,
    found: Option<KernelMember>,
) -> Result<Placement, MemberFault>
    ensures { result ≡ either_placement local base found }
{
    match found {
        Some(member) => found_placement(local, base, member),
        None if local.is_zero && !local.has_program => Ok(Placement::Nothing),
        None => Err(MemberFault::Missing),
    }
}

/// Whether a placement is inside a value of a size.
fn is_inside(placement: Placement, size: u32) -> bool
    ensures { result ≡ is_inside size placement }
{
    match placement {
        Placement::Nothing => true,
        Placement::Bytes {
            to,
            size: count,
            ..
        } => u128::from(to) + u128::from(count) <= u128::from(size),
        Placement::Program { to, .. } => u128::from(to) + 8 <= u128::from(size),
    }
}

/// A placement that is inside a value of a size.
fn inside_value(placement: Placement, size: u32) -> Result<Placement, MemberFault>
    ensures { result ≡ inside_value size placement }
{
    if is_inside(placement, size) {
        return Ok(placement);
    }
    Err(MemberFault::OutsideValue)
}

/// The placement of a member of an object's struct by the types of the kernel.
#[tactic(auto, unfolding(crate::specs::Placements::placement_of))]
pub fn placement_of(
    bytes: &[u8],
    kernel: &Btf,
    ty: &BtfType<'_>,
    into: KernelStruct,
    member: &StructOpsMember,
) -> Result<Placement, MemberFault>
    ensures { result ≡ placement_of bytes.now kernel.now ty.now into member.now }
{
    let local = local_member(bytes, member)?;
    let found = kernel_member(kernel, ty, member.name.as_str());
    let placement = either_placement(local, into.data_offset, found)?;
    inside_value(placement, into.value_size)
}
