//! The kernel's types for a map of struct_ops.

ghost use Rattle.std.specs.Prelude.{◌≡◌, ◌++◌, IfOk, position, string_bytes};
ghost use Rattle.std.specs.Option.{ok_or};
ghost use Rattle.ebpf_base.specs.Faults.{Gives};
ghost use Rattle.ebpf_btf.specs.Strings.{id_of_name};
ghost use Rattle.ebpf_btf.specs.declared.kind.BtfKind.TheVariants as kinds;
ghost use Rattle.ebpf_struct_ops.specs.KernelStructs.{data_offset, is_struct_ops_memory, kernel_facts, kernel_member, kernel_name, kernel_struct, kernel_type, member_index, value_mark, value_size, value_struct};
ghost use Rattle.ebpf_struct_ops.specs.declared.error.StructOpsError.TheVariants.{NoKernelStruct};

use crate::error::StructOpsError;
use crate::type_facts::{is_function_pointer, members_in, type_behind};
use ebpf_base::Text;
use ebpf_btf::strings::is_text_at;
use ebpf_btf::{Btf, BtfError, BtfKind, BtfMember, BtfType, Rows, essential_name};
use std::alloc::{AllocError, Global};

/// The types of the kernel for a map of struct_ops.
#[derive(Clone, Copy, Debug, PartialEq, Eq)]
pub struct KernelStruct {
    /// The id of the kernel's struct.
    pub struct_id: u32,
    /// The id of the STRUCT that is the map's value.
    pub value_type_id: u32,
    /// The size of the map's value in bytes.
    pub value_size: u32,
    /// The offset of the kernel's struct in the value, in bytes.
    pub data_offset: u32,
}

/// A member of the kernel's struct.
#[derive(Clone, Copy, Debug, PartialEq, Eq)]
pub struct KernelMember {
    /// Its index in the struct.
    pub index: usize,
    /// Its offset in the struct, in bytes.
    pub offset: u32,
    /// Its size in bytes, where its type has one.
    pub size: Option<u32>,
    /// The kind of its type, behind modifiers.
    pub kind: BtfKind,
    /// Whether it is a bit field.
    pub is_bit_field: bool,
    /// Whether it is a pointer to a function.
    pub is_function_pointer: bool,
}

/// The name of the kernel's struct for a struct of the object.
fn kernel_name(alloc: Global, type_name: &str) -> Result<String, AllocError>
    ensures { IfOk result (λ name. string_bytes name ≡ kernel_name type_name.now) }
{
    String::from_utf8_lossy(alloc, essential_name(type_name.as_bytes()))
}

/// The name of the STRUCT that is the value of a map, for a struct of the kernel.
fn value_name(alloc: Global, name: &str) -> Result<String, AllocError>
    ensures { IfOk result (λ full. string_bytes full ≡ value_mark ++ name.now) }
{
    let mut full = String::from_str(alloc, "bpf_struct_ops_")?;
    full.push_str(name)?;
    Ok(full)
}

/// The id of a STRUCT of the kernel, by its name.
fn struct_id(kernel: &Btf, map: &Text, name: String) -> Result<u32, StructOpsError>
    ensures { Gives is_struct_ops_memory result
        (ok_or (id_of_name kernel.now (string_bytes name) kinds.Struct)
        (NoKernelStruct map.now (string_bytes name))) }
{
    match kernel.id_by_type_name_kind(name.as_str(), BtfKind::Struct) {
        Ok(id) => Ok(id),
        Err(BtfError::OutOfMemory) => Err(StructOpsError::OutOfMemory),
        Err(_) => Err(StructOpsError::NoKernelStruct {
            map: map.clone()?,
            name: Text::from_string(name),
        }),
    }
}

/// The id of the STRUCT that is the value of a map, for a struct of the object.
fn value_struct(
    alloc: Global,
    kernel: &Btf,
    map: &Text,
    type_name: &str,
) -> Result<u32, StructOpsError>
    ensures { Gives is_struct_ops_memory result (value_struct kernel.now map.now type_name.now) }
{
    let name = kernel_name(alloc, type_name)?;
    let full = value_name(alloc, name.as_str())?;
    struct_id(kernel, map, full)
}

/// The id of the kernel's struct, for a struct of the object.
fn kernel_type(
    alloc: Global,
    kernel: &Btf,
    map: &Text,
    type_name: &str,
) -> Result<u32, StructOpsError>
    ensures { Gives is_struct_ops_memory result (kernel_type kernel.now map.now type_name.now) }
{
    let name = kernel_name(alloc, type_name)?;
    struct_id(kernel, map, name)
}

/// The offset in bytes of the first member with a type.
fn data_offset(ty: &BtfType<'_>, type_id: u32) -> Option<u32>
    ensures { result ≡ data_offset ty.now type_id }
{
    for member in members_in(ty).iter() {
        if member.btf_type == type_id {
            return Some(ty.member_bit_offset(&member) / 8);
        }
    }
    None
}

/// The size of a type in bytes; 0 where it states none.
pub fn value_size(ty: &BtfType<'_>) -> u32
    ensures { result ≡ value_size ty.now }
{
    ty.size().unwrap_or(0)
}

/// The types of the kernel for the map of a struct of the object.
#[tactic(auto, unfolding(crate::specs::KernelStructs::kernel_struct))]
pub fn kernel_struct(
    alloc: Global,
    kernel: &Btf,
    map: &Text,
    type_name: &str,
) -> Result<KernelStruct, StructOpsError>
    ensures { Gives is_struct_ops_memory result (kernel_struct kernel.now map.now type_name.now) }
{
    let value_type_id = value_struct(alloc, kernel, map, type_name)?;
    let struct_id = kernel_type(alloc, kernel, map, type_name)?;
    let ty = type_behind(kernel, value_type_id);
    let Some(data_offset) = data_offset(&ty, struct_id) else {
        return Err(StructOpsError::NoDataMember { map: map.clone()? });
    };
    Ok(KernelStruct {
        struct_id,
        value_type_id,
        value_size: value_size(&ty),
        data_offset,
    })
}

/// The index of the first member with a name.
fn member_index(kernel: &Btf, members: &Rows<'_, BtfMember>, name: &str) -> Option<usize>
    ensures { result ≡ member_index kernel.now members.now name.now }
{
    for index in 0..members.len() {
        let member = members.at(index);
        if is_text_at(kernel.strings(), member.name_offset, name) {
            return Some(index);
        }
    }
    None
}

/// What is asked of a member of the kernel's struct.
fn kernel_facts(kernel: &Btf, ty: &BtfType<'_>, index: usize, member: &BtfMember) -> KernelMember
    ensures { result ≡ kernel_facts kernel.now ty.now index member.now }
{
    KernelMember {
        index,
        offset: ty.member_bit_offset(member) / 8,
        size: kernel.type_size(member.btf_type).ok(),
        kind: type_behind(kernel, member.btf_type).kind(),
        is_bit_field: ty.member_bit_field_size(member) != 0,
        is_function_pointer: is_function_pointer(kernel, member.btf_type),
    }
}

/// The first member of the kernel's struct with a name.
#[tactic(auto, unfolding(crate::specs::KernelStructs::kernel_member))]
pub fn kernel_member(kernel: &Btf, ty: &BtfType<'_>, name: &str) -> Option<KernelMember>
    ensures { result ≡ kernel_member kernel.now ty.now name.now }
{
    let members = members_in(ty);
    let index = member_index(kernel, &members, name)?;
    let member = members.get(index)?;
    Some(kernel_facts(kernel, ty, index, &member))
}
