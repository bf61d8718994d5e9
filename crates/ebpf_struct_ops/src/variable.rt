//! The variables that declare maps of struct_ops.

use ebpf_base::{Items, Text};
use ebpf_btf::BtfKind;

/// A member of the struct that a variable of struct_ops is.
#[derive(Debug, Drop)]
pub struct StructOpsMember {
    /// Its name. Empty where it has none.
    pub name: Text,
    /// Its offset in the struct, in bytes.
    pub offset: u32,
    /// Its size in bytes, where its type has one.
    pub size: Option<u32>,
    /// The kind of its type, behind modifiers.
    pub kind: BtfKind,
    /// Whether it is a bit field.
    pub is_bit_field: bool,
    /// The name of the program that stands there.
    pub program: Option<Text>,
}

/// A variable that declares a map of struct_ops.
#[derive(Debug, Drop)]
pub struct StructOpsVariable {
    /// Its name, which is the name of the map.
    pub name: Text,
    /// The index of its section.
    pub section_index: usize,
    /// Its offset in the section, in bytes.
    pub offset: u32,
    /// Whether a loader creates the map without being asked. The name of the section has no `?` then.
    pub is_created: bool,
    /// Whether a link attaches the map (`BPF_F_LINK`).
    pub is_link: bool,
    /// The id of its STRUCT in the object's types.
    pub type_id: u32,
    /// The name of its STRUCT.
    pub type_name: Text,
    /// The bytes of the struct. A member with a program is as the file has it, which is zero in files of compilers.
    pub bytes: Items<u8>,
    /// The members of the struct, in order.
    pub members: Items<StructOpsMember>,
}
