//! The labels of types, as libbpf's log has them.

ghost use Rattle.std.specs.Prelude.{◌≡◌, ◌++◌, OnOk, codes, string_bytes};
ghost use Rattle.std.specs.Fmt.{decimal};
ghost use Rattle.cli_common.specs.TypeLabels.{kind_word, label_of, name_or_anon, named, type_label};
ghost use Rattle.ebpf_btf.specs.Strings.{type_name};

use ebpf_btf::{Btf, BtfError, BtfKind, BtfType};
use std::alloc::AllocError;

/// Returns the word for a kind of types.
#[tactic(auto, unfolding(crate::specs::TypeLabels::kind_word))]
fn kind_word(kind: BtfKind) -> &'static str
    ensures { result.now ≡ kind_word kind }
{
    match kind {
        BtfKind::Unknown => "void",
        BtfKind::Int => "int",
        BtfKind::Ptr => "ptr",
        BtfKind::Array => "array",
        BtfKind::Struct => "struct",
        BtfKind::Union => "union",
        BtfKind::Enum => "enum",
        BtfKind::Fwd => "fwd",
        BtfKind::Typedef => "typedef",
        BtfKind::Volatile => "volatile",
        BtfKind::Const => "const",
        BtfKind::Restrict => "restrict",
        BtfKind::Func => "func",
        BtfKind::FuncProto => "func_proto",
        BtfKind::Var => "var",
        BtfKind::DataSec => "datasec",
        BtfKind::Float => "float",
        BtfKind::DeclTag => "decl_tag",
        BtfKind::TypeTag => "type_tag",
        BtfKind::Enum64 => "enum64",
    }
}

/// Adds a name; `<anon>` for the empty one.
fn add_named(label: &mut String, name: &str) -> Result<(), AllocError>
    ensures { OnOk result (string_bytes label.new ≡ string_bytes label.old ++ named name.now) }
{
    if name.is_empty() {
        return label.push_str("<anon>");
    }
    label.push_str(name)
}

/// Adds the name of a type; `<anon>` for the empty one, and for one that can't be read.
fn add_name(label: &mut String, local: &Btf, ty: &BtfType<'_>) -> Result<(), AllocError>
    ensures { OnOk result
        (string_bytes label.new
        ≡ string_bytes label.old ++ name_or_anon (type_name local.now ty.now)) }
{
    match local.type_name(ty) {
        Ok(name) => add_named(label, name.as_str()),
        Err(BtfError::OutOfMemory) => Err(AllocError),
        Err(_) => label.push_str("<anon>"),
    }
}

/// Adds the kind and the name of a type.
fn add_label(label: &mut String, local: &Btf, ty: &BtfType<'_>) -> Result<(), AllocError>
    ensures { OnOk result
        (string_bytes label.new ≡ string_bytes label.old ++ label_of local.now ty.now) }
{
    label.push_str(kind_word(ty.kind()))?;
    label.push_str(" ")?;
    add_name(label, local, ty)
}

/// Adds `type ID`.
fn add_id(label: &mut String, type_id: u32) -> Result<(), AllocError>
    ensures { OnOk result
        (string_bytes label.new ≡ string_bytes label.old ++ codes "type " ++ decimal type_id) }
{
    let alloc = *label.allocator();
    let id = format!(in alloc; "type {type_id}")?;
    label.push_str(id.as_str())
}

/// Adds the label of a local type: its kind and its name; `type ID` where no type has the id.
#[tactic(auto, unfolding(crate::specs::TypeLabels::type_label))]
pub fn add_type_label(label: &mut String, local: &Btf, type_id: u32) -> Result<(), AllocError>
    ensures { OnOk result
        (string_bytes label.new ≡ string_bytes label.old ++ type_label local.now type_id) }
{
    match local.get(type_id as usize) {
        Some(ty) => add_label(label, local, &ty),
        None => add_id(label, type_id),
    }
}
