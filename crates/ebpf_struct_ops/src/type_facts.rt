//! What the maps of struct_ops ask of a type.

ghost use Rattle.std.specs.Prelude.{◌≡◌};
ghost use Rattle.ebpf_btf.specs.Types.{is_kind};
ghost use Rattle.ebpf_struct_ops.specs.TypeFacts.{found_behind, is_function_pointer, members_in, pointed_to, type_behind};

use ebpf_btf::{Btf, BtfKind, BtfMember, BtfType, Rows};

/// The type behind modifiers, where there is one.
fn found_behind(types: &Btf, type_id: u32) -> Option<BtfType<'_>>
    ensures { result ≡ found_behind types.now type_id }
{
    let Ok(found) = types.resolve_type(type_id) else {
        return None;
    };
    types.get(found as usize)
}

/// The type behind modifiers; `Unknown` where there is none.
pub fn type_behind(types: &Btf, type_id: u32) -> BtfType<'_>
    ensures { result ≡ type_behind types.now type_id }
{
    match found_behind(types, type_id) {
        Some(ty) => ty,
        None => BtfType::Unknown,
    }
}

/// The id of the type that a PTR points to.
#[tactic(auto, unfolding(crate::specs::TypeFacts::pointed_to))]
fn pointed_to(ty: &BtfType<'_>) -> Option<u32>
    ensures { result ≡ pointed_to ty.now }
{
    match ty {
        BtfType::Ptr { btf_type, .. } => Some(*btf_type),
        _ => None,
    }
}

/// Whether a type is of a kind.
#[tactic(auto, unfolding(ebpf_btf::specs::Types::kind_number))]
pub fn is_kind(kind: BtfKind, ty: &BtfType<'_>) -> bool
    ensures { result ≡ is_kind kind ty.now }
{
    ty.kind() == kind
}

/// Whether a type is a pointer to a function, behind modifiers.
pub fn is_function_pointer(types: &Btf, type_id: u32) -> bool
    ensures { result ≡ is_function_pointer types.now type_id }
{
    match pointed_to(&type_behind(types, type_id)) {
        Some(pointed) => is_kind(BtfKind::FuncProto, &type_behind(types, pointed)),
        None => false,
    }
}

/// The members of a STRUCT or UNION; none for other types.
pub fn members_in<'a>(ty: &BtfType<'a>) -> Rows<'a, BtfMember>
    ensures { result ≡ members_in ty.now }
{
    match ty.members() {
        Some(members) => members,
        None => Rows::of(&[]),
    }
}
