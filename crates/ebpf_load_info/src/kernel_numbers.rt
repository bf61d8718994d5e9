//! The numbers of helpers and of map types that a kernel knows.

ghost use Rattle.std.specs.Prelude.{◌≡◌, find};
ghost use Rattle.std.specs.List.{list_any};
ghost use Rattle.std.specs.Option.{option_copied};
ghost use Rattle.ebpf_base.specs.Faults.{or_else};
ghost use Rattle.ebpf_load_info.specs.KernelNumbers.{enumeration, enumerators_of, has_number, helper_name, helpers, knows_helper, knows_map_type, map_type_numbering, name_by, named_enumerators};
ghost use Rattle.ebpf_load_info.specs.PrivateContracts.{is_enum_at};

use crate::texts::{as_text, is_named, without_prefix};
use ebpf_btf::strings::is_text_at;
use ebpf_btf::{Btf, BtfEnum, BtfKind, BtfType, Rows};
use std::marker::Model;

/// The enumerators of the first enumerations with the names.
#[derive(Drop)]
struct Enumerations<'a> {
    helpers: Option<Rows<'a, BtfEnum>>,
    map_types: Option<Rows<'a, BtfEnum>>,
}

/// The enumerators of an ENUM; empty for other types.
#[tactic(auto, unfolding(crate::specs::KernelNumbers::enumerators_of))]
fn enumerators_of<'a>(ty: &BtfType<'a>) -> Rows<'a, BtfEnum>
    ensures { result ≡ enumerators_of ty.now }
{
    match ty {
        BtfType::Enum { variants, .. } => variants.copy(),
        _ => Rows::of(&[]),
    }
}

/// The enumerators that were found, or else those of one more type, where that is the enumeration of this name.
fn found_or<'a>(
    found: Option<Rows<'a, BtfEnum>>,
    types: &Btf,
    name: &str,
    ty: &BtfType<'a>,
) -> Option<Rows<'a, BtfEnum>>
    ensures { result ≡ or_else found.entry (named_enumerators types.now name.now ty.now) }
{
    if found.is_some() {
        return found;
    }
    if is_named(types, name, BtfKind::Enum, ty) {
        return Some(enumerators_of(ty));
    }
    None
}

/// Whether the type with an id is an ENUM, by its head.
#[tactic(auto, unfolding(ebpf_btf::specs::Types::kind_number))]
fn is_enum(types: &Btf, id: usize) -> bool
    ensures { result ≡ is_enum_at types.now id }
{
    match types.head(id) {
        Some(head) => head.kind == BtfKind::Enum,
        None => false,
    }
}

/// Both enumerations, by one pass over the types, up to the second one.
fn enumerations_in(types: &Btf) -> Enumerations<'_>
    ensures helpers { result.helpers ≡ enumeration types.now helpers.enumeration }
    ensures map_types { result.map_types ≡ enumeration types.now map_type_numbering.enumeration }
{
    let mut helpers = None;
    let mut map_types = None;
    for id in 0..types.len() {
        if !is_enum(types, id) {
            continue;
        }
        let ty = types.at(id);
        helpers = found_or(helpers, types, "bpf_func_id", &ty);
        map_types = found_or(map_types, types, "bpf_map_type", &ty);
        if helpers.is_some() && map_types.is_some() {
            return Enumerations { helpers, map_types };
        }
    }
    Enumerations { helpers, map_types }
}

/// Whether an enumerator has a number, and not the name of the one at the end.
fn has_number(types: &Btf, end: &str, number: u32, enumerator: &BtfEnum) -> bool
    ensures { result ≡ has_number types.now end.now number enumerator.now }
{
    enumerator.value == number && !is_text_at(types.strings(), enumerator.name_offset, end)
}

/// The first of some enumerators that has a number.
fn first_with(
    types: &Btf,
    end: &str,
    number: u32,
    enumerators: &Rows<'_, BtfEnum>,
) -> Option<BtfEnum>
    ensures { result ≡ find (has_number types.now end.now number) enumerators.now }
{
    for k in 0..enumerators.len() {
        let enumerator = enumerators.at(k);
        if has_number(types, end, number, &enumerator) {
            return Some(enumerator);
        }
    }
    None
}

/// Whether one of some enumerators has a number.
#[tactic(auto, using(crate::proofs::FirstFound::any_found))]
fn have_number(types: &Btf, end: &str, number: u32, enumerators: &Rows<'_, BtfEnum>) -> bool
    ensures { result ≡ list_any (has_number types.now end.now number) enumerators.now }
{
    first_with(types, end, number, enumerators).is_some()
}

/// The name that an enumerator gives a helper.
fn name_by<'a>(types: &'a Btf, enumerator: &BtfEnum) -> Option<&'a str>
    ensures { option_copied result ≡ name_by types.now enumerator.now }
{
    let bytes = types.bytes_at(enumerator.name_offset).ok()?;
    without_prefix(as_text(bytes)?, "BPF_FUNC_")
}

/// The numbers of helpers and of map types that a kernel knows, by its types.
///
/// Contracts see the types.
#[derive(Drop)]
pub struct KernelNumbers<'a> {
    types: &'a Btf,
    found: Enumerations<'a>,
}

impl<'a> Model for KernelNumbers<'a> {
    ghost use Rattle.std.specs.Prelude.{◌≡◌};
    ghost use Rattle.ebpf_btf.specs.TypeInfo.{TypeInfo};
    ghost use Rattle.ebpf_load_info.specs.KernelNumbers.{enumeration, helpers, map_type_numbering};

    ghost Value = { TypeInfo };

    ghost view = { λ k. k.types.now };

    ghost invariant = { λ k.
        (k.found.helpers ≡ enumeration k.types.now helpers.enumeration)
        × (k.found.map_types ≡ enumeration k.types.now map_type_numbering.enumeration) };
}

impl<'a> KernelNumbers<'a> {
    /// Returns the numbers that the kernel with these types knows.
    ///
    /// The types are read once. No memory is allocated.
    pub fn of(types: &'a Btf) -> KernelNumbers<'a>
        ensures { result ≡ types.now }
    {
        KernelNumbers {
            types,
            found: enumerations_in(types),
        }
    }

    /// Whether the kernel knows the helper with a number.
    ///
    /// The kernel knows it where an enumerator of `enum bpf_func_id` other than `__BPF_FUNC_MAX_ID` has the number. So
    /// 0 (`BPF_FUNC_unspec`) is known. The result is `None` where the kernel's types have no such ENUM.
    #[tactic(auto, unfolding(crate::specs::KernelNumbers::knows_helper))]
    pub fn knows_helper(&self, number: u32) -> Option<bool>
        ensures { result ≡ knows_helper self.now number }
    {
        match &self.found.helpers {
            Some(all) => Some(have_number(self.types, "__BPF_FUNC_MAX_ID", number, all)),
            None => None,
        }
    }

    /// Whether the kernel knows the map type with a number.
    ///
    /// The kernel knows it where an enumerator of `enum bpf_map_type` other than `__MAX_BPF_MAP_TYPE` has the number.
    /// So 0 (`BPF_MAP_TYPE_UNSPEC`) is known. The result is `None` where the kernel's types have no such ENUM.
    #[tactic(auto, unfolding(crate::specs::KernelNumbers::knows_map_type))]
    pub fn knows_map_type(&self, number: u32) -> Option<bool>
        ensures { result ≡ knows_map_type self.now number }
    {
        match &self.found.map_types {
            Some(all) => Some(have_number(self.types, "__MAX_BPF_MAP_TYPE", number, all)),
            None => None,
        }
    }

    /// Returns the name of the helper with a number, without the prefix `BPF_FUNC_`.
    ///
    /// The name is that of the first enumerator of `enum bpf_func_id` with the number, `__BPF_FUNC_MAX_ID` aside. The
    /// result is `None` where no enumerator has the number, or its name is no text or lacks the prefix. No memory is
    /// allocated.
    #[tactic(auto, unfolding(crate::specs::KernelNumbers::helper_name))]
    pub fn helper_name(&self, number: u32) -> Option<&'a str>
        ensures { option_copied result ≡ helper_name self.now number }
    {
        let all = self.found.helpers.as_ref()?;
        let enumerator = first_with(self.types, "__BPF_FUNC_MAX_ID", number, all)?;
        name_by(self.types, &enumerator)
    }
}
