//! Whether the kernel's symbols are read for an object's externs.

ghost use Rattle.std.specs.List.{list_any};
ghost use Rattle.std.specs.List.Sorted.{IsStrictlySortedBy};
ghost use Rattle.std.specs.Map.{keys_of, values_of};
ghost use Rattle.std.specs.Prelude.{◌≡◌};
ghost use Rattle.std.specs.String.{string_cmp};
ghost use Rattle.capi_rows.specs.WantedSymbols.{wants_symbols};
ghost use Rattle.ebpf_ksyms.specs.Externs.{is_typeless};
ghost use Rattle.ebpf_object.specs.TypedExterns.{has_extern};

use ebpf_base::ByName;
use ebpf_model::ExternDesc;
use ebpf_object::Object;
use std::collections::BTreeMap;

/// Whether some extern without a type is not found yet. The clauses see the externs in the order of their names.
fn typeless_among(externs: &BTreeMap<String, ExternDesc>) -> bool
    ensures found { result ≡ list_any is_typeless (values_of externs.now.entries) }
    ensures rising { IsStrictlySortedBy string_cmp (keys_of externs.now.entries) }
{
    externs.values().any(|x| !x.is_resolved && !x.is_typed)
}

/// Whether some extern without a type is not found yet.
fn any_typeless(externs: &ByName<ExternDesc>) -> bool
    ensures { result ≡ has_extern is_typeless externs.now }
{
    typeless_among(externs.as_map())
}

/// Whether the kernel's symbols are read for an object: it has types, and an extern without a type that is not found yet.
pub fn wants_symbols(object: &Object) -> bool
    ensures { result ≡ wants_symbols object.now }
{
    object.btf.is_some() && any_typeless(&object.externs)
}
