//! The given values of variables, by name.

ghost use denote.Ref.{Bor};
ghost use Rattle.std.specs.Prelude.{◌≡◌, ℕ, List, IfOk, OnOk, option_map};
ghost use Rattle.std.specs.FinMap as finite;
ghost use Rattle.std.specs.List.{IsDistinct};
ghost use Rattle.std.specs.Map.{keys_of};
ghost use Rattle.std.specs.Str.{bytes_eq};
ghost use Rattle.ebpf_base.specs.Maps.{lent_bytes};
ghost use Rattle.ebpf_object.specs.Patches.{global_of, globals_of};
ghost use Rattle.ebpf_object.specs.Variables.{one_value};

use std::alloc::{AllocError, Global};
use std::collections::HashMap;

/// The value of a variable, and whether the object has to have it.
#[tactic(auto, using(crate::proofs::Values::get_given))]
pub fn value_at<'a>(
    globals: &HashMap<&str, (&'a [u8], bool)>,
    name: &str,
) -> Option<(&'a [u8], bool)>
    ensures { option_map global_of result ≡ finite.get (globals_of globals.now.entries) name.now }
{
    match globals.get(name) {
        Some((bytes, must_exist)) => Some((*bytes, *must_exist)),
        None => None,
    }
}

/// The names in the order of the map.
fn given_names<'a>(
    alloc: Global,
    globals: &HashMap<&'a str, (&[u8], bool)>,
) -> Result<Vec<&'a str>, AllocError>
    ensures names { IfOk result (λ names.
        lent_bytes names.items ≡ lent_bytes (keys_of globals.now.entries)) }
    ensures distinct { IsDistinct (λ (a b : Bor (List ℕ)). bytes_eq a.now b.now)
        (keys_of globals.now.entries) }
{
    let mut names = Vec::with_capacity(alloc, globals.len())?;
    for name in globals.keys() {
        names.push(*name)?;
    }
    Ok(names)
}

/// The names in the order of their bytes.
pub fn names_of<'a>(
    alloc: Global,
    globals: &HashMap<&'a str, (&[u8], bool)>,
) -> Result<Vec<&'a str>, AllocError>
    ensures { IfOk result (λ names.
        lent_bytes names.items ≡ keys_of (finite.entries (globals_of globals.now.entries))) }
{
    let mut names = given_names(alloc, globals)?;
    names.sort_unstable();
    Ok(names)
}

/// Puts the value of a variable in the place of an earlier one.
fn put_over<'a>(
    globals: &mut HashMap<&'a str, (&'a [u8], bool)>,
    name: &'a str,
    value: (&'a [u8], bool),
) -> Result<(), AllocError>
    ensures { OnOk result
        (globals_of globals.new.entries
        ≡ finite.insert (globals_of globals.old.entries) name.now (global_of value.entry)) }
{
    globals.insert(name, value)?;
    Ok(())
}

/// The value of one variable, as `patch_map_data` takes them.
pub fn one_value<'a>(
    alloc: Global,
    name: &'a str,
    value: &'a [u8],
) -> Result<HashMap<&'a str, (&'a [u8], bool)>, AllocError>
    ensures { IfOk result (λ globals. globals_of globals.entries ≡ one_value name.now value.now) }
{
    let mut globals = HashMap::new(alloc);
    put_over(&mut globals, name, (value, true))?;
    Ok(globals)
}
