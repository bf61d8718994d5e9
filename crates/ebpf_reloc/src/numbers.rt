//! Functions by numbers, in the order of their keys.

ghost use Rattle.std.specs.Prelude.{◌≡◌, map, IfOk, IfSome, Some};
ghost use Rattle.std.proofs.Props.{props};
ghost use Rattle.std.specs.List.Sorted.{IsStrictlySortedBy};
ghost use Rattle.ebpf_base.specs.Maps.{key_cmp};
ghost use Rattle.ebpf_reloc.specs.Numbers.{function_keys, function_list};
ghost use Rattle.ebpf_reloc.specs.PrivateContracts.{number_of_key};

use ebpf_base::ByKey;
use ebpf_model::Function;
use std::alloc::{AllocError, Global};
use std::cell::Cell;

/// Keys in their order, and the number that was found last: those beside it are tried first, since a reference mostly
/// leads to the function of the reference before it, or to one beside that.
#[derive(Drop)]
pub struct KeyNumbers<'k> {
    /// The keys.
    pub keys: &'k [(usize, u64)],
    last: Cell<usize>,
    ghost rising: { IsStrictlySortedBy key_cmp keys.now } by { Prim.hlevel props },
}

/// The keys of functions in their order: the number of a function is the place of its key.
pub fn function_keys(
    alloc: Global,
    functions: &ByKey<Function>,
) -> Result<Vec<(usize, u64)>, AllocError>
    ensures { IfOk result (λ keys. keys.items ≡ function_keys functions.now) }
{
    let mut keys = Vec::with_capacity(alloc, functions.len())?;
    for (key, _) in functions.iter() {
        keys.push(*key)?;
    }
    Ok(keys)
}

/// The functions in the order of their keys.
pub fn function_list<'a>(
    alloc: Global,
    functions: &'a ByKey<Function>,
) -> Result<Vec<&'a Function>, AllocError>
    ensures { IfOk result (λ list. map (λ f. f.now) list.items ≡ function_list functions.now) }
{
    let mut list = Vec::with_capacity(alloc, functions.len())?;
    for (_, function) in functions.iter() {
        list.push(function)?;
    }
    Ok(list)
}

/// The number of a key.
pub fn number_of_key(keys: &[(usize, u64)], section: usize, address: u64) -> Option<usize>
    requires { IsStrictlySortedBy key_cmp keys.now }
    ensures { result ≡ number_of_key keys.now (section, address) }
{
    match keys.binary_search(&(section, address)) {
        Ok(number) => Some(number),
        Err(_) => None,
    }
}

/// This number, where it is that of a key.
fn number_if(keys: &[(usize, u64)], number: usize, section: usize, address: u64) -> Option<usize>
    requires { IsStrictlySortedBy key_cmp keys.now }
    ensures { IfSome result (λ found. Some found ≡ number_of_key keys.now (section, address)) }
{
    match keys.get(number) {
        Some(key) if key.0 == section && key.1 == address => Some(number),
        _ => None,
    }
}

/// The number of a key, where it is this one, the one before it, or one of the two behind it.
fn number_beside(
    keys: &[(usize, u64)],
    number: usize,
    section: usize,
    address: u64,
) -> Option<usize>
    requires { IsStrictlySortedBy key_cmp keys.now }
    ensures { IfSome result (λ found. Some found ≡ number_of_key keys.now (section, address)) }
{
    let first = number.saturating_sub(1);
    for beside in first..first.saturating_add(4) {
        if let Some(found) = number_if(keys, beside, section, address) {
            return Some(found);
        }
    }
    None
}

impl<'k> KeyNumbers<'k> {
    /// The numbers of keys that rise.
    pub fn new(keys: &'k [(usize, u64)]) -> KeyNumbers<'k>
        requires { IsStrictlySortedBy key_cmp keys.now }
        ensures { result.keys.now ≡ keys.now }
    {
        KeyNumbers {
            keys,
            last: Cell::new(0),
        }
    }

    /// The number of a key.
    pub fn number_of(&self, section: usize, address: u64) -> Option<usize>
        ensures { result ≡ number_of_key self.now.keys.now (section, address) }
    {
        let number = match number_beside(self.keys, self.last.get(), section, address) {
            Some(found) => Some(found),
            None => number_of_key(self.keys, section, address),
        };
        if let Some(found) = number {
            self.last.set(found);
        }
        number
    }
}
