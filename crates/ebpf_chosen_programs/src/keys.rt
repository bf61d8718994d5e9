//! Functions by number and by key.

ghost use Rattle.std.specs.List.{filter_map};
ghost use Rattle.std.specs.List.Sorted.{IsStrictlySortedBy};
ghost use Rattle.std.specs.Prelude.{◌≡◌, IfOk, OnOk};
ghost use Rattle.std.specs.Map.{values_of};
ghost use Rattle.std.specs.FinMap as map;
ghost use Rattle.ebpf_base.specs.Maps.{key_cmp};
ghost use Rattle.ebpf_chosen_programs.specs.Reached.{program_key};
ghost use Rattle.ebpf_chosen_programs.specs.PrivateContracts.{found_keys, is_found, key_set, program_numbers};
ghost use Rattle.ebpf_reloc.specs.PrivateContracts.{number_of_key};

use ebpf_base::{ByKey, ByName};
use ebpf_model::Program;
use std::alloc::{AllocError, Global};

/// The number of the function at a key.
fn number_of_key(keys: &[(usize, u64)], key: (usize, u64)) -> Option<usize>
    requires { IsStrictlySortedBy key_cmp keys.now }
    ensures { result ≡ number_of_key keys.now key }
{
    match keys.binary_search(&key) {
        Ok(number) => Some(number),
        Err(_) => None,
    }
}

/// The numbers of the programs' functions, in byte order of the programs' names.
pub fn program_numbers(
    alloc: Global,
    keys: &[(usize, u64)],
    programs: &ByName<Program>,
) -> Result<Vec<usize>, AllocError>
    requires { IsStrictlySortedBy key_cmp keys.now }
    ensures { IfOk result (λ numbers. numbers.items ≡ program_numbers keys.now programs.now) }
{
    let mut numbers = Vec::with_capacity(alloc, programs.len())?;
    for program in programs.values() {
        let Some(number) = number_of_key(keys, program.function_key()) else {
            continue;
        };
        numbers.push(number)?;
    }
    Ok(numbers)
}

/// Whether the function with a number is found.
fn is_found(flags: &[bool], number: usize) -> bool
    ensures { result ≡ is_found flags.now number }
{
    match flags.get(number) {
        Some(flag) => *flag,
        None => false,
    }
}

/// The keys of the functions that are found.
#[tactic(auto, using(crate::proofs::Steps::key_more, crate::proofs::Steps::key_passed, crate::proofs::Steps::key_none))]
pub fn found_keys(
    alloc: Global,
    keys: &[(usize, u64)],
    flags: &[bool],
) -> Result<ByKey<()>, AllocError>
    ensures { IfOk result (λ set. set ≡ key_set (found_keys keys.now flags.now)) }
{
    let mut set = ByKey::new(alloc);
    for number in 0..keys.len() {
        if !is_found(flags, number) {
            continue;
        }
        set.insert(keys[number], ())?;
    }
    Ok(set)
}
