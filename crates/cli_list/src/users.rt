//! Which programs call which helper functions, and which use which maps.

ghost use Rattle.std.specs.Prelude.{◌≡◌, IfOk, OnOk, []};
ghost use Rattle.cli_list.specs.PrivateContracts.{helpers_at, helpers_of, users_from, with_user_beside, with_users, names_at, names_of, use_names, ends_in, noted};
ghost use Rattle.cli_list.specs.Listings.{AreUsers, calls, uses_map};
ghost use Rattle.std.specs.FinMap as finite;

use crate::layout::ListedLayout;
use cli_common::helper_calls::helpers_by_function;
use cli_common::map_uses::MapUse;
use ebpf_base::{ByKey, ByName, ByNumber, Items};
use ebpf_object::Object;
use std::alloc::{AllocError, Global};
use std::collections::BTreeSet;

/// Notes that the program of a number calls a helper function.
fn add_caller(
    alloc: Global,
    users: &mut ByNumber<Items<usize>>,
    helper: u32,
    program: usize,
) -> Result<(), AllocError>
    ensures { OnOk result
        (users.new ≡ with_user_beside users.old helper program (finite.get users.old helper)) }
{
    match users.get_mut(helper as u64) {
        Some(numbers) => {
            note(numbers, program)?;
        }
        None => {
            users.insert(helper as u64, one_number(alloc, program)?)?;
        }
    }
    Ok(())
}

/// Notes the helper functions that a function of the program of a number calls.
fn add_helpers(
    alloc: Global,
    users: &mut ByNumber<Items<usize>>,
    helpers: &BTreeSet<u32>,
    program: usize,
) -> Result<(), AllocError>
    ensures { OnOk result (users.new ≡ with_users program users.old helpers.now.keys) }
{
    for helper in helpers.iter() {
        add_caller(alloc, users, *helper, program)?;
    }
    Ok(())
}

/// Notes the helper functions that the functions of some keys call, which the program of a number reaches.
fn add_helpers_at(
    alloc: Global,
    users: &mut ByNumber<Items<usize>>,
    by_function: &ByKey<BTreeSet<u32>>,
    keys: &[(usize, u64)],
    program: usize,
) -> Result<(), AllocError>
    ensures { OnOk result
        (users.new ≡ with_users program users.old (helpers_at by_function.now keys.now)) }
{
    for key in keys {
        if let Some(helpers) = by_function.get(*key) {
            add_helpers(alloc, users, helpers, program)?;
        }
    }
    Ok(())
}

/// The programs that call helper functions, by those that each function calls.
#[tactic(auto, unfolding(crate::specs::PrivateContracts::helpers_of))]
fn callers(
    alloc: Global,
    by_function: &ByKey<BTreeSet<u32>>,
    layouts: &[ListedLayout],
) -> Result<ByNumber<Items<usize>>, AllocError>
    ensures { IfOk result (λ users.
        users ≡ users_from (helpers_of by_function.now) 0 finite.empty layouts.now) }
{
    let mut users = ByNumber::new(alloc);
    for (program, layout) in layouts.iter().enumerate() {
        let functions = layout.functions.as_slice();
        add_helpers_at(alloc, &mut users, by_function, functions, program)?;
    }
    Ok(users)
}

/// The programs that call helper functions, by the helper's number.
pub fn helper_users(
    alloc: Global,
    object: &Object,
    layouts: &[ListedLayout],
) -> Result<ByNumber<Items<usize>>, AllocError>
    ensures { IfOk result (λ users. AreUsers (calls object.now) layouts.now users) }
{
    let by_function = helpers_by_function(alloc, object)?;
    callers(alloc, &by_function, layouts)
}

/// Notes that the program of a number uses the map of a name.
fn add_user(
    alloc: Global,
    users: &mut ByName<Items<usize>>,
    name: &str,
    program: usize,
) -> Result<(), AllocError>
    ensures { OnOk result
        (users.new
        ≡ with_user_beside users.old name.now program (finite.get users.old name.now)) }
{
    match users.get_mut(name) {
        Some(numbers) => {
            note(numbers, program)?;
        }
        None => {
            let name = String::from_str(alloc, name)?;
            users.insert(name, one_number(alloc, program)?)?;
        }
    }
    Ok(())
}

/// Notes the maps that a function of the program of a number uses.
fn add_maps(
    alloc: Global,
    users: &mut ByName<Items<usize>>,
    uses: &[MapUse],
    program: usize,
) -> Result<(), AllocError>
    ensures { OnOk result (users.new ≡ with_users program users.old (use_names uses.now)) }
{
    for used in uses {
        add_user(alloc, users, used.name.as_str(), program)?;
    }
    Ok(())
}

/// Notes the maps that the functions of some keys use, which the program of a number reaches.
fn add_maps_at(
    alloc: Global,
    users: &mut ByName<Items<usize>>,
    uses: &ByKey<Items<MapUse>>,
    keys: &[(usize, u64)],
    program: usize,
) -> Result<(), AllocError>
    ensures { OnOk result (users.new ≡ with_users program users.old (names_at uses.now keys.now)) }
{
    for key in keys {
        if let Some(uses) = uses.get(*key) {
            add_maps(alloc, users, uses.as_slice(), program)?;
        }
    }
    Ok(())
}

/// The programs that use maps, one after the other.
#[tactic(auto, unfolding(crate::specs::PrivateContracts::names_of))]
fn users_of_maps(
    alloc: Global,
    uses: &ByKey<Items<MapUse>>,
    layouts: &[ListedLayout],
) -> Result<ByName<Items<usize>>, AllocError>
    ensures { IfOk result (λ users.
        users ≡ users_from (names_of uses.now) 0 finite.empty layouts.now) }
{
    let mut users = ByName::new(alloc);
    for (program, layout) in layouts.iter().enumerate() {
        let functions = layout.functions.as_slice();
        add_maps_at(alloc, &mut users, uses, functions, program)?;
    }
    Ok(users)
}

/// The programs that use maps, by the map's name; `uses` has those of each function.
pub fn map_users(
    alloc: Global,
    uses: &ByKey<Items<MapUse>>,
    layouts: &[ListedLayout],
) -> Result<ByName<Items<usize>>, AllocError>
    ensures { IfOk result (λ users. AreUsers (uses_map uses.now) layouts.now users) }
{
    users_of_maps(alloc, uses, layouts)
}

/// Whether numbers end in one.
#[tactic(auto, unfolding(crate::specs::PrivateContracts::ends_in))]
fn ends_in(numbers: &[usize], number: usize) -> bool
    ensures { result ≡ ends_in numbers.now number }
{
    match numbers.last() {
        Some(last) => *last == number,
        None => false,
    }
}

/// Notes the number of a program, once. Those before it are lower.
pub fn note(numbers: &mut Items<usize>, program: usize) -> Result<(), AllocError>
    ensures { OnOk result (numbers.new ≡ noted numbers.old program) }
{
    if ends_in(numbers.as_slice(), program) {
        return Ok(());
    }
    numbers.push(program)?;
    Ok(())
}

/// The number of a program, alone.
#[tactic(auto, unfolding(crate::specs::PrivateContracts::ends_in))]
pub fn one_number(alloc: Global, program: usize) -> Result<Items<usize>, AllocError>
    ensures { IfOk result (λ numbers. numbers ≡ noted [] program) }
{
    let mut numbers = Items::new(alloc);
    numbers.push(program)?;
    Ok(numbers)
}
