//! The test that references can be linked.

ghost use Rattle.std.specs.Prelude.{◌≡◌, ◌↔◌, IsTrue, None};
ghost use Rattle.std.specs.List.{list_all};
ghost use Rattle.ebpf_linker.specs.Numbered.{Sound};
ghost use Rattle.ebpf_linker.specs.PrivateContracts.{is_within, is_above, is_list_sound};

use crate::reference::{Reference, Target};

/// Whether a target is one of `count` functions, or none.
fn is_within(count: usize, target: Target) -> bool
    ensures { result ≡ is_within count target }
{
    match target {
        Target::Function(callee) => callee < count,
        Target::Nowhere(_) => true,
    }
}

/// Whether a slot is above the slot before it, if there is one.
fn is_above(before: Option<usize>, slot: usize) -> bool
    ensures { result ≡ is_above before slot }
{
    match before {
        Some(before) => before < slot,
        None => true,
    }
}

/// Whether the slots of references rise, and each leads to one of `count` functions or nowhere.
fn is_list_sound(calls: &[Reference], count: usize) -> bool
    ensures { result ≡ is_list_sound count None calls.now }
{
    let mut before = None;
    for call in calls {
        if !is_above(before, call.slot) || !is_within(count, call.target) {
            return false;
        }
        before = Some(call.slot);
    }
    true
}

/// Whether the references of each function rise, and lead to one of `count` functions or nowhere.
fn are_lists_sound(calls: &[Vec<Reference>], count: usize) -> bool
    ensures { result ≡ list_all (λ v. is_list_sound count None v.items) calls.now }
{
    for list in calls {
        if !is_list_sound(list, count) {
            return false;
        }
    }
    true
}

/// Whether the references of functions can be linked: the slots of each list rise, and each leads to one of `count`
/// functions or nowhere.
#[tactic(auto, using(crate::proofs::Soundly::sound_tests))]
pub fn is_sound(calls: &[Vec<Reference>], count: usize) -> bool
    ensures { IsTrue result ↔ Sound count calls.now }
{
    are_lists_sound(calls, count)
}
