//! A walk over the relocations of sections, in step with functions and their slots.

ghost use Rattle.std.specs.Prelude.{◌≡◌, ◌+◌, ◌*◌, ◌≤◌, ◌^◌, length, [], ◌∷◌, MatchOption, false};
ghost use Rattle.std.specs.FinMap.{get};
ghost use Rattle.std.specs.Option.{option_copied};
ghost use Rattle.ebpf_base.specs.Maps.{entries_from};
ghost use Rattle.ebpf_model.specs.Walks.{found_at, at_offset, ahead_in, entries_or_none, left, left_in, walked_relocations, is_passed, IsBefore, IsWithinFunction};

use crate::function::Function;
use ebpf_base::{ByOffset, BySection};
use ebpf_parts::Relocation;
use std::collections::btree_map;

/// A walk from one function to the next, over the relocations of its section at offsets that rise.
#[derive(Drop)]
pub struct Walk<'a> {
    /// The index of the section.
    pub section: usize,
    /// Where the function ends in the section, in bytes.
    pub function_end: u128,
    /// The relocations of the section, where it has some.
    pub section_relocations: Option<&'a ByOffset<Relocation>>,
    /// The first relocation that is not passed, with its offset.
    pub next: Option<(u64, Relocation)>,
    /// The relocations behind that one, where the section has some.
    pub ahead: Option<btree_map::Range<'a, u64, Relocation>>,
}

/// The offset of a slot in its section, where it fits.
fn offset_of(function: &Function, slot: usize) -> Option<u64>
    ensures { MatchOption result (2 ^ 64 ≤ function.now.section_offset + 8 * slot) (λ offset.
        offset ≡ function.now.section_offset + 8 * slot) }
{
    let Some(bytes) = (slot as u64).checked_mul(8) else {
        return None;
    };
    bytes.checked_add(function.section_offset as u64)
}

/// The relocations from an offset on.
fn all_from(
    section_relocations: Option<&ByOffset<Relocation>>,
    offset: u64,
) -> Option<btree_map::Range<'_, u64, Relocation>>
    ensures { ahead_in result
        ≡ entries_from offset (entries_or_none (option_copied section_relocations.entry)) }
{
    match section_relocations {
        Some(section_relocations) => Some(section_relocations.from_number(offset)),
        None => None,
    }
}

/// Takes the first of the relocations ahead.
fn take_first(
    ahead: &mut Option<btree_map::Range<'_, u64, Relocation>>,
) -> Option<(u64, Relocation)>
    ensures { left result ahead.new ≡ ahead_in ahead.old }
{
    let Some(range) = ahead else {
        return None;
    };
    match range.next() {
        Some((offset, relocation)) => Some((*offset, *relocation)),
        None => None,
    }
}

/// Whether a relocation is before an offset.
fn is_passed(next: Option<(u64, Relocation)>, offset: u64) -> bool
    ensures { result ≡ is_passed next offset }
{
    match next {
        Some((at, _)) => at < offset,
        None => false,
    }
}

/// The relocation at an offset, if the first one that is not passed is there.
fn at_offset(next: Option<(u64, Relocation)>, offset: u64) -> Option<Relocation>
    ensures { result ≡ at_offset next offset }
{
    match next {
        Some((at, relocation)) if at == offset => Some(relocation),
        _ => None,
    }
}

impl<'a> Walk<'a> {
    /// A walk over the relocations of a section, from an offset on.
    fn over(
        section_relocations: Option<&'a ByOffset<Relocation>>,
        section: usize,
        offset: u64,
    ) -> Walk<'a>
        ensures section_relocations { walked_relocations result
            ≡ option_copied section_relocations.entry }
        ensures section { result.section ≡ section }
        ensures function_end { result.function_end ≡ offset }
        ensures before { IsBefore result offset }
        ensures none { is_passed result.next offset ≡ false }
    {
        let mut ahead = all_from(section_relocations, offset);
        let next = take_first(&mut ahead);
        Walk {
            section,
            function_end: offset as u128,
            section_relocations,
            next,
            ahead,
        }
    }

    /// Returns a walk that is before all functions of the first section.
    pub fn new(relocations: &'a BySection<ByOffset<Relocation>>) -> Walk<'a>
        ensures { IsWithinFunction relocations.now result }
    {
        Walk::over(relocations.get(0), 0, 0)
    }

    /// The relocations of the section, where it has some.
    pub fn section_relocations(&self) -> Option<&'a ByOffset<Relocation>>
        ensures { option_copied result ≡ walked_relocations self.now }
    {
        self.section_relocations
    }

    /// The first relocation that is not passed, with its offset.
    pub fn peek(&self) -> Option<(u64, Relocation)>
        ensures { MatchOption result (left_in self.now ≡ []) (λ e.
            left_in self.now ≡ e ∷ ahead_in self.now.ahead) }
    {
        self.next
    }

    /// Passes the relocation of `peek`.
    pub fn pass(&mut self)
        ensures left { left_in self.new ≡ ahead_in self.old.ahead }
        ensures others { self.new
            ≡ record self.old { next = self.new.next; ahead = self.new.ahead } }
    {
        self.next = take_first(&mut self.ahead);
    }

    /// Begins anew at an offset.
    fn begin_anew(&mut self, offset: u64)
        ensures others { self.new
            ≡ record self.old { next = self.new.next; ahead = self.new.ahead } }
        ensures before { IsBefore self.new offset }
        ensures none { is_passed self.new.next offset ≡ false }
    {
        self.ahead = all_from(self.section_relocations, offset);
        self.pass();
    }

    /// Passes the relocations before an offset. One alone is the rule, since the next slot has the next one;
    /// past more of them the walk begins anew.
    #[tactic(auto, using(crate::proofs::InStep::one_passed))]
    fn pass_some(&mut self, offset: u64)
        requires { IsBefore self.old offset }
        ensures others { self.new
            ≡ record self.old { next = self.new.next; ahead = self.new.ahead } }
        ensures before { IsBefore self.new offset }
        ensures none { is_passed self.new.next offset ≡ false }
    {
        if is_passed(self.next, offset) {
            self.pass();
        }
        if is_passed(self.next, offset) {
            self.begin_anew(offset);
        }
    }

    /// Passes the relocations before an offset.
    #[tactic(auto, using(crate::proofs::InStep::all_passed))]
    pub fn pass_all(&mut self, offset: u64)
        requires { IsBefore self.old offset }
        ensures left { left_in self.new
            ≡ entries_from offset (entries_or_none (walked_relocations self.old)) }
        ensures others { self.new
            ≡ record self.old { next = self.new.next; ahead = self.new.ahead } }
        ensures before { IsBefore self.new offset }
    {
        self.pass_some(offset);
    }

    /// Goes on to an offset, and gives the relocation there.
    #[tactic(auto, using(crate::proofs::InStep::found_next))]
    fn at(&mut self, offset: u64) -> Option<Relocation>
        requires { IsBefore self.old offset }
        ensures relocation { result ≡ found_at (walked_relocations self.old) offset }
        ensures others { self.new
            ≡ record self.old { next = self.new.next; ahead = self.new.ahead } }
        ensures before { IsBefore self.new offset }
    {
        self.pass_some(offset);
        at_offset(self.next, offset)
    }

    /// Returns the relocation of a slot of a function, after those of the slots before it.
    #[tactic(auto, using(crate::proofs::InStep::found_past))]
    pub fn relocation_of(&mut self, function: &Function, slot: usize) -> Option<Relocation>
        requires { IsBefore self.old (function.now.section_offset + 8 * slot) }
        ensures relocation { result
            ≡ found_at (walked_relocations self.old) (function.now.section_offset + 8 * slot) }
        ensures others { self.new
            ≡ record self.old { next = self.new.next; ahead = self.new.ahead } }
        ensures before { IsBefore self.new (function.now.section_offset + 8 * slot) }
    {
        match offset_of(function, slot) {
            Some(offset) => self.at(offset),
            None => None,
        }
    }

    /// Goes on to where a function begins, or begins anew there, where it is before the end of the last one or in
    /// another section.
    #[tactic(auto, using(crate::proofs::InStep::later))]
    fn reach(&mut self, relocations: &'a BySection<ByOffset<Relocation>>, function: &Function)
        requires { IsWithinFunction relocations.now self.old }
        ensures section_relocations { walked_relocations self.new
            ≡ get relocations.now function.now.section_index.0 }
        ensures section { self.new.section ≡ function.now.section_index.0 }
        ensures before { IsBefore self.new function.now.section_offset }
    {
        let index = function.section_index.0;
        if index == self.section && self.function_end <= function.section_offset as u128 {
            return;
        }
        *self = Walk::over(
            relocations.get(index as u64),
            index,
            function.section_offset as u64,
        );
    }

    /// Goes on to a function, forwards or backwards.
    pub fn go_to(&mut self, relocations: &'a BySection<ByOffset<Relocation>>, function: &Function)
        requires { IsWithinFunction relocations.now self.old }
        ensures section_relocations { walked_relocations self.new
            ≡ get relocations.now function.now.section_index.0 }
        ensures section { self.new.section ≡ function.now.section_index.0 }
        ensures function_end { self.new.function_end
            ≡ function.now.section_offset + 8 * length function.now.instructions }
        ensures before { IsBefore self.new function.now.section_offset }
    {
        self.reach(relocations, function);
        self.function_end = function.end();
    }
}
