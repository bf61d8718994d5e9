//! Tables over all functions, which one program leaves for the next.

ghost use Rattle.std.specs.Prelude.{◌≡◌, ◌<◌, ◌^◌, ℕ, length, IfOk, All, true, false, replicate, slice_index_or};
ghost use Rattle.ebpf_linker.specs.Functions.{Among};

use std::alloc::{AllocError, Global};
use std::cell::Cell;

/// Flags of functions by number, none of which is set.
#[derive(Drop)]
struct Unmarked {
    flags: Vec<bool>,
    ghost none: { flags.items ≡ replicate (length flags.items) false },
}

/// The bases of copies, by the functions' numbers.
#[derive(Drop)]
struct Bases {
    bases: Vec<usize>,
    ghost below: { All (λ base. base < 2 ^ 31) bases.items },
}

/// Tables over all functions: made for the first program that is linked, and kept for the next ones, so that these
/// cost what they reach. What is linked doesn't depend on them.
#[derive(Drop)]
pub struct Tables {
    is_found: Cell<Option<Unmarked>>,
    bases: Cell<Option<Bases>>,
}

impl Tables {
    /// No tables yet.
    pub fn new() -> Tables {
        Tables {
            is_found: Cell::new(None),
            bases: Cell::new(None),
        }
    }

    /// Flags of so many functions, none of which is set.
    pub(crate) fn take_flags(&self, alloc: Global, count: usize) -> Result<Vec<bool>, AllocError>
        ensures { IfOk result (λ flags. flags.items ≡ replicate count false) }
    {
        match self.is_found.take() {
            Some(unmarked) if unmarked.flags.len() == count => Ok(unmarked.flags),
            _ => vec![in alloc; false; count],
        }
    }

    /// Keeps flags for the next search.
    pub(crate) fn keep_flags(&self, flags: Vec<bool>)
        requires { flags.items ≡ replicate (length flags.items) false }
    {
        self.is_found.set(Some(Unmarked { flags }));
    }

    /// Bases of so many functions, whatever they are.
    pub(crate) fn take_bases(&self, alloc: Global, count: usize) -> Result<Vec<usize>, AllocError>
        ensures count { IfOk result (λ bases. length bases.items ≡ count) }
        ensures below { IfOk result (λ bases. All (λ base. base < 2 ^ 31) bases.items) }
    {
        match self.bases.take() {
            Some(last) if last.bases.len() == count => Ok(last.bases),
            _ => vec![in alloc; 0; count],
        }
    }

    /// Keeps bases for the next program.
    pub(crate) fn keep_bases(&self, bases: Vec<usize>)
        requires { All (λ base. base < 2 ^ 31) bases.items }
    {
        self.bases.set(Some(Bases { bases }));
    }
}

/// Clears the flags of these functions; no other flag is set.
#[tactic(auto, using(crate::proofs::Unmarked::unmarked_next))]
pub fn unmark(flags: &mut Vec<bool>, functions: &[usize])
    requires within { All (λ k. k < length flags.old.items) functions.now }
    requires marked { (k : ℕ)
        → slice_index_or flags.old.items k false ≡ true
        → Among functions.now k }
    ensures { flags.new.items ≡ replicate (length flags.old.items) false }
{
    for function in functions {
        flags[*function] = false;
    }
}
