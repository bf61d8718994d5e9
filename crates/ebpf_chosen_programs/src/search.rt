//! The functions to which references lead, by number.

ghost use Rattle.std.specs.Prelude.{◌≡◌, fold, map, replicate, false, IfOk, OnOk};
ghost use Rattle.ebpf_chosen_programs.specs.PrivateContracts.{AreFound, search_of, targets_of, with_found, with_target};

use ebpf_linker::{Reference, Target};
use std::alloc::{AllocError, Global};

/// A search under way.
#[derive(Drop)]
pub struct Search {
    /// For each function whether it is found.
    pub is_found: Vec<bool>,
    /// The found functions whose references are to be followed.
    pub pending: Vec<usize>,
}

impl Search {
    /// Finds a function, whose references are to be followed then, unless it is found already.
    fn find(&mut self, number: usize) -> Result<(), AllocError>
        ensures { OnOk result (search_of self.new ≡ with_found (search_of self.old) number) }
    {
        if number >= self.is_found.len() || self.is_found[number] {
            return Ok(());
        }
        self.is_found[number] = true;
        self.pending.push(number)?;
        Ok(())
    }

    /// Finds the function of a target, if there is one.
    fn take(&mut self, target: Target) -> Result<(), AllocError>
        ensures { OnOk result (search_of self.new ≡ with_target (search_of self.old) target) }
    {
        match target {
            Target::Function(number) => self.find(number),
            Target::Nowhere(_) => Ok(()),
        }
    }

    /// Finds the functions of all targets.
    #[tactic(auto, using(crate::proofs::Steps::target_more, crate::proofs::Steps::target_none))]
    fn take_all(&mut self, references: &[Reference]) -> Result<(), AllocError>
        ensures { OnOk result
            (search_of self.new
            ≡ fold with_target (search_of self.old) (map (λ r. r.target) references.now)) }
    {
        for reference in references {
            self.take(reference.target)?;
        }
        Ok(())
    }

    /// Follows the references of a function.
    fn follow(&mut self, references: &[Vec<Reference>], number: usize) -> Result<(), AllocError>
        ensures { OnOk result
            (search_of self.new
            ≡ fold with_target (search_of self.old) (targets_of references.now number)) }
    {
        match references.get(number) {
            Some(own) => self.take_all(own.as_slice()),
            None => Ok(()),
        }
    }

    /// Finds the functions with some numbers.
    #[tactic(auto, using(crate::proofs::Steps::number_more, crate::proofs::Steps::number_none))]
    fn find_all(&mut self, numbers: &[usize]) -> Result<(), AllocError>
        ensures { OnOk result
            (search_of self.new ≡ fold with_found (search_of self.old) numbers.now) }
    {
        for number in numbers {
            self.find(*number)?;
        }
        Ok(())
    }
}

/// So many functions, none of them found.
fn unfound(alloc: Global, count: usize) -> Result<Vec<bool>, AllocError>
    ensures { IfOk result (λ flags. flags.items ≡ replicate count false) }
{
    let mut flags = Vec::with_capacity(alloc, count)?;
    for _ in 0..count {
        flags.push(false)?;
    }
    Ok(flags)
}

/// For each function whether references lead to it from one of the first functions, or it is one of these.
pub fn found_functions(
    alloc: Global,
    references: &[Vec<Reference>],
    first: &[usize],
) -> Result<Vec<bool>, AllocError>
    ensures { IfOk result (λ flags. AreFound references.now first.now flags.items) }
{
    let mut search = Search {
        is_found: unfound(alloc, references.len())?,
        pending: Vec::new(alloc),
    };
    search.find_all(first)?;
    while let Some(number) = search.pending.pop() {
        search.follow(references, number)?;
    }
    Ok(search.is_found)
}
