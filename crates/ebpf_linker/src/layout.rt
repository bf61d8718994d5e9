//! The functions that a program is linked with.

ghost use Rattle.std.specs.Prelude.{◌<◌, length, IfOk};
ghost use Rattle.ebpf_linker.specs.Copies.{IsLayoutAnswer};

use crate::functions::Functions;
use crate::reference::Fault;
use crate::search::search;
use std::alloc::{AllocError, Global};

/// A program and the functions that it is linked with, by their numbers.
#[derive(Debug, Drop)]
pub struct ProgramLayout {
    /// The program.
    pub start: usize,
    /// The program, and then each function that its references reach, in the order of their copies.
    pub order: Vec<usize>,
}

impl Functions<'_> {
    /// Lists the program `start` and each function that its references reach, once.
    ///
    /// The order is the depth-first pre-order by slot (also called the order of key paths): the references of a function
    /// are followed slot by slot, and those of a function that is found for the first time are followed at once.
    ///
    /// # Errors
    ///
    /// The first fault in that order: a reference that leads nowhere, `FunctionInfoMismatch`, `ProgramTooLong`,
    /// `InvalidLineInfo`.
    pub fn lay_out(
        &self,
        alloc: Global,
        start: usize,
    ) -> Result<Result<ProgramLayout, Fault>, AllocError>
        requires { start < length self.now.bodies.now }
        ensures { IfOk result (λ answer.
            IsLayoutAnswer self.now.bodies.now self.now.references.now start answer) }
    {
        match search(alloc, self, start)? {
            Ok(order) => Ok(Ok(ProgramLayout { start, order })),
            Err(fault) => Ok(Err(fault)),
        }
    }
}
