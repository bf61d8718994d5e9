//! References of functions that are numbered.

/// The cause why a program can't be linked, by the numbers of functions.
#[derive(Clone, Copy, Debug, PartialEq, Eq)]
pub enum Fault {
    /// The symbol of a reference names no function.
    UnsupportedTextSymbol {
        /// The symbol's index.
        index: usize,
    },
    /// No function begins at the address to which a reference leads.
    UnknownFunction {
        /// The address to which the reference leads.
        address: u64,
        /// The function with the reference.
        caller: usize,
    },
    /// One of a function and the program that reaches it has func info entries, the other has none.
    FunctionInfoMismatch {
        /// The function that is reached.
        callee: usize,
    },
    /// With a function's copy the program would have more than 2,147,483,647 slots.
    ProgramTooLong {
        /// The function that was to be copied.
        callee: usize,
    },
    /// A line info entry is before the function's first one, or past 32 bits once it is moved.
    InvalidLineInfo {
        /// The function that was to be copied.
        callee: usize,
    },
}

/// The target of a reference.
#[derive(Clone, Copy, Debug, PartialEq, Eq)]
pub enum Target {
    /// A function, by its number.
    Function(usize),
    /// No function, for this cause.
    Nowhere(Fault),
}

/// A slot of a function that refers to a function: a call, or the load of an address.
#[derive(Clone, Copy, Debug, PartialEq, Eq)]
pub struct Reference {
    /// The number of the slot that refers.
    pub slot: usize,
    /// The target of the reference.
    pub target: Target,
}
