//! The two modes of parsing.

/// How an object is read.
#[derive(Clone, Copy, Debug, PartialEq, Eq)]
pub enum ParseMode {
    /// Names of program sections from the table of kinds alone, maps and licenses in their first forms, any machine.
    Strict,
    /// Program sections of every name, arrays of programs, numbers as enumerations, licenses up to their first zero,
    /// and files for eBPF alone.
    Lenient,
}
