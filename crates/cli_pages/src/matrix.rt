//! The verdicts of kernels on programs, as pages and reports show them.

/// The verdict of a kernel on a program.
#[derive(Clone, Copy, PartialEq, Eq)]
pub enum CellVerdict {
    /// It runs.
    Runs,
    /// It breaks.
    Breaks,
    /// The kernel has no type of its attach target.
    NoTarget,
}

/// A kernel, with its verdicts.
#[derive(Drop)]
pub struct MatrixKernel<'a> {
    /// The kernel's name.
    pub name: &'a str,
    /// The reason why its types can't be read; then it has no verdicts.
    pub fault: Option<&'a str>,
    /// The verdicts on the programs, in their order.
    pub verdicts: Vec<CellVerdict>,
}

/// A source line.
#[derive(Clone, Copy)]
pub struct ReasonLine<'a> {
    /// The file's name, as the compiler gave it.
    pub file: &'a str,
    /// The number.
    pub number: u32,
    /// The text; empty where the object has none.
    pub text: &'a str,
}

/// The location of a reason in a linked program.
#[derive(Clone, Copy)]
pub struct ReasonLocation<'a> {
    /// The number of the program.
    pub program: usize,
    /// The slot; none where the reason is about the whole program.
    pub slot: Option<usize>,
    /// The instruction of the slot as the object has it, before relocations.
    pub instruction: Option<&'a str>,
    /// The function that the slot was copied from, and the slot in it, where it is not the program's own.
    pub within: Option<(&'a str, usize)>,
    /// The source line.
    pub line: Option<ReasonLine<'a>>,
    /// The numbers of the kernels, in ascending order.
    pub kernels: &'a [usize],
}

/// A reason for which programs break or have no target.
#[derive(Drop)]
pub struct Reason<'a> {
    /// Whether programs break for it; else they have no target.
    pub breaks: bool,
    /// The name of the type, field, function or program that the reason is about.
    pub subject: &'a str,
    /// The words for the kinds of question.
    pub kinds: Vec<&'static str>,
    /// The outcome, as what the kernel lacks.
    pub outcome: &'a str,
    /// The numbers of the kernels, in ascending order.
    pub kernels: &'a [usize],
    /// The locations; none where the reason is about all programs.
    pub locations: Vec<ReasonLocation<'a>>,
}

/// The verdicts of kernels on programs.
#[derive(Drop)]
pub struct Matrix<'a> {
    /// The version of the program.
    pub version: &'static str,
    /// The name of the object's file.
    pub file: &'a str,
    /// The names of the programs.
    pub programs: Vec<&'a str>,
    /// The kernels, in their order.
    pub kernels: Vec<MatrixKernel<'a>>,
    /// The reasons.
    pub reasons: Vec<Reason<'a>>,
}
