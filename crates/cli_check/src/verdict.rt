//! The verdicts of kernels on the programs of an object, as findings, and the values that change.

mod causes;
pub mod findings;
mod judged_program;
mod judging;
pub mod loaded;
mod own_values;
mod slots;
mod whole_object;

pub use judging::{Fate, judge_kernel};
