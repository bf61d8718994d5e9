//! Files that commands write, colours on a terminal, and the progress of long work.
#![tactic(auto)]

pub mod files;
pub mod palette;
pub mod progress;
pub mod whole_file;
