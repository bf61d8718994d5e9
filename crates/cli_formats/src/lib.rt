//! Texts in the syntax of pages, logs, annotations and graphs, and the graphs of programs.
#![tactic(auto)]

pub mod escape;
pub mod graph;
