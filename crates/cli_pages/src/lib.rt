//! The verdicts of `ebpf check` as a page, as a log for code scanning, and as annotations; the contents of an object as a
//! page.
#![tactic(auto)]

pub mod annotations;
mod data;
mod head;
pub mod list_page;
pub mod matrix;
mod message;
pub mod page;
mod page_script;
mod page_style;
pub mod sarif;
mod source_path;
pub mod tables;
