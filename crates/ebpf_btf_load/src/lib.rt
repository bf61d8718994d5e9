//! The types of an object in the form that the kernel takes.
#![tactic(auto)]

mod data_sections;
mod error;
mod for_kernel;
mod kconfig;
mod ksyms;
pub mod laws;
mod sections;
mod symbols;
mod words;

pub use error::KernelTypesError;
pub use for_kernel::kernel_types;
pub use symbols::{is_function_symbol, is_hidden, symbol_table};
