//! An object, opened and prepared as the arguments of `ebpf link` and `ebpf inspect` ask.
#![tactic(auto)]

mod kconfig_help;
mod kconfig_values;
mod kernel;
mod opened;
mod pass_help;
mod passes;
mod prepared;
mod refusals;
mod refused_slots;

pub use ebpf_outcomes::AskedOutcomes;
pub use kernel::{Kernel, version_number};
pub use opened::{Opened, open_file};
pub use prepared::{PrepareWords, Prepared, finished_object, prepare_file};
pub use refusals::refuse_preparing;
