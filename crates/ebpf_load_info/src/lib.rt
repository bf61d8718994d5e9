//! The values that a loader of eBPF programs needs apart from their slots: the types to which programs are attached,
//! the numbers that a kernel knows, and the types of maps.
#![tactic(auto)]

mod attach;
mod attach_all;
mod kernel_numbers;
pub mod laws;
mod map_type_ids;
mod texts;

pub use attach::{AttachTarget, attach_target};
pub use attach_all::attach_targets;
pub use kernel_numbers::KernelNumbers;
pub use map_type_ids::{MapTypeIds, map_types};
