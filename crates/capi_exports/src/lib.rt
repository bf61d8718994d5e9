//! What C calls.
#![tactic(auto)]

mod check_calls;
mod completed_maps;
mod handle;
mod held;
mod kconfig;
mod kernel;
mod kernel_calls;
mod kernel_lists;
mod kernel_preparing;
mod kernel_types;
mod laws;
mod least_calls;
mod leaving_out;
mod linking;
mod list_calls;
mod map_settings;
mod names;
mod opening;
mod passes;
mod preparing;
mod read_calls;
mod struct_ops_calls;
mod target_answers;
mod variable_calls;
mod version;
mod wanted_calls;
