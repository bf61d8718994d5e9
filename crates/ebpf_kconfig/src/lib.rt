//! The externs that the kernel's configuration gives: their list and their values.
#![tactic(auto)]

mod config;
mod define;
mod error;
mod externs;
mod kconfig_type;
pub mod laws;
mod layout;
mod settings;

pub use config::{kconfig_number, kconfig_value};
pub use define::{define_kconfig, kconfig};
pub use error::KconfigError;
pub use externs::KconfigExtern;
pub use kconfig_type::KconfigType;
