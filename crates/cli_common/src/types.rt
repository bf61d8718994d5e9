//! The names of types of programs and of maps.

use ebpf_parts::maps::bpf_map_type;
use ebpf_parts::programs::program_kind;

/// The name of the type of programs that the name of their section says.
pub fn program_type_name(section: &str) -> Option<&'static str> {
    let kind = program_kind(section)?;
    Some(kind.program_type.name())
}

/// The name of the type of maps of a number.
pub fn map_type_name(number: u32) -> Option<&'static str> {
    match bpf_map_type::try_from(number) {
        Ok(map_type) => Some(map_type.name()),
        Err(_) => None,
    }
}
