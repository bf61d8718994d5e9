//! Maps, as an object declares them or the kernel reports them.

mod definition;
mod either;
mod map_type;

pub use crate::binding::InvalidTypeBinding;
pub use definition::{BtfMapDef, PinningError, PinningType, bpf_map_def};
pub use either::{BtfMap, LegacyMap, Map, bpf_map_info, parse_map_info};
pub use map_type::bpf_map_type;
