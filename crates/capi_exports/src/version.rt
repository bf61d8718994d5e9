//! The version of the interface.

ghost use Rattle.std.specs.Prelude.{◌≡◌};

/// The version 0.4.0 of include/ebpf.h: major * 1000000 + minor * 1000 + patch.
pub const VERSION_NUMBER: u32 = 4000;

/// The version of the interface as a number, as `EBPF_VERSION_NUMBER` of the header that belongs to this library.
#[unsafe(no_mangle)]
pub extern "C" fn exact_ebpf_version_number() -> u32
    ensures { result ≡ VERSION_NUMBER }
{
    VERSION_NUMBER
}
