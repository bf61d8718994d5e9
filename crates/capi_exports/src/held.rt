//! What a handle holds: an object, and the last pass that was made of it.

ghost use Rattle.std.specs.Prelude.{◌≡◌};
ghost use Rattle.capi_exports.specs.PassOrder.{fault_of_pass, fault_of_setting, rank};

use capi_rows::codes::{PASS_MADE, PASS_ORDER};
use ebpf_object::Object;

/// A pass over an object. Each is made at most once, in this order, and any may be left out.
#[derive(Clone, Copy)]
pub enum Pass {
    /// Functions are relocated to a kernel's types.
    Types,
    /// Descriptors of maps are written.
    Maps,
    /// Externs are found.
    Resolution,
    /// Externs are written.
    Externs,
    /// Programs are linked with the functions that they reach.
    Calls,
}

/// An object, and the last pass that was made of it.
#[derive(Drop)]
pub struct Held {
    pub object: Object,
    pub last: Option<Pass>,
}

/// The place of a pass in their order.
fn rank(pass: Pass) -> u32
    ensures { result ≡ rank pass }
{
    match pass {
        Pass::Types => 1,
        Pass::Maps => 2,
        Pass::Resolution => 3,
        Pass::Externs => 4,
        Pass::Calls => 5,
    }
}

/// The number by which a pass is refused after the last one that was made: `PASS_MADE` where it is the same,
/// `PASS_ORDER` where it comes before that.
pub fn fault_of_pass(last: Option<Pass>, pass: Pass) -> Option<u32>
    ensures { result ≡ fault_of_pass last pass }
{
    let Some(last) = last else {
        return None;
    };
    let (made, asked) = (rank(last), rank(pass));
    if asked == made {
        return Some(PASS_MADE);
    }
    if asked < made {
        return Some(PASS_ORDER);
    }
    None
}

/// The number by which a setting is refused: `PASS_ORDER` where a pass was made.
pub fn fault_of_setting(last: Option<Pass>) -> Option<u32>
    ensures { result ≡ fault_of_setting last }
{
    match last {
        Some(_) => Some(PASS_ORDER),
        None => None,
    }
}
