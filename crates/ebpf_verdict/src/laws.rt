//! What follows of a verdict.

ghost use Rattle.ebpf_verdict.specs.Verdicts.{OkIsPrepared};

/// Where the verdict of a kernel on an object is ok, the object can be prepared over the kernel's types with all passes, the
/// descriptors 1, 2, .. of its maps, and no symbols of the kernel; and no slot that one of its programs can reach then is
/// poisoned, or calls a helper function or an extern that the kernel lacks.
pub fn ok_is_prepared()
    ensures { OkIsPrepared }
{}
