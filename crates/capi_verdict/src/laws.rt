//! Laws on the verdict that C reads.

ghost use Rattle.capi_verdict.specs.Checked.{OkOfCheckIsPrepared};

/// Where the summary says ok, the object can be prepared over the kernel's types with all passes, and each of its programs
/// runs (`ebpf_verdict::laws::ok_is_prepared`).
pub fn ok_of_check_is_prepared()
    ensures { OkOfCheckIsPrepared }
{}
