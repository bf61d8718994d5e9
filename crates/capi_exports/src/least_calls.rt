//! The least types of a kernel that an object asks for.

ghost use Rattle.std.specs.Prelude.{◌≡◌, ◌<◌, IfOk, IfErr, ℕ, List, MatchResult, Result};
ghost use Rattle.capi_exports.specs.KernelHandles.{FindsOfTypes};
ghost use Rattle.capi_exports.specs.LeastTypes.{AreLeastTypes, CannotMakeLeast, NeedsKernelId};
ghost use Rattle.capi_exports.specs.PassOrder.{object_in};
ghost use Rattle.capi_rows.specs.Answers.{LeavesList};
ghost use Rattle.capi_rows.specs.Handles.{FindsHeld};
ghost use Rattle.capi_rows.specs.declared.refusal.Refusal.{Refusal};
ghost use Rattle.ebpf_least_types.specs.LeastTypes.{HaveSameOutcomes};

use crate::handle::ebpf_handle;
use crate::kernel::ebpf_types;
use capi_rows::buffers::tell_items;
use capi_rows::codes::CLOSED;
use capi_rows::faults::type_refusal;
use capi_rows::least::least_types_refusal;
use capi_rows::refusal::{Refusal, ebpf_refusal};
use ebpf_base::Items;
use ebpf_btf::Btf;
use ebpf_least_types::least_types;
use ebpf_object::Object;
use std::alloc::Global;
use std::array;

/// The number of the first fault of writing the types.
const FIRST_FAULT: u32 = 1020;

/// The least types of an object.
fn least_of(alloc: Global, object: &Object, kernel: &Btf) -> Result<Btf, Refusal>
    ensures same { IfOk result (HaveSameOutcomes object.now kernel.now) }
    ensures why { IfErr result (NeedsKernelId object.now) }
    ensures refuses { IfErr result (λ r. 0 < r.number) }
{
    match least_types(alloc, array::from_ref(object), kernel) {
        Ok(types) => Ok(types),
        Err(error) => Err(least_types_refusal(error)),
    }
}

/// Their bytes.
fn least_bytes(alloc: Global, object: &Object, kernel: &Btf) -> Result<Items<u8>, Refusal>
    ensures { MatchResult result (AreLeastTypes kernel.now object.now)
        (CannotMakeLeast kernel.now object.now) }
{
    let types = least_of(alloc, object, kernel)?;
    match types.to_bytes(alloc) {
        Ok(bytes) => Ok(Items::from_vec(bytes)),
        Err(error) => Err(type_refusal(FIRST_FAULT, error)),
    }
}

/// Those of what a handle holds.
fn least_of_held(
    alloc: Global,
    handle: &mut ebpf_handle,
    kernel: &Btf,
) -> Result<Items<u8>, Refusal>
    ensures stays { handle.new.held ≡ handle.old.held }
    ensures found { FindsHeld (AreLeastTypes kernel.now) (CannotMakeLeast kernel.now)
        (object_in handle.old.held) result }
{
    let Some(held) = handle.take(alloc) else {
        return Err(Refusal::plain(CLOSED));
    };
    let found = least_bytes(alloc, &held.object, kernel);
    handle.put(alloc, held);
    found
}

/// Writes the types of a kernel that the CO-RE relocations of an object ask for, as bytes of BTF, and their number.
///
/// Each relocation has the same outcome over them as over the kernel's (`ebpf_least_types::least_types`).
///
/// # Answers
///
/// 0; 1 where they don't fit; 2; 3 where one of the handles is closed; 1000 to 1002 for the first thing that needs an
/// id of the kernel's own types, about the extern or the program; 1020 to 1034 where they can't be written. The buffer
/// is then as it was, and `len` too but for 1.
#[unsafe(no_mangle)]
pub extern "C" fn exact_ebpf_least_types(
    alloc: Global,
    handle: &mut ebpf_handle,
    kernel: &mut ebpf_types,
    types: &mut [u8],
    len: &mut usize,
    about: &mut [u8],
    report: &mut ebpf_refusal,
) -> u32
    ensures stays { handle.new.held ≡ handle.old.held }
    ensures types_stay { kernel.new.held ≡ kernel.old.held }
    ensures written { (found : Result (List ℕ) Refusal)
        × FindsOfTypes (λ t.
        FindsHeld (AreLeastTypes t) (CannotMakeLeast t) (object_in handle.old.held))
        kernel.old.held found
        × LeavesList found result types.old types.new len.old len.new about.old about.new report.old
        report.new }
{
    let Some(held) = kernel.take(alloc) else {
        return tell_items(Err(Refusal::plain(CLOSED)), types, len, about, report);
    };
    let found = least_of_held(alloc, handle, &held.types);
    kernel.put(alloc, held);
    tell_items(found, types, len, about, report)
}
