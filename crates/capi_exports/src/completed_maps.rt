//! The maps of an object, completed as libbpf does it.

ghost use Rattle.std.specs.Prelude.{◌≡◌, IfErr, ◌<◌, OnOk, OnErr};
ghost use Rattle.capi_exports.specs.PassOrder.{CannotSet, HasSetting};
ghost use Rattle.capi_rows.specs.BtfMaps.{CannotComplete, HasCompleted};
ghost use Rattle.capi_rows.specs.Handles.{Changes, IsRefused, WhyHeld};

use crate::handle::ebpf_handle;
use crate::held::{Held, fault_of_setting};
use capi_rows::btf_maps::btf_map_refusal;
use capi_rows::codes::{CLOSED, DONE};
use capi_rows::refusal::{Refusal, ebpf_refusal, reported_number, tell};
use ebpf_btf_maps::complete_maps;
use ebpf_object::Object;
use std::alloc::Global;

/// Completes the maps of an object.
fn complete_object(object: &mut Object, file: &[u8], page_size: u32) -> Result<(), Refusal>
    ensures ok { OnOk result (HasCompleted file.now page_size object.old object.new) }
    ensures unchanged { OnErr result (object.new ≡ object.old) }
    ensures why { IfErr result (CannotComplete file.now page_size object.old) }
    ensures refuses { IfErr result (λ r. 0 < r.number) }
{
    match complete_maps(object, file, page_size) {
        Ok(()) => Ok(()),
        Err(error) => Err(btf_map_refusal(error)),
    }
}

/// Completes maps, before a pass.
fn complete_held(held: &mut Held, file: &[u8], page_size: u32) -> Result<(), Refusal>
    ensures ok { OnOk result
        (HasSetting (HasCompleted file.now page_size) held.old held.new) }
    ensures unchanged { OnErr result (held.new ≡ held.old) }
    ensures why { IfErr result (CannotSet (CannotComplete file.now page_size) held.old) }
    ensures refuses { IfErr result (λ r. 0 < r.number) }
{
    if let Some(number) = fault_of_setting(held.last) {
        return Err(Refusal::plain(number));
    }
    complete_object(&mut held.object, file, page_size)
}

/// Completes the BTF-defined maps of what a handle holds, whose file has these bytes, for pages of `page_size` bytes:
/// refuses unknown pinnings and a second arena, and gives the arena the data of the variables in it.
///
/// # Answers
///
/// 0; 2; 3 where the handle is closed; then 12 where a pass was made; then 1100 to 1199. What the handle holds is then as
/// it was.
#[unsafe(no_mangle)]
pub extern "C" fn exact_ebpf_complete_maps(
    alloc: Global,
    handle: &mut ebpf_handle,
    file: &[u8],
    page_size: u32,
    about: &mut [u8],
    report: &mut ebpf_refusal,
) -> u32
    ensures completed { result ≡ DONE
        → Changes (HasSetting (HasCompleted file.now page_size)) handle.old.held
        handle.new.held }
    ensures quiet { result ≡ DONE → (about.new ≡ about.old) × (report.new ≡ report.old) }
    ensures refused { ¬ (result ≡ DONE)
        → IsRefused (WhyHeld handle.old.held (CannotSet (CannotComplete file.now page_size)))
        result
        handle.old.held handle.new.held about.old about.new report.new }
{
    let Some(mut held) = handle.take(alloc) else {
        return tell(&Refusal::plain(CLOSED), about, report);
    };
    let answer = complete_held(&mut held, file, page_size);
    handle.put(alloc, held);
    reported_number(answer, about, report)
}
