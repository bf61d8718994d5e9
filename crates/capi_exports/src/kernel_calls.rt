//! A kernel's types, opened and closed; and the passes over an object that are given them.

ghost use Rattle.std.specs.Prelude.{◌≡◌, ◌<◌, OnOk, OnErr, IfOk, IfErr, None};
ghost use Rattle.capi_exports.specs.KernelHandles.{HoldsTypes, OfTypes, WhyOfTypes};
ghost use Rattle.capi_exports.specs.KernelPasses.{CannotRelocateTo, CannotResolveIn, HasRelocatedTo, HasResolvedIn};
ghost use Rattle.capi_exports.specs.PassOrder.{CannotPass, HasPassed};
ghost use Rattle.capi_exports.specs.declared.held.Pass.TheVariants.{Types, Resolution};
ghost use Rattle.capi_rows.specs.FileTypes.{types_in, CannotRead};
ghost use Rattle.capi_rows.specs.Handles.{Changes, IsRefused, WhyHeld};
ghost use Rattle.capi_rows.specs.declared.refusal.Refusal.{Refusal};

use crate::handle::ebpf_handle;
use crate::held::{Held, Pass, fault_of_pass};
use crate::kernel::ebpf_types;
use crate::kernel_types::Kernel;
use capi_rows::codes::{CLOSED, DONE};
use capi_rows::info::read_types;
use capi_rows::refusal::{Refusal, ebpf_refusal, reported_number, tell};
use capi_rows::refusals::{ksyms_refusal, types_refusal};
use ebpf_btf::Btf;
use ebpf_object::Object;
use std::alloc::Global;

/// The types that the bytes spell, in a box.
fn read_kernel(alloc: Global, bytes: &[u8]) -> Result<Box<Kernel>, Refusal>
    ensures types { IfOk result (λ b. types_in bytes.now ≡ Ok b.value.types) }
    ensures why { IfErr result (CannotRead bytes.now) }
    ensures refuses { IfErr result (λ r. 0 < r.number) }
{
    let types = read_types(alloc, bytes)?;
    Ok(Box::new(alloc, Kernel { types })?)
}

/// Reads the types of a kernel, which are raw BTF in the byte order that its magic number tells. What the handle held
/// before is closed.
///
/// # Answers
///
/// 0; 2; 200 to 214 where they can't be read. The handle is then as it was.
#[unsafe(no_mangle)]
pub extern "C" fn exact_ebpf_btf_open(alloc: Global, types: &[u8], kernel: &mut ebpf_types) -> u32
    ensures opened { result ≡ DONE → HoldsTypes types.now kernel.new.held }
    ensures stays { ¬ (result ≡ DONE) → kernel.new.held ≡ kernel.old.held }
    ensures refused { ¬ (result ≡ DONE)
        → (r : Refusal) × CannotRead types.now r × (result ≡ r.number) }
{
    match read_kernel(alloc, types) {
        Ok(held) => {
            kernel.put(alloc, held);
            DONE
        }
        Err(refusal) => refusal.number,
    }
}

/// Frees the types, and leaves the handle closed.
#[unsafe(no_mangle)]
pub extern "C" fn exact_ebpf_btf_close(alloc: Global, kernel: &mut ebpf_types)
    ensures { kernel.new.held ≡ None }
{
    let _held = kernel.take(alloc);
}

/// Relocates the functions of an object to a kernel's types.
fn relocate_to(object: &mut Object, target: &Btf) -> Result<(), Refusal>
    ensures ok { OnOk result (HasRelocatedTo target.now object.old object.new) }
    ensures unchanged { OnErr result (object.new ≡ object.old) }
    ensures why { IfErr result (CannotRelocateTo target.now object.old) }
    ensures refuses { IfErr result (λ r. 0 < r.number) }
{
    match object.relocate_btf(target) {
        Ok(()) => Ok(()),
        Err(error) => Err(types_refusal(error)),
    }
}

/// Makes the pass of types.
fn pass_types_to(held: &mut Held, target: &Btf) -> Result<(), Refusal>
    ensures ok { OnOk result
        (HasPassed Types Types (HasRelocatedTo target.now) held.old held.new) }
    ensures unchanged { OnErr result (held.new ≡ held.old) }
    ensures why { IfErr result (CannotPass Types (CannotRelocateTo target.now) held.old) }
    ensures refuses { IfErr result (λ r. 0 < r.number) }
{
    if let Some(number) = fault_of_pass(held.last, Pass::Types) {
        return Err(Refusal::plain(number));
    }
    relocate_to(&mut held.object, target)?;
    held.last = Some(Pass::Types);
    Ok(())
}

/// Relocates the functions of what a handle holds, as `ebpf_relocate_types_with` does.
fn relocate_held_to(
    alloc: Global,
    handle: &mut ebpf_handle,
    target: &Btf,
    about: &mut [u8],
    report: &mut ebpf_refusal,
) -> u32
    ensures relocated { result ≡ DONE
        → Changes (HasPassed Types Types (HasRelocatedTo target.now)) handle.old.held
        handle.new.held }
    ensures quiet { result ≡ DONE → (about.new ≡ about.old) × (report.new ≡ report.old) }
    ensures refused { ¬ (result ≡ DONE)
        → IsRefused (WhyHeld handle.old.held (CannotPass Types (CannotRelocateTo target.now)))
        result handle.old.held handle.new.held about.old about.new report.new }
{
    let Some(mut held) = handle.take(alloc) else {
        return tell(&Refusal::plain(CLOSED), about, report);
    };
    let answer = pass_types_to(&mut held, target);
    handle.put(alloc, held);
    reported_number(answer, about, report)
}

/// Relocates the functions of what a handle holds to a kernel's types: as `ebpf_relocate_types` over the bytes that they
/// were read from.
///
/// # Answers
///
/// 0; 2; 3 where one of the handles is closed; then 11 where the pass is the last that was made, 12 where a later one
/// was; 220 to 249 for the first record that can't be applied, about its section. What the handle holds is then as it
/// was.
#[unsafe(no_mangle)]
pub extern "C" fn exact_ebpf_relocate_types_with(
    alloc: Global,
    handle: &mut ebpf_handle,
    kernel: &mut ebpf_types,
    about: &mut [u8],
    report: &mut ebpf_refusal,
) -> u32
    ensures stays { kernel.new.held ≡ kernel.old.held }
    ensures relocated { result ≡ DONE
        → OfTypes (λ t.
        Changes (HasPassed Types Types (HasRelocatedTo t)) handle.old.held handle.new.held)
        kernel.old.held }
    ensures quiet { result ≡ DONE → (about.new ≡ about.old) × (report.new ≡ report.old) }
    ensures refused { ¬ (result ≡ DONE)
        → IsRefused
        (WhyOfTypes (λ t. WhyHeld handle.old.held (CannotPass Types (CannotRelocateTo t)))
        kernel.old.held) result
        handle.old.held handle.new.held about.old about.new report.new }
{
    let Some(types) = kernel.take(alloc) else {
        return tell(&Refusal::plain(CLOSED), about, report);
    };
    let number = relocate_held_to(alloc, handle, &types.types, about, report);
    kernel.put(alloc, types);
    number
}

/// Finds the externs of an object in a kernel's types and in the text of its symbols.
fn resolve_in(object: &mut Object, kernel: &Btf, symbols: &[u8]) -> Result<(), Refusal>
    ensures ok { OnOk result (HasResolvedIn kernel.now symbols.now object.old object.new) }
    ensures unchanged { OnErr result (object.new ≡ object.old) }
    ensures why { IfErr result (CannotResolveIn kernel.now symbols.now object.old) }
    ensures refuses { IfErr result (λ r. 0 < r.number) }
{
    match object.resolve_text(Some(kernel), symbols) {
        Ok(()) => Ok(()),
        Err(error) => Err(ksyms_refusal(error)),
    }
}

/// Makes the pass that finds externs.
fn pass_resolution_in(held: &mut Held, kernel: &Btf, symbols: &[u8]) -> Result<(), Refusal>
    ensures ok { OnOk result
        (HasPassed Resolution Resolution (HasResolvedIn kernel.now symbols.now) held.old
        held.new) }
    ensures unchanged { OnErr result (held.new ≡ held.old) }
    ensures why { IfErr result
        (CannotPass Resolution (CannotResolveIn kernel.now symbols.now) held.old) }
    ensures refuses { IfErr result (λ r. 0 < r.number) }
{
    if let Some(number) = fault_of_pass(held.last, Pass::Resolution) {
        return Err(Refusal::plain(number));
    }
    resolve_in(&mut held.object, kernel, symbols)?;
    held.last = Some(Pass::Resolution);
    Ok(())
}

/// Finds the externs of what a handle holds, as `ebpf_resolve_externs_with` does.
fn resolve_held_in(
    alloc: Global,
    handle: &mut ebpf_handle,
    kernel: &Btf,
    symbols: &[u8],
    about: &mut [u8],
    report: &mut ebpf_refusal,
) -> u32
    ensures resolved { result ≡ DONE
        → Changes (HasPassed Resolution Resolution (HasResolvedIn kernel.now symbols.now))
        handle.old.held handle.new.held }
    ensures quiet { result ≡ DONE → (about.new ≡ about.old) × (report.new ≡ report.old) }
    ensures refused { ¬ (result ≡ DONE)
        → IsRefused (WhyHeld handle.old.held (CannotPass Resolution
        (CannotResolveIn kernel.now symbols.now))) result
        handle.old.held handle.new.held about.old about.new report.new }
{
    let Some(mut held) = handle.take(alloc) else {
        return tell(&Refusal::plain(CLOSED), about, report);
    };
    let answer = pass_resolution_in(&mut held, kernel, symbols);
    handle.put(alloc, held);
    reported_number(answer, about, report)
}

/// Finds the externs of what a handle holds in a kernel's types, and in its symbols, which are given as the text of
/// /proc/kallsyms: as `ebpf_resolve_externs` over the bytes that the types were read from.
///
/// # Answers
///
/// 0; 2; 3 where one of the handles is closed; then 11 where the pass is the last that was made, 12 where a later one
/// was; 400 to 434 for the first extern that can't be found, about it, or the first line that can't be read: 406 is of a
/// line that is not UTF-8, where lines are wanted. What the handle holds is then as it was.
#[unsafe(no_mangle)]
pub extern "C" fn exact_ebpf_resolve_externs_with(
    alloc: Global,
    handle: &mut ebpf_handle,
    kernel: &mut ebpf_types,
    symbols: &[u8],
    about: &mut [u8],
    report: &mut ebpf_refusal,
) -> u32
    ensures stays { kernel.new.held ≡ kernel.old.held }
    ensures resolved { result ≡ DONE
        → OfTypes (λ t.
        Changes (HasPassed Resolution Resolution (HasResolvedIn t symbols.now)) handle.old.held
        handle.new.held) kernel.old.held }
    ensures quiet { result ≡ DONE → (about.new ≡ about.old) × (report.new ≡ report.old) }
    ensures refused { ¬ (result ≡ DONE)
        → IsRefused
        (WhyOfTypes (λ t.
        WhyHeld handle.old.held (CannotPass Resolution (CannotResolveIn t symbols.now)))
        kernel.old.held) result
        handle.old.held handle.new.held about.old about.new report.new }
{
    let Some(types) = kernel.take(alloc) else {
        return tell(&Refusal::plain(CLOSED), about, report);
    };
    let number = resolve_held_in(alloc, handle, &types.types, symbols, about, report);
    kernel.put(alloc, types);
    number
}
