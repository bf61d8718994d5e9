//! Objects that C opens, also within a limit, copies and closes.

ghost use Rattle.std.specs.Prelude.{◌≡◌, ◌⊎◌, ◌<◌, IfOk, IfErr, None, Some, MatchOption};
ghost use Rattle.capi_rows.specs.Handles.{IsRefused};
ghost use Rattle.capi_exports.specs.PassOrder.{opened};
ghost use Rattle.capi_exports.specs.Handles.{CannotOpen, CannotOpenWithin, parse_mode_of};
ghost use Rattle.ebpf_object.specs.Objects.{object_as, object_of, parse_fault, parse_fault_as};
ghost use Rattle.ebpf_parts.specs.declared.parse_mode.ParseMode.TheVariants.{Lenient, Strict};
ghost use Rattle.ebpf_limits.specs.Within.{within_fault};

use crate::handle::ebpf_handle;
use crate::held::Held;
use capi_rows::codes::{CLOSED, DONE, MEMORY};
use capi_rows::faults::parse_refusal;
use capi_rows::refusal::{Refusal, ebpf_refusal, tell};
use ebpf_limits::{Limits, parse_within};
use ebpf_object::Object;
use ebpf_object::obj::ParseMode;
use std::alloc::{AllocError, Global};

/// The object of a file by a reading, in a box.
fn open_object(alloc: Global, file: &[u8], mode: ParseMode) -> Result<Box<Held>, Refusal>
    ensures object { IfOk result (λ b. b.value ≡ opened (object_as mode file.now)) }
    ensures sound { IfOk result (λ _. parse_fault_as mode file.now ≡ None) }
    ensures why { IfErr result (CannotOpen mode file.now) }
    ensures refuses { IfErr result (λ r. 0 < r.number) }
{
    match Object::parse_as(alloc, file, mode) {
        Ok(object) => Ok(Box::new(alloc, Held { object, last: None })?),
        Err(error) => Err(parse_refusal(error)),
    }
}

/// Puts the object of a file by a reading into a handle. What this held before is closed.
fn open(
    alloc: Global,
    file: &[u8],
    mode: ParseMode,
    handle: &mut ebpf_handle,
    about: &mut [u8],
    report: &mut ebpf_refusal,
) -> u32
    ensures opened { result ≡ DONE
        → (handle.new.held ≡ Some (opened (object_as mode file.now)))
        × (parse_fault_as mode file.now ≡ None) }
    ensures quiet { result ≡ DONE → (about.new ≡ about.old) × (report.new ≡ report.old) }
    ensures refused { ¬ (result ≡ DONE)
        → IsRefused (CannotOpen mode file.now) result handle.old.held handle.new.held about.old
        about.new report.new }
{
    match open_object(alloc, file, mode) {
        Ok(held) => {
            handle.put(alloc, held);
            DONE
        }
        Err(refusal) => tell(&refusal, about, report),
    }
}

/// Opens the object of a file. What the handle held before is closed.
///
/// # Answers
///
/// 0; 2, and 100 to 199 for the fault of the file. The handle is then as it was.
#[unsafe(no_mangle)]
pub extern "C" fn exact_ebpf_open(
    alloc: Global,
    file: &[u8],
    handle: &mut ebpf_handle,
    about: &mut [u8],
    report: &mut ebpf_refusal,
) -> u32
    ensures opened { result ≡ DONE
        → (handle.new.held ≡ Some (opened (object_of file.now))) × (parse_fault file.now ≡ None) }
    ensures quiet { result ≡ DONE → (about.new ≡ about.old) × (report.new ≡ report.old) }
    ensures refused { ¬ (result ≡ DONE)
        → IsRefused (CannotOpen Strict file.now) result handle.old.held handle.new.held
        about.old about.new report.new }
{
    open(alloc, file, ParseMode::Strict, handle, about, report)
}

/// Opens the object of a file that is read broadly, where every section of code is a program's, whatever its name. What
/// the handle held before is closed.
///
/// # Answers
///
/// 0; 2, and 100 to 199 for the fault of the file. The handle is then as it was.
#[unsafe(no_mangle)]
pub extern "C" fn exact_ebpf_open_broad(
    alloc: Global,
    file: &[u8],
    handle: &mut ebpf_handle,
    about: &mut [u8],
    report: &mut ebpf_refusal,
) -> u32
    ensures opened { result ≡ DONE
        → (handle.new.held ≡ Some (opened (object_as Lenient file.now)))
        × (parse_fault_as Lenient file.now ≡ None) }
    ensures quiet { result ≡ DONE → (about.new ≡ about.old) × (report.new ≡ report.old) }
    ensures refused { ¬ (result ≡ DONE)
        → IsRefused (CannotOpen Lenient file.now) result handle.old.held handle.new.held
        about.old about.new report.new }
{
    open(alloc, file, ParseMode::Lenient, handle, about, report)
}

/// A copy of what a handle holds, in a box of its own.
fn copy_of(alloc: Global, held: &Held) -> Result<Box<Held>, AllocError>
    ensures { IfOk result (λ copy. copy.value ≡ held.now) }
{
    let object = held.object.clone()?;
    Ok(Box::new(
        alloc,
        Held {
            object,
            last: held.last,
        },
    )?)
}

/// Makes `copy` hold a copy of what `handle` holds. What `copy` held before is closed.
///
/// # Answers
///
/// 0; 2; 3 where `handle` is closed. `copy` is then as it was.
#[unsafe(no_mangle)]
pub extern "C" fn exact_ebpf_clone(
    alloc: Global,
    handle: &mut ebpf_handle,
    copy: &mut ebpf_handle,
) -> u32
    ensures stays { handle.new.held ≡ handle.old.held }
    ensures copied { result ≡ DONE → copy.new.held ≡ handle.old.held }
    ensures refused { ¬ (result ≡ DONE) → copy.new.held ≡ copy.old.held }
    ensures why { MatchOption handle.old.held (result ≡ CLOSED) (λ _.
        (result ≡ DONE) ⊎ (result ≡ MEMORY)) }
{
    let Some(held) = handle.take(alloc) else {
        return CLOSED;
    };
    let copied = copy_of(alloc, &held);
    handle.put(alloc, held);
    match copied {
        Ok(held) => {
            copy.put(alloc, held);
            DONE
        }
        Err(_) => MEMORY,
    }
}

/// Frees what a handle holds, and leaves it closed.
#[unsafe(no_mangle)]
pub extern "C" fn exact_ebpf_close(alloc: Global, handle: &mut ebpf_handle)
    ensures { handle.new.held ≡ None }
{
    let _held = handle.take(alloc);
}

/// The reading that a flag asks for.
fn parse_mode_of(lenient: u32) -> ParseMode
    ensures { result ≡ parse_mode_of lenient }
{
    if lenient == 0 {
        ParseMode::Strict
    } else {
        ParseMode::Lenient
    }
}

/// The object of a file by a reading within a limit, in a box.
fn open_object_within(
    alloc: Global,
    file: &[u8],
    mode: ParseMode,
    most_bytes: u64,
) -> Result<Box<Held>, Refusal>
    ensures object { IfOk result (λ b. b.value ≡ opened (object_as mode file.now)) }
    ensures sound { IfOk result (λ _. within_fault mode most_bytes file.now ≡ None) }
    ensures why { IfErr result (CannotOpenWithin mode most_bytes file.now) }
    ensures refuses { IfErr result (λ r. 0 < r.number) }
{
    match parse_within(alloc, file, mode, Limits { most_bytes }) {
        Ok(object) => Ok(Box::new(alloc, Held { object, last: None })?),
        Err(error) => Err(parse_refusal(error)),
    }
}

/// Opens the object of a file, lenient where `lenient` is not 0, where what is made of the file owns at most
/// `most_bytes` bytes. What the handle held before is closed.
///
/// # Answers
///
/// 0; 2, and 100 to 199 for the fault of the file, 157 where more would be made. The handle is then as it was.
#[unsafe(no_mangle)]
pub extern "C" fn exact_ebpf_open_within(
    alloc: Global,
    file: &[u8],
    lenient: u32,
    most_bytes: u64,
    handle: &mut ebpf_handle,
    about: &mut [u8],
    report: &mut ebpf_refusal,
) -> u32
    ensures opened { result ≡ DONE
        → (handle.new.held ≡ Some (opened (object_as (parse_mode_of lenient) file.now)))
        × (within_fault (parse_mode_of lenient) most_bytes file.now ≡ None) }
    ensures quiet { result ≡ DONE → (about.new ≡ about.old) × (report.new ≡ report.old) }
    ensures refused { ¬ (result ≡ DONE)
        → IsRefused (CannotOpenWithin (parse_mode_of lenient) most_bytes file.now) result
        handle.old.held handle.new.held about.old about.new report.new }
{
    match open_object_within(alloc, file, parse_mode_of(lenient), most_bytes) {
        Ok(held) => {
            handle.put(alloc, held);
            DONE
        }
        Err(refusal) => tell(&refusal, about, report),
    }
}
