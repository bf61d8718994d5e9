//! A file's bytes to finished programs.

ghost use Rattle.std.specs.Prelude.{◌≡◌, ℕ, List, IfOk, IfErr, OnOk, OnErr};
ghost use Rattle.ebpf_object.specs.Headline.{Headline};
ghost use Rattle.ebpf_object.specs.UnchangedFields.{KeepsOthers};
ghost use Rattle.ebpf_object.specs.Objects.{object_of};
ghost use Rattle.ebpf_object.specs.Prepared.{IsParsed, IsStageFault, IsFirstPrepareFault, RefusesPreparing, Stages};
ghost use Rattle.ebpf_object.specs.Stages.{chosen};
ghost use Rattle.ebpf_parts.specs.declared.parse_mode.ParseMode.{ParseMode};
ghost use Rattle.ebpf_parts.specs.declared.parse_mode.ParseMode.TheVariants.{Strict};

use crate::clones::{copy_keys, copy_names};
pub use crate::explained::Explained;
pub use crate::missing::{check_descriptors, check_externs, relocate_complete_maps};
use crate::object::Object;
pub use crate::own_maps::{MapWithFd, numbered_descriptors, own_maps, relocate_own_maps};
pub use crate::prepare_error::PrepareError;
use crate::stages::run_stages;
pub use crate::stages::{resolve, write_externs, write_map_fds};
use ebpf_btf::Btf;
pub use ebpf_ksyms::{SymbolSource, SymbolText};
use std::alloc::Global;

/// No symbols, for `prepare` where no extern without a type is resolved.
pub const NO_SYMBOLS: SymbolText<'static> = SymbolText(&[]);

/// The passes over an object that are chosen.
#[derive(Clone, Copy)]
pub struct Steps<'a> {
    /// A kernel's types, where functions are to be relocated to them.
    pub target_btf: Option<&'a Btf>,
    /// Names of maps with their descriptors, where these are to be written.
    ///
    /// Give one for every map that a slot refers to, also for `.bss`, `.data` and `.rodata` with the variables. Where
    /// `complete` is false, a slot whose own map has none gets the descriptor of another map of its section, and is refused
    /// only where no map of the section has one; a name that the object lacks is passed over. Of maps of one symbol or
    /// one section the later one counts.
    pub map_fds: Option<&'a [(&'a str, i32)]>,
    /// How externs are resolved, before they are written: `None` leaves them alone, `Some(None)` resolves them by the
    /// kernel's symbols alone, `Some(Some(kernel))` by its types too.
    pub externs: Option<Option<&'a Btf>>,
    /// Whether programs are linked with the functions that they reach.
    pub calls: bool,
    /// Whether what is missing is refused. Where `map_fds` are chosen, each of their names has to be that of a map, and each
    /// slot's own map has to have one (`Object::maps_without_descriptors`). Where `calls` are chosen, no call of an extern
    /// may be unwritten when linking begins (`Object::unwritten_externs`).
    pub complete: bool,
}

/// Runs the chosen passes over an object, which comes back.
fn run_all<K: SymbolSource>(
    alloc: Global,
    object: Object,
    steps: &Steps<'_>,
    kallsyms: K,
) -> Result<Object, PrepareError>
    ensures stages { IfOk result (Stages (chosen steps.now) (K.source kallsyms) object) }
    ensures others_stay { IfOk result (KeepsOthers object) }
    ensures fault { IfErr result
        (RefusesPreparing (IsStageFault (chosen steps.now) (K.source kallsyms) object)) }
{
    let mut prepared = object;
    match run_stages(alloc, &mut prepared, steps, kallsyms) {
        Ok(()) => Ok(prepared),
        Err(error) => Err(error),
    }
}

/// An object after the chosen passes, in the order in which `prepare` has them. So a loader parses a file, makes the maps
/// that the object lists, and prepares the same object with their descriptors. After a refusal the object is gone.
///
/// # Errors
///
/// Those of `prepare`, but `Parse`.
pub fn prepare_object<K: SymbolSource>(
    alloc: Global,
    object: Object,
    steps: &Steps<'_>,
    kallsyms: K,
) -> Result<Object, PrepareError>
    ensures stages { IfOk result (Stages (chosen steps.now) (K.source kallsyms) object) }
    ensures headline { (mode : ParseMode) (file : List ℕ)
        → IsParsed mode file object
        → IfOk result (Headline (chosen steps.now) (K.source kallsyms) mode file) }
    ensures others_stay { IfOk result (KeepsOthers object) }
    ensures fault { IfErr result
        (RefusesPreparing (IsStageFault (chosen steps.now) (K.source kallsyms) object)) }
    ensures first_fault { (mode : ParseMode) (file : List ℕ)
        → IsParsed mode file object
        → IfErr result
        (RefusesPreparing
        (IsFirstPrepareFault (chosen steps.now) (K.source kallsyms) mode file)) }
{
    run_all(alloc, object, steps, kallsyms)
}

/// A copy of an object after the chosen passes, as `prepare_object` gives it. The object stays as it is, so the names of its
/// maps may be lent to `steps`, and one parsed file serves several kernels.
///
/// # Errors
///
/// Those of `prepare`, but `Parse`.
pub fn prepare_copy<K: SymbolSource>(
    alloc: Global,
    object: &Object,
    steps: &Steps<'_>,
    kallsyms: K,
) -> Result<Object, PrepareError>
    ensures stages { IfOk result (Stages (chosen steps.now) (K.source kallsyms) object.now) }
    ensures headline { (mode : ParseMode) (file : List ℕ)
        → IsParsed mode file object.now
        → IfOk result (Headline (chosen steps.now) (K.source kallsyms) mode file) }
    ensures others_stay { IfOk result (KeepsOthers object.now) }
    ensures fault { IfErr result
        (RefusesPreparing (IsStageFault (chosen steps.now) (K.source kallsyms) object.now)) }
    ensures first_fault { (mode : ParseMode) (file : List ℕ)
        → IsParsed mode file object.now
        → IfErr result
        (RefusesPreparing
        (IsFirstPrepareFault (chosen steps.now) (K.source kallsyms) mode file)) }
{
    let Ok(copy) = object.clone() else {
        return Err(PrepareError::OutOfMemory);
    };
    prepare_object(alloc, copy, steps, kallsyms)
}

/// Runs the chosen passes over an object where it stands, as `prepare_object` does. The functions and the externs are
/// copied for it; after a refusal these copies stand, and the object is as it was.
///
/// # Errors
///
/// Those of `prepare`, but `Parse`.
pub fn prepare_in_place<K: SymbolSource>(
    alloc: Global,
    object: &mut Object,
    steps: &Steps<'_>,
    kallsyms: K,
) -> Result<(), PrepareError>
    ensures stages { OnOk result
        (Stages (chosen steps.now) (K.source kallsyms) object.old object.new) }
    ensures headline { (mode : ParseMode) (file : List ℕ)
        → IsParsed mode file object.old
        → OnOk result (Headline (chosen steps.now) (K.source kallsyms) mode file object.new) }
    ensures others_stay { KeepsOthers object.old object.new }
    ensures fault { IfErr result
        (RefusesPreparing (IsStageFault (chosen steps.now) (K.source kallsyms) object.old)) }
    ensures first_fault { (mode : ParseMode) (file : List ℕ)
        → IsParsed mode file object.old
        → IfErr result
        (RefusesPreparing
        (IsFirstPrepareFault (chosen steps.now) (K.source kallsyms) mode file)) }
    ensures unchanged { OnErr result (object.new ≡ object.old) }
{
    let Ok(functions) = copy_keys(&object.functions) else {
        return Err(PrepareError::OutOfMemory);
    };
    let Ok(externs) = copy_names(&object.externs) else {
        return Err(PrepareError::OutOfMemory);
    };
    match run_stages(alloc, object, steps, kallsyms) {
        Ok(()) => Ok(()),
        Err(error) => {
            object.functions = functions;
            object.externs = externs;
            Err(error)
        }
    }
}

/// The object that the bytes of an ELF64 file are, after the chosen passes in this order: functions relocated to a
/// kernel's types, descriptors of the object's own maps, externs resolved and then written, programs linked with the
/// functions that they reach. `kallsyms` has the lines of the kernel's symbols: a reader, or a `SymbolText` with a text in
/// memory. The text sections are those of the functions' keys.
///
/// # Errors
///
/// The first of these faults, in this order.
///
/// - `Parse`: with that of `Object::parse`.
/// - `UnknownMap`, where `Steps::complete`: a descriptor has a name that no map of the object has; the first such name.
/// - `MissingDescriptor`, where `Steps::complete`: a slot's own map has no descriptor; the map of the first such slot.
/// - `Types`: with that of `Object::relocate_btf`.
/// - `Maps`: with that of `Object::relocate_maps`.
/// - `Ksyms`: with that of `Object::resolve_externs`.
/// - `Externs`: with that of `Object::relocate_externs`.
/// - `UnwrittenExtern`, where `Steps::complete` and `Steps::calls`: a call of an extern is not written; the first one's.
/// - `Calls`: with that of `Object::relocate_calls`.
/// - `OutOfMemory`, and the stages' own: only where memory was refused.
pub fn prepare<K: SymbolSource>(
    alloc: Global,
    bytes: &[u8],
    steps: &Steps<'_>,
    kallsyms: K,
) -> Result<Object, PrepareError>
    ensures headline { IfOk result
        (Headline (chosen steps.now) (K.source kallsyms) Strict bytes.now) }
    ensures others_stay { IfOk result (λ o. KeepsOthers (object_of bytes.now) o) }
    ensures fault { IfErr result
        (RefusesPreparing
        (IsFirstPrepareFault (chosen steps.now) (K.source kallsyms) Strict bytes.now)) }
{
    match Object::parse(alloc, bytes) {
        Ok(object) => prepare_object(alloc, object, steps, kallsyms),
        Err(error) => Err(PrepareError::Parse(error)),
    }
}
