//! What the programs of an object are made of, and the functions that none of them reaches.

ghost use Rattle.std.specs.Prelude.{◌≡◌, false, IfOk, MatchBool, MatchOption, [], fold, not, OnOk};
ghost use Rattle.std.specs.List.{AllZip, filter};
ghost use Rattle.std.specs.BTreeSet.{contains, insert_key};
ghost use Rattle.std.specs.Map.{keys_of};
ghost use Rattle.cli_list.specs.Listings.{AreLayouts, IsLayout, IsOfCopies, IsOfOne, unreached_keys, WritesExterns};
ghost use Rattle.ebpf_model.specs.Memory.{is_memory_at};
ghost use Rattle.ebpf_object.specs.Headline.{linkable};
ghost use Rattle.ebpf_reloc.specs.SlotTargets.{read};
ghost use Rattle.ebpf_base.specs.Maps.{key_cmp};
ghost use Rattle.cli_list.specs.PrivateContracts.{reached_keys};
ghost use Rattle.cli_common.specs.ObjectPrograms.{known_externs};
ghost use Rattle.std.specs.FinMap as finite;

use cli_common::programs::ObjectProgram;
use cli_common::unknown_externs::{add_settings, add_unknown};
use ebpf_base::{ByName, Items, Text};
use ebpf_model::{EbpfRelocationError, ExternDesc, RelocationError};
use ebpf_object::Object;
use ebpf_object::relocation::{CodeCopy, LinkMap, ProgramMaps};
use std::alloc::{AllocError, Global};
use std::collections::BTreeSet;

/// What a program is made of.
#[derive(Drop)]
pub struct ListedLayout {
    /// The slots of the linked program. None where linking refuses.
    pub slots: Option<usize>,
    /// The keys of the functions that it reaches, its own first; where linking refuses its own alone.
    pub functions: Vec<(usize, u64)>,
}

/// A program of one function, which can't be linked.
fn unlinked(alloc: Global, program: &ObjectProgram) -> Result<ListedLayout, AllocError>
    ensures { IfOk result (λ l. IsOfOne program.now l) }
{
    let mut functions = Vec::new(alloc);
    functions.push(program.key)?;
    Ok(ListedLayout {
        slots: None,
        functions,
    })
}

/// What a linked program is made of, by its copies of functions.
fn linked(alloc: Global, copies: &[CodeCopy]) -> Result<ListedLayout, AllocError>
    ensures { IfOk result (λ l. IsOfCopies copies.now l) }
{
    let mut functions = Vec::with_capacity(alloc, copies.len())?;
    let mut slots: usize = 0;
    for copy in copies {
        functions.push(copy.key)?;
        slots = slots.saturating_add(copy.slots);
    }
    Ok(ListedLayout {
        slots: Some(slots),
        functions,
    })
}

/// What a program is made of, by its link map.
fn layout_of_map(
    alloc: Global,
    map: Option<LinkMap>,
    program: &ObjectProgram,
) -> Result<ListedLayout, AllocError>
    ensures { IfOk result (λ l.
        MatchOption map (IsOfOne program.now l) (λ m. IsOfCopies m.copies l)) }
{
    match map {
        Some(map) => Ok(linked(alloc, map.copies.as_slice())?),
        None => Ok(unlinked(alloc, program)?),
    }
}

/// What a program is made of that linking refuses.
fn refused_layout(
    alloc: Global,
    error: &EbpfRelocationError,
    program: &ObjectProgram,
) -> Result<ListedLayout, AllocError>
    ensures { IfOk result (λ l. (is_memory_at error.now ≡ false) × IsOfOne program.now l) }
{
    if is_memory(error) {
        return Err(AllocError);
    }
    Ok(unlinked(alloc, program)?)
}

/// What a program is made of.
fn layout_of(
    alloc: Global,
    maps: &ProgramMaps<'_>,
    program: &ObjectProgram,
) -> Result<ListedLayout, AllocError>
    requires { read maps.now.functions.parts ≡ linkable maps.now.object.now }
    ensures { IfOk result (λ l. IsLayout maps.now.object.now program.now l) }
{
    match maps.of(program.name.as_str()) {
        Ok(map) => layout_of_map(alloc, map, program),
        Err(error) => refused_layout(alloc, &error, program),
    }
}

/// What each program is made of where none can be linked.
pub fn unlinked_layouts(
    alloc: Global,
    programs: &[ObjectProgram],
) -> Result<Items<ListedLayout>, AllocError>
    ensures { IfOk result (λ all. AllZip IsOfOne programs.now all) }
{
    let mut all = Items::new(alloc);
    for program in programs {
        all.push(unlinked(alloc, program)?)?;
    }
    Ok(all)
}

/// What each of some programs is made of.
fn layouts_in(
    alloc: Global,
    maps: &ProgramMaps<'_>,
    programs: &[ObjectProgram],
) -> Result<Items<ListedLayout>, AllocError>
    requires { read maps.now.functions.parts ≡ linkable maps.now.object.now }
    ensures { IfOk result (λ all. AreLayouts maps.now.object.now programs.now all) }
{
    let mut all = Items::new(alloc);
    for program in programs {
        all.push(layout_of(alloc, maps, program)?)?;
    }
    Ok(all)
}

/// What each program is made of, in the order of the programs.
pub fn layouts(
    alloc: Global,
    object: &Object,
    programs: &[ObjectProgram],
) -> Result<Items<ListedLayout>, AllocError>
    ensures { IfOk result (λ all. AreLayouts object.now programs.now all) }
{
    let sections = object.text_sections(alloc)?;
    let Ok(maps) = object.program_maps(&sections) else {
        return Err(AllocError);
    };
    layouts_in(alloc, &maps, programs)
}

/// What each program is made of, where the object's externs were written; else none can be linked.
pub fn layouts_if(
    alloc: Global,
    object: &Object,
    programs: &[ObjectProgram],
    is_written: bool,
) -> Result<Items<ListedLayout>, AllocError>
    ensures { IfOk result (λ all.
        MatchBool is_written (AreLayouts object.now programs.now all)
        (AllZip IsOfOne programs.now all)) }
{
    if is_written {
        layouts(alloc, object, programs)
    } else {
        unlinked_layouts(alloc, programs)
    }
}

/// Adds the functions of a program.
fn add_reached(
    reached: &mut BTreeSet<(usize, u64)>,
    functions: &[(usize, u64)],
) -> Result<(), AllocError>
    ensures { OnOk result
        (reached.new.keys ≡ fold (insert_key key_cmp) reached.old.keys functions.now) }
{
    for function in functions {
        reached.insert(*function)?;
    }
    Ok(())
}

/// The keys of the functions that some program reaches.
fn reached_by_some(
    alloc: Global,
    layouts: &[ListedLayout],
) -> Result<BTreeSet<(usize, u64)>, AllocError>
    ensures { IfOk result (λ reached.
        reached.keys ≡ fold (insert_key key_cmp) [] (reached_keys layouts.now)) }
{
    let mut reached = BTreeSet::new(alloc);
    for layout in layouts {
        add_reached(&mut reached, layout.functions.as_slice())?;
    }
    Ok(reached)
}

/// The keys of an object's functions that aren't among some keys.
fn keys_beside(
    alloc: Global,
    object: &Object,
    reached: &BTreeSet<(usize, u64)>,
) -> Result<Vec<(usize, u64)>, AllocError>
    ensures { IfOk result (λ keys.
        keys.items
        ≡ filter (λ key. not (contains key_cmp reached.now key))
        (keys_of (finite.entries object.now.functions))) }
{
    let mut keys = Vec::new(alloc);
    for (key, _) in object.functions.iter() {
        if reached.contains(key) {
            continue;
        }
        keys.push(*key)?;
    }
    Ok(keys)
}

/// The keys of the functions that no program reaches.
pub fn unreached(
    alloc: Global,
    object: &Object,
    layouts: &[ListedLayout],
) -> Result<Vec<(usize, u64)>, AllocError>
    ensures { IfOk result (λ keys. keys.items ≡ unreached_keys object.now layouts.now) }
{
    let reached = reached_by_some(alloc, layouts)?;
    keys_beside(alloc, object, &reached)
}

/// Whether memory was refused.
pub fn is_memory(error: &EbpfRelocationError) -> bool
    ensures { result ≡ is_memory_at error.now }
{
    matches!(error.error, RelocationError::OutOfMemory)
}

/// The externs of an object as if a kernel had them all.
fn all_known(
    alloc: Global,
    object: &Object,
    settings: &[Text],
) -> Result<ByName<ExternDesc>, AllocError>
    ensures { IfOk result (λ known. known ≡ known_externs object.now.externs settings.now) }
{
    let mut known = ByName::new(alloc);
    add_unknown(&object.externs, &mut known)?;
    add_settings(settings, &mut known)?;
    Ok(known)
}

/// Writes externs as if a kernel had them all, so that what calls them counts as no reference to a function; whether they
/// could be written.
pub fn write_externs(
    alloc: Global,
    object: &mut Object,
    settings: &[Text],
) -> Result<bool, AllocError>
    ensures { IfOk result (λ is_written.
        WritesExterns object.old settings.now object.new is_written) }
{
    object.externs = all_known(alloc, object, settings)?;
    match object.relocate_externs() {
        Ok(()) => Ok(true),
        Err(error) => {
            if is_memory(&error) {
                return Err(AllocError);
            }
            Ok(false)
        }
    }
}
