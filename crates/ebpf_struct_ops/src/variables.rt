//! The variables of an object that declare maps of struct_ops.

ghost use Rattle.std.specs.Prelude.{◌≡◌, ◌++◌, IfErr, IfOk, Ok, drop, take, true};
ghost use Rattle.std.specs.FinMap as finite;
ghost use Rattle.ebpf_base.specs.Faults.{Gives, Refuses};
ghost use Rattle.ebpf_struct_ops.specs.KernelStructs.{is_struct_ops_memory};
ghost use Rattle.ebpf_btf.specs.Strings.{id_of_name};
ghost use Rattle.ebpf_btf.specs.declared.kind.BtfKind.TheVariants as kinds;
ghost use Rattle.ebpf_elf.specs.Sections.{sections};
ghost use Rattle.ebpf_struct_ops.specs.ObjectVariables.{datasec, datasec_named, entries_of, lacks_offsets, member_of, members_of_variable, ruled_fault, ruled_variables, section_fault, section_variables, struct_ops_variables, struct_ops_variables_fault, variable_with_members, variables_fault, variables_in, variables_in_fault, variables_of, variables_with_members, with_types, with_types_fault};

use crate::bare::{BareVariable, bare_variables, text_or_empty};
use crate::error::StructOpsError;
use crate::places::SectionFacts;
use crate::relocations::programs_put;
use crate::sections::{SectionRule, section_rule};
use crate::type_facts::{members_in, type_behind};
use crate::variable::{StructOpsMember, StructOpsVariable};
use ebpf_base::{ByNumber, Items, Text};
use ebpf_btf::{Btf, BtfError, BtfKind, BtfMember, BtfType, DataSecEntry, Rows};
use ebpf_elf::{ElfFile, ElfSection, Relocations};
use ebpf_object::Object;
use std::alloc::{AllocError, Global};

/// The bytes from an offset on; none past the end.
#[tactic(auto, using(std::proofs::lemmas::List::drop_all))]
fn bytes_from(bytes: &[u8], offset: usize) -> &[u8]
    ensures { result.now ≡ drop offset bytes.now }
{
    if bytes.len() < offset {
        return &[];
    }
    &bytes[offset..]
}

/// The first bytes, or all where there are fewer.
fn first_bytes(bytes: &[u8], count: usize) -> &[u8]
    ensures { result.now ≡ take count bytes.now }
{
    if bytes.len() <= count {
        return bytes;
    }
    &bytes[..count]
}

/// A copy of `size` bytes from an offset on.
fn copied_part(alloc: Global, bytes: &[u8], offset: u32, size: u32) -> Result<Items<u8>, AllocError>
    ensures { IfOk result (λ part. part ≡ take size (drop offset bytes.now)) }
{
    let mut part = Items::new(alloc);
    let from = bytes_from(bytes, offset as usize);
    part.extend_from_slice(first_bytes(from, size as usize))?;
    Ok(part)
}

/// A copy of the text of a key, where there is one.
fn copied_text(found: &ByNumber<Text>, key: u64) -> Result<Option<Text>, AllocError>
    ensures { IfOk result (λ text. text ≡ finite.get found.now key) }
{
    match found.get(key) {
        Some(text) => Ok(Some(text.clone()?)),
        None => Ok(None),
    }
}

/// A member of a STRUCT, with the program that stands there. `base` is the offset of the variable in its section.
fn member_of(
    alloc: Global,
    types: &Btf,
    ty: &BtfType<'_>,
    base: u32,
    found: &ByNumber<Text>,
    member: &BtfMember,
) -> Result<StructOpsMember, StructOpsError>
    ensures { Gives is_struct_ops_memory result
        (Ok (member_of types.now ty.now base found.now member.now)) }
{
    let offset = ty.member_bit_offset(member) / 8;
    let name = text_or_empty(alloc, types, member.name_offset)?;
    let program = copied_text(found, u64::from(base) + u64::from(offset))?;
    Ok(StructOpsMember {
        name,
        offset,
        size: types.type_size(member.btf_type).ok(),
        kind: type_behind(types, member.btf_type).kind(),
        is_bit_field: ty.member_bit_field_size(member) != 0,
        program,
    })
}

/// The members of a STRUCT, with the programs that stand there.
fn members_of_variable(
    alloc: Global,
    types: &Btf,
    ty: &BtfType<'_>,
    base: u32,
    found: &ByNumber<Text>,
) -> Result<Items<StructOpsMember>, StructOpsError>
    ensures { Gives is_struct_ops_memory result
        (Ok (members_of_variable types.now ty.now base found.now)) }
{
    let mut all = Items::new(alloc);
    for member in members_in(ty).iter() {
        all.push(member_of(alloc, types, ty, base, found, &member)?)?;
    }
    Ok(all)
}

/// What the variables of a section have in common.
#[derive(Clone, Copy)]
struct SectionSource<'a> {
    types: &'a Btf,
    bytes: &'a [u8],
    index: usize,
    rule: SectionRule,
}

/// A variable with its members.
fn variable_with_members(
    alloc: Global,
    source: SectionSource<'_>,
    found: &ByNumber<Text>,
    bare: &BareVariable,
) -> Result<StructOpsVariable, StructOpsError>
    ensures { Gives is_struct_ops_memory result
        (Ok (variable_with_members source.entry.types.now source.entry.bytes.now source.entry.index source.entry.rule
        found.now bare.now)) }
{
    let place = bare.place;
    let ty = type_behind(source.types, place.type_id);
    let members = members_of_variable(alloc, source.types, &ty, place.offset, found)?;
    let bytes = copied_part(alloc, source.bytes, place.offset, place.size)?;
    Ok(StructOpsVariable {
        name: bare.name.clone()?,
        section_index: source.index,
        offset: place.offset,
        is_created: source.rule.is_created,
        is_link: source.rule.is_link,
        type_id: place.type_id,
        type_name: bare.type_name.clone()?,
        bytes,
        members,
    })
}

/// The variables with their members.
fn variables_with_members(
    alloc: Global,
    source: SectionSource<'_>,
    found: &ByNumber<Text>,
    bare: &[BareVariable],
) -> Result<Items<StructOpsVariable>, StructOpsError>
    ensures { Gives is_struct_ops_memory result
        (Ok (variables_with_members source.entry.types.now source.entry.bytes.now source.entry.index source.entry.rule
        found.now bare.now)) }
{
    let mut all = Items::new(alloc);
    for variable in bare {
        all.push(variable_with_members(alloc, source, found, variable)?)?;
    }
    Ok(all)
}

/// The entries of a DATASEC.
#[tactic(auto, unfolding(crate::specs::ObjectVariables::entries_of))]
fn entries_of<'a>(ty: &BtfType<'a>) -> Rows<'a, DataSecEntry>
    ensures { result ≡ entries_of ty.now }
{
    match ty {
        BtfType::DataSec { entries, .. } => entries.copy(),
        _ => Rows::of(&[]),
    }
}

/// Whether a DATASEC is as compilers write it, without the offsets of its global variables.
fn lacks_offsets(ty: &BtfType<'_>) -> bool
    ensures { result ≡ lacks_offsets ty.now }
{
    ty.size().unwrap_or(0) == 0
}

/// The id of the first DATASEC of a name.
fn datasec_id(types: &Btf, name: &str) -> Result<Option<u32>, StructOpsError>
    ensures id { IfOk result (λ id. id ≡ id_of_name types.now name.now kinds.DataSec) }
    ensures memory { IfErr result (λ e. is_struct_ops_memory e ≡ true) }
{
    match types.id_by_type_name_kind(name, BtfKind::DataSec) {
        Ok(id) => Ok(Some(id)),
        Err(BtfError::OutOfMemory) => Err(StructOpsError::OutOfMemory),
        Err(_) => Ok(None),
    }
}

/// The first DATASEC of a name.
fn datasec_named<'a>(types: &'a Btf, name: &str) -> Result<Option<BtfType<'a>>, StructOpsError>
    ensures datasec { IfOk result (λ ty. ty ≡ datasec_named types.now name.now) }
    ensures memory { IfErr result (λ e. is_struct_ops_memory e ≡ true) }
{
    match datasec_id(types, name)? {
        Some(id) => Ok(types.get(id as usize)),
        None => Ok(None),
    }
}

/// The first DATASEC of a section's name.
fn datasec<'a>(
    types: &'a Btf,
    section: &ElfSection<'_>,
) -> Result<Option<BtfType<'a>>, StructOpsError>
    ensures datasec { IfOk result (λ ty. ty ≡ datasec types.now section.now) }
    ensures memory { IfErr result (λ e. is_struct_ops_memory e ≡ true) }
{
    match section.name() {
        Ok(name) => datasec_named(types, name),
        Err(_) => Ok(None),
    }
}

/// The variables of a DATASEC.
fn variables_of(
    alloc: Global,
    file: &ElfFile<'_>,
    object: &Object,
    source: SectionSource<'_>,
    ty: &BtfType<'_>,
    relocations: Relocations<'_>,
) -> Result<Items<StructOpsVariable>, StructOpsError>
    ensures variables { IfOk result (λ all.
        all
        ≡ variables_of file.now object.now source.entry.types.now source.entry.bytes.now
        source.entry.index source.entry.rule ty.now relocations.entry) }
    ensures fault { Refuses is_struct_ops_memory result
        (variables_fault file.now object.now source.entry.types.now source.entry.bytes.now source.entry.index ty.now
        relocations.entry) }
{
    let facts = SectionFacts {
        index: source.index,
        length: source.bytes.len(),
        lacks_offsets: lacks_offsets(ty),
    };
    let bare = bare_variables(alloc, file, source.types, facts, &entries_of(ty))?;
    let variables = bare.as_slice();
    let found = programs_put(alloc, file, object, source.types, variables, relocations)?;
    variables_with_members(alloc, source, &found, variables)
}

/// The variables of a section, by the object's types.
fn with_types(
    alloc: Global,
    file: &ElfFile<'_>,
    object: &Object,
    types: &Btf,
    rule: SectionRule,
    section: &ElfSection<'_>,
) -> Result<Items<StructOpsVariable>, StructOpsError>
    ensures variables { IfOk result (λ all.
        all ≡ with_types file.now object.now types.now rule section.now) }
    ensures fault { Refuses is_struct_ops_memory result
        (with_types_fault file.now object.now types.now section.now) }
{
    let index = section.index().0;
    let Some(ty) = datasec(types, section)? else {
        return Err(StructOpsError::NoDatasec { section: index });
    };
    let bytes = match section.data() {
        Ok(bytes) => bytes,
        Err(error) => return Err(StructOpsError::ElfError(error)),
    };
    let source = SectionSource {
        types,
        bytes,
        index,
        rule,
    };
    variables_of(alloc, file, object, source, &ty, section.relocations())
}

/// The variables of a section of struct_ops.
fn ruled_variables(
    alloc: Global,
    file: &ElfFile<'_>,
    object: &Object,
    rule: SectionRule,
    section: &ElfSection<'_>,
) -> Result<Items<StructOpsVariable>, StructOpsError>
    ensures variables { IfOk result (λ all.
        all ≡ ruled_variables file.now object.now rule section.now) }
    ensures fault { Refuses is_struct_ops_memory result
        (ruled_fault file.now object.now section.now) }
{
    match &object.btf {
        Some(types) => with_types(alloc, file, object, types, rule, section),
        None => Err(StructOpsError::NoTypes),
    }
}

/// The variables of a section; none for other sections than those of struct_ops.
fn section_variables(
    alloc: Global,
    file: &ElfFile<'_>,
    object: &Object,
    section: &ElfSection<'_>,
) -> Result<Items<StructOpsVariable>, StructOpsError>
    ensures variables { IfOk result (λ all.
        all ≡ section_variables file.now object.now section.now) }
    ensures fault { Refuses is_struct_ops_memory result
        (section_fault file.now object.now section.now) }
{
    match section_rule(section) {
        Some(rule) => ruled_variables(alloc, file, object, rule, section),
        None => Ok(Items::new(alloc)),
    }
}

/// Some variables, and others behind them.
fn joined(
    all: Items<StructOpsVariable>,
    more: Items<StructOpsVariable>,
) -> Result<Items<StructOpsVariable>, AllocError>
    ensures { IfOk result (λ both. both ≡ all ++ more) }
{
    let mut all = all.into_vec();
    let mut more = more.into_vec();
    all.append(&mut more)?;
    Ok(Items::from_vec(all))
}

/// The variables of the sections of a file.
fn file_variables(
    alloc: Global,
    file: &ElfFile<'_>,
    object: &Object,
) -> Result<Items<StructOpsVariable>, StructOpsError>
    ensures variables { IfOk result (λ all.
        all ≡ variables_in file.now object.now (sections file.now)) }
    ensures fault { Refuses is_struct_ops_memory result
        (variables_in_fault file.now object.now (sections file.now)) }
{
    let mut all = Items::new(alloc);
    for section in file.sections() {
        let more = section_variables(alloc, file, object, &section)?;
        all = joined(all, more)?;
    }
    Ok(all)
}

/// Returns the variables of an object that declare maps of struct_ops, with their members and the programs that stand
/// there.
///
/// The variables are those of the sections `.struct_ops`, `.struct_ops.link`, `?.struct_ops` and `?.struct_ops.link`, in
/// the order of the sections. Only sections of type PROGBITS with bytes count. The variables of a section are the entries
/// of the first DATASEC of its name, in order. An entry states the variable's offset. Where the DATASEC states size 0, as
/// compilers write it, the offset of a global variable is the address of the first symbol of its name in the section.
///
/// Each relocation of such a section puts a program at a member. The member is the first one that begins at the
/// relocation's offset, of the first variable that holds this offset. The program has the name, section and address of
/// the relocation's symbol. Of two relocations at one offset the later one counts.
///
/// `file` holds the bytes of the file that the object was parsed from, in `ParseMode::Lenient`. A name in the types that
/// can't be read is empty.
///
/// libbpf does the same (`init_struct_ops_maps`, `bpf_object__collect_st_ops_relos`). It orders the variables of a
/// section by their offsets. Of the variables of one section `?.struct_ops` it leaves only the first uncreated.
///
/// # Errors
///
/// `ElfError`, where the bytes are no ELF64 file. Else the fault of the first section that has one:
///
/// - `NoTypes`: the object has no types.
/// - `NoDatasec`: the types have no DATASEC of the section's name.
/// - `ElfError`: the section's bytes run past the end of the file.
/// - `Variable`: the first entry that declares no map, with its `VariableFault`.
/// - `Relocation`: the first relocation that puts no program at a member, with its `RelocationFault`.
///
/// `OutOfMemory`: an allocation failed.
#[tactic(auto, unfolding(crate::specs::ObjectVariables::struct_ops_variables, crate::specs::ObjectVariables::struct_ops_variables_fault))]
pub fn struct_ops_variables(
    alloc: Global,
    file: &[u8],
    object: &Object,
) -> Result<Items<StructOpsVariable>, StructOpsError>
    ensures variables { IfOk result (λ all. all ≡ struct_ops_variables file.now object.now) }
    ensures fault { Refuses is_struct_ops_memory result
        (struct_ops_variables_fault file.now object.now) }
{
    match ElfFile::parse(file) {
        Ok(file) => file_variables(alloc, &file, object),
        Err(error) => Err(StructOpsError::ElfError(error)),
    }
}
