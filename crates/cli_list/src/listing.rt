//! What an object has.

ghost use Rattle.std.specs.Prelude.{◌≡◌, ℕ, List, IfOk, Some};
ghost use Rattle.std.specs.Option.{option_copied};
ghost use Rattle.cli_list.specs.Listings.{extern_row, extern_rows, is_func, is_function, AreObjectLayouts, IsListed, IsListing, IsWanted};
ghost use Rattle.cli_list.specs.Listings.{file_type_count, read_type_count, section_type_count, slot_count, stated_license, types_section, users_of};
ghost use Rattle.cli_list.specs.RecordCounts.{record_total};
ghost use Rattle.cli_list.specs.StructOps.{maps_or_none};
ghost use Rattle.ebpf_btf.specs.Reading.{type_info_of};
ghost use Rattle.ebpf_object.specs.declared.object.Object.{Object};

use crate::arena::listed_variables;
use crate::layout::{ListedLayout, layouts_if, unreached, write_externs};
use crate::records::{RecordCounts, counted_records, record_total};
use crate::struct_ops::declared_struct_ops;
use crate::users::{helper_users, map_users};
use cli_common::kconfig_externs::object_settings;
use cli_common::map_uses::{MapUse, map_uses};
use cli_common::names::EscapedName;
use cli_common::programs::{ObjectProgram, object_programs};
use ebpf_base::{ByKey, ByName, ByNumber, Items, Text};
use ebpf_btf::{Btf, BtfError, BtfType, Endianness};
use ebpf_elf::{ElfFile, ElfSection};
use ebpf_model::ExternDesc;
use ebpf_object::Object;
use ebpf_object::variables::Variable;
use ebpf_struct_ops::{StructOpsError, StructOpsVariable};
use std::alloc::{AllocError, Global};
use std::{fmt, str};

/// Bytes as text shows them: a text as a name is shown, and other bytes one by one, `\xNN` where they aren't printable
/// ASCII.
#[derive(Clone, Copy)]
pub struct ShownBytes<'a>(pub &'a [u8]);

/// Writes a byte of what is no text.
fn write_byte<W: fmt::Write>(f: &mut fmt::Formatter<W>, byte: u8) -> fmt::Result {
    if byte == b'\\' || !matches!(byte, b' '..=b'~') {
        return write!(f, "\\x{byte:02x}");
    }
    f.write_char(char::from(byte))
}

impl fmt::Display for ShownBytes<'_> {
    fn fmt<W: fmt::Write>(&self, f: &mut fmt::Formatter<W>) -> fmt::Result {
        if let Ok(text) = str::from_utf8(self.0) {
            let text = EscapedName(text);
            return write!(f, "{text}");
        }
        for byte in self.0 {
            write_byte(f, *byte)?;
        }
        Ok(())
    }
}

/// An extern.
#[derive(Drop)]
pub struct Extern {
    /// Its name.
    pub name: Text,
    /// Whether it is a function; else it is a variable.
    pub is_function: bool,
    /// Whether its type is compared with the kernel's.
    pub is_typed: bool,
    /// Whether it may be absent.
    pub is_weak: bool,
}

/// What stands in an object before its externs are written.
#[derive(Drop)]
pub struct ObjectContents {
    /// The programs, in byte order of their names.
    pub programs: Vec<ObjectProgram>,
    /// The externs, in byte order of their names.
    pub externs: Items<Extern>,
    /// The names of the externs that the kernel's configuration gives.
    pub settings: Items<Text>,
    /// The maps that functions use.
    pub map_uses: ByKey<Items<MapUse>>,
    /// The maps of struct_ops, or the reason why they can't be read.
    pub struct_ops: Result<Items<StructOpsVariable>, StructOpsError>,
    /// How many types the file has, where it has some.
    pub types: Option<usize>,
}

/// What an object has, table by table.
#[derive(Drop)]
pub struct ObjectListing<'a> {
    /// The object.
    pub object: &'a Object,
    /// What stood in it.
    pub wanted: &'a ObjectContents,
    /// What each program is made of, in the order of the programs.
    pub layouts: &'a Items<ListedLayout>,
    /// The programs that use a map, by the map's name.
    pub map_users: ByName<Items<usize>>,
    /// The programs that call a helper function, by its number.
    pub helper_users: ByNumber<Items<usize>>,
    /// How many CO-RE records ask what of which type.
    pub records: RecordCounts,
    /// The functions that no program reaches.
    pub unreached: Vec<(usize, u64)>,
    /// The global variables, if the object has an arena.
    pub variables: Items<Variable<'a>>,
}

/// Whether the type of an id is a function.
#[tactic(auto, unfolding(crate::specs::Listings::is_func))]
fn is_func(types: &Btf, id: u32) -> bool
    ensures { result ≡ is_func types.now id }
{
    match types.type_by_id(id) {
        Ok(BtfType::Func { .. }) => true,
        _ => false,
    }
}

/// Whether the type of an id is a function; without types none is.
fn is_function(types: Option<&Btf>, id: u32) -> bool
    ensures { result ≡ is_function (option_copied types.entry) id }
{
    match types {
        Some(types) => is_func(types, id),
        None => false,
    }
}

/// An extern of a name.
fn extern_of(
    alloc: Global,
    types: Option<&Btf>,
    name: &str,
    known: &ExternDesc,
) -> Result<Extern, AllocError>
    ensures { IfOk result (λ row. row ≡ extern_row (option_copied types.entry) name.now known.now) }
{
    Ok(Extern {
        name: Text::from_str(alloc, name)?,
        is_function: is_function(types, known.btf_id),
        is_typed: known.is_typed,
        is_weak: known.is_weak,
    })
}

/// The externs of an object.
fn externs(alloc: Global, object: &Object) -> Result<Items<Extern>, AllocError>
    ensures { IfOk result (λ rows. rows ≡ extern_rows object.now) }
{
    let mut all = Items::new(alloc);
    for (name, known) in object.externs.iter() {
        all.push(extern_of(alloc, object.btf.as_ref(), name.as_str(), known)?)?;
    }
    Ok(all)
}

/// Returns the number of types in the bytes of a section `.BTF`, void aside; none where they can't be read.
fn type_count(alloc: Global, bytes: &[u8], order: Endianness) -> Result<Option<usize>, AllocError>
    ensures { IfOk result (λ count. count ≡ read_type_count (type_info_of order bytes.now)) }
{
    match Btf::parse(alloc, bytes, order) {
        Ok(types) => Ok(Some(types.len().saturating_sub(1))),
        Err(BtfError::OutOfMemory) => Err(AllocError),
        Err(_) => Ok(None),
    }
}

/// Returns the number of types in a section `.BTF`.
fn section_types(
    alloc: Global,
    section: &ElfSection<'_>,
    order: Endianness,
) -> Result<Option<usize>, AllocError>
    ensures { IfOk result (λ count. count ≡ section_type_count order (Some section.now)) }
{
    match section.data() {
        Ok(bytes) => type_count(alloc, bytes, order),
        Err(_) => Ok(None),
    }
}

/// Returns the number of types in the section `.BTF` of a file that is read.
fn named_types(
    alloc: Global,
    file: &ElfFile<'_>,
    order: Endianness,
) -> Result<Option<usize>, AllocError>
    ensures { IfOk result (λ count. count ≡ section_type_count order (types_section file.now)) }
{
    match file.section_by_name(".BTF") {
        Some(section) => section_types(alloc, &section, order),
        None => Ok(None),
    }
}

/// Returns the number of types in a file's section `.BTF`, void aside; none where it has none. Those of its object may be
/// more, by the variable that stands for the kernel's functions.
#[tactic(auto, unfolding(crate::specs::Listings::file_type_count))]
fn file_types(alloc: Global, file: &[u8], order: Endianness) -> Result<Option<usize>, AllocError>
    ensures { IfOk result (λ count. count ≡ file_type_count order file.now) }
{
    match ElfFile::parse(file) {
        Ok(file) => named_types(alloc, &file, order),
        Err(_) => Ok(None),
    }
}

/// What stands in an object.
pub fn wanted_by(alloc: Global, file: &[u8], object: &Object) -> Result<ObjectContents, AllocError>
    ensures { IfOk result (λ wanted. IsWanted file.now object.now wanted) }
{
    let programs = object_programs(alloc, file, object)?;
    let externs = externs(alloc, object)?;
    let settings = object_settings(alloc, object)?;
    let map_uses = map_uses(alloc, object)?;
    let struct_ops = declared_struct_ops(alloc, file, object)?;
    let types = file_types(alloc, file, object.endianness)?;
    Ok(ObjectContents {
        programs,
        externs,
        settings,
        map_uses,
        struct_ops,
        types,
    })
}

/// What each program of an object is made of. Its externs are written meanwhile.
pub fn layouts_of(
    alloc: Global,
    object: &mut Object,
    wanted: &ObjectContents,
) -> Result<Items<ListedLayout>, AllocError>
    ensures { IfOk result (λ layouts. AreObjectLayouts object.old wanted.now object.new layouts) }
{
    let is_written = write_externs(alloc, object, wanted.settings.as_slice())?;
    layouts_if(alloc, object, wanted.programs.as_slice(), is_written)
}

/// What an object has, whose externs are written.
pub fn listing_of<'a>(
    alloc: Global,
    object: &'a Object,
    wanted: &'a ObjectContents,
    layouts: &'a Items<ListedLayout>,
) -> Result<ObjectListing<'a>, AllocError>
    ensures tables { IfOk result (λ listing. IsListing object.now wanted.now layouts.now listing) }
    ensures listed { (file : List ℕ) (parsed : Object)
        → IsWanted file parsed wanted.now
        → AreObjectLayouts parsed wanted.now object.now layouts.now
        → IfOk result (λ listing. IsListed file parsed listing) }
{
    let made = layouts.as_slice();
    let map_users = map_users(alloc, &wanted.map_uses, made)?;
    let helper_users = helper_users(alloc, object, made)?;
    let records = counted_records(alloc, object)?;
    let unreached = unreached(alloc, object, made)?;
    let variables = listed_variables(alloc, object)?;
    Ok(ObjectListing {
        object,
        wanted,
        layouts,
        map_users,
        helper_users,
        records,
        unreached,
        variables,
    })
}

impl<'a> ObjectListing<'a> {
    /// Returns the license, where the file states one.
    pub fn license(&self) -> Option<&[u8]>
        ensures { option_copied result ≡ stated_license self.now.object.now }
    {
        if self.object.states_license() {
            Some(self.object.license.as_slice())
        } else {
            None
        }
    }

    /// Returns the number of CO-RE relocations.
    pub fn record_count(&self) -> usize
        ensures { result ≡ record_total self.now.object.now }
    {
        record_total(self.object)
    }

    /// Returns the number of slots of the function at a key; 0 where there is none.
    pub fn slots_of(&self, key: (usize, u64)) -> usize
        ensures { result ≡ slot_count self.now.object.now key }
    {
        match self.object.functions.get(key) {
            Some(function) => function.instructions.len(),
            None => 0,
        }
    }

    /// Returns the maps of struct_ops; none where they can't be read.
    pub fn struct_ops(&self) -> &[StructOpsVariable]
        ensures { result.now ≡ maps_or_none self.now.wanted.now.struct_ops }
    {
        match &self.wanted.struct_ops {
            Ok(maps) => maps.as_slice(),
            Err(_) => &[],
        }
    }

    /// Returns the numbers of the programs that use the map of a name.
    pub fn users_of_map(&self, name: &str) -> &[usize]
        ensures { result.now ≡ users_of self.now.map_users name.now }
    {
        match self.map_users.get(name) {
            Some(numbers) => numbers.as_slice(),
            None => &[],
        }
    }
}
