//! Look-ups in an object by name or number, and yes-or-no questions about it.

ghost use Rattle.std.specs.Prelude.{◌≡◌, not, ◌&&◌, IfOk, ℕ, List, is_some, codes};
ghost use Rattle.std.specs.List.{list_any};
ghost use Rattle.std.specs.List.Sorted.{IsStrictlySortedBy};
ghost use Rattle.std.specs.Map.{keys_of, values_of};
ghost use Rattle.std.specs.String.{string_cmp};
ghost use Rattle.std.specs.Option.{option_copied};
ghost use Rattle.std.specs.declared.alloc.Global.{Global};
ghost use Rattle.std.specs.FinMap as map;
ghost use Rattle.ebpf_model.specs.Symbols.{text_sections_in};
ghost use Rattle.ebpf_object.specs.LinkedPrograms.{function_of_named_program};
ghost use Rattle.ebpf_object.specs.Names.{name_in_file, has_function_in};
ghost use Rattle.ebpf_object.specs.Prepared.{IsParsed};
ghost use Rattle.ebpf_object.specs.TypedExterns.{has_extern, has_typed, has_strong_typed};
ghost use Rattle.ebpf_parsing.specs.Sections.{first_section_named};
ghost use Rattle.ebpf_parts.specs.declared.parse_mode.ParseMode.{ParseMode};

use crate::object::Object;
use ebpf_base::ByName;
use ebpf_elf::ElfFile;
use ebpf_model::{ExternDesc, Function};
use std::alloc::{AllocError, Global};
use std::collections::{BTreeMap, HashSet};

/// Whether some extern's type is compared with the kernel's. The clauses see the externs in the order of their names.
fn typed_among(externs: &BTreeMap<String, ExternDesc>) -> bool
    ensures found { result ≡ list_any (λ x. x.is_typed) (values_of externs.now.entries) }
    ensures rising { IsStrictlySortedBy string_cmp (keys_of externs.now.entries) }
{
    externs.values().any(|x| x.is_typed)
}

/// As `typed_among`, of the externs that may not stay unresolved.
fn strong_typed_among(externs: &BTreeMap<String, ExternDesc>) -> bool
    ensures found { result
        ≡ list_any (λ x. x.is_typed && not x.is_weak) (values_of externs.now.entries) }
    ensures rising { IsStrictlySortedBy string_cmp (keys_of externs.now.entries) }
{
    externs.values().any(|x| x.is_typed && !x.is_weak)
}

/// Whether some extern's type is compared with the kernel's.
fn any_typed(externs: &ByName<ExternDesc>) -> bool
    ensures { result ≡ has_extern (λ x. x.is_typed) externs.now }
{
    typed_among(externs.as_map())
}

/// Whether some extern's type is compared with the kernel's, and it may not stay unresolved.
fn any_strong_typed(externs: &ByName<ExternDesc>) -> bool
    ensures { result ≡ has_extern (λ x. x.is_typed && not x.is_weak) externs.now }
{
    strong_typed_among(externs.as_map())
}

impl Object {
    /// Whether the object has type information, and an extern whose type is compared with the kernel's type.
    pub fn has_typed_ksyms(&self) -> bool
        ensures { result ≡ has_typed self.now.btf self.now.externs }
    {
        self.btf.is_some() && any_typed(&self.externs)
    }

    /// Whether the object has type information, and an extern that must be resolved and whose type is compared with the
    /// kernel's type.
    pub fn has_strong_typed_ksyms(&self) -> bool
        ensures { result ≡ has_strong_typed self.now.btf self.now.externs }
    {
        self.btf.is_some() && any_strong_typed(&self.externs)
    }

    /// Returns the function of the program with this name.
    ///
    /// The function holds its own slots as parsed. After `relocate_calls` the slots of every function that it reaches
    /// follow. The result is `None` where no program has the name, or the program has no function, which never occurs
    /// in a parsed object.
    pub fn program_function(&self, name: &str) -> Option<&Function>
        ensures { option_copied result ≡ function_of_named_program self.now name.now }
    {
        match self.programs.get(name) {
            Some(program) => self.functions.get(program.function_key()),
            None => None,
        }
    }
}

/// Returns the name of the section with this index in a file.
///
/// A program's `section_index` so gives the name of its section, by which the program is attached. This holds also
/// where two sections share one name, of which `Object::section_infos` has only the later one. The result is `None`
/// where no section has the index, or the section's name can't be read.
pub fn section_name<'a>(file: &ElfFile<'a>, index: usize) -> Option<&'a str>
    ensures { option_copied result ≡ name_in_file file.now index }
{
    let Some(section) = file.section_at(index) else {
        return None;
    };
    match section.name() {
        Ok(name) => Some(name),
        Err(_) => None,
    }
}

impl Object {
    /// Returns the indices of the sections that hold functions, by the functions' keys.
    ///
    /// # Errors
    ///
    /// - `AllocError`: an allocation failed.
    pub fn text_sections(&self, alloc: Global) -> Result<HashSet<usize>, AllocError>
        ensures { IfOk result (λ sections.
            text_sections_in sections ≡ has_function_in self.now.functions) }
    {
        let mut sections = HashSet::new(alloc);
        let mut last = None;
        for (key, _) in self.functions.iter() {
            if last == Some(key.0) {
                continue;
            }
            sections.insert(key.0)?;
            last = Some(key.0);
        }
        Ok(sections)
    }

    /// Whether the file has a section `license`, which states the license. Else `license` is the default `GPL`.
    pub fn states_license(&self) -> bool
        ensures named { result ≡ map.contains_key self.now.section_infos (codes "license") }
        ensures stated { (mode : ParseMode) (file : List ℕ)
            → IsParsed mode file self.now
            → result ≡ is_some (first_section_named (codes "license") file) }
    {
        self.section_infos.contains_key("license")
    }

    /// Returns the allocator that the object was made with. A pass over the object allocates from it.
    pub fn allocator(&self) -> Global
        ensures { (other : Global) → result ≡ other }
    {
        *self.license.as_vec().allocator()
    }
}
