//! The relocations that stay.

ghost use Rattle.std.specs.List.{list_any};
ghost use Rattle.std.specs.Prelude.{◌≡◌, ◌&&◌, IfOk};
ghost use Rattle.std.specs.FinMap as finite;
ghost use Rattle.ebpf_chosen_programs.specs.LeavingOut.{kept_in_section, kept_relocations};
ghost use Rattle.ebpf_chosen_programs.specs.PrivateContracts.{bytes_in_section, holds, stays_among};

use ebpf_base::{ByKey, ByOffset, BySection};
use ebpf_model::Function;
use ebpf_parts::Relocation;
use std::alloc::{AllocError, Global};

/// The bytes of a function in its section.
#[derive(Clone, Copy)]
pub struct CodeBytes {
    /// The offset of the first byte.
    pub start: usize,
    /// The offset behind the last byte.
    pub end: u128,
    /// Whether a remaining program reaches the function.
    pub is_reached: bool,
}

impl CodeBytes {
    /// Whether the bytes hold the byte at an offset.
    fn holds(self, offset: u64) -> bool
        ensures { result ≡ holds offset self }
    {
        self.start as u64 <= offset && u128::from(offset) < self.end
    }
}

/// The bytes of the functions of a section.
fn bytes_in_section(
    alloc: Global,
    functions: &ByKey<Function>,
    reached: &ByKey<()>,
    section: u64,
) -> Result<Vec<CodeBytes>, AllocError>
    ensures { IfOk result (λ bytes.
        bytes.items ≡ bytes_in_section functions.now (finite.contains_key reached.now) section) }
{
    let mut bytes = Vec::new(alloc);
    for (key, function) in functions.iter() {
        if function.section_index.0 as u64 != section {
            continue;
        }
        bytes.push(CodeBytes {
            start: function.section_offset,
            end: function.end(),
            is_reached: reached.contains_key(*key),
        })?;
    }
    Ok(bytes)
}

/// Whether a reached function has the byte at an offset.
fn is_reached(bytes: &[CodeBytes], offset: u64) -> bool
    ensures { result ≡ list_any (λ b. b.is_reached && holds offset b) bytes.now }
{
    bytes.iter().any(|b| b.is_reached && b.holds(offset))
}

/// Whether a function has the byte at an offset.
fn is_code(bytes: &[CodeBytes], offset: u64) -> bool
    ensures { result ≡ list_any (holds offset) bytes.now }
{
    bytes.iter().any(|b| b.holds(offset))
}

/// Whether a relocation at an offset stays.
fn stays(bytes: &[CodeBytes], offset: u64) -> bool
    ensures { result ≡ stays_among bytes.now offset }
{
    is_reached(bytes, offset) || !is_code(bytes, offset)
}

/// The relocations of a section that stay.
fn kept_in_section(
    alloc: Global,
    functions: &ByKey<Function>,
    reached: &ByKey<()>,
    section: u64,
    relocations: &ByOffset<Relocation>,
) -> Result<ByOffset<Relocation>, AllocError>
    ensures { IfOk result (λ kept.
        kept
        ≡ kept_in_section functions.now (finite.contains_key reached.now) section
        relocations.now) }
{
    let bytes = bytes_in_section(alloc, functions, reached, section)?;
    let mut kept = ByOffset::new(alloc);
    for (offset, relocation) in relocations.iter() {
        if !stays(bytes.as_slice(), *offset) {
            continue;
        }
        kept.insert(*offset, *relocation)?;
    }
    Ok(kept)
}

/// The relocations that stay: those in functions that are reached, and those in no function.
pub fn kept_relocations(
    alloc: Global,
    functions: &ByKey<Function>,
    reached: &ByKey<()>,
    relocations: &BySection<ByOffset<Relocation>>,
) -> Result<BySection<ByOffset<Relocation>>, AllocError>
    ensures { IfOk result (λ kept.
        kept
        ≡ kept_relocations functions.now (finite.contains_key reached.now) relocations.now) }
{
    let mut kept = BySection::new(alloc);
    for (section, table) in relocations.iter() {
        let staying = kept_in_section(alloc, functions, reached, *section, table)?;
        kept.insert(*section, staying)?;
    }
    Ok(kept)
}
