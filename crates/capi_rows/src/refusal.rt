//! A refusal, as C is told of it, and the numbers that its error states.

ghost use Rattle.std.specs.Prelude.{◌≡◌, ◌<◌, ◌++◌, min, take, drop, length, IfErr, OnOk, Some, None};
ghost use Rattle.capi_rows.specs.Refusals.{at_address, at_offset, at_section, at_slot, bits_of_counts, bits_of_places, has_of, no_details, of_count, of_index, of_kind, of_relocation, of_size, of_symbol, of_type, two_addresses, two_sizes, name_of, refusal_with_details, detailed_with_name, plain, refusal_with_name, IsReported, refusal_row};

use crate::codes::{DONE, MEMORY, flag};
use ebpf_base::Text;
use std::alloc::{AllocError, AllocFailed};

/// The numbers that an error states. Each is there where the error has it.
#[derive(Clone, Copy)]
pub struct Details {
    /// The index of an instruction slot in its function.
    pub slot: Option<u64>,
    /// An offset in bytes.
    pub offset: Option<u64>,
    /// The index of a symbol.
    pub symbol: Option<u64>,
    /// An address in a section or in the kernel.
    pub address: Option<u64>,
    /// The second one, where two differ.
    pub other_address: Option<u64>,
    /// The index of a section.
    pub section: Option<u64>,
    /// A size in bytes.
    pub size: Option<u64>,
    /// The second one, where two differ.
    pub other_size: Option<u64>,
    /// The id of a type.
    pub type_id: Option<u64>,
    /// The index of a relocation among those of its section.
    pub relocation: Option<u64>,
    /// The index of a member, an element, a variant or a map.
    pub index: Option<u64>,
    /// How many instructions, members, elements or variants there are.
    pub count: Option<u64>,
    /// The number of a kind.
    pub kind: Option<u64>,
}

impl Details {
    /// No number.
    pub fn none() -> Details
        ensures { result ≡ no_details }
    {
        Details {
            slot: None,
            offset: None,
            symbol: None,
            address: None,
            other_address: None,
            section: None,
            size: None,
            other_size: None,
            type_id: None,
            relocation: None,
            index: None,
            count: None,
            kind: None,
        }
    }

    /// These, and a slot.
    pub fn at_slot(mut self, slot: usize) -> Details
        ensures { result ≡ at_slot slot self }
    {
        self.slot = Some(slot as u64);
        self
    }

    /// These, and an offset.
    pub fn at_offset(mut self, offset: u64) -> Details
        ensures { result ≡ at_offset offset self }
    {
        self.offset = Some(offset);
        self
    }

    /// These, and a symbol.
    pub fn of_symbol(mut self, symbol: usize) -> Details
        ensures { result ≡ of_symbol symbol self }
    {
        self.symbol = Some(symbol as u64);
        self
    }

    /// These, and an address.
    pub fn at_address(mut self, address: u64) -> Details
        ensures { result ≡ at_address address self }
    {
        self.address = Some(address);
        self
    }

    /// These, and two addresses.
    pub fn two_addresses(mut self, first: u64, second: u64) -> Details
        ensures { result ≡ two_addresses first second self }
    {
        self.address = Some(first);
        self.other_address = Some(second);
        self
    }

    /// These, and a section.
    pub fn at_section(mut self, section: usize) -> Details
        ensures { result ≡ at_section section self }
    {
        self.section = Some(section as u64);
        self
    }

    /// These, and a size.
    pub fn of_size(mut self, size: u64) -> Details
        ensures { result ≡ of_size size self }
    {
        self.size = Some(size);
        self
    }

    /// These, and two sizes.
    pub fn two_sizes(mut self, first: u64, second: u64) -> Details
        ensures { result ≡ two_sizes first second self }
    {
        self.size = Some(first);
        self.other_size = Some(second);
        self
    }

    /// These, and a type.
    pub fn of_type(mut self, type_id: u32) -> Details
        ensures { result ≡ of_type type_id self }
    {
        self.type_id = Some(u64::from(type_id));
        self
    }

    /// These, and a relocation.
    pub fn of_relocation(mut self, relocation: usize) -> Details
        ensures { result ≡ of_relocation relocation self }
    {
        self.relocation = Some(relocation as u64);
        self
    }

    /// These, and an index.
    pub fn of_index(mut self, index: usize) -> Details
        ensures { result ≡ of_index index self }
    {
        self.index = Some(index as u64);
        self
    }

    /// These, and how many there are.
    pub fn of_count(mut self, count: usize) -> Details
        ensures { result ≡ of_count count self }
    {
        self.count = Some(count as u64);
        self
    }

    /// These, and the number of a kind.
    pub fn of_kind(mut self, kind: u32) -> Details
        ensures { result ≡ of_kind kind self }
    {
        self.kind = Some(u64::from(kind));
        self
    }

    /// Which places there are: `enum ebpf_detail`, added up.
    fn bits_of_places(&self) -> u32
        ensures { result ≡ bits_of_places self.now }
    {
        flag(self.slot.is_some())
            + 2 * flag(self.offset.is_some())
            + 4 * flag(self.symbol.is_some())
            + 8 * flag(self.address.is_some())
            + 16 * flag(self.other_address.is_some())
            + 32 * flag(self.section.is_some())
    }

    /// Which other numbers there are.
    fn bits_of_counts(&self) -> u32
        ensures { result ≡ bits_of_counts self.now }
    {
        64 * flag(self.size.is_some())
            + 128 * flag(self.other_size.is_some())
            + 256 * flag(self.type_id.is_some())
            + 512 * flag(self.relocation.is_some())
            + 1024 * flag(self.index.is_some())
            + 2048 * flag(self.count.is_some())
            + 4096 * flag(self.kind.is_some())
    }

    /// Which numbers there are: `enum ebpf_detail`, added up.
    pub fn has(&self) -> u32
        ensures { result ≡ has_of self.now }
    {
        self.bits_of_places() + self.bits_of_counts()
    }
}

/// Why a call did not do what it is for: a number, the name of what it is about, where it is about something, and the
/// numbers that its error states.
#[derive(Drop)]
pub struct Refusal {
    pub number: u32,
    pub name: Option<Text>,
    pub details: Details,
}

impl Refusal {
    /// A refusal that is about nothing with a name.
    pub fn plain(number: u32) -> Refusal
        ensures { result ≡ plain number }
    {
        Refusal::with_details(number, Details::none())
    }

    /// A refusal that is about what has a name.
    pub fn with_name(number: u32, name: Text) -> Refusal
        ensures { result ≡ refusal_with_name number name }
    {
        Refusal::named_detailed(number, name, Details::none())
    }

    /// A refusal that is about nothing with a name, and whose error states numbers.
    pub fn with_details(number: u32, details: Details) -> Refusal
        ensures { result ≡ refusal_with_details number details }
    {
        Refusal {
            number,
            name: None,
            details,
        }
    }

    /// A refusal that is about what has a name, and whose error states numbers.
    pub fn named_detailed(number: u32, name: Text, details: Details) -> Refusal
        ensures { result ≡ detailed_with_name number name details }
    {
        Refusal {
            number,
            name: Some(name),
            details,
        }
    }

    fn name_bytes(&self) -> &[u8]
        ensures { result.now ≡ name_of self.now }
    {
        match &self.name {
            Some(name) => name.as_str().as_bytes(),
            None => &[],
        }
    }
}

impl From<AllocError> for Refusal {
    ghost use Rattle.capi_rows.specs.declared.codes.TheConstants.{MEMORY};

    ghost from_gives = { λ _ r. r ≡ plain MEMORY };

    fn from(_error: AllocError) -> Refusal {
        Refusal::plain(MEMORY)
    }
}

impl<T: Drop> From<AllocFailed<T>> for Refusal {
    ghost use Rattle.capi_rows.specs.declared.codes.TheConstants.{MEMORY};

    ghost from_gives = { λ _ r. r ≡ plain MEMORY };

    fn from(_error: AllocFailed<T>) -> Refusal {
        Refusal::plain(MEMORY)
    }
}

/// Writes as much of a name as fits to the front of a buffer, and gives how much that is.
fn write_name(name: &[u8], about: &mut [u8]) -> usize
    ensures about { about.new
        ≡ take (length about.old) name.now ++ drop (length name.now) about.old }
    ensures length { result ≡ min (length name.now) (length about.old) }
{
    let count = name.len().min(about.len());
    about[..count].copy_from_slice(&name[..count]);
    count
}

/// Tells C of a refusal.
pub fn tell(refusal: &Refusal, about: &mut [u8], report: &mut ebpf_refusal) -> u32
    ensures { IsReported refusal.now result about.old about.new report.new }
{
    let name_len = write_name(refusal.name_bytes(), about);
    *report = refusal_row(refusal.number, &refusal.details, name_len);
    refusal.number
}

/// The number of an answer. Where it is a refusal, C is told of it.
pub fn reported_number(
    answer: Result<(), Refusal>,
    about: &mut [u8],
    report: &mut ebpf_refusal,
) -> u32
    ensures about { OnOk answer (about.new ≡ about.old) }
    ensures report { OnOk answer (report.new ≡ report.old) }
    ensures number { OnOk answer (result ≡ DONE) }
    ensures told { IfErr answer (λ refusal.
        IsReported refusal result about.old about.new report.new) }
{
    match answer {
        Ok(()) => DONE,
        Err(refusal) => tell(&refusal, about, report),
    }
}

/// A refusal. A number that its error doesn't state is 0.
#[repr(C)]
#[derive(Clone, Copy)]
pub struct ebpf_refusal {
    /// What the call answers.
    pub number: u32,
    /// Which of the numbers below the error states: `enum ebpf_detail`, added up.
    pub has: u32,
    /// The index of an instruction slot in its function.
    pub slot: u64,
    /// An offset in bytes.
    pub offset: u64,
    /// The index of a symbol.
    pub symbol: u64,
    /// An address in a section or in the kernel.
    pub address: u64,
    /// The second one, where two differ.
    pub other_address: u64,
    /// The index of a section.
    pub section: u64,
    /// A size in bytes.
    pub size: u64,
    /// The second one, where two differ.
    pub other_size: u64,
    /// The id of a type.
    pub type_id: u64,
    /// The index of a relocation among those of its section.
    pub relocation: u64,
    /// The index of a member, an element, a variant or a map.
    pub index: u64,
    /// How many instructions, members, elements or variants there are.
    pub count: u64,
    /// The number of a kind.
    pub kind: u64,
    /// How many bytes of the name stand in the caller's buffer.
    pub name_len: usize,
}

/// The row of a refusal, of whose name so many bytes were written.
#[tactic(auto, unfolding(crate::specs::Refusals::refusal_row))]
pub fn refusal_row(number: u32, details: &Details, name_len: usize) -> ebpf_refusal
    ensures { result ≡ refusal_row number details.now name_len }
{
    ebpf_refusal {
        number,
        has: details.has(),
        slot: details.slot.unwrap_or(0),
        offset: details.offset.unwrap_or(0),
        symbol: details.symbol.unwrap_or(0),
        address: details.address.unwrap_or(0),
        other_address: details.other_address.unwrap_or(0),
        section: details.section.unwrap_or(0),
        size: details.size.unwrap_or(0),
        other_size: details.other_size.unwrap_or(0),
        type_id: details.type_id.unwrap_or(0),
        relocation: details.relocation.unwrap_or(0),
        index: details.index.unwrap_or(0),
        count: details.count.unwrap_or(0),
        kind: details.kind.unwrap_or(0),
        name_len,
    }
}
