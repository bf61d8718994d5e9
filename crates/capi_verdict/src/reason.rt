//! A reason for which programs of an object break on a kernel.

ghost use Rattle.std.specs.Prelude.{◌≡◌, ◌∷◌, [], ◌+◌, length};
ghost use Rattle.capi_rows.specs.Listings.{zero_terminated};
ghost use Rattle.capi_verdict.specs.Reasons.{kind_number, plain_reason, reason_for_all, reason_row, reason_text};

use capi_rows::buffers::{Listing, RowFrom, add_name};
use capi_rows::codes::flag;
use capi_rows::record_rows::slot_or_zeros;
use ebpf_base::Text;
use ebpf_core_relo::RecordSlot;
use std::alloc::{AllocError, Global};

/// The kind of a reason.
#[derive(Clone, Copy)]
pub enum ReasonKind {
    /// A section of CO-RE relocations has none.
    EmptySection,
    /// The kernel lacks an extern.
    Extern,
    /// A pass before linking refuses the object.
    Pass,
    /// A CO-RE relocation is refused.
    Relocation,
    /// The linker refuses the program.
    Linking,
    /// A slot that is reached is poisoned.
    Poisoned,
    /// The kernel lacks a helper function that is called.
    Helper,
    /// The kernel lacks a weak extern that is called.
    Function,
    /// The kernel lacks the type of a map.
    MapType,
    /// The kernel's types lack the attach target.
    Target,
}

impl ReasonKind {
    /// The number of the kind.
    fn number(self) -> u32
        ensures { result ≡ kind_number self }
    {
        match self {
            ReasonKind::EmptySection => 1,
            ReasonKind::Extern => 2,
            ReasonKind::Pass => 3,
            ReasonKind::Relocation => 4,
            ReasonKind::Linking => 5,
            ReasonKind::Poisoned => 6,
            ReasonKind::Helper => 7,
            ReasonKind::Function => 8,
            ReasonKind::MapType => 9,
            ReasonKind::Target => 10,
        }
    }
}

/// A reason for which programs break on a kernel.
#[derive(Drop)]
pub struct Reason {
    /// Its kind.
    pub kind: ReasonKind,
    /// The name of the program, empty where all programs break.
    pub program: Text,
    /// The name of what the kernel lacks or what is refused, empty where it has none.
    pub subject: Text,
    /// The slot of the linked program.
    pub slot: Option<usize>,
    /// The slot of the object's function that is copied there.
    pub function_slot: Option<RecordSlot>,
    /// The number of the CO-RE relocation among the object's.
    pub relocation: Option<usize>,
    /// The number of the helper function, of the extern's symbol or of the map type, else 0.
    pub number: u64,
    /// The number of the refusal, else 0.
    pub fault: u32,
}

impl Reason {
    /// A reason for a program, about what has a name.
    pub fn new(kind: ReasonKind, program: Text, subject: Text) -> Reason
        ensures { result ≡ plain_reason kind program subject }
    {
        Reason {
            kind,
            program,
            subject,
            slot: None,
            function_slot: None,
            relocation: None,
            number: 0,
            fault: 0,
        }
    }

    /// A reason for all programs, about what has a name.
    pub fn for_all(alloc: Global, kind: ReasonKind, subject: Text) -> Reason
        ensures { result ≡ reason_for_all kind subject }
    {
        Reason::new(kind, Text::empty(alloc), subject)
    }
}

/// A reason.
#[repr(C)]
#[derive(Clone, Copy)]
pub struct ebpf_reason {
    /// Where the program's name begins in the text.
    pub name_at: usize,
    /// How many bytes it has, 0 where all programs break.
    pub name_len: usize,
    /// Where the name of what is lacking or refused begins.
    pub subject_at: usize,
    /// How many bytes that has.
    pub subject_len: usize,
    /// The slot of the linked program.
    pub slot: usize,
    /// The index of the section of the function that is copied there.
    pub section: usize,
    /// The function's address there.
    pub address: u64,
    /// The number of the slot in the function.
    pub function_slot: usize,
    /// The number of the CO-RE relocation among the object's.
    pub relocation: usize,
    /// The number of the helper function, of the extern's symbol or of the map type, else 0.
    pub number: u64,
    /// The kind, from 1 on.
    pub kind: u32,
    /// The number of the refusal, else 0.
    pub fault: u32,
    /// 1 where it is of a slot, else 0.
    pub has_slot: u32,
    /// 1 where it is of a CO-RE relocation, else 0.
    pub has_relocation: u32,
}

/// The row of a reason whose names begin at two offsets of the text.
fn reason_row(reason: &Reason, name_at: usize, subject_at: usize) -> ebpf_reason
    ensures { result ≡ reason_row reason.now name_at subject_at }
{
    let copied = slot_or_zeros(reason.function_slot);
    ebpf_reason {
        name_at,
        name_len: reason.program.len(),
        subject_at,
        subject_len: reason.subject.len(),
        slot: reason.slot.unwrap_or(0),
        section: copied.function.0,
        address: copied.function.1,
        function_slot: copied.slot,
        relocation: reason.relocation.unwrap_or(0),
        number: reason.number,
        kind: reason.kind.number(),
        fault: reason.fault,
        has_slot: flag(reason.slot.is_some()),
        has_relocation: flag(reason.relocation.is_some()),
    }
}

impl RowFrom<Reason, ()> for ebpf_reason {
    ghost rows_of = { λ _ r at. reason_row r at (at + length (zero_terminated r.program)) ∷ [] };

    ghost text_of = { λ _ r. reason_text r };

    fn add(
        listing: &mut Listing<ebpf_reason>,
        _context: &(),
        value: &Reason,
    ) -> Result<(), AllocError> {
        let name_at = listing.text.len();
        add_name(&mut listing.text, value.program.as_str())?;
        let subject_at = listing.text.len();
        add_name(&mut listing.text, value.subject.as_str())?;
        listing.rows.push(reason_row(value, name_at, subject_at))?;
        Ok(())
    }
}
