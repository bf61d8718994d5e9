//! What relocations make of slots, and why they can't be applied.

ghost use Rattle.std.specs.Bool.{OnTrue};
ghost use Rattle.std.specs.Prelude.{◌≡◌};
ghost use Rattle.ebpf_reloc.specs.Passes.{rule_edit_of, rule_symbols};
ghost use Rattle.ebpf_reloc.specs.declared.edit.Edit.TheVariants.{Stay};

use crate::externs::{ExternRule, extern_edit};
use crate::maps::{MapRule, map_edit};
use ebpf_base::ByIndex;
use ebpf_model::Symbol;
use ebpf_parts::Relocation;
use ebpf_parts::insn::bpf_insn;

/// What a relocation makes of the slot at which it stands.
#[derive(Clone, Copy)]
pub enum Edit {
    /// Both stay: the slot and the one after it.
    Stay,
    /// This is the slot; the one after it stays.
    Slot(bpf_insn),
    /// This is the slot, and this the immediate of the one after it.
    Pair(bpf_insn, i32),
}

/// Why a relocation can't be applied.
#[derive(Clone, Copy)]
pub enum SlotFault {
    /// Its symbol is not there.
    UnknownSymbol,
    /// It can't be applied where it stands.
    InvalidOffset,
    /// Its symbol is in this section, and neither of them has a map.
    SectionNotFound(usize),
    /// 32 signed bits don't hold the place in the map.
    MapAddressOverflow,
    /// Its symbol is none of the object's externs.
    ExternNotFound,
    /// Its extern has no number that the slot needs.
    UnresolvableSymbol,
}

/// A relocation that can't be applied.
#[derive(Clone, Copy)]
pub struct SlotRefusal {
    /// Its offset in the section, in bytes.
    pub offset: u64,
    /// The relocation.
    pub relocation: Relocation,
    /// Why.
    pub fault: SlotFault,
}

/// What a pass makes of relocations.
#[derive(Clone, Copy)]
pub enum Rule<'a> {
    /// Descriptors of maps are written.
    Maps(MapRule<'a>),
    /// Ids and addresses of the kernel are written.
    Externs(ExternRule<'a>),
}

impl Edit {
    /// Whether it leaves the slots as they are.
    pub fn stays(self) -> bool
        ensures { OnTrue result (self ≡ Stay) }
    {
        matches!(self, Edit::Stay)
    }
}

impl<'a> Rule<'a> {
    /// What becomes of a slot with a relocation.
    pub fn edit(
        &self,
        relocation: Relocation,
        slot: bpf_insn,
        has_next: bool,
    ) -> Result<Edit, SlotFault>
        ensures { result ≡ rule_edit_of self.now relocation slot has_next }
    {
        match self {
            Rule::Maps(rule) => map_edit(rule, relocation, slot, has_next),
            Rule::Externs(rule) => extern_edit(rule, relocation, slot, has_next),
        }
    }

    /// The symbols that are read.
    pub fn symbols(&self) -> &'a ByIndex<Symbol>
        ensures { result.now ≡ rule_symbols self.now }
    {
        match self {
            Rule::Maps(rule) => rule.symbols,
            Rule::Externs(rule) => rule.symbols,
        }
    }
}
