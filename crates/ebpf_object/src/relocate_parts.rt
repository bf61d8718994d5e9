//! Types, descriptors of maps and externs written into the functions of an object.

ghost use Rattle.std.specs.Prelude.{◌≡◌, [], MatchBool, Ok, Err, IfOk, IfErr, OnOk, OnErr, None, Some, true};
ghost use Rattle.std.specs.Iterator.{IsFinite};
ghost use Rattle.ebpf_base.specs.Faults.{Refuses};
ghost use Rattle.ebpf_core_relo.specs.Records.{is_memory_in_section, without_texts_at};
ghost use Rattle.ebpf_model.specs.Memory.{is_memory_at};
ghost use Rattle.ebpf_model.specs.Symbols.{text_sections_in};
ghost use Rattle.ebpf_object.specs.WrittenSlots.{relocated_slots, AreRelocatedToTypes, with_maps, maps_fault, with_externs, externs_fault};
ghost use Rattle.ebpf_reloc.specs.Passes.{HoldsOfGivenMaps};
ghost use Rattle.ebpf_reloc.specs.Relocated.{out_of_memory};

use crate::object::Object;
use ebpf_base::{ByKey, Items};
use ebpf_btf::Btf;
use ebpf_core_relo::{BtfRelocationError, put_slots, relocate_slots};
use ebpf_model::EbpfRelocationError;
use ebpf_parts::insn::bpf_insn;
use ebpf_parts::maps::Map;
use std::collections::HashSet;

impl Object {
    /// The slots of the functions that its CO-RE relocations write, by the functions' keys.
    fn relocated_slots(&self, target: &Btf) -> Result<ByKey<Items<bpf_insn>>, BtfRelocationError>
        ensures slots { IfOk result (λ slots. relocated_slots self.now target.now ≡ Ok slots) }
        ensures fault { IfErr result (λ e.
            MatchBool (is_memory_in_section e) (e.section ≡ [])
            (relocated_slots self.now target.now ≡ Err (without_texts_at e))) }
    {
        let alloc = self.allocator();
        let (Some(local), Some(relocations)) = (&self.btf, &self.btf_ext) else {
            return Ok(ByKey::new(alloc));
        };
        relocate_slots(
            alloc,
            &self.functions,
            &self.section_infos,
            local,
            relocations,
            target,
        )
    }

    /// Relocates the functions to a kernel whose types are `target` (CO-RE: the kernel's
    /// Documentation/bpf/llvm_reloc.rst): each CO-RE relocation of `.BTF.ext` is applied to its slot, section by section
    /// and in order, each over those before it. An object without type information or without `.BTF.ext` stays. All but
    /// the slots of functions stays.
    ///
    /// # Errors
    ///
    /// The first fault in this order, with the name of its section: `BtfError` in `section@OFFSET` where the section's
    /// name can't be read, `SectionNotFound` where the object has no section of the name, `FunctionNotFound` where no
    /// function of the section has the slot, then what reading the relocation's local type and access string, its
    /// candidates, their matches and their values answer, then `InvalidInstruction` and `InvalidInstructionIndex` where
    /// the slot can't carry what was found. `OutOfMemory`, with an empty name, only where memory was refused. After a
    /// refusal the object is as it was.
    pub fn relocate_btf(&mut self, target: &Btf) -> Result<(), BtfRelocationError>
        ensures functions { OnOk result
            (AreRelocatedToTypes self.old target.now self.new.functions) }
        ensures fault { IfErr result (λ e.
            MatchBool (is_memory_in_section e) (e.section ≡ [])
            (relocated_slots self.old target.now ≡ Err (without_texts_at e))) }
        ensures others_stay { self.new ≡ record self.old { functions = self.new.functions } }
        ensures unchanged { OnErr result (self.new ≡ self.old) }
    {
        match self.relocated_slots(target) {
            Ok(slots) => {
                put_slots(&mut self.functions, slots);
                Ok(())
            }
            Err(error) => Err(error),
        }
    }
}

impl Object {
    /// Writes the descriptors of maps into the slots that refer to them (RFC 9669, section 5.4). `maps` gives each
    /// map with its name and its descriptor; of maps of one symbol or one section the later one counts.
    /// `text_sections` has the indices of the sections that hold functions. All but the slots of functions stays.
    ///
    /// A relocation of a function refers to the map of its symbol, else to that of the symbol's section. A slot that
    /// refers to a map without data gets source 1 and the descriptor. One that refers to a map with data gets source
    /// 2 and the descriptor, and the slot after it the place in the data: the slot's immediate plus the symbol's
    /// address. Calls of functions, symbols without section and those of `text_sections` are passed over.
    ///
    /// # Errors
    ///
    /// Those of the first function by its key, and of its first relocation by offset, that can't be applied, with the
    /// function's name: `InvalidRelocationOffset` where it does not stand at the beginning of a slot;
    /// `UnknownSymbol`; `SectionNotFound` where there is no map; for a map with data `InvalidRelocationOffset` where
    /// no slot comes after it, and `MapAddressOverflow` where 32 signed bits don't hold the place. `OutOfMemory` only
    /// where memory was refused. After a refusal the object is as it was.
    pub fn relocate_maps<'a, I: Iterator<Item = (&'a str, i32, &'a Map)> + Drop>(
        &mut self,
        maps: I,
        text_sections: &HashSet<usize>,
    ) -> Result<(), EbpfRelocationError>
        requires can { I.can_next maps }
        requires ends { IsFinite (I.remaining maps) }
        ensures ok { OnOk result
            (HoldsOfGivenMaps I.next_gives maps (λ given.
            (self.new ≡ with_maps self.old (text_sections_in text_sections.now) given)
            × (maps_fault self.old (text_sections_in text_sections.now) given ≡ None))) }
        ensures fault { IfErr result (λ e.
            MatchBool (is_memory_at e) (e ≡ out_of_memory)
            (HoldsOfGivenMaps I.next_gives maps (λ given.
            maps_fault self.old (text_sections_in text_sections.now) given
            ≡ Some e))) }
        ensures others_stay { self.new ≡ record self.old { functions = self.new.functions } }
        ensures err { OnErr result (self.new ≡ self.old) }
    {
        let alloc = self.allocator();
        ebpf_reloc::relocate_maps(
            alloc,
            &mut self.functions,
            &self.symbol_table,
            &self.relocations,
            maps,
            text_sections,
        )
    }
}

impl Object {
    /// Writes the externs into the slots that refer to them. An object without type information
    /// has no externs and stays. All but the slots of functions stays.
    ///
    /// A call, code 0x85, of a resolved extern with an id of the kernel gets source 2, the id and offset 0; one of a
    /// weak extern that is not resolved gets no registers, offset 0 and the immediate 2,002,000,000 plus the symbol's
    /// number, modulo 2^32. A load of 64 bits, code 0x18, gets the id with source 3, and 0 in the slot after it;
    /// without an id the address with source 0, its low half in the slot and its high half in the one after it;
    /// without both, where the extern is weak, the address 0. Relocations to other symbols are passed over.
    ///
    /// # Errors
    ///
    /// Those of the first function by its key, and of its first relocation by offset, that can't be applied, with the
    /// function's name: `InvalidRelocationOffset` where it does not stand at the beginning of a slot;
    /// `UnknownSymbol`; `ExternNotFound` where no extern has the symbol's name; `UnresolvableSymbol` where what the
    /// slot needs is not known; `InvalidRelocationOffset` for another code, and for a load where no slot comes after
    /// it. `OutOfMemory` only where memory was refused. After a refusal the object is as it was.
    pub fn relocate_externs(&mut self) -> Result<(), EbpfRelocationError>
        ensures ok { OnOk result (self.new ≡ with_externs self.old) }
        ensures fault { Refuses is_memory_at result (externs_fault self.old) }
        ensures memory { IfErr result (λ e. is_memory_at e ≡ true → e ≡ out_of_memory) }
        ensures others_stay { self.new ≡ record self.old { functions = self.new.functions } }
        ensures err { OnErr result (self.new ≡ self.old) }
    {
        if self.btf.is_none() {
            return Ok(());
        }
        let alloc = self.allocator();
        ebpf_reloc::relocate_externs(
            alloc,
            &mut self.functions,
            &self.symbol_table,
            &self.relocations,
            &self.externs,
        )
    }
}
