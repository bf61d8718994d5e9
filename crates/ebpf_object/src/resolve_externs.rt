//! The externs of an object, found in a kernel.

ghost use Rattle.std.specs.Prelude.{◌≡◌, IfErr, MatchBool, OnErr, OnOk, ⊤};
ghost use Rattle.std.specs.Iterator.{IsFinite};
ghost use Rattle.std.specs.Option.{option_copied};
ghost use Rattle.ebpf_ksyms.specs.Externs.{IsResolutionFault, IsResolved};
ghost use Rattle.ebpf_ksyms.specs.Addresses.{is_ksyms_memory};
ghost use Rattle.ebpf_ksyms.specs.Sources.{IsRefusedIn, IsResolvedIn, IsRefusedFrom, IsResolvedFrom, IsRefusedBy, IsResolvedBy};

use crate::object::Object;
use ebpf_btf::Btf;
use ebpf_ksyms::{KsymsError, SymbolSource, SymbolText, resolve_lines};
use std::io::{self, BufRead};

impl Object {
    /// Resolves the externs with a kernel's types and the lines that tell its addresses.
    ///
    /// Where the file has no type information, and where all are resolved already, they stay. Of the others, those
    /// with a type are looked up in `kernel_btf`: a function by its name before `___`, a variable by its whole name.
    /// Those without a type are looked up in the lines, if there are any: each line's first word is an address in
    /// hexadecimal digits and its third word a name. A weak extern that is not found gets the address 0 and stays
    /// unresolved. All lines are read, one at a time.
    ///
    /// # Errors
    ///
    /// The first of the externs with a type by name, then of the lines, then of the names that are left:
    /// `TypedKsymRequiresKernelBtf`, `BtfError`, `InvalidExternType`, `FunctionNotFound`, `VariableNotFound`,
    /// `IncompatibleFunctionSignature`, `IncompatibleVariableType`; `KallsymsAccessError` of a line that could not be
    /// read, `KallsymsParseError` of one with a wanted name and no address below 2^64, `AmbiguousResolution` of a
    /// second address; `VariableNotFound` of a name without an address. `OutOfMemory` only where memory was refused.
    /// After a refusal the object is as it was.
    pub fn resolve_lines<I: Iterator<Item = io::Result<String>> + Drop>(
        &mut self,
        kernel_btf: Option<&Btf>,
        lines: I,
    ) -> Result<(), KsymsError>
        requires can { I.can_next lines }
        requires ends { IsFinite (I.remaining lines) }
        ensures ok { OnOk result
            (IsResolved I.next_gives lines self.old.btf (option_copied kernel_btf.entry)
            self.old.externs self.new.externs) }
        ensures fault { IfErr result (λ e.
            MatchBool (is_ksyms_memory e) ⊤
            (IsResolutionFault I.next_gives lines self.old.btf
            (option_copied kernel_btf.entry) self.old.externs e)) }
        ensures others_stay { self.new ≡ record self.old { externs = self.new.externs } }
        ensures unchanged { OnErr result (self.new ≡ self.old) }
    {
        let alloc = self.allocator();
        match resolve_lines(alloc, self.btf.as_ref(), &self.externs, kernel_btf, lines) {
            Ok(externs) => {
                self.externs = externs;
                Ok(())
            }
            Err(error) => Err(error),
        }
    }

    /// Resolves the externs with a kernel's types and the lines of a reader or of a text.
    pub(crate) fn resolve_from<S: SymbolSource>(
        &mut self,
        kernel_btf: Option<&Btf>,
        symbols: S,
    ) -> Result<(), KsymsError>
        ensures ok { OnOk result
            (IsResolvedFrom (S.source symbols) self.old.btf (option_copied kernel_btf.entry)
            self.old.externs self.new.externs) }
        ensures fault { IfErr result (λ e.
            MatchBool (is_ksyms_memory e) ⊤
            (IsRefusedFrom (S.source symbols) self.old.btf (option_copied kernel_btf.entry)
            self.old.externs e)) }
        ensures others_stay { self.new ≡ record self.old { externs = self.new.externs } }
        ensures unchanged { OnErr result (self.new ≡ self.old) }
    {
        let alloc = self.allocator();
        match symbols.resolve(alloc, self.btf.as_ref(), &self.externs, kernel_btf) {
            Ok(externs) => {
                self.externs = externs;
                Ok(())
            }
            Err(error) => Err(error),
        }
    }

    /// Resolves the externs with a kernel's types and the lines of a reader, as `resolve_lines` does: the reader's
    /// bytes up to each byte 0x0a. A read that fails, and a line that is not UTF-8, is `KallsymsAccessError`. Where
    /// no line is wanted nothing is read.
    pub fn resolve_externs<R: BufRead + Drop>(
        &mut self,
        kernel_btf: Option<&Btf>,
        kallsyms: R,
    ) -> Result<(), KsymsError>
        ensures ok { OnOk result
            (IsResolvedIn (R.remaining kallsyms) self.old.btf (option_copied kernel_btf.entry)
            self.old.externs self.new.externs) }
        ensures fault { IfErr result (λ e.
            MatchBool (is_ksyms_memory e) ⊤
            (IsRefusedIn (R.remaining kallsyms) self.old.btf
            (option_copied kernel_btf.entry) self.old.externs e)) }
        ensures others_stay { self.new ≡ record self.old { externs = self.new.externs } }
        ensures unchanged { OnErr result (self.new ≡ self.old) }
    {
        self.resolve_from(kernel_btf, kallsyms)
    }

    /// Resolves the externs with a kernel's types and the lines of a text in memory, split as `resolve_externs` splits
    /// those of a reader. It is refused exactly where there is a fault: `KallsymsAccessError` is that of the first line
    /// that is not UTF-8, where lines are wanted, of kind `InvalidData`.
    pub fn resolve_text(&mut self, kernel_btf: Option<&Btf>, text: &[u8]) -> Result<(), KsymsError>
        ensures ok { OnOk result
            (IsResolvedBy text.now self.old.btf (option_copied kernel_btf.entry)
            self.old.externs self.new.externs) }
        ensures fault { IfErr result (λ e.
            MatchBool (is_ksyms_memory e) ⊤
            (IsRefusedBy text.now self.old.btf (option_copied kernel_btf.entry)
            self.old.externs e)) }
        ensures others_stay { self.new ≡ record self.old { externs = self.new.externs } }
        ensures unchanged { OnErr result (self.new ≡ self.old) }
    {
        self.resolve_from(kernel_btf, SymbolText(text))
    }
}
