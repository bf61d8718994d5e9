//! The outcome of each extern of an object over a kernel.

ghost use Rattle.std.specs.Iterator.{IsFinite};
ghost use Rattle.std.specs.Option.{option_copied};
ghost use Rattle.std.specs.Prelude.{◌≡◌, IfOk, IfErr, MatchBool, ⊤};
ghost use Rattle.ebpf_ksyms.specs.Addresses.{is_ksyms_memory};
ghost use Rattle.ebpf_ksyms.specs.Outcomes.{AreExternOutcomes, IsLineFault, typed_outcomes};

use crate::object::Object;
use ebpf_base::Items;
use ebpf_btf::Btf;
use ebpf_ksyms::{KsymsError, extern_outcomes, typed_outcomes};
pub use ebpf_ksyms::{ExternOutcome, ExternResult};
use std::alloc::AllocError;
use std::io;

impl Object {
    /// The outcome of each extern by the types of a kernel, in the order of the bytes of the names, also behind one
    /// that is refused. The kernel's symbols aren't read. The object stays.
    ///
    /// - An extern that is unresolved and has a type is `Id`, `Absent` or `Refused`, as `resolve_externs` finds it in
    ///   `kernel`.
    /// - An extern that is unresolved and has no type is `Untyped`.
    /// - A resolved extern is `Kept`. If the object has no types, each one is.
    ///
    /// # Errors
    ///
    /// `AllocError`: out of memory, and no other.
    pub fn typed_extern_outcomes(
        &self,
        kernel: Option<&Btf>,
    ) -> Result<Items<ExternOutcome<'_>>, AllocError>
        ensures { IfOk result (λ outcomes.
            outcomes ≡ typed_outcomes self.now.btf (option_copied kernel.entry) self.now.externs) }
    {
        typed_outcomes(self.allocator(), self.btf.as_ref(), &self.externs, kernel)
    }

    /// The outcome of each extern by the types of a kernel and the lines of its symbols, in the order of the bytes of
    /// the names, also behind one that is refused. The object stays.
    ///
    /// Externs with a type and resolved ones are as `typed_extern_outcomes` gives them. One that is unresolved and has
    /// no type is looked up in the lines as `resolve_lines` does: `Address`, else `Absent` if it is weak, else
    /// `Refused`. If no extern needs the lines, none is read.
    ///
    /// # Errors
    ///
    /// The first fault of the lines, whatever the outcomes of externs with a type:
    ///
    /// - `KallsymsAccessError`: a line could not be read;
    /// - `KallsymsParseError`: a line has a wanted name and no address below 2^64;
    /// - `AmbiguousResolution`: a line has a second address of a wanted name;
    /// - `OutOfMemory`: out of memory, also if a line's error says so.
    pub fn extern_outcomes<I: Iterator<Item = io::Result<String>> + Drop>(
        &self,
        kernel: Option<&Btf>,
        lines: I,
    ) -> Result<Items<ExternOutcome<'_>>, KsymsError>
        requires can { I.can_next lines }
        requires ends { IsFinite (I.remaining lines) }
        ensures ok { IfOk result (λ outcomes.
            AreExternOutcomes I.next_gives lines self.now.btf (option_copied kernel.entry)
            self.now.externs outcomes) }
        ensures fault { IfErr result (λ e.
            MatchBool (is_ksyms_memory e) ⊤
            (IsLineFault I.next_gives lines self.now.btf self.now.externs e)) }
    {
        extern_outcomes(
            self.allocator(),
            self.btf.as_ref(),
            &self.externs,
            kernel,
            lines,
        )
    }
}
