//! Names of types.

ghost use Rattle.std.specs.Prelude.{◌≡◌, ◌==◌, IfOk, IfSome, Ok};
ghost use Rattle.std.specs.Option.{ok_or};
ghost use Rattle.std.specs.Cow.{cow_str_bytes};
ghost use Rattle.ebpf_base.specs.Faults.{Refuses, Gives, fault_of};
ghost use Rattle.ebpf_btf.specs.Memory.{is_btf_memory};
ghost use Rattle.ebpf_btf.specs.Strings.{type_name, id_of_name, is_name_at, is_essential_name_at};
ghost use Rattle.ebpf_btf.specs.Types.{is_kind};
ghost use Rattle.ebpf_btf.specs.declared.error.BtfError.TheVariants.{OutOfMemory, UnknownBtfTypeName};

use crate::btf::Btf;
use crate::error::BtfError;
use crate::flavors::essential_name;
use crate::kind::BtfKind;
use crate::lossy::reads_essentially_as;
use crate::strings::{is_text_at, read_bytes};
use crate::types::BtfType;
use ebpf_base::Text;
use std::alloc::Global;
use std::borrow::CowStr;

/// Returns whether a type is of a kind.
#[tactic(auto, unfolding(crate::specs::Types::kind_number))]
fn is_kind(ty: &BtfType<'_>, kind: BtfKind) -> bool
    ensures { result ≡ is_kind kind ty.now }
{
    ty.kind() == kind
}

impl Btf {
    /// Returns the name of a type, as `string_at` does; the empty text for a type without a name.
    ///
    /// # Errors
    ///
    /// - `InvalidStringOffset`: the name's offset is outside the strings, or no zero byte follows.
    /// - `OutOfMemory`: out of memory for a copy.
    pub fn type_name(&self, ty: &BtfType<'_>) -> Result<CowStr<'_, Global>, BtfError>
        ensures name { IfOk result (λ name. type_name self.now ty.now ≡ Ok (cow_str_bytes name)) }
        ensures fault { Refuses is_btf_memory result (fault_of (type_name self.now ty.now)) }
    {
        self.string_at(ty.name_offset())
    }

    /// Returns whether the text at an offset of the strings, as `string_at` returns it, is this text.
    ///
    /// The call allocates nothing, and compares at most one byte more than `text` has.
    ///
    /// # Errors
    ///
    /// - `InvalidStringOffset`: the offset is outside the strings, or no zero byte follows.
    pub fn is_name_at(&self, offset: u32, text: &str) -> Result<bool, BtfError>
        ensures { result ≡ is_name_at self.now.strings offset text.now }
    {
        let start = offset as usize;
        if start >= self.readable() {
            return Err(BtfError::InvalidStringOffset { offset: start });
        }
        Ok(is_text_at(self.strings(), offset, text))
    }

    /// Returns whether the text at an offset of the strings and this text have the same essential name: the text before the
    /// first three underscores. The call allocates nothing.
    ///
    /// # Errors
    ///
    /// - `InvalidStringOffset`: the offset is outside the strings, or no zero byte follows.
    pub fn is_essential_name_at(&self, offset: u32, text: &str) -> Result<bool, BtfError>
        ensures { result ≡ is_essential_name_at self.now.strings offset text.now }
    {
        match read_bytes(self.strings(), offset) {
            Ok(bytes) => Ok(reads_essentially_as(bytes, essential_name(text.as_bytes()))),
            Err(e) => Err(e),
        }
    }

    /// Returns a copy of a type's name, for an error; none where the name cannot be read or memory is out.
    pub fn err_type_name(&self, ty: &BtfType<'_>) -> Option<Text>
        ensures { IfSome result (λ name. type_name self.now ty.now ≡ Ok name) }
    {
        let Ok(name) = self.type_name(ty) else {
            return None;
        };
        Text::from_str(self.allocator(), name.as_str()).ok()
    }

    /// Returns the lowest id of a type with this kind and name.
    fn find_named(&self, name: &str, kind: BtfKind) -> Option<u32>
        ensures { result ≡ id_of_name self.now name.now kind }
    {
        for id in 0..self.len() {
            let ty = self.at(id);
            if is_kind(&ty, kind) && is_text_at(self.strings(), ty.name_offset(), name) {
                return Some(id as u32);
            }
        }
        None
    }

    /// Returns the lowest id of a type with this kind and name. A type whose name cannot be read does not match.
    ///
    /// The search copies no name, and compares at most one byte more of each name than `name` has.
    ///
    /// # Errors
    ///
    /// - `UnknownBtfTypeName`: no type of this kind has the name.
    /// - `OutOfMemory`: out of memory for the error's copy of the name.
    pub fn id_by_type_name_kind(&self, name: &str, kind: BtfKind) -> Result<u32, BtfError>
        ensures { Gives is_btf_memory result
            (ok_or (id_of_name self.now name.now kind) (UnknownBtfTypeName name.now)) }
    {
        match self.find_named(name, kind) {
            Some(id) => Ok(id),
            None => Err(BtfError::UnknownBtfTypeName {
                type_name: Text::from_str(self.allocator(), name)?,
            }),
        }
    }
}
