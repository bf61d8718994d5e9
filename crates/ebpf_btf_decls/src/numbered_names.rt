//! Names with numbers, and what is said of each.

ghost use Rattle.std.specs.Prelude.{◌≡◌, ℕ, List, [], Ok, Some, OnOk, IfOk, IfErr, is_some, slice_get, true};
ghost use Rattle.ebpf_base.specs.Faults.{Refuses, fault_of};
ghost use Rattle.ebpf_btf.specs.Memory.{is_btf_memory};
ghost use Rattle.ebpf_btf.specs.Strings.{text_at};
ghost use Rattle.ebpf_btf_decls.specs.SectionMaps.{put_at, AreDistinct, AreNumbered, HasNumber};

use ebpf_base::{ByName, Items, Text};
use ebpf_btf::{Btf, BtfError};
use std::alloc::{AllocFailed, Global};
use std::collections::BTreeMap;

/// Names, each once.
#[derive(Drop)]
pub struct NumberedNames {
    /// The names by their numbers, which go up from 0.
    pub names: Items<Text>,
    /// The numbers by the names.
    pub numbers: ByName<usize>,
    /// The numbers by offsets of the names in the strings of types.
    pub offsets: BTreeMap<u32, usize>,
}

impl NumberedNames {
    /// No name.
    pub fn none(alloc: Global) -> NumberedNames
        ensures names { result.names ≡ [] }
        ensures numbered { (strings : List ℕ) → AreNumbered strings result }
    {
        NumberedNames {
            names: Items::new(alloc),
            numbers: ByName::new(alloc),
            offsets: BTreeMap::new(alloc),
        }
    }

    /// The name with a number.
    pub fn name(&self, number: usize) -> &str
        requires { is_some (slice_get self.now.names number) ≡ true }
        ensures { slice_get self.now.names number ≡ Some result.now }
    {
        let Some(name) = self.names.get(number) else {
            unreachable!()
        };
        name.as_str()
    }

    /// The number of a name, which is new where the name is.
    fn number_of(&mut self, alloc: Global, name: &str) -> Result<usize, BtfError>
        requires { AreDistinct self.old.names self.old.numbers }
        ensures number { IfOk result (λ n. HasNumber self.old.names self.new.names name.now n) }
        ensures distinct { OnOk result (AreDistinct self.new.names self.new.numbers) }
        ensures offsets { self.new.offsets ≡ self.old.offsets }
        ensures memory { IfErr result (λ e. is_btf_memory e ≡ true) }
    {
        if let Some(number) = self.numbers.get(name) {
            return Ok(*number);
        }
        let number = self.names.len();
        self.names.push(Text::from_str(alloc, name)?)?;
        self.numbers.insert(String::from_str(alloc, name)?, number)?;
        Ok(number)
    }

    /// The number of the name at an offset, which is read there once.
    pub fn number_at(&mut self, alloc: Global, btf: &Btf, offset: u32) -> Result<usize, BtfError>
        requires { AreNumbered btf.now.strings self.old }
        ensures number { IfOk result (λ n.
            (name : List ℕ)
            × (text_at btf.now.strings offset ≡ Ok name)
            × HasNumber self.old.names self.new.names name n) }
        ensures numbered { OnOk result (AreNumbered btf.now.strings self.new) }
        ensures fault { Refuses is_btf_memory result (fault_of (text_at btf.now.strings offset)) }
    {
        if let Some(number) = self.offsets.get(&offset) {
            return Ok(*number);
        }
        let name = btf.string_at(offset)?;
        let number = self.number_of(alloc, name.as_str())?;
        self.offsets.insert(offset, number)?;
        Ok(number)
    }
}

/// Puts a value at a number, or behind the others.
pub fn put_at<X: Copy + Drop>(
    values: &mut Items<X>,
    number: usize,
    value: X,
) -> Result<(), AllocFailed<X>>
    ensures { OnOk result (values.new ≡ put_at values.old number value) }
{
    match values.replace(number, value) {
        Ok(_before) => Ok(()),
        Err(value) => values.push(value),
    }
}
