//! What linking reads of an object.

use ebpf_base::{ByIndex, ByKey, ByOffset, BySection};
use ebpf_model::{Function, Symbol};
use ebpf_parts::Relocation;
use std::collections::HashSet;

/// What linking reads of an object.
#[derive(Clone, Copy)]
pub struct Linkable<'a> {
    /// The functions by section index and address.
    pub functions: &'a ByKey<Function>,
    /// The symbols by their index.
    pub symbols: &'a ByIndex<Symbol>,
    /// The relocations by section index and offset in the section, in bytes.
    pub relocations: &'a BySection<ByOffset<Relocation>>,
    /// The indexes of the sections that hold functions.
    pub text_sections: &'a HashSet<usize>,
    /// The keys of exception callbacks, by the keys of the functions that have one.
    pub callbacks: &'a ByKey<(usize, u64)>,
}
