//! The symbols and the externs of an object.

ghost use Rattle.std.specs.Prelude.{◌≡◌, IfOk};
ghost use Rattle.ebpf_model.specs.Symbols.{is_extern};

use ebpf_base::Text;
use ebpf_elf::SymbolKind;
use std::alloc::AllocError;

/// A symbol of the file's symbol table.
#[derive(Debug, Drop)]
pub struct Symbol {
    /// Its index in the table.
    pub index: usize,
    /// The index of its section, where it has one.
    pub section_index: Option<usize>,
    /// Its name; there is always one after parsing.
    pub name: Option<Text>,
    /// Its address.
    pub address: u64,
    /// Its size in bytes.
    pub size: u64,
    /// The kind of the thing that the symbol names.
    pub kind: SymbolKind,
    /// Whether the file defines it.
    pub is_definition: bool,
    /// Whether the symbol may stay without a definition.
    pub is_weak: bool,
}

impl Symbol {
    /// Whether the symbol names something of the kernel: it has no section, no definition and no type.
    pub fn is_extern(&self) -> bool
        ensures { result ≡ is_extern self.now }
    {
        self.section_index.is_none()
            && !self.is_definition
            && matches!(self.kind, SymbolKind::Unknown)
    }
}

/// A copy of a name that may be there.
fn copy_name(name: &Option<Text>) -> Result<Option<Text>, AllocError>
    ensures { IfOk result (λ copy. copy ≡ name.now) }
{
    match name {
        Some(name) => Ok(Some(name.clone()?)),
        None => Ok(None),
    }
}

impl Clone for Symbol {
    ghost is_clone = { λ old copy. copy ≡ old };

    fn clone(&self) -> Result<Symbol, AllocError> {
        Ok(Symbol {
            index: self.index,
            section_index: self.section_index,
            name: copy_name(&self.name)?,
            address: self.address,
            size: self.size,
            kind: self.kind,
            is_definition: self.is_definition,
            is_weak: self.is_weak,
        })
    }
}

/// A function or a variable of the kernel that the programs use.
#[derive(Clone, Copy, Debug, PartialEq, Eq)]
pub struct ExternDesc {
    /// The id of its FUNC or VAR in the object's types.
    pub btf_id: u32,
    /// Whether the kernel's type is compared with it.
    pub is_typed: bool,
    /// Whether the extern may stay unresolved.
    pub is_weak: bool,
    /// The id of the kernel's FUNC or VAR, where it is known.
    pub kernel_btf_id: Option<u32>,
    /// Its address in the kernel, where it is known; 0 where it is weak and stays unresolved.
    pub ksym_addr: Option<u64>,
    /// Whether the kernel has it.
    pub is_resolved: bool,
}
