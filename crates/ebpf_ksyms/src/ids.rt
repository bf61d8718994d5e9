//! The keys that externs with a type are looked up by, and the ids of a kernel's functions and variables, by name.

ghost use Rattle.std.specs.Prelude.{◌≡◌, ℕ, List, IfOk, IfErr, OnOk, option_map};
ghost use Rattle.ebpf_base.specs.Maps.{lent_bytes};
ghost use Rattle.ebpf_btf.specs.EssentialNames.{essential_name};
ghost use Rattle.ebpf_ksyms.specs.Externs.{lookup_key_of};
ghost use Rattle.ebpf_ksyms.specs.PrivateContracts.{ids_in, id_at, with_lower_id, value_named, only_at, extern_kind_of, with_head_ids};
ghost use Rattle.ebpf_ksyms.specs.declared.error.KsymsError.TheVariants.{OutOfMemory};

use crate::error::KsymsError;
use crate::named::NameTable;
use ebpf_btf::{Btf, BtfError, BtfKind, BtfType, TypeHead};
use std::alloc::Global;
use std::marker::Model;

/// The kind of an extern with a type.
#[derive(Clone, Copy)]
pub enum ExternKind {
    Function,
    Variable,
}

/// The key that an extern is looked up by.
#[derive(Drop)]
pub struct LookupKey<'a> {
    /// The extern's kind.
    pub kind: ExternKind,
    /// The name that the kernel has for it.
    pub name: &'a str,
    /// The type id of the local FUNC or VAR.
    pub type_id: u32,
}

impl<'a> Model for LookupKey<'a> {
    ghost use Rattle.ebpf_ksyms.specs.Externs.{LookupKeyValue};

    ghost Value = { LookupKeyValue };

    ghost view = { λ s. record { kind = s.kind; name = s.name.now; type_id = s.type_id } };
}

/// The lowest ids of the types with a name.
#[derive(Clone, Copy)]
pub struct NameIds {
    /// The id of a FUNC.
    pub function: Option<u32>,
    /// The id of a VAR.
    pub variable: Option<u32>,
}

impl NameIds {
    /// No id.
    pub const NONE: NameIds = NameIds {
        function: None,
        variable: None,
    };
}

/// The name before its first three underscores in a row, or the whole name.
fn without_flavor(name: &str) -> &str
    ensures { result.now ≡ essential_name name.now }
{
    match name.split_once("___") {
        Some((front, _)) => front,
        None => name,
    }
}

/// The key that an extern with a name and a type is looked up by. `None` where the type is neither a FUNC nor a VAR.
#[tactic(auto, unfolding(crate::specs::Externs::lookup_key_of))]
pub fn lookup_key_of<'a>(name: &'a str, ty: &BtfType<'_>) -> Option<LookupKey<'a>>
    ensures { result ≡ lookup_key_of name.now ty.now }
{
    match ty {
        BtfType::Func { btf_type, .. } => Some(LookupKey {
            kind: ExternKind::Function,
            name: without_flavor(name),
            type_id: *btf_type,
        }),
        BtfType::Var { btf_type, .. } => Some(LookupKey {
            kind: ExternKind::Variable,
            name,
            type_id: *btf_type,
        }),
        _ => None,
    }
}

/// The id of the function or the variable with a name.
pub fn id_at(ids: &NameTable<'_, NameIds>, kind: ExternKind, name: &str) -> Option<u32>
    ensures { result ≡ id_at (value_named ids.now) kind name.now }
{
    let found = ids.get(name)?;
    match kind {
        ExternKind::Function => found.function,
        ExternKind::Variable => found.variable,
    }
}

/// The extern kind of types of a kind. `None` where these are neither functions nor variables.
#[tactic(auto, unfolding(crate::specs::PrivateContracts::extern_kind_of))]
fn extern_kind_of(kind: BtfKind) -> Option<ExternKind>
    ensures { result ≡ extern_kind_of kind }
{
    match kind {
        BtfKind::Func => Some(ExternKind::Function),
        BtfKind::Var => Some(ExternKind::Variable),
        _ => None,
    }
}

/// The ids with one more. It doesn't count if its kind has an id, which is lower.
fn with_lower_id(ids: NameIds, kind: ExternKind, id: u32) -> NameIds
    ensures { result ≡ with_lower_id ids kind id }
{
    match kind {
        ExternKind::Function => NameIds {
            function: ids.function.or(Some(id)),
            variable: ids.variable,
        },
        ExternKind::Variable => NameIds {
            function: ids.function,
            variable: ids.variable.or(Some(id)),
        },
    }
}

/// Adds one more type of the kernel, whose id is above those before.
fn add_kernel_type(
    kernel: &Btf,
    ids: &mut NameTable<'_, NameIds>,
    id: u32,
    head: TypeHead,
) -> Result<(), KsymsError>
    ensures ok { OnOk result
        ((q : List ℕ)
        → value_named ids.new q
        ≡ option_map (with_head_ids kernel.now q id head.kind head.name_offset)
        (value_named ids.old q)) }
    ensures memory { IfErr result (λ e. e ≡ OutOfMemory) }
{
    let Some(kind) = extern_kind_of(head.kind) else {
        return Ok(());
    };
    let name = match kernel.string_at(head.name_offset) {
        Ok(name) => name,
        Err(BtfError::OutOfMemory) => return Err(KsymsError::OutOfMemory),
        Err(_) => return Ok(()),
    };
    if let Some(found) = ids.get(name.as_str()) {
        ids.replace(name.as_str(), with_lower_id(found, kind, id));
    }
    Ok(())
}

/// The lowest ids of some names, by one pass over the kernel's types. Without names nothing is read.
///
/// # Errors
///
/// `OutOfMemory`: out of memory, and no other.
pub fn ids_in<'a>(
    alloc: Global,
    kernel: &Btf,
    names: &[&'a str],
) -> Result<NameTable<'a, NameIds>, KsymsError>
    ensures ok { IfOk result (λ ids.
        (q : List ℕ)
        → value_named ids q ≡ only_at (lent_bytes names.now) (ids_in kernel.now) q) }
    ensures memory { IfErr result (λ e. e ≡ OutOfMemory) }
{
    let mut ids = NameTable::new(alloc, names, NameIds::NONE)?;
    if names.is_empty() {
        return Ok(ids);
    }
    for id in 0..kernel.len() {
        let Some(head) = kernel.head(id) else {
            continue;
        };
        add_kernel_type(kernel, &mut ids, id as u32, head)?;
    }
    Ok(ids)
}
