//! Texts with a prefix, and types by kind and name.

ghost use Rattle.std.specs.Prelude.{◌≡◌, true, false};
ghost use Rattle.std.specs.Option.{option_copied};
ghost use Rattle.ebpf_btf.specs.Strings.{id_of_name, is_named, is_text, text_at};
ghost use Rattle.ebpf_btf.specs.Types.{is_kind};
ghost use Rattle.ebpf_load_info.specs.KernelNumbers.{as_text, without_prefix};
ghost use Rattle.ebpf_load_info.specs.PrivateContracts.{named_at, named_by};

use ebpf_btf::strings::is_text_at;
use ebpf_btf::{Btf, BtfKind, BtfType, TypeHead};

/// The first byte of U+FFFD in UTF-8, with which a text also begins where its first bytes are no UTF-8.
const FIRST_OF_REPLACEMENT: u8 = 0xef;

/// Returns the part of a text behind a prefix. `None` where the text does not begin with it.
pub fn without_prefix<'a>(text: &'a str, prefix: &str) -> Option<&'a str>
    ensures { option_copied result ≡ without_prefix prefix.now text.now }
{
    text.strip_prefix(prefix)
}

/// Returns bytes as a text. `None` where they are no UTF-8.
#[tactic(auto, using(crate::proofs::FirstFound::is_text, crate::proofs::FirstFound::is_no_text))]
pub fn as_text(bytes: &[u8]) -> Option<&str>
    ensures { option_copied result ≡ as_text bytes.now }
{
    match str::from_utf8(bytes) {
        Ok(text) => Some(text),
        Err(_) => None,
    }
}

/// Whether the text at an offset of the strings is known not to be a text, by its first byte alone.
#[tactic(auto, using(crate::proofs::FirstBytes::otherwise))]
fn begins_otherwise(strings: &[u8], offset: u32, text: &str) -> bool
    ensures { result ≡ true → is_text text.now (text_at strings.now offset) ≡ false }
{
    let Some(wanted) = text.as_bytes().first() else {
        return false;
    };
    let Some(byte) = strings.get(offset as usize) else {
        return false;
    };
    *wanted != FIRST_OF_REPLACEMENT && *byte != *wanted
}

/// Whether the text at an offset of the strings is a text. Most others are known by one byte.
fn has_text(strings: &[u8], offset: u32, text: &str) -> bool
    ensures { result ≡ is_text text.now (text_at strings.now offset) }
{
    if begins_otherwise(strings, offset, text) {
        return false;
    }
    is_text_at(strings, offset, text)
}

/// Whether a type has a kind and a name, by its head. A type whose name can't be read has no name.
#[tactic(auto, unfolding(ebpf_btf::specs::Types::kind_number))]
pub fn is_named_by(types: &Btf, name: &str, kind: BtfKind, head: TypeHead) -> bool
    ensures { result ≡ named_by types.now name.now kind head }
{
    head.kind == kind && has_text(types.strings(), head.name_offset, name)
}

/// Whether a type is of a kind.
#[tactic(auto, unfolding(ebpf_btf::specs::Types::kind_number))]
fn is_kind(ty: &BtfType<'_>, kind: BtfKind) -> bool
    ensures { result ≡ is_kind kind ty.now }
{
    ty.kind() == kind
}

/// Whether a type has a kind and a name. A type whose name can't be read has no name.
pub fn is_named(types: &Btf, name: &str, kind: BtfKind, ty: &BtfType<'_>) -> bool
    ensures { result ≡ is_named types.now name.now kind ty.now }
{
    is_kind(ty, kind) && has_text(types.strings(), ty.name_offset(), name)
}

/// Whether the type with an id is there, and has a kind and a name.
#[tactic(auto, using(crate::proofs::Heads::named_by_head))]
pub fn is_named_at(types: &Btf, name: &str, kind: BtfKind, id: usize) -> bool
    ensures { result ≡ named_at types.now name.now kind id }
{
    let Some(head) = types.head(id) else {
        return false;
    };
    is_named_by(types, name, kind, head)
}

/// Returns the lowest id of a type with a kind and a name.
pub fn id_of_name(types: &Btf, name: &str, kind: BtfKind) -> Option<u32>
    ensures { result ≡ id_of_name types.now name.now kind }
{
    for id in 0..types.len() {
        if is_named_at(types, name, kind, id) {
            return Some(id as u32);
        }
    }
    None
}
