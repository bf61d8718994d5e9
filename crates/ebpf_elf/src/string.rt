//! Names in string tables.

ghost use Rattle.std.specs.Prelude.{◌≡◌, ◌==◌, None, Some, MatchOption, IfOk, IfErr};
ghost use Rattle.std.specs.List.{position};
ghost use Rattle.ebpf_elf.specs.Names.{bytes_before_zero, name_bytes, string_table_name, is_name};
ghost use Rattle.ebpf_elf.specs.declared.error.ElfReadError.TheVariants.{BadStringTable};

use crate::error::ElfReadError;

/// Returns the index of the first zero byte.
fn first_zero(bytes: &[u8]) -> Option<usize>
    ensures { result ≡ position (λ b. b == 0) bytes.now }
{
    bytes.iter().position(|b| *b == 0)
}

/// Returns the bytes before the first zero byte.
fn before_zero(bytes: &[u8]) -> Option<&[u8]>
    ensures { MatchOption result (bytes_before_zero bytes.now ≡ None) (λ text.
        bytes_before_zero bytes.now ≡ Some text.now) }
{
    match first_zero(bytes) {
        Some(end) => Some(&bytes[..end]),
        None => None,
    }
}

/// Returns the bytes of the name with this index.
#[tactic(auto, unfolding(crate::specs::Names::name_bytes))]
fn bytes_in(names: &[u8], index: usize) -> Option<&[u8]>
    ensures { MatchOption result (name_bytes names.now index ≡ None) (λ text.
        name_bytes names.now index ≡ Some text.now) }
{
    if index == 0 {
        return Some(&[]);
    }
    if index > names.len() {
        return None;
    }
    before_zero(&names[index..])
}

/// Returns the name with this index.
///
/// # Errors
///
/// - `BadStringTable`: no zero byte follows the name, or the name is not UTF-8.
#[tactic(auto, using(crate::proofs::Names::readable_text, crate::proofs::Names::unreadable), unfolding(crate::specs::Names::string_table_name))]
pub fn name_in(names: &[u8], index: usize) -> Result<&str, ElfReadError>
    ensures name { IfOk result (λ text. string_table_name names.now index ≡ Some text.now) }
    ensures none { IfErr result (λ _. string_table_name names.now index ≡ None) }
    ensures error { IfErr result (λ e. e ≡ BadStringTable) }
{
    let Some(bytes) = bytes_in(names, index) else {
        return Err(ElfReadError::BadStringTable);
    };
    match str::from_utf8(bytes) {
        Ok(text) => Ok(text),
        Err(_) => Err(ElfReadError::BadStringTable),
    }
}

/// Returns whether the name with this index can be read and is this text.
fn reads_as(names: &[u8], index: usize, text: &str) -> bool
    ensures { result ≡ is_name text.now (string_table_name names.now index) }
{
    match name_in(names, index) {
        Ok(name) => name == text,
        Err(_) => false,
    }
}

/// Returns whether the name with this index can be read and is this text. It reads at most one byte more of the name than
/// `text` has.
pub fn is_name_in(names: &[u8], index: usize, text: &str) -> bool
    ensures { result ≡ is_name text.now (string_table_name names.now index) }
{
    let longest = text.len() + 1;
    if index > names.len() || names.len() - index <= longest {
        return reads_as(names, index, text);
    }
    reads_as(&names[..index + longest], index, text)
}
