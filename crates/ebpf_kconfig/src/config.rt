//! The values of externs, read from the text of a kernel's configuration.

ghost use Rattle.std.specs.Prelude.{◌≡◌, ◌<◌, ◌≤◌, ◌==◌, drop, ℕ, List, length, Err, IfSome, IfNone};
ghost use Rattle.std.specs.List.{position};
ghost use Rattle.std.specs.Option.{option_copied};
ghost use Rattle.ebpf_base.specs.Faults.{Gives, or_else};
ghost use Rattle.ebpf_kconfig.specs.ConfiguredValues.{behind, configured_value, given_in_line, loader_value, setting, text_value, with_name};
ghost use Rattle.ebpf_kconfig.specs.KconfigExterns.{is_kconfig_memory};

use crate::error::KconfigError;
use crate::externs::KconfigExtern;
use crate::settings::{ValueFault, loader_value, text_value};
use ebpf_base::{Endianness, Items, Text};
use std::alloc::Global;

/// The bytes behind a prefix. `None` where they don't begin with it.
fn behind<'a>(prefix: &[u8], bytes: &'a [u8]) -> Option<&'a [u8]>
    ensures { option_copied result ≡ behind prefix.now bytes.now }
{
    if bytes.starts_with(prefix) {
        return Some(&bytes[prefix.len()..]);
    }
    None
}

/// The value that a line sets for a name.
fn given_in_line<'a>(name: &[u8], line: &'a [u8]) -> Option<&'a [u8]>
    ensures { option_copied result ≡ given_in_line name.now line.now }
{
    behind(b"=", behind(name, line)?)
}

/// The index of the first line's end.
fn line_end(text: &[u8]) -> Option<usize>
    ensures first { result ≡ position (λ b. b == 10) text.now }
    ensures inside { IfSome result (λ end. end < length text.now) }
{
    text.iter().position(|b| *b == b'\n')
}

/// The bytes from an index on.
fn from_index(text: &[u8], start: usize) -> &[u8]
    requires { start ≤ length text.now }
    ensures { result.now ≡ drop start text.now }
{
    &text[start..]
}

/// The first line and the text behind it. `None` where the text is one line.
#[tactic(auto, using(crate::proofs::ConfigLines::setting_more, crate::proofs::ConfigLines::setting_last))]
fn first_line(text: &[u8]) -> Option<(&[u8], &[u8])>
    ensures more { IfSome result (λ parts.
        (name : List ℕ)
        → setting text.now name
        ≡ or_else (given_in_line name parts.0.now) (setting parts.1.now name)) }
    ensures less { IfSome result (λ parts. length parts.1.now < length text.now) }
    ensures last { IfNone result
        ((name : List ℕ) → setting text.now name ≡ given_in_line name text.now) }
{
    let end = line_end(text)?;
    Some((&text[..end], from_index(text, end + 1)))
}

/// The value of a name in the first line that sets it.
fn setting<'a>(config: &'a [u8], name: &[u8]) -> Option<&'a [u8]>
    ensures { option_copied result ≡ setting config.now name.now }
{
    let mut rest = config;
    while let Some((line, after)) = first_line(rest) {
        if let Some(text) = given_in_line(name, line) {
            return Some(text);
        }
        rest = after;
    }
    given_in_line(name, rest)
}

/// The error of a value, with the name of its extern.
fn named_fault(name: &Text, fault: ValueFault) -> Result<Items<u8>, KconfigError>
    ensures { Gives is_kconfig_memory result (with_name name.now (Err fault)) }
{
    let name = name.clone()?;
    match fault {
        ValueFault::Unsuited => Err(KconfigError::UnsuitedValue { name }),
        ValueFault::OutOfRange => Err(KconfigError::ValueOutOfRange { name }),
        ValueFault::OutOfMemory => Err(KconfigError::OutOfMemory),
    }
}

/// The value of an extern, from a text of the configuration.
fn value_of_text(
    alloc: Global,
    order: Endianness,
    wanted: &KconfigExtern,
    text: &[u8],
) -> Result<Items<u8>, KconfigError>
    ensures { Gives is_kconfig_memory result
        (with_name wanted.now.name (text_value order wanted.now.kind text.now)) }
{
    match text_value(alloc, order, wanted.kind, text) {
        Ok(value) => Ok(value),
        Err(fault) => named_fault(&wanted.name, fault),
    }
}

/// Returns the value of an extern, read from the text of a kernel's configuration.
///
/// `config` holds lines in the format of `/proc/config.gz`, unpacked. The first line that begins with the extern's name
/// and `=` counts. The result is `None` where there is no such line, and for a name that does not begin with `CONFIG_`,
/// since a configuration has no other names. Numbers are written in the byte order `order`.
///
/// The first byte behind the `=` decides the reading:
///
/// - `y`, `n` or `m`: 1 or 0 for a bool; 1, 0 or 2 for a tristate; the letter itself for a char.
/// - A double quote: a string, for an array of char. The text must end with a double quote. The value is the bytes
///   between the quotes, cut to the array's length minus 1, with zeros up to the array's length.
/// - Any other byte: a number, for a char or an integer. It is hexadecimal behind `0x`, octal behind `0`, else decimal,
///   and may have a leading `-`. For an extern of 8 bytes each number of 64 bits is in range, also a negative one where
///   the extern is unsigned.
///
/// libbpf 1.5 does the same (`bpf_object__process_kconfig_line`), with one exception: only the lines of the name are
/// read, so other lines cause no error.
///
/// # Errors
///
/// - `UnsuitedValue`: nothing follows the `=`; the value does not suit the extern's type, for example `m` for a bool; a
///   string does not end with a double quote; or a number can't be read to its end.
/// - `ValueOutOfRange`: a number is out of the range of the extern, or of 64 bits.
/// - `OutOfMemory`: an allocation failed.
#[tactic(auto, unfolding(crate::specs::ConfiguredValues::configured_value))]
pub fn kconfig_value(
    alloc: Global,
    config: &[u8],
    wanted: &KconfigExtern,
    order: Endianness,
) -> Result<Option<Items<u8>>, KconfigError>
    ensures { Gives is_kconfig_memory result (configured_value order config.now wanted.now) }
{
    if !wanted.name.as_str().starts_with("CONFIG_") {
        return Ok(None);
    }
    match setting(config, wanted.name.as_str().as_bytes()) {
        Some(text) => Ok(Some(value_of_text(alloc, order, wanted, text)?)),
        None => Ok(None),
    }
}

/// Returns the bytes of an extern whose value is a number that the loader knows.
///
/// Examples are `LINUX_KERNEL_VERSION` (`a << 16 | b << 8 | c` for version a.b.c), `LINUX_HAS_BPF_COOKIE` and
/// `LINUX_HAS_SYSCALL_WRAPPER` (1 where the kernel has them). The bytes are in the byte order `order`.
///
/// A char and an integer take a number in their range; one of 8 bytes takes each number. A bool takes 0 and 1 (libbpf
/// 1.5, `set_kcfg_value_num`).
///
/// # Errors
///
/// - `UnsuitedValue`: the extern is of another type.
/// - `ValueOutOfRange`: the number is out of the extern's range.
/// - `OutOfMemory`: an allocation failed.
pub fn kconfig_number(
    alloc: Global,
    number: u64,
    wanted: &KconfigExtern,
    order: Endianness,
) -> Result<Items<u8>, KconfigError>
    ensures { Gives is_kconfig_memory result
        (with_name wanted.now.name (loader_value order wanted.now.kind number)) }
{
    match loader_value(alloc, order, wanted.kind, number) {
        Ok(value) => Ok(value),
        Err(fault) => named_fault(&wanted.name, fault),
    }
}
