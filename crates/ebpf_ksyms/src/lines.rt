//! The lines of a text in memory, and the addresses that lines give names.

ghost use Rattle.std.specs.IoError.{error_kind};
ghost use Rattle.std.specs.Iterator.{item_count, IsFinite};
ghost use Rattle.std.specs.List.{position};
ghost use Rattle.std.specs.Prelude.{◌≡◌, option_map, ◌<◌, ◌==◌, [], ◌∷◌, length, IfSome, MatchOption, ℕ, List, IfOk, IfErr, OnOk, MatchBool, ⊤};
ghost use Rattle.std.specs.Str.Lines.{lines, strip_carriage_return};
ghost use Rattle.std.specs.declared.io.ErrorKind.TheVariants.{InvalidData};
ghost use Rattle.ebpf_base.specs.Faults.{Refuses, or_else};
ghost use Rattle.ebpf_base.specs.Maps.{lent_bytes};
ghost use Rattle.ebpf_ksyms.specs.Addresses.{address_and_name, stated_address, invalid_address, line_of_item, nonzero, stated_fault, is_ksyms_memory, is_memory_kind, line_read_fault};
ghost use Rattle.ebpf_ksyms.specs.PrivateContracts.{value_named, AreRead, StopsAt, with_line, text_line_fault, with_read_line, read_line_fault};
ghost use Rattle.ebpf_ksyms.specs.Sources.{GivesLine, IsItem, lines_left};
ghost use Rattle.ebpf_ksyms.specs.declared.error.KsymsError.TheVariants.{KallsymsParseError};

use crate::error::KsymsError;
use crate::named::NameTable;
use ebpf_base::Text;
use std::alloc::{AllocError, Global};
use std::marker::Model;
use std::{io, str};

/// The lines of a text in memory, as `BufRead::lines` gives those of a reader.
///
/// A line ends before a byte 0x0a and is without it. It is also without a byte 0x0d right before that. The bytes behind
/// the last 0x0a are a line unless they are none.
///
/// An item is an error if its line is not UTF-8, of kind `InvalidData`, or if memory is refused. Else it is the line.
#[derive(Drop)]
pub struct TextLines<'a> {
    alloc: Global,
    rest: &'a [u8],
    not_utf8: io::Error,
}

impl<'a> Model for TextLines<'a> {
    ghost use Rattle.ebpf_ksyms.specs.Sources.{Unread};

    ghost Value = { Unread };

    ghost view = { λ s. record { text = s.rest.now; error = s.not_utf8 } };
}

/// The address word and the name of a line: its first and its third word. `None` of fewer than three words.
pub fn address_and_name(line: &str) -> Option<(&str, &str)>
    ensures { option_map (λ pair. (pair.0.now, pair.1.now)) result ≡ address_and_name line.now }
{
    let mut words = line.split_ascii_whitespace();
    let address = words.next()?;
    words.next()?;
    let name = words.next()?;
    Some((address, name))
}

/// The address that a word states: hexadecimal digits after an optional plus. `None` of other words and from 2^64 on.
pub fn stated_address(word: &str) -> Option<u64>
    ensures { result ≡ stated_address word.now }
{
    u64::from_str_radix(word, 16).ok()
}

/// The index of the first byte 0x0a.
fn line_end(text: &[u8]) -> Option<usize>
    ensures place { result ≡ position (λ b. b == 10) text.now }
    ensures inside { IfSome result (λ at. at < length text.now) }
{
    text.iter().position(|byte| *byte == b'\n')
}

/// A line without the byte 0x0d at its end.
fn without_return(line: &[u8]) -> &[u8]
    ensures { result.now ≡ strip_carriage_return line.now }
{
    match line.split_last() {
        Some((b'\r', front)) => front,
        _ => line,
    }
}

/// The first line of a text, and the text behind it. `None` of the empty text.
fn first_line(text: &[u8]) -> Option<(&[u8], &[u8])>
    ensures { MatchOption result (lines text.now ≡ []) (λ cut.
        lines text.now ≡ cut.0.now ∷ lines cut.1.now) }
{
    match line_end(text) {
        Some(end) => Some((without_return(&text[..end]), &text[end + 1..])),
        None if text.is_empty() => None,
        None => Some((text, &[])),
    }
}

/// The string of a line. One that is not UTF-8 gives the error.
fn item_of(alloc: Global, line: &[u8], not_utf8: io::Error) -> io::Result<String>
    ensures { IsItem not_utf8 line.now result }
{
    match str::from_utf8(line) {
        Ok(line) => Ok(String::from_str(alloc, line)?),
        Err(_) => Err(not_utf8),
    }
}

impl<'a> TextLines<'a> {
    /// The lines of a text.
    pub fn new(alloc: Global, text: &'a [u8]) -> TextLines<'a>
        ensures text { result.text ≡ text.now }
        ensures error { error_kind result.error ≡ InvalidData }
    {
        TextLines {
            alloc,
            rest: text,
            not_utf8: io::Error::new(
                io::ErrorKind::InvalidData,
                "stream did not contain valid UTF-8",
            ),
        }
    }
}

impl<'a> Iterator for TextLines<'a> {
    type Item = io::Result<String>;

    ghost next_gives = { GivesLine };

    ghost remaining = { item_count lines_left };

    fn next(&mut self) -> Option<io::Result<String>> {
        let (line, rest) = first_line(self.rest)?;
        self.rest = rest;
        Some(item_of(self.alloc, line, self.not_utf8))
    }
}

/// Whether an error is a failed allocation.
fn is_memory_kind(kind: io::ErrorKind) -> bool
    ensures { result ≡ is_memory_kind kind }
{
    matches!(kind, io::ErrorKind::OutOfMemory)
}

/// The refusal for a line that could not be read.
fn line_read_fault(error: io::Error) -> KsymsError
    ensures { result ≡ line_read_fault error }
{
    if is_memory_kind(error.kind()) {
        return KsymsError::OutOfMemory;
    }
    KsymsError::KallsymsAccessError(error)
}

/// The refusal for a word that states no address.
fn invalid_address(alloc: Global, word: &str) -> Result<KsymsError, AllocError>
    ensures { IfOk result (λ e. e ≡ KallsymsParseError (invalid_address word.now)) }
{
    let mut text = String::from_str(alloc, "invalid address: ")?;
    text.push_str(word)?;
    Ok(KsymsError::KallsymsParseError(Text::from_string(text)))
}

/// Takes into account an address of a name, where the one before is known if there is one. The answer says whether
/// it is new.
fn new_address(
    alloc: Global,
    name: &str,
    before: Option<u64>,
    word: &str,
) -> Result<Option<u64>, KsymsError>
    ensures ok { IfOk result (λ new. new ≡ or_else before (nonzero (stated_address word.now))) }
    ensures fault { Refuses is_ksyms_memory result
        (stated_fault name.now before word.now (stated_address word.now)) }
{
    let Some(address) = stated_address(word) else {
        return Err(invalid_address(alloc, word)?);
    };
    if address == 0 {
        return Ok(before);
    }
    match before {
        None => Ok(Some(address)),
        Some(first) if first == address => Ok(before),
        Some(first) => Err(KsymsError::AmbiguousResolution {
            name: Text::from_str(alloc, name)?,
            first_addr: first,
            second_addr: address,
        }),
    }
}

/// Adds the address that a line states of a wanted name.
fn add_line(
    alloc: Global,
    addresses: &mut NameTable<'_, Option<u64>>,
    line: &str,
) -> Result<(), KsymsError>
    ensures ok { OnOk result
        ((q : List ℕ)
        → value_named addresses.new q ≡ with_line (value_named addresses.old) line.now q) }
    ensures fault { Refuses is_ksyms_memory result
        (text_line_fault (value_named addresses.old) line.now) }
{
    let Some((word, name)) = address_and_name(line) else {
        return Ok(());
    };
    let Some(before) = addresses.get(name) else {
        return Ok(());
    };
    let address = new_address(alloc, name, before, word)?;
    addresses.replace(name, address);
    Ok(())
}

/// Adds the address of an item: that of a line, or the error in its place.
fn add_item(
    alloc: Global,
    addresses: &mut NameTable<'_, Option<u64>>,
    item: io::Result<String>,
) -> Result<(), KsymsError>
    ensures ok { OnOk result
        ((q : List ℕ)
        → value_named addresses.new q
        ≡ with_read_line (value_named addresses.old) (line_of_item item) q) }
    ensures fault { Refuses is_ksyms_memory result
        (read_line_fault (value_named addresses.old) (line_of_item item)) }
{
    match item {
        Err(error) => Err(line_read_fault(error)),
        Ok(line) => add_line(alloc, addresses, line.as_str()),
    }
}

/// The address that each of some names has by the lines. Without names no line is read; else all are, also where each
/// name has an address already, since a later line may state another.
pub fn addresses_in<'a, I: Iterator<Item = io::Result<String>> + Drop>(
    alloc: Global,
    names: &[&'a str],
    lines: I,
) -> Result<NameTable<'a, Option<u64>>, KsymsError>
    requires can { I.can_next lines }
    requires ends { IsFinite (I.remaining lines) }
    ensures ok { IfOk result (λ known.
        AreRead I.next_gives lines (lent_bytes names.now) (value_named known)) }
    ensures fault { IfErr result (λ e.
        MatchBool (is_ksyms_memory e) ⊤ (StopsAt I.next_gives lines (lent_bytes names.now) e)) }
{
    let mut addresses = NameTable::new(alloc, names, None)?;
    if names.is_empty() {
        return Ok(addresses);
    }
    for item in lines {
        match add_item(alloc, &mut addresses, item) {
            Ok(()) => {}
            Err(error) => return Err(error),
        }
    }
    Ok(addresses)
}
