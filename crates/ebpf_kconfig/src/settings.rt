//! The bytes of an extern's value, from a text of a configuration or from a number.

ghost use Rattle.std.specs.Prelude.{◌≡◌, ◌≤◌, ◌∷◌, [], IfOk};
ghost use Rattle.std.specs.Char.{digit_value};
ghost use Rattle.ebpf_kconfig.specs.ConfiguredValues.{digits_number, is_in_range, negative_bits, number_bytes, number_count, read_digits, text_number, unsigned_number, cut_string, integer_value, is_letter, is_quoted, letter_value, loader_value, ranged_value, string_value, text_value, tristate_number};
ghost use Rattle.ebpf_kconfig.specs.declared.settings.ValueFault.TheVariants.{OutOfMemory};
ghost use Rattle.ebpf_base.specs.Faults.{Gives};
ghost use Rattle.ebpf_kconfig.specs.KconfigExterns.{is_value_memory};

use crate::kconfig_type::KconfigType;
use ebpf_base::{Endianness, Items};
use std::alloc::{AllocError, Global};

/// The reason why a text or a number is no value.
#[derive(Clone, Copy, Debug)]
pub enum ValueFault {
    /// The text is no value of the type, or can't be read.
    Unsuited,
    /// The number is out of range.
    OutOfRange,
    /// An allocation failed.
    OutOfMemory,
}

impl From<AllocError> for ValueFault {
    ghost from_gives = { λ _ e. e ≡ OutOfMemory };

    fn from(_error: AllocError) -> ValueFault {
        ValueFault::OutOfMemory
    }
}

/// The value of a digit or a letter, from 0 on; 36 of other bytes.
fn digit_value(byte: u8) -> u64
    ensures value { result ≡ digit_value byte }
    ensures few { result ≤ 36 }
{
    match byte {
        b'0'..=b'9' => u64::from(byte - b'0'),
        b'A'..=b'Z' => u64::from(byte - b'A') + 10,
        b'a'..=b'z' => u64::from(byte - b'a') + 10,
        _ => 36,
    }
}

/// A number with one more digit, where 64 bits hold it.
fn with_digit(number: u64, radix: u64, byte: u8) -> Result<u64, ValueFault>
    ensures { result ≡ read_digits radix number (byte ∷ []) }
{
    let digit = digit_value(byte);
    if digit >= radix {
        return Err(ValueFault::Unsuited);
    }
    let Some(product) = number.checked_mul(radix) else {
        return Err(ValueFault::OutOfRange);
    };
    match product.checked_add(digit) {
        Some(sum) => Ok(sum),
        None => Err(ValueFault::OutOfRange),
    }
}

/// The number that digits write.
fn read_digits(radix: u64, digits: &[u8]) -> Result<u64, ValueFault>
    ensures { result ≡ read_digits radix 0 digits.now }
{
    let mut number = 0;
    for byte in digits {
        number = with_digit(number, radix, *byte)?;
    }
    Ok(number)
}

/// The number that one digit or more write.
#[tactic(auto, unfolding(crate::specs::ConfiguredValues::digits_number))]
fn digits_number(radix: u64, digits: &[u8]) -> Result<u64, ValueFault>
    ensures { result ≡ digits_number radix digits.now }
{
    if digits.is_empty() {
        return Err(ValueFault::Unsuited);
    }
    read_digits(radix, digits)
}

/// A hexadecimal, octal or decimal number.
fn unsigned_number(text: &[u8]) -> Result<u64, ValueFault>
    ensures { result ≡ unsigned_number text.now }
{
    if text.starts_with(b"0x") || text.starts_with(b"0X") {
        return digits_number(16, &text[2..]);
    }
    if text.starts_with(b"0") {
        return digits_number(8, text);
    }
    digits_number(10, text)
}

/// The 64 bits of a number's negative.
fn negative_bits(number: u64) -> u64
    ensures { result ≡ negative_bits number }
{
    if number == 0 {
        return 0;
    }
    u64::MAX - number + 1
}

/// Reads a number, maybe with a leading `-`, as 64 bits.
///
/// # Errors
///
/// - `Unsuited`: the text can't be read to its end as a number.
/// - `OutOfRange`: 64 bits do not hold the number.
pub fn text_number(text: &[u8]) -> Result<u64, ValueFault>
    ensures { result ≡ text_number text.now }
{
    if !text.starts_with(b"-") {
        return unsigned_number(text);
    }
    Ok(negative_bits(unsigned_number(&text[1..])?))
}

/// The low `size` bytes of a number, in a byte order.
///
/// # Errors
///
/// - `AllocError`: an allocation failed.
pub fn number_bytes(
    alloc: Global,
    order: Endianness,
    size: u32,
    number: u64,
) -> Result<Items<u8>, AllocError>
    ensures { IfOk result (λ bytes. bytes ≡ number_bytes order size number) }
{
    let count = size.min(8) as usize;
    let bytes = match order {
        Endianness::Little => Vec::from_slice(alloc, &number.to_le_bytes()[..count])?,
        Endianness::Big => Vec::from_slice(alloc, &number.to_be_bytes()[8 - count..])?,
    };
    Ok(Items::from_vec(bytes))
}

/// The number of values that fewer than 8 bytes hold.
fn number_count(size: u32) -> u64
    ensures count { result ≡ number_count size }
    ensures few { result ≤ 4294967296 }
{
    match size {
        1 => 0x100,
        2 => 0x1_0000,
        _ => 0x1_0000_0000,
    }
}

/// Whether `size` bytes hold the number that 64 bits encode.
pub fn is_in_range(size: u32, signed: bool, number: u64) -> bool
    ensures { result ≡ is_in_range size signed number }
{
    if size == 8 {
        return true;
    }
    let count = number_count(size);
    if signed {
        return number.wrapping_add(count / 2) < count;
    }
    number < count
}

/// The bytes of a number in range.
fn ranged_value(
    alloc: Global,
    order: Endianness,
    size: u32,
    signed: bool,
    number: u64,
) -> Result<Items<u8>, ValueFault>
    ensures { Gives is_value_memory result (ranged_value order size signed number) }
{
    if !is_in_range(size, signed, number) {
        return Err(ValueFault::OutOfRange);
    }
    Ok(number_bytes(alloc, order, size, number)?)
}

/// The bytes of an integer with the value of a number.
#[tactic(auto, unfolding(crate::specs::ConfiguredValues::integer_value))]
fn integer_value(
    alloc: Global,
    order: Endianness,
    kind: KconfigType,
    number: u64,
) -> Result<Items<u8>, ValueFault>
    ensures { Gives is_value_memory result (integer_value order kind number) }
{
    match kind {
        KconfigType::Char { signed } => ranged_value(alloc, order, 1, signed, number),
        KconfigType::Integer { size, signed } => ranged_value(alloc, order, size, signed, number),
        _ => Err(ValueFault::Unsuited),
    }
}

/// The bytes of an integer or a bool with the value of a number.
///
/// # Errors
///
/// - `Unsuited`: the type is neither an integer nor a bool.
/// - `OutOfRange`: the number is out of the type's range.
/// - `OutOfMemory`: an allocation failed.
#[tactic(auto, unfolding(crate::specs::ConfiguredValues::loader_value))]
pub fn loader_value(
    alloc: Global,
    order: Endianness,
    kind: KconfigType,
    number: u64,
) -> Result<Items<u8>, ValueFault>
    ensures { Gives is_value_memory result (loader_value order kind number) }
{
    if !matches!(kind, KconfigType::Bool) {
        return integer_value(alloc, order, kind, number);
    }
    if number > 1 {
        return Err(ValueFault::OutOfRange);
    }
    Ok(one_byte(alloc, number as u8)?)
}

/// Whether a byte is one of the letters that stand for values.
fn is_letter(byte: u8) -> bool
    ensures { result ≡ is_letter byte }
{
    byte == b'n' || byte == b'y' || byte == b'm'
}

/// The number of a letter for a tristate.
fn tristate_number(letter: u8) -> u8
    ensures { result ≡ tristate_number letter }
{
    match letter {
        b'y' => 1,
        b'm' => 2,
        _ => 0,
    }
}

/// A list of one byte.
fn one_byte(alloc: Global, byte: u8) -> Result<Items<u8>, AllocError>
    ensures { IfOk result (λ bytes. bytes ≡ byte ∷ []) }
{
    Ok(Items::from_vec(Vec::from_slice(alloc, &[byte])?))
}

/// The bytes of the value that a letter encodes.
#[tactic(auto, unfolding(crate::specs::ConfiguredValues::letter_value))]
fn letter_value(
    alloc: Global,
    order: Endianness,
    kind: KconfigType,
    letter: u8,
) -> Result<Items<u8>, ValueFault>
    ensures { Gives is_value_memory result (letter_value order kind letter) }
{
    match kind {
        KconfigType::Bool => {
            if letter == b'm' {
                return Err(ValueFault::Unsuited);
            }
            Ok(one_byte(alloc, tristate_number(letter))?)
        }
        KconfigType::Tristate { size } => {
            let number = u64::from(tristate_number(letter));
            Ok(number_bytes(alloc, order, size, number)?)
        }
        KconfigType::Char { .. } => Ok(one_byte(alloc, letter)?),
        _ => Err(ValueFault::Unsuited),
    }
}

/// Whether a text that begins with a double quote ends with one.
fn is_quoted(text: &[u8]) -> bool
    ensures { result ≡ is_quoted text.now }
{
    if text.len() < 2 {
        return false;
    }
    text[text.len() - 1] == b'"'
}

/// The bytes of a text, cut to leave room for a zero, with zeros up to a length.
fn cut_string(alloc: Global, len: u32, text: &[u8]) -> Result<Items<u8>, AllocError>
    ensures { IfOk result (λ bytes. bytes ≡ cut_string len text.now) }
{
    let len = len as usize;
    let count = text.len().min(len.saturating_sub(1));
    let mut bytes = Items::from_vec(Vec::from_slice(alloc, &text[..count])?);
    let zeros = vec![in alloc; 0u8; len - count]?;
    bytes.extend_from_slice(zeros.as_slice())?;
    Ok(bytes)
}

/// The bytes of the value that a quoted string encodes.
#[tactic(auto, unfolding(crate::specs::ConfiguredValues::string_value))]
fn string_value(alloc: Global, kind: KconfigType, text: &[u8]) -> Result<Items<u8>, ValueFault>
    ensures { Gives is_value_memory result (string_value kind text.now) }
{
    let KconfigType::CharArray { len } = kind else {
        return Err(ValueFault::Unsuited);
    };
    if !is_quoted(text) {
        return Err(ValueFault::Unsuited);
    }
    Ok(cut_string(alloc, len, &text[1..text.len() - 1])?)
}

/// The bytes of an extern of a type, from a text of a configuration.
///
/// # Errors
///
/// - `Unsuited`: the text is no value of the type, or can't be read.
/// - `OutOfRange`: the number is out of the type's range, or of 64 bits.
/// - `OutOfMemory`: an allocation failed.
#[tactic(auto, unfolding(crate::specs::ConfiguredValues::text_value))]
pub fn text_value(
    alloc: Global,
    order: Endianness,
    kind: KconfigType,
    text: &[u8],
) -> Result<Items<u8>, ValueFault>
    ensures { Gives is_value_memory result (text_value order kind text.now) }
{
    let [first, ..] = text else {
        return Err(ValueFault::Unsuited);
    };
    if is_letter(*first) {
        return letter_value(alloc, order, kind, *first);
    }
    if *first == b'"' {
        return string_value(alloc, kind, text);
    }
    let number = text_number(text)?;
    integer_value(alloc, order, kind, number)
}
