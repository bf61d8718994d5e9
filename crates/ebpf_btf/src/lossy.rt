//! Bytes that may not be UTF-8, compared with texts without a copy.

ghost use Rattle.std.specs.Prelude.{◌≡◌, ◌<◌, ◌++◌, ℕ, List, false, length, IfNone, IfSome};
ghost use Rattle.std.specs.Option.{option_map_or};
ghost use Rattle.std.specs.Str.{bytes_eq};
ghost use Rattle.std.specs.Str.Lossy.{replacement_bytes, utf8_lossy};
ghost use Rattle.ebpf_btf.specs.EssentialNames.{essential_name};

use crate::flavors::{essential_name, has_flavor};

/// U+FFFD in UTF-8, the replacement of an invalid UTF-8 sequence.
const REPLACEMENT: [u8; 3] = [0xef, 0xbf, 0xbd];

/// Returns the text at the front of some bytes, and the bytes after the invalid UTF-8 sequence that ends it; all bytes and
/// `None` where no sequence is invalid.
#[tactic(auto, using(crate::proofs::LossyTexts::lossy_text, crate::proofs::LossyTexts::lossy_split))]
fn split_wrong(bytes: &[u8]) -> (&[u8], Option<&[u8]>)
    ensures text { IfNone result.1 (utf8_lossy bytes.now ≡ result.0.now) }
    ensures wrong { IfSome result.1 (λ rest.
        utf8_lossy bytes.now ≡ result.0.now ++ (replacement_bytes ++ utf8_lossy rest.now)) }
    ensures shorter { IfSome result.1 (λ rest. length rest.now < length bytes.now) }
{
    match str::from_utf8(bytes) {
        Ok(_) => (bytes, None),
        Err(e) => {
            let (text, wrong) = bytes.split_at(e.valid_up_to());
            let len = e.error_len().unwrap_or(wrong.len());
            (text, Some(&wrong[len..]))
        }
    }
}

/// Returns the bytes of a name after a text and U+FFFD; `None` where the name begins otherwise.
fn after_wrong<'a>(name: &'a [u8], text: &[u8]) -> Option<&'a [u8]>
    ensures { (rest : List ℕ)
        → bytes_eq (text.now ++ (replacement_bytes ++ rest)) name.now
        ≡ option_map_or (λ left. bytes_eq rest left.now) result false }
{
    match name.strip_prefix(text) {
        Some(left) => left.strip_prefix(&REPLACEMENT),
        None => None,
    }
}

/// Returns whether the text of some bytes, with U+FFFD for each invalid UTF-8 sequence, is this text.
pub fn reads_as(bytes: &[u8], text: &[u8]) -> bool
    ensures { result ≡ bytes_eq (utf8_lossy bytes.now) text.now }
{
    let mut left = bytes;
    let mut wanted = text;
    loop {
        let (front, rest) = split_wrong(left);
        let Some(rest) = rest else {
            return front == wanted;
        };
        let Some(more) = after_wrong(wanted, front) else {
            return false;
        };
        left = rest;
        wanted = more;
    }
}

/// Returns whether the text of some bytes, up to its first three underscores, is this name. Each invalid UTF-8 sequence is
/// U+FFFD.
pub fn reads_essentially_as(bytes: &[u8], name: &[u8]) -> bool
    ensures { result ≡ bytes_eq (essential_name (utf8_lossy bytes.now)) name.now }
{
    let mut left = bytes;
    let mut wanted = name;
    loop {
        let (front, rest) = split_wrong(left);
        let Some(rest) = rest else {
            return essential_name(front) == wanted;
        };
        if has_flavor(front) {
            return essential_name(front) == wanted;
        }
        let Some(more) = after_wrong(wanted, front) else {
            return false;
        };
        left = rest;
        wanted = more;
    }
}
