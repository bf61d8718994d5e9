//! The lines of slots: eight bytes as hexadecimal numbers.

ghost use Rattle.std.specs.Prelude.{◌≡◌, ◌<◌, OnOk};
ghost use Rattle.std.specs.Io.KnownBytes.{Appends};
ghost use Rattle.std.specs.List.{flat_map};
ghost use Rattle.cli_common.specs.SlotText.{hex_digit, slot_line};

use ebpf_parts::insn::bpf_insn;
use std::io::{self, Write};

/// The digit of a number below 16.
fn digit(value: u8) -> u8
    requires { value < 16 }
    ensures { result ≡ hex_digit value }
{
    if value < 10 {
        b'0' + value
    } else {
        b'a' + (value - 10)
    }
}

/// The line of a slot: its eight bytes as numbers of base 16 with two digits.
fn slot_line(slot: &bpf_insn) -> [u8; 24]
    ensures { result ≡ slot_line slot.now }
{
    let [a, b, c, d, e, f, g, h] = slot.to_bytes();
    [
        digit(a / 16),
        digit(a % 16),
        b' ',
        digit(b / 16),
        digit(b % 16),
        b' ',
        digit(c / 16),
        digit(c % 16),
        b' ',
        digit(d / 16),
        digit(d % 16),
        b' ',
        digit(e / 16),
        digit(e % 16),
        b' ',
        digit(f / 16),
        digit(f % 16),
        b' ',
        digit(g / 16),
        digit(g % 16),
        b' ',
        digit(h / 16),
        digit(h % 16),
        b'\n',
    ]
}

/// Writes the lines of slots.
pub fn write_slots<W: Write>(out: &mut W, slots: &[bpf_insn]) -> io::Result<()>
    ensures { OnOk result
        (Appends (W.contents out.old) (W.contents out.new) (flat_map slot_line slots.now)) }
{
    for slot in slots {
        out.write_all(&slot_line(slot))?;
    }
    Ok(())
}
