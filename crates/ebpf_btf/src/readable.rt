//! The offsets at which a text can be read.

ghost use Rattle.ebpf_btf.specs.Strings.{AreReadableBelow};

/// Returns the offset after the last zero byte: a text can be read at the offsets below it, and at no others.
#[tactic(auto, using(crate::proofs::ReadableOffsets::none_past, crate::proofs::ReadableOffsets::none_before, crate::proofs::ReadableOffsets::readable_here, crate::proofs::ReadableOffsets::readable_nowhere))]
pub fn readable_below(strings: &[u8]) -> usize
    ensures { AreReadableBelow strings.now result }
{
    let mut end = strings.len();
    while end > 0 {
        if strings[end - 1] == 0 {
            return end;
        }
        end -= 1;
    }
    0
}
