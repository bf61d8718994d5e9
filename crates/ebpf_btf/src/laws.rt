//! Laws about types.

ghost use Rattle.ebpf_btf.specs.Format.{KindsByNumber, NumbersOfKinds};

/// Proves that the table of kinds by number and the table of numbers by kind agree, except for `void`. The numbers are those
/// in info words.
pub fn kinds_have_numbers()
    ensures kinds { KindsByNumber }
    ensures numbers { NumbersOfKinds }
{}
