//! Laws about CO-RE relocations and `.BTF.ext`.

ghost use Rattle.ebpf_btf_ext.specs.ExtReading.{KnownKindsAddNothing};
ghost use Rattle.ebpf_btf_ext.specs.RelocationKinds.{NumbersOfRelocationKinds, RelocationKindsByNumber};

/// Proves that the table of relocation kinds by number and the table of numbers by kind agree.
pub fn relocation_kinds_have_numbers()
    ensures kinds { RelocationKindsByNumber }
    ensures numbers { NumbersOfRelocationKinds }
{}

/// Proves that what is read of `.BTF.ext` without kind 12 is also read with it.
pub fn known_kinds_add_nothing()
    ensures { KnownKindsAddNothing }
{}
