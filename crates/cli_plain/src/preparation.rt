//! The kernel's types of a command line.

ghost use Rattle.std.specs.Prelude.{option_map};
ghost use Rattle.ebpf_base.specs.Faults.{Gives};
ghost use Rattle.ebpf_btf.specs.Memory.{is_btf_memory};
ghost use Rattle.cli_plain.specs.Linked.{kernel_types};

use ebpf_btf::{Btf, BtfError, Endianness};

/// The kernel's types, where bytes of them are given.
pub fn read_types(bytes: Option<Vec<u8>>) -> Result<Option<Btf>, BtfError>
    ensures { Gives is_btf_memory result (kernel_types (option_map (λ bytes. bytes.items) bytes)) }
{
    let Some(bytes) = bytes else {
        return Ok(None);
    };
    match Btf::from_vec(bytes, Endianness::Little) {
        Ok(types) => Ok(Some(types)),
        Err(error) => Err(error),
    }
}
