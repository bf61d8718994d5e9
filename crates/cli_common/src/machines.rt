//! The machines that ELF files are for (ELF-64 gABI, 'ELF Header': e_machine).

use ebpf_elf::constants::{ELFDATA2MSB, EM_BPF, EM_NONE, MAGIC};

/// The machine that an ELF file is for, of 32 or 64 bits, where it isn't eBPF.
pub fn other_machine(file: &[u8]) -> Option<u16> {
    if !file.starts_with(&MAGIC) {
        return None;
    }
    let (Some(order), Some(first), Some(second)) = (file.get(5), file.get(18), file.get(19)) else {
        return None;
    };
    let machine = if *order == ELFDATA2MSB {
        u16::from_be_bytes([*first, *second])
    } else {
        u16::from_le_bytes([*first, *second])
    };
    match machine {
        EM_BPF | EM_NONE => None,
        other => Some(other),
    }
}

/// The name of a machine, of those that Linux runs on.
pub fn machine_name(machine: u16) -> Option<&'static str> {
    match machine {
        3 => Some("x86"),
        8 => Some("MIPS"),
        20 => Some("PowerPC"),
        21 => Some("PowerPC64"),
        22 => Some("S/390"),
        40 => Some("Arm"),
        43 => Some("SPARC V9"),
        62 => Some("x86-64"),
        183 => Some("AArch64"),
        243 => Some("RISC-V"),
        258 => Some("LoongArch"),
        _ => None,
    }
}
