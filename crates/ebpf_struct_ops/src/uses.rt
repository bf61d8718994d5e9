//! The uses of one program by several maps of struct_ops.

ghost use Rattle.std.specs.Prelude.{◌≡◌, IfSome};
ghost use Rattle.std.specs.List.{find};
ghost use Rattle.std.specs.Option.{option_copied};
ghost use Rattle.ebpf_base.specs.Faults.{Refuses, first_some};
ghost use Rattle.ebpf_struct_ops.specs.KernelStructs.{is_struct_ops_memory};
ghost use Rattle.ebpf_struct_ops.specs.Uses.{agrees, first_use, is_program, other_use, use_in, uses_fault, uses_otherwise};

use crate::error::StructOpsError;
use crate::maps::{StructOpsMap, StructOpsProgram};

/// Whether a program has a name.
fn is_program(name: &str, program: &StructOpsProgram) -> bool
    ensures { result ≡ is_program name.now program.now }
{
    program.program.as_str() == name
}

/// The first use of a program by a map: the id of the kernel's struct, and the index of the member.
fn use_in(struct_id: u32, programs: &[StructOpsProgram], name: &str) -> Option<(u32, usize)>
    ensures { result ≡ use_in name.now struct_id programs.now }
{
    for program in programs {
        if is_program(name, program) {
            return Some((struct_id, program.member));
        }
    }
    None
}

/// The first use of a program by some maps.
fn first_use(maps: &[StructOpsMap], name: &str) -> Option<(u32, usize)>
    ensures { result ≡ first_use maps.now name.now }
{
    for map in maps {
        let found = use_in(map.struct_id, map.programs.as_slice(), name);
        if found.is_some() {
            return found;
        }
    }
    None
}

/// Whether a use is as the first one of its program.
fn agrees(first: Option<(u32, usize)>, struct_id: u32, member: usize) -> bool
    ensures { result ≡ agrees first struct_id member }
{
    match first {
        Some(first) => first.0 == struct_id && first.1 == member,
        None => true,
    }
}

/// Whether a map uses a program otherwise than its first use.
fn uses_otherwise(maps: &[StructOpsMap], struct_id: u32, program: &StructOpsProgram) -> bool
    ensures { result ≡ uses_otherwise maps.now struct_id program.now }
{
    !agrees(
        first_use(maps, program.program.as_str()),
        struct_id,
        program.member,
    )
}

/// The first program that a map uses otherwise than its first use.
fn other_use<'a>(
    maps: &[StructOpsMap],
    struct_id: u32,
    programs: &'a [StructOpsProgram],
) -> Option<&'a StructOpsProgram>
    ensures { option_copied result ≡ other_use maps.now struct_id programs.now }
{
    for program in programs {
        if uses_otherwise(maps, struct_id, program) {
            return Some(program);
        }
    }
    None
}

/// Checks that all uses of a program by some maps agree: that they are for one struct of the kernel, and for one member.
///
/// A program is loaded with one id of a struct and one index of a member, so libbpf refuses others
/// (`bpf_map__init_kern_struct_ops`).
///
/// # Errors
///
/// - `OtherUse`: a map uses a program otherwise than its first use. It names the first such use, by the order of the maps
///   and of their programs.
/// - `OutOfMemory`: an allocation failed.
pub fn check_uses(maps: &[StructOpsMap]) -> Result<(), StructOpsError>
    ensures { Refuses is_struct_ops_memory result (uses_fault maps.now) }
{
    for map in maps {
        if let Some(program) = other_use(maps, map.struct_id, map.programs.as_slice()) {
            return Err(StructOpsError::OtherUse {
                map: map.name.clone()?,
                program: program.program.clone()?,
            });
        }
    }
    Ok(())
}
