//! Leaving programs out of an object.

ghost use Rattle.std.specs.Prelude.{◌≡◌, IfOk, OnOk, OnErr};
ghost use Rattle.ebpf_base.specs.Faults.{Refuses};
ghost use Rattle.ebpf_base.specs.Maps.{lent_bytes};
ghost use Rattle.ebpf_chosen_programs.specs.LeavingOut.{AreLeftOut, is_leave_out_memory, leave_out_fault};
ghost use Rattle.ebpf_chosen_programs.specs.PrivateContracts.{ArePartsWithout};

use crate::error::LeaveOutError;
use crate::externs::kept_externs;
use crate::programs::{check_names, remaining_programs};
use crate::reached::reached_functions;
use crate::relocations::kept_relocations;
use ebpf_base::{ByName, ByOffset, BySection};
use ebpf_model::{ExternDesc, Program};
use ebpf_object::Object;
use ebpf_parts::Relocation;
use std::alloc::{AllocError, Global};

/// The parts of an object that change where programs are left out.
#[derive(Drop)]
pub struct ChosenParts {
    /// The programs that remain.
    pub programs: ByName<Program>,
    /// The relocations that stay.
    pub relocations: BySection<ByOffset<Relocation>>,
    /// The externs that stay.
    pub externs: ByName<ExternDesc>,
}

/// The parts of an object without the programs that have one of the names.
fn chosen_parts(alloc: Global, object: &Object, names: &[&str]) -> Result<ChosenParts, AllocError>
    ensures { IfOk result (λ parts. ArePartsWithout (lent_bytes names.now) object.now parts) }
{
    let programs = remaining_programs(alloc, &object.programs, names)?;
    let reached = reached_functions(alloc, object, &programs)?;
    let relocations = kept_relocations(alloc, &object.functions, &reached, &object.relocations)?;
    let externs = kept_externs(
        alloc,
        &object.symbol_table,
        &object.relocations,
        &relocations,
        &object.externs,
    )?;
    Ok(ChosenParts {
        programs,
        relocations,
        externs,
    })
}

/// Puts parts into an object.
fn put_parts(object: &mut Object, parts: ChosenParts)
    ensures { object.new
        ≡ record object.old {
          programs = parts.programs;
          relocations = parts.relocations;
          externs = parts.externs;
        } }
{
    object.programs = parts.programs;
    object.relocations = parts.relocations;
    object.externs = parts.externs;
}

/// Leaves programs out of an object: they are not linked, and what they alone need is not asked for.
///
/// Call it before the passes. A remaining program keeps each function that its references reach, as linking follows
/// them, with all relocations in these functions and all externs to which these refer. The relocations in other
/// functions are gone. So are the externs to which only these relocations referred, and which the kernel may lack.
/// Maps, functions, symbols, types and CO-RE relocations stay.
///
/// # Errors
///
/// - `UnknownProgram`: no program has the name, of several the first in the order given.
/// - `OutOfMemory`: an allocation failed.
///
/// On error the object is unchanged.
pub fn leave_out(alloc: Global, object: &mut Object, names: &[&str]) -> Result<(), LeaveOutError>
    ensures left_out { OnOk result (AreLeftOut (lent_bytes names.now) object.old object.new) }
    ensures fault { Refuses is_leave_out_memory result
        (leave_out_fault (lent_bytes names.now) object.old.programs) }
    ensures unchanged { OnErr result (object.new ≡ object.old) }
{
    check_names(alloc, &object.programs, names)?;
    let parts = chosen_parts(alloc, object, names)?;
    put_parts(object, parts);
    Ok(())
}
