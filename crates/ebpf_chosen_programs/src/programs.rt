//! The programs that remain, and the first name that no program has.

ghost use Rattle.std.specs.Prelude.{◌≡◌, IfOk};
ghost use Rattle.std.specs.FinMap as map;
ghost use Rattle.ebpf_base.specs.Faults.{Refuses};
ghost use Rattle.ebpf_base.specs.Maps.{lent_bytes};
ghost use Rattle.ebpf_chosen_programs.specs.LeavingOut.{is_leave_out_memory, leave_out_fault, remaining};
ghost use Rattle.ebpf_chosen_programs.specs.PrivateContracts.{name_set};

use crate::error::LeaveOutError;
use ebpf_base::{ByName, Text};
use ebpf_model::Program;
use std::alloc::{AllocError, Global};

/// Refuses for the first name that no program has.
#[tactic(auto, using(crate::proofs::Steps::fault_more, crate::proofs::Steps::fault_none))]
pub fn check_names(
    alloc: Global,
    programs: &ByName<Program>,
    names: &[&str],
) -> Result<(), LeaveOutError>
    ensures { Refuses is_leave_out_memory result
        (leave_out_fault (lent_bytes names.now) programs.now) }
{
    for name in names {
        if programs.contains_key(name) {
            continue;
        }
        let name = Text::from_str(alloc, name)?;
        return Err(LeaveOutError::UnknownProgram { name });
    }
    Ok(())
}

/// The set of some names.
#[tactic(auto, using(crate::proofs::Steps::name_more, crate::proofs::Steps::name_none))]
fn name_set(alloc: Global, names: &[&str]) -> Result<ByName<()>, AllocError>
    ensures { IfOk result (λ set. set ≡ name_set (lent_bytes names.now)) }
{
    let mut set = ByName::new(alloc);
    for name in names {
        set.insert(String::from_str(alloc, name)?, ())?;
    }
    Ok(set)
}

/// The programs without those that have one of the names.
pub fn remaining_programs(
    alloc: Global,
    programs: &ByName<Program>,
    names: &[&str],
) -> Result<ByName<Program>, AllocError>
    ensures { IfOk result (λ left. left ≡ remaining (lent_bytes names.now) programs.now) }
{
    let left_out = name_set(alloc, names)?;
    let mut left = ByName::new(alloc);
    for (name, program) in programs.iter() {
        if left_out.contains_key(name) {
            continue;
        }
        left.insert(name.clone()?, program.clone()?)?;
    }
    Ok(left)
}
