//! Linking a program.

ghost use Rattle.std.specs.Prelude.{◌≡◌, ℕ, ◌<◌, ◌∷◌, List, length, IfOk, All};
ghost use Rattle.ebpf_linker.specs.Numbered.{functions_by_number};
ghost use Rattle.ebpf_linker.specs.Copies.{IsReady, IsLaidOut};
ghost use Rattle.ebpf_linker.specs.Result.{IsProgram};

use crate::bases::copy_bases;
use crate::body::{Body, LinkedProgram};
use crate::copies::write_copies;
use crate::functions::Functions;
use crate::layout::ProgramLayout;
use crate::records::{count_if, func_records, has_lines, line_records};
use ebpf_base::Items;
use std::alloc::{AllocError, Global};

/// The number of slots of a program with these copies.
fn bodies_slot_count(bodies: &[Body<'_>], bases: &[usize], start: usize, copies: &[usize]) -> usize
    requires start { start < length bodies.now }
    requires copies { All (λ k. k < length bodies.now) copies.now }
    requires copy_bases { length bases.now ≡ length bodies.now }
{
    match copies.last() {
        Some(copy) => bases[*copy].saturating_add(bodies[*copy].slots.len()),
        None => bodies[start].slots.len(),
    }
}

/// Writes the program with copies of these functions; `order` is the program, then the functions.
fn assemble(
    alloc: Global,
    functions: &Functions<'_>,
    start: usize,
    order: &[usize],
    copies: &[usize],
) -> Result<LinkedProgram, AllocError>
    requires ready { IsReady functions.now.bodies.now functions.now.references.now start
        copies.now }
    requires order { order.now ≡ start ∷ copies.now }
    ensures { IfOk result (λ program.
        IsProgram (functions_by_number functions.now.bodies.now functions.now.references.now)
        start copies.now program) }
{
    let bodies = functions.bodies;
    let bases = copy_bases(
        alloc,
        functions.tables,
        bodies,
        bodies[start].slots.len(),
        copies,
    )?;
    let size = bodies_slot_count(bodies, &bases, start, copies);
    let slots = write_copies(alloc, size, functions, order, &bases)?;
    functions.tables.keep_bases(bases);
    let func_info = func_records(alloc, bodies, start, copies)?;
    let line_info = line_records(alloc, bodies, start, copies)?;
    let func_count = count_if(!copies.is_empty(), &func_info);
    let line_count = count_if(has_lines(bodies, copies), &line_info);
    Ok(LinkedProgram {
        slots: Items::from_vec(slots),
        func_info: Items::from_vec(func_info),
        line_info: Items::from_vec(line_info),
        func_count,
        line_count,
    })
}

impl Functions<'_> {
    /// Links the program of a layout: the program, followed by a copy of each function that it is linked with, in their
    /// order.
    ///
    /// A slot that refers names the distance from the slot after it to the copy. The source register of such a slot
    /// becomes 4 if the slot is no call.
    pub fn link(&self, alloc: Global, layout: &ProgramLayout) -> Result<LinkedProgram, AllocError>
        requires { IsLaidOut self.now.bodies.now self.now.references.now layout.now }
        ensures { IfOk result (λ program.
            (ks : List ℕ)
            × IsProgram (functions_by_number self.now.bodies.now self.now.references.now)
            layout.now.start ks program) }
    {
        let order = layout.order.as_slice();
        assemble(alloc, self, layout.start, order, &order[1..])
    }
}
