//! The bases of copies: the slots at which the copies of functions begin.

ghost use Rattle.std.specs.Prelude.{◌≡◌, ℕ, ◌+◌, ◌<◌, ◌^◌, length, IfOk, All, List};
ghost use Rattle.ebpf_linker.specs.Copies.{Fit, with_bases};

use crate::body::Body;
use crate::tables::Tables;
use std::alloc::{AllocError, Global};

/// Gives the bases of copies of these functions, by number, if the first copy begins at `first`. The bases of other
/// functions can be any.
#[tactic(auto, using(crate::proofs::Walks::room_next, crate::proofs::Walks::body_read))]
pub fn copy_bases(
    alloc: Global,
    tables: &Tables,
    bodies: &[Body<'_>],
    first: usize,
    functions: &[usize],
) -> Result<Vec<usize>, AllocError>
    requires functions { All (λ k. k < length bodies.now) functions.now }
    requires fit { Fit bodies.now first functions.now }
    ensures copy_bases { IfOk result (λ v.
        (before : List ℕ)
        × (length before ≡ length bodies.now)
        × (v.items ≡ with_bases bodies.now first before functions.now)) }
    ensures below { IfOk result (λ v. All (λ b. b < 2 ^ 31) v.items) }
{
    let mut bases = tables.take_bases(alloc, bodies.len())?;
    let mut end = first;
    for function in functions {
        bases[*function] = end;
        end += bodies[*function].slots.len();
    }
    Ok(bases)
}
