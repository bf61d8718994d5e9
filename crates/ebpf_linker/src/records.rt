//! The func info and line info of a linked program.

ghost use Rattle.std.specs.Prelude.{◌≡◌, ◌+◌, ◌<◌, ◌++◌, [], length, map, false, IfOk, OnOk, All};
ghost use Rattle.ebpf_linker.specs.Faults.{first_line};
ghost use Rattle.ebpf_linker.specs.Faults.{has_stray, is_stray};
ghost use Rattle.ebpf_linker.specs.Copies.{Fit, body_at};
ghost use Rattle.ebpf_linker.specs.Numbered.{functions_by_number};
ghost use Rattle.ebpf_linker.specs.Result.{func_moved, line_moved, linked_func_info, linked_line_info, has_lines, count_if};

use crate::body::Body;
use ebpf_btf_ext::{bpf_func_info, bpf_line_info};
use std::alloc::{AllocError, Global};

/// A line info entry, moved from the first line of its function to a base.
#[tactic(auto, using(crate::proofs::Walks::not_stray))]
fn moved_line(line: bpf_line_info, first: u32, base: u32) -> bpf_line_info
    requires { is_stray first base line ≡ false }
    ensures { result ≡ line_moved first base line }
{
    bpf_line_info {
        insn_off: (line.insn_off as u64 - first as u64 + base as u64) as u32,
        ..line
    }
}

/// Appends the func info entries of a copy that begins at a base.
fn append_func_info(
    out: &mut Vec<bpf_func_info>,
    records: &[bpf_func_info],
    base: u32,
) -> Result<(), AllocError>
    ensures { OnOk result (out.new.items ≡ out.old.items ++ map (func_moved base) records.now) }
{
    for record in records {
        out.push(bpf_func_info {
            insn_off: base,
            ..*record
        })?;
    }
    Ok(())
}

/// Appends the line info entries of a copy that begins at a base.
fn append_line_info(
    out: &mut Vec<bpf_line_info>,
    lines: &[bpf_line_info],
    base: u32,
) -> Result<(), AllocError>
    requires { has_stray base lines.now ≡ false }
    ensures { OnOk result
        (out.new.items
        ≡ out.old.items ++ map (line_moved (first_line lines.now) base) lines.now) }
{
    let Some(line) = lines.first() else {
        return Ok(());
    };
    let first = line.insn_off;
    for line in lines {
        out.push(moved_line(*line, first, base))?;
    }
    Ok(())
}

/// The func info entries of a linked program: the entries of the program, then of each copy.
#[tactic(auto, using(crate::proofs::Walks::room_more))]
pub fn func_records(
    alloc: Global,
    bodies: &[Body<'_>],
    start: usize,
    copies: &[usize],
) -> Result<Vec<bpf_func_info>, AllocError>
    requires start { start < length bodies.now }
    requires copies { All (λ k. k < length bodies.now) copies.now }
    requires fit { Fit bodies.now (length (body_at bodies.now start)) copies.now }
    ensures { IfOk result (λ out.
        out.items ≡ linked_func_info (functions_by_number bodies.now []) start copies.now) }
{
    let mut out = Vec::new(alloc);
    out.extend_from_slice(bodies[start].func_info)?;
    let mut base = bodies[start].slots.len();
    for copy in copies {
        append_func_info(&mut out, bodies[*copy].func_info, base as u32)?;
        base += bodies[*copy].slots.len();
    }
    Ok(out)
}

/// The line info entries of a linked program: the entries of the program, then of each copy.
#[tactic(auto, using(crate::proofs::Walks::room_more, crate::proofs::Walks::sound_more))]
pub fn line_records(
    alloc: Global,
    bodies: &[Body<'_>],
    start: usize,
    copies: &[usize],
) -> Result<Vec<bpf_line_info>, AllocError>
    requires start { start < length bodies.now }
    requires copies { All (λ k. k < length bodies.now) copies.now }
    requires fit { Fit bodies.now (length (body_at bodies.now start)) copies.now }
    ensures { IfOk result (λ out.
        out.items ≡ linked_line_info (functions_by_number bodies.now []) start copies.now) }
{
    let mut out = Vec::new(alloc);
    out.extend_from_slice(bodies[start].line_info)?;
    let mut base = bodies[start].slots.len();
    for copy in copies {
        append_line_info(&mut out, bodies[*copy].line_info, base as u32)?;
        base += bodies[*copy].slots.len();
    }
    Ok(out)
}

/// Whether one of these functions has line info entries.
#[tactic(auto, using(crate::proofs::Walks::lines_here, crate::proofs::Walks::some_if))]
pub fn has_lines(bodies: &[Body<'_>], copies: &[usize]) -> bool
    requires { All (λ k. k < length bodies.now) copies.now }
    ensures { result ≡ has_lines (functions_by_number bodies.now []) copies.now }
{
    for copy in copies {
        if !bodies[*copy].line_info.is_empty() {
            return true;
        }
    }
    false
}

/// The number of entries, its low 32 bits, if the count changes.
pub fn count_if<T>(changed: bool, records: &[T]) -> Option<u32>
    ensures { result ≡ count_if changed records.now }
{
    if !changed {
        return None;
    }
    Some((records.len() % 0x1_0000_0000) as u32)
}
