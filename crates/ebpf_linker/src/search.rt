//! The search for the functions of a program, in the order of their copies.

ghost use Rattle.std.specs.Prelude.{◌≡◌, ℕ, ◌+◌, ◌<◌, ◌≤◌, length, [], IfOk, Some, All, true, false, slice_index_or};
ghost use Rattle.ebpf_linker.specs.Search.{Finds, Advanced, Entered, search_at, checked_calls, checked_target};
ghost use Rattle.ebpf_linker.specs.Faults.{checked_references, append_fault};
ghost use Rattle.ebpf_linker.specs.Faults.{content_fault, has_stray, is_stray};
ghost use Rattle.ebpf_linker.specs.Functions.{Among};
ghost use Rattle.ebpf_linker.specs.Numbered.{IsWithin, body_content, functions_by_number};
ghost use Rattle.ebpf_linker.specs.declared.reference.Fault.TheVariants.{ProgramTooLong, InvalidLineInfo};

use crate::body::Body;
use crate::functions::Functions;
use crate::reference::{Fault, Target};
use crate::tables::{Tables, unmark};
use ebpf_btf_ext::bpf_line_info;
use std::alloc::{AllocError, Global};

/// A frame of the search, which is depth-first: a function whose references are being followed, its place in the order, and
/// its next reference.
#[derive(Clone, Copy)]
pub struct Frame {
    pub copy: usize,
    pub function: usize,
    pub next: usize,
}

/// The most slots that a linked program has.
const LIMIT: usize = 0x7fff_ffff;

/// A search under way.
#[derive(Drop)]
struct Progress {
    /// The functions that were found, in the order of their copies.
    order: Vec<usize>,
    /// The flags of found functions, by their numbers.
    is_found: Vec<bool>,
    /// The stack: the functions whose references are being followed.
    work_list: Vec<Frame>,
    /// The slots of the program and of the copies.
    used: usize,
}

/// Whether a line info entry is before the first one, or past 32 bits once the function begins at a base.
fn is_stray(first: u32, base: usize, line: &bpf_line_info) -> bool
    requires { base ≤ 2147483647 }
    ensures { result ≡ is_stray first base line.now }
{
    line.insn_off < first || (line.insn_off - first) as u64 + base as u64 > 0xffff_ffff
}

/// Whether a function that begins at a base has a line info entry that can't be moved.
fn has_stray(lines: &[bpf_line_info], base: usize) -> bool
    requires { base ≤ 2147483647 }
    ensures { result ≡ has_stray base lines.now }
{
    let Some(line) = lines.first() else {
        return false;
    };
    let first = line.insn_off;
    lines.iter().any(|line| is_stray(first, base, line))
}

/// The cause why a function can't have a copy at a base, if there is one.
fn append_fault(body: &Body<'_>, base: usize, callee: usize) -> Option<Fault>
    ensures { result
        ≡ content_fault (body_content body.now) base (ProgramTooLong callee)
        (InvalidLineInfo callee) }
{
    if base > LIMIT || body.slots.len() > LIMIT - base {
        return Some(Fault::ProgramTooLong { callee });
    }
    if has_stray(body.line_info, base) {
        return Some(Fault::InvalidLineInfo { callee });
    }
    None
}

/// The target of a reference while the program `start` is linked: no function, if one of both functions has func info
/// and the other has none.
fn checked_target(bodies: &[Body<'_>], start: usize, target: Target) -> Target
    requires start { start < length bodies.now }
    requires within { IsWithin (length bodies.now) target }
    ensures { result ≡ checked_target bodies.now start target }
{
    match target {
        Target::Nowhere(fault) => Target::Nowhere(fault),
        Target::Function(callee) => {
            if bodies[callee].func_info.is_empty() == bodies[start].func_info.is_empty() {
                Target::Function(callee)
            } else {
                Target::Nowhere(Fault::FunctionInfoMismatch { callee })
            }
        }
    }
}

impl Progress {
    /// Opens a function that was not found before, where it can have a copy. `top` holds the reference to it.
    fn enter(
        &mut self,
        bodies: &[Body<'_>],
        top: Frame,
        callee: usize,
    ) -> Result<Option<Fault>, AllocError>
        requires callee { callee < length bodies.now }
        requires flags { length self.old.is_found.items ≡ length bodies.now }
        ensures { IfOk result (λ fault.
            Entered (functions_by_number bodies.now []) top
            (search_at self.old.order.items self.old.is_found.items self.old.work_list.items
            self.old.used)
            (search_at self.new.order.items self.new.is_found.items self.new.work_list.items
            self.new.used) fault callee) }
    {
        let body = &bodies[callee];
        if let Some(fault) = append_fault(body, self.used, callee) {
            return Ok(Some(fault));
        }
        self.used += body.slots.len();
        let copy = self.order.len();
        self.is_found[callee] = true;
        self.order.push(callee)?;
        self.work_list.push(top)?;
        self.work_list.push(Frame {
            copy,
            function: callee,
            next: 0,
        })?;
        Ok(None)
    }

    /// Follows the next reference of the function on top, which was taken off.
    fn advance(
        &mut self,
        functions: &Functions<'_>,
        start: usize,
        top: Frame,
    ) -> Result<Option<Fault>, AllocError>
        requires start { start < length functions.now.bodies.now }
        requires function { top.function < length functions.now.bodies.now }
        requires flags { length self.old.is_found.items ≡ length functions.now.bodies.now }
        ensures { IfOk result (λ fault.
            Advanced (functions_by_number functions.now.bodies.now functions.now.references.now)
            (checked_calls functions.now.bodies.now functions.now.references.now start) top
            (search_at self.old.order.items self.old.is_found.items self.old.work_list.items
            self.old.used)
            (search_at self.new.order.items self.new.is_found.items self.new.work_list.items
            self.new.used) fault) }
    {
        let list = &functions.references[top.function];
        let Some(call) = list.get(top.next) else {
            return Ok(None);
        };
        match checked_target(functions.bodies, start, call.target) {
            Target::Nowhere(fault) => Ok(Some(fault)),
            Target::Function(callee) => {
                if self.is_found[callee] {
                    self.work_list.push(Frame {
                        next: top.next + 1,
                        ..top
                    })?;
                    return Ok(None);
                }
                self.enter(functions.bodies, top, callee)
            }
        }
    }

    /// The functions in their order. The flags are taken back and kept for the next search.
    fn finish(self, tables: &Tables) -> Vec<usize>
        requires within { All (λ k. k < length self.is_found.items) self.order.items }
        requires marked { (k : ℕ)
            → slice_index_or self.is_found.items k false ≡ true
            → Among self.order.items k }
        ensures { result ≡ self.order }
    {
        let Progress {
            order,
            mut is_found,
            work_list: _,
            used: _,
        } = self;
        unmark(&mut is_found, &order);
        tables.keep_flags(is_found);
        order
    }
}

/// Lists the program and the functions that it reaches, in the order of their copies.
pub fn search(
    alloc: Global,
    functions: &Functions<'_>,
    start: usize,
) -> Result<Result<Vec<usize>, Fault>, AllocError>
    requires { start < length functions.now.bodies.now }
    ensures { IfOk result (λ answer.
        Finds (functions_by_number functions.now.bodies.now functions.now.references.now)
        (checked_references
        (functions_by_number functions.now.bodies.now functions.now.references.now)
        start) start answer) }
{
    let mut order = Vec::new(alloc);
    order.push(start)?;
    let is_found = functions.tables.take_flags(alloc, functions.bodies.len())?;
    let mut work_list = Vec::new(alloc);
    work_list.push(Frame {
        copy: 0,
        function: start,
        next: 0,
    })?;
    let used = functions.bodies[start].slots.len();
    let mut progress = Progress {
        order,
        is_found,
        work_list,
        used,
    };
    while let Some(top) = progress.work_list.pop() {
        let step = progress.advance(functions, start, top)?;
        if let Some(fault) = step {
            let _order = progress.finish(functions.tables);
            return Ok(Err(fault));
        }
    }
    Ok(Ok(progress.finish(functions.tables)))
}
