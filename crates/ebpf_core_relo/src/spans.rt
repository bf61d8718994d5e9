//! The spans of functions in the data of their section, by which the function of a record is found.

ghost use Rattle.std.specs.Prelude.{◌≡◌, ◌++◌, ◌∷◌, [], OnOk, ◌≤◌, nat_le, slice_get, true, false, ℕ, IfOk};
ghost use Rattle.std.specs.List.Sorted.{IsPartitionPoint, IsPartitionedBy};
ghost use Rattle.ebpf_core_relo.specs.Spans.{span_at, last_start, span_of, spans_of};
ghost use Rattle.ebpf_core_relo.specs.PrivateContracts.{first_at, if_begun, with_span, spans_or_none};
ghost use Rattle.std.specs.FinMap as map;

use ebpf_base::{ByKey, ByName, BySection};
use ebpf_elf::SectionIndex;
use ebpf_model::Function;
use ebpf_parts::insn::bpf_insn;
use std::alloc::{AllocError, Global};
use std::marker::Model;
use std::mem;

/// The part of a section's data that a function takes.
#[derive(Clone, Copy)]
pub struct Span {
    /// The function's address.
    pub address: u64,
    /// The start of the function in the section, in bytes.
    pub start: usize,
    /// The number of slots before the function's end, counted from the section's start.
    pub end: usize,
}

/// Spans of which each begins no earlier than the one before it.
///
/// Contracts see the list of the spans.
#[derive(Drop)]
pub struct RisingSpans {
    spans: Vec<Span>,
    ends: Vec<usize>,
    top: usize,
    last_start: usize,
}

impl Model for RisingSpans {
    ghost use Rattle.std.specs.Prelude.{List};
    ghost use Rattle.ebpf_core_relo.specs.declared.spans.Span.{Span};
    ghost use Rattle.ebpf_core_relo.specs.Spans.{IsTopped};

    ghost Value = { List Span };

    ghost view = { λ s. s.spans.items };

    ghost invariant = { λ s. IsTopped s.spans.items s.ends.items s.top s.last_start };
}

/// The spans of the functions of one section, in the order of their addresses.
///
/// The spans are kept as runs. In a run no span begins before the one in front of it. There is one run where no address
/// wraps past 2^64, else there are two. Contracts see the list of the spans.
#[derive(Drop)]
pub struct Spans {
    before: Vec<RisingSpans>,
    last: RisingSpans,
}

impl Model for Spans {
    ghost use Rattle.std.specs.Prelude.{List};
    ghost use Rattle.ebpf_core_relo.specs.declared.spans.Span.{Span};
    ghost use Rattle.ebpf_core_relo.specs.Spans.{all_spans};

    ghost Value = { List Span };

    ghost view = { λ s. all_spans s.before.items s.last };
}

/// The first span of some runs that holds an offset, or of a last one.
fn first_at(runs: &[RisingSpans], last: &RisingSpans, offset: usize) -> Option<Span>
    ensures { result ≡ first_at offset runs.now last.now }
{
    for run in runs {
        if let Some(span) = run.at(offset) {
            return Some(span);
        }
    }
    last.at(offset)
}

impl Spans {
    /// No spans, without memory.
    pub fn new(alloc: Global) -> Spans
        ensures { result ≡ [] }
    {
        Spans {
            before: Vec::new(alloc),
            last: RisingSpans::new(alloc),
        }
    }

    /// Begins a run with a span.
    #[tactic(auto, using(crate::proofs::Tops::on_its_own))]
    fn begin(&mut self, alloc: Global, span: Span) -> Result<(), AllocError>
        ensures { OnOk result (self.new ≡ self.old ++ span ∷ []) }
    {
        let mut run = RisingSpans::new(alloc);
        run.push(span)?;
        let full = mem::replace(&mut self.last, run);
        self.before.push(full)?;
        Ok(())
    }

    /// Adds a span behind the others.
    ///
    /// # Errors
    ///
    /// - `AllocError`: an allocation failed. The content of these spans is unknown afterwards.
    #[tactic(auto, using(crate::proofs::Tops::behind_last))]
    pub fn push(&mut self, alloc: Global, span: Span) -> Result<(), AllocError>
        ensures { OnOk result (self.new ≡ self.old ++ span ∷ []) }
    {
        if span.start < self.last.last_start() {
            return self.begin(alloc, span);
        }
        self.last.push(span)
    }

    /// The first span that holds an offset, in bytes. The cost grows by the number of runs times the logarithm of the
    /// number of spans.
    #[tactic(auto, using(crate::proofs::Tops::first_of_all))]
    pub fn at(&self, offset: usize) -> Option<Span>
        ensures { result ≡ span_at offset self.now }
    {
        first_at(&self.before, &self.last, offset)
    }
}

/// The upper bound of a slot among ends: the number of those that are not past it, where these come first.
fn upper_bound(ends: &[usize], slot: usize) -> usize
    requires { IsPartitionedBy (λ end. nat_le end slot) ends.now }
    ensures { IsPartitionPoint (λ end. nat_le end slot ≡ true) (λ end. nat_le end slot ≡ false)
        ends.now result }
{
    ends.partition_point(|end| *end <= slot)
}

impl RisingSpans {
    /// No spans, without memory.
    pub fn new(alloc: Global) -> RisingSpans
        ensures { result ≡ [] }
    {
        RisingSpans {
            spans: Vec::new(alloc),
            ends: Vec::new(alloc),
            top: 0,
            last_start: 0,
        }
    }

    /// Returns the start of the last span, in bytes; 0 where there is none.
    pub fn last_start(&self) -> usize
        ensures { result ≡ last_start 0 self.now }
    {
        self.last_start
    }

    /// Adds a span that begins no earlier than the last.
    ///
    /// # Errors
    ///
    /// - `AllocError`: an allocation failed. The content of these spans is unknown afterwards.
    pub fn push(&mut self, span: Span) -> Result<(), AllocError>
        requires { last_start 0 self.old ≤ span.start }
        ensures { OnOk result (self.new ≡ self.old ++ span ∷ []) }
    {
        let top = self.top.max(span.end);
        self.ends.reserve(1)?;
        self.spans.push(span)?;
        self.ends.push(top)?;
        self.top = top;
        self.last_start = span.start;
        Ok(())
    }

    /// The first span that holds an offset, in bytes. The cost grows by the logarithm of the number of spans.
    #[tactic(auto, using(crate::proofs::Tops::parted, crate::proofs::Tops::found_by))]
    pub fn at(&self, offset: usize) -> Option<Span>
        ensures { result ≡ span_at offset self.now }
    {
        let number = upper_bound(&self.ends, offset / bpf_insn::SIZE);
        begun_span(&self.spans, number, offset)
    }
}

/// The span with a number, where it begins no later than an offset.
fn begun_span(spans: &[Span], number: usize, offset: usize) -> Option<Span>
    ensures { result ≡ if_begun offset (slice_get spans.now number) }
{
    match spans.get(number) {
        Some(span) if span.start <= offset => Some(*span),
        _ => None,
    }
}

/// The span of a function.
fn span_of(address: u64, function: &Function) -> Span
    ensures { result ≡ span_of ((function.now.section_index.0, address), function.now) }
{
    Span {
        address,
        start: function.section_offset,
        end: function.section_offset / bpf_insn::SIZE + function.instructions.as_slice().len(),
    }
}

/// Adds a span behind the others of its section.
fn add(
    alloc: Global,
    sections: &mut BySection<Spans>,
    section: usize,
    span: Span,
) -> Result<(), AllocError>
    ensures { OnOk result
        (sections.new ≡ with_span sections.old section span (map.get sections.old section)) }
{
    match sections.get_mut(section as u64) {
        Some(spans) => {
            spans.push(alloc, span)?;
        }
        None => {
            let mut spans = Spans::new(alloc);
            spans.push(alloc, span)?;
            sections.insert(section as u64, spans)?;
        }
    }
    Ok(())
}

/// The spans of all functions, by the sections of their keys, in the order of their addresses.
///
/// # Errors
///
/// - `AllocError`: an allocation failed.
#[tactic(auto, using(crate::proofs::Tops::span_more, crate::proofs::Tops::span_none, crate::proofs::Tops::span_all))]
pub fn section_spans(
    alloc: Global,
    functions: &ByKey<Function>,
) -> Result<BySection<Spans>, AllocError>
    ensures { IfOk result (λ sections.
        (q : ℕ) → spans_or_none (map.get sections q) ≡ spans_of functions.now q) }
{
    let mut sections = BySection::new(alloc);
    for (key, function) in functions.iter() {
        add(alloc, &mut sections, key.0, span_of(key.1, function))?;
    }
    Ok(sections)
}

/// The span in a section that holds an offset in bytes. Of several the one with the lowest address counts.
pub fn span_in(sections: &BySection<Spans>, section: usize, offset: usize) -> Option<Span>
    ensures { result ≡ span_at offset (spans_or_none (map.get sections.now section)) }
{
    sections.get(section as u64)?.at(offset)
}

/// Functions with their spans, and the sections' indexes by name.
#[derive(Drop)]
pub struct FunctionSpans<'a> {
    /// The functions by section and address.
    pub functions: &'a ByKey<Function>,
    /// The indexes of the sections by name.
    pub section_infos: &'a ByName<SectionIndex>,
    /// The spans of the functions by section.
    pub spans: BySection<Spans>,
    ghost spans_are: { (q : ℕ) → spans_or_none (map.get spans q) ≡ spans_of functions.now q },
}

impl<'a> FunctionSpans<'a> {
    /// Returns the spans of functions.
    ///
    /// # Errors
    ///
    /// - `AllocError`: an allocation failed.
    pub fn new(
        alloc: Global,
        functions: &'a ByKey<Function>,
        section_infos: &'a ByName<SectionIndex>,
    ) -> Result<FunctionSpans<'a>, AllocError>
        ensures functions { IfOk result (λ p. p.functions.now ≡ functions.now) }
        ensures sections { IfOk result (λ p. p.section_infos.now ≡ section_infos.now) }
    {
        let spans = section_spans(alloc, functions)?;
        Ok(FunctionSpans {
            functions,
            section_infos,
            spans,
        })
    }
}
