//! What holds of any calls that are made with one handle, and of calls over types that were read.

ghost use Rattle.capi_exports.specs.KernelPasses.{TypesAreTheirBytes};
ghost use Rattle.capi_exports.specs.PassSequences.{AnyCallsCompose};
ghost use Rattle.capi_exports.specs.WantedSymbols.{SymbolsAreReadWhereWanted};

use crate::held::Held;
use crate::kernel_types::Kernel;

/// Whatever calls are made with one handle, and whatever they answer: what it holds comes of the object as it was when
/// the first pass was made, by passes of which each was made at most once and in the order types, maps, resolution,
/// externs, calls. So all that is promised of a finished object holds of it (`ebpf_object::laws::passes_finish`).
#[tactic(auto, using(crate::proofs::PassSequences::any_calls_compose))]
pub fn any_calls_compose()
    ensures { AnyCallsCompose }
{}

/// A call over a kernel's types does, and refuses, what the call does over the bytes that they were read from, whichever
/// bytes spell them.
pub fn types_are_their_bytes()
    ensures { TypesAreTheirBytes }
{}

/// Finding externs reads the kernel's symbols exactly where `ebpf_wants_symbols` says so. Where it doesn't, it gives the
/// same whatever symbols it is given (`ebpf_ksyms`, `IsResolvedBy`).
#[tactic(auto, using(crate::proofs::WantedSymbols::symbols_are_read_where_wanted))]
pub fn symbols_are_read_where_wanted()
    ensures { SymbolsAreReadWhereWanted }
{}

/// Compiles where the values of a type may move to another thread.
fn may_move<T: Send>() {}

/// What a handle holds, and the types of a kernel, may move to another thread.
pub fn handles_may_move() {
    may_move::<Held>();
    may_move::<Kernel>()
}
