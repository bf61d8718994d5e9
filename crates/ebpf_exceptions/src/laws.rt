//! Theorems about exception callbacks.

ghost use Rattle.ebpf_exceptions.specs.Laws.{NoTagsNoCallbacks};

/// An object without a tag of a callback has no callback, so each of its programs is linked with what its slots reach.
#[tactic(auto, using(crate::proofs::Completed::no_tags))]
pub fn no_tags_no_callbacks()
    ensures { NoTagsNoCallbacks }
{}
