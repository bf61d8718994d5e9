//! Theorems about completed maps.

ghost use Rattle.ebpf_btf_maps.specs.Laws.{MapsWithoutVariablesStay};

/// Completing the maps of an object changes none where its file has no section of variables in an arena.
#[tactic(auto, using(crate::proofs::Completed::maps_stay))]
pub fn maps_without_variables_stay()
    ensures { MapsWithoutVariablesStay }
{}
