//! What holds of the names of numbers.

ghost use Rattle.capi_rows.specs.NumberNames.{NumberNamesFit};

/// Each name of a number fits 64 bytes.
#[tactic(auto, using(crate::proofs::NumberNames::names_fit))]
pub fn number_names_fit()
    ensures { NumberNamesFit }
{}
