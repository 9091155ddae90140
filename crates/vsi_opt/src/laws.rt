//! The laws of the optimiser. Each function's contract is a law, and its body does nothing.

ghost use Rattle.vsi_opt.specs.Optimised.{EvaluatesSame, NotLarger, NothingToFold, PlacesKept};

/// The optimised body behaves like the body.
pub fn evaluates_same()
    ensures { EvaluatesSame }
{}

/// The optimised body isn't larger, nor deeper in expressions or in letvars.
pub fn not_larger()
    ensures { NotLarger }
{}

/// Nothing is left to fold.
pub fn nothing_to_fold()
    ensures { NothingToFold }
{}

/// Each location that is used exists.
pub fn places_kept()
    ensures { PlacesKept }
{}
