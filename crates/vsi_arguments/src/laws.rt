//! The laws of arguments. Each function's contract is a law, and its body does nothing.

ghost use Rattle.vsi_arguments.specs.Laws.{CheckIsAsked};

/// The arguments `check`, a lattice file and a source text make no request but a judgement of these
/// files by the base profile.
pub fn check_is_asked()
    ensures { CheckIsAsked }
{}
