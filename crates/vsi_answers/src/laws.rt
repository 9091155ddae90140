//! The laws of answers. Each law is the contract of a function whose body does nothing.

ghost use Rattle.vsi_answers.specs.Laws.{AcceptedIsAccepted, BoundIsKept, BoundedIsNoninterfering, BuiltIsAccepted, SameView, StrictIsBase};

/// If `check` answers for the bytes of a lattice file and a text, the text is accepted under the
/// lattice that the bytes declare.
pub fn accepted_is_accepted()
    ensures { AcceptedIsAccepted }
{}

/// If `check` answers, `build` doesn't refuse, and if `build` answers, `check` doesn't refuse.
pub fn built_is_accepted()
    ensures { BuiltIsAccepted }
{}

/// If `check --strict` accepts a text, `check` doesn't refuse it.
pub fn strict_is_base()
    ensures { StrictIsBase }
{}

/// For two stores that agree at and below a class, `view` answers the class the same for the image
/// whose bytes `build` answers.
pub fn same_view()
    ensures { SameView }
{}

/// Where `bound` finds a bound, the run from every store halts with a budget of at least the number
/// that its line says.
pub fn bound_is_kept()
    ensures { BoundIsKept }
{}

/// Where `build` answers the bytes of an image and `bound` finds a bound for it, the runs from two
/// stores that agree at and below a class both halt and end in agreement there, with budgets of at
/// least the number that its line says.
pub fn bounded_is_noninterfering()
    ensures { BoundedIsNoninterfering }
{}
