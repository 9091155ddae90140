//! The laws of resolution and of evaluation. Each function's contract is a law, and its body does
//! nothing.

ghost use Rattle.vsi_scope.specs.{Scopes.{OneResolution}, Laws.{MarksFollowText, ResolvesFaultless, FaultlessResolves}, Rules.{EvaluationRules, LargerKeeps, OneAnswer, LengthKept}};

/// Every rule of evaluation holds, and so does its converse.
pub fn evaluation_rules()
    ensures { EvaluationRules }
{}

/// Allowing more turns does not change an answer.
pub fn larger_keeps()
    ensures { LargerKeeps }
{}

/// A command evaluates a store to at most one store.
pub fn one_answer()
    ensures { OneAnswer }
{}

/// Evaluation keeps the number of words in a store.
pub fn length_kept()
    ensures { LengthKept }
{}

/// A tree has at most one resolution.
pub fn one_resolution()
    ensures { OneResolution }
{}

/// The marks by which a program is judged are at the names that its text writes, in source order.
pub fn marks_follow_text()
    ensures { MarksFollowText }
{}

/// A program that has a resolution has no fault.
pub fn resolves_faultless()
    ensures { ResolvesFaultless }
{}

/// A program without a fault has a body over locations, which is its resolution if it isn't too
/// large.
pub fn faultless_resolves()
    ensures { FaultlessResolves }
{}
