//! The laws of steps. Each function's contract is a law, and its body does nothing.

ghost use Rattle.vsi_steps.specs.{Laws.{SpellsEvaluates, EvaluationSpelled, OneSpelling, BeginningIsPrefix}, MonitorLaws.{ComputesTheSame, MonitoredNoninterference, StopsFewer, TypablePasses}};

/// A command whose steps take one store to another evaluates it to that store.
pub fn spells_evaluates()
    ensures { SpellsEvaluates }
{}

/// Every evaluation has steps.
pub fn evaluation_spelled()
    ensures { EvaluationSpelled }
{}

/// An evaluation has only one list of steps.
pub fn one_spelling()
    ensures { OneSpelling }
{}

/// The steps with which a run begins are the first of its steps, and not all of them.
pub fn beginning_is_prefix()
    ensures { BeginningIsPrefix }
{}

/// By either rule, a run that isn't stopped computes the store that the rules of evaluation give.
pub fn computes_the_same()
    ensures { ComputesTheSame }
{}

/// By either rule, two runs from stores that agree at and below a class, both of which halt without
/// being stopped, end in stores that agree there, for every command and every class. A word that is
/// partly leaked in one of the runs counts as agreeing.
pub fn monitored_noninterference()
    ensures { MonitoredNoninterference }
{}

/// By either rule, a typable program whose variables begin with their classes as labels is never
/// stopped, and they end with them: none is partly leaked.
pub fn typable_passes()
    ensures { TypablePasses }
{}

/// A run that halts by no-sensitive-upgrade halts by permissive upgrade, with the same store and
/// the same labels.
pub fn stops_fewer()
    ensures { StopsFewer }
{}
