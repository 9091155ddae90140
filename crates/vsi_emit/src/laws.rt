//! Laws of emitted functions.

ghost use Rattle.vsi_emit.specs.{Apart.{WrittenApart}, Laws.{AnswersLast, BoundedNoninterference, Noninterference, SteadyJumps}};

use vsi_steady::laws::steady_runs_alike;

/// The function of a noninterfering image, such as a compiled one, is noninterfering itself: two
/// calls that answer 0, with arrays that agree at and below a class, leave arrays that agree there.
pub fn noninterference()
    ensures { Noninterference }
{}

/// If the image always halts, every two calls of its function without a budget, with arrays that
/// agree at and below a class, end and leave arrays that agree there.
pub fn bounded_noninterference()
    ensures { BoundedNoninterference }
{}

/// Two calls of a steady image's function, with arrays that agree at and below a class, reach the same
/// labels in the same order.
pub fn steady_jumps()
    ensures { SteadyJumps }
{
    // Called for its contract alone.
    steady_runs_alike();
}

/// Different functions are written differently.
pub fn written_apart()
    ensures { WrittenApart }
{}

/// A call that answers within some number of blocks gives the same answer within any larger number,
/// so it has one answer.
pub fn answers_last()
    ensures { AnswersLast }
{}
