//! The laws of steady images. Each law is the contract of a function whose body does nothing.

ghost use Rattle.vsi_steady.specs.Laws.{SteadyRunsAlike, SteadyViewsAlike};

/// Two runs of a steady image from stores that agree at and below a class are alike after the same
/// number of instructions. They are at the same place, both have halted or neither has, their words
/// agree at and below the class, and they have made the same writes to the globals there, in the
/// same order.
pub fn steady_runs_alike()
    ensures { SteadyRunsAlike }
{}

/// The class has the same view of both runs, even if the budget is spent.
pub fn steady_views_alike()
    ensures { SteadyViewsAlike }
{}
