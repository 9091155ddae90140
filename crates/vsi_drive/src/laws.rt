//! The laws of drives, of views, and of pairs of runs and drives within a bound. Each
//! function's contract is a law.

ghost use Rattle.vsi_drive.specs.{Laws.{SameCompiledDrives, SameCompiledViews, SameDrives, SameReleasedCompiledDrives, SameReleasedCompiledViews, SameReleasedDrives, SameReleasedSteadyDrives, SameReleasedViews, SameSteadyDrives, ViewsPlainly}, Drives.{BoundedDrivesHalt, SameBoundedDrives, SameReleasedBoundedDrives}, Settled.{SettledCount, SettledNoninterference}, ViewLaws.{SameView}};

use vsi_steady::laws::steady_runs_alike;

/// For a noninterfering image and a controller that releases nothing, two drives over lines that
/// set the same write the same output and lead to stores that agree, if the first stores agree at
/// and below the class and no cycle is out of budget.
pub fn same_drives()
    ensures { SameDrives }
{}

/// The same for an image that `compile_in` made, over the lattice with which it was compiled.
pub fn same_compiled_drives()
    ensures { SameCompiledDrives }
{}

/// The same for an image that `steady_in` of `vsi_steady` accepts, by its clause `alike`. Here
/// cycles may be out of budget.
pub fn same_steady_drives()
    ensures { SameSteadyDrives }
{}

/// For a noninterfering image and any boundary: what an observer learns from the output is what is
/// released. The same as `same_drives` holds of two drives whose cycles release the same words, one
/// by one.
pub fn same_released_drives()
    ensures { SameReleasedDrives }
{}

/// The same for an image that `compile_in` made, over the lattice with which it was compiled.
pub fn same_released_compiled_drives()
    ensures { SameReleasedCompiledDrives }
{}

/// The same for an image that `steady_in` of `vsi_steady` accepts. Here cycles may be out of budget.
pub fn same_released_steady_drives()
    ensures { SameReleasedSteadyDrives }
{}

/// For a noninterfering image and any boundary: two views are the same if the runs halt and release
/// the same words, from stores that agree at and below the class.
pub fn same_released_views()
    ensures { SameReleasedViews }
{}

/// The same for an image that `compile_in` made, over the lattice with which it was compiled.
pub fn same_released_compiled_views()
    ensures { SameReleasedCompiledViews }
{}

/// For such an image and a controller that releases nothing, two views are the same if both runs
/// halt, from stores that agree at and below the class.
pub fn same_compiled_views()
    ensures { SameCompiledViews }
{}

/// Without a boundary, a view is that of `view` of `vsi_store`.
pub fn plain_view()
    ensures { ViewsPlainly }
{}

/// If a noninterfering image always halts, as a compiled image with a bound does, two runs with
/// budgets of at least the bound both halt, and end in agreement at and below each class at and
/// below which their stores agree.
pub fn settled_noninterference()
    ensures { SettledNoninterference }
{}

/// Two runs of a steady image that always halts, from stores that agree at the bottom class, have
/// the same number of instructions, which is at most the bound.
pub fn settled_count()
    ensures { SettledCount }
{
    // Called for its contract alone.
    steady_runs_alike();
}

/// If the budget of each cycle is at least the bound of the image, no cycle is out of budget.
pub fn bounded_drives_halt()
    ensures { BoundedDrivesHalt }
{}

/// For a noninterfering image and a controller that releases nothing, two drives over lines that
/// set the same write the same output and lead to stores that agree, if the first stores agree at
/// and below the class and the budget of each cycle is at least the bound of the image.
pub fn same_bounded_drives()
    ensures { SameBoundedDrives }
{}

/// The same holds for any boundary, if both drives release the same numbers in each cycle.
pub fn same_released_bounded_drives()
    ensures { SameReleasedBoundedDrives }
{}

/// A class has the same view of a compiled image from two stores that agree at and below it,
/// whenever both runs halt.
pub fn same_view()
    ensures { SameView }
{}
