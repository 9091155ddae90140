//! The laws of the type system. Each function's contract is a law, and its body does nothing.

ghost use Rattle.vsi_types.specs.Security.{StepsDecide, SimpleSecurity, Confinement, Noninterference, SameEnding};

/// A program is typable exactly if the choice is valid and all flow steps are in order, under each
/// profile.
pub fn steps_decide()
    ensures { StepsDecide }
{}

/// An expression reads only locations of classes at or below its type.
pub fn simple_security()
    ensures { SimpleSecurity }
{}

/// A command changes only locations of classes at or above its type, apart from those that it
/// allocates itself.
pub fn confinement()
    ensures { Confinement }
{}

/// Two stores that agree at and below a class evaluate to stores that agree there, for every class.
pub fn noninterference()
    ensures { Noninterference }
{}

/// Under the strict profile a program ends from both of two stores that agree on the bottom class,
/// or from neither.
pub fn same_ending()
    ensures { SameEnding }
{}
