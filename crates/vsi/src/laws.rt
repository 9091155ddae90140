//! The laws of command lines. Each function's contract is a law, and its body does nothing.

ghost use Rattle.vsi.specs.Laws.{BuiltIsSeenAlike, CheckedIsAccepted, LeftIsSeenAlike};

/// If the arguments `check`, a lattice file and a source text are carried out to the end, the files
/// at these paths hold a lattice and a text that is accepted under it.
pub fn checked_is_accepted()
    ensures { CheckedIsAccepted }
{}

/// If `build` makes an image and `view` shows a class two runs of it under the same lattice, from
/// stores that agree at and below the class, the views are the same.
pub fn built_is_seen_alike()
    ensures { BuiltIsSeenAlike }
{}

/// If `build` is carried out, and `view` then shows a class two runs of the image file under the
/// same lattice file, from stores that agree at and below the class, both runs show the same text.
pub fn left_is_seen_alike()
    ensures { LeftIsSeenAlike }
{}
