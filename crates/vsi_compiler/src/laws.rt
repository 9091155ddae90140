//! The laws of the profiles and of the image. Each function's contract is a law, and its body does
//! nothing.

ghost use Rattle.vsi_compiler.specs.Laws.{OneImage, StrictImpliesBase};

/// The base profile accepts every text that the strict profile accepts.
pub fn strict_implies_base()
    ensures { StrictImpliesBase }
{}

/// A text has the same image under the strict profile and under the base profile.
pub fn one_image()
    ensures { OneImage }
{}
