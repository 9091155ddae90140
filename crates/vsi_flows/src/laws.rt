//! The laws of independence. Each function's contract is a law, and its body does nothing.

ghost use Rattle.vsi_flows.specs.Independence.{Independence, ImageIndependence, UnlistedIsUnreached};

/// Two stores that differ only in some globals evaluate to equal words in a global that no walk
/// reaches from these, whatever the classes are.
pub fn independence()
    ensures { Independence }
{}

/// The same for two runs of the image that `vsi_compiler::compile_in` makes of a text, whenever
/// both halt.
pub fn image_independence()
    ensures { ImageIndependence }
{}

/// If a profile's table has no pair from some globals to another, no walk leads from these to it.
pub fn unlisted_is_unreached()
    ensures { UnlistedIsUnreached }
{}
