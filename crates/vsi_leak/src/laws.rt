//! The law of leaks. The function's contract is the law, and its body does nothing.

ghost use Rattle.vsi_leak.specs.Laws.{LeakRefutes};

/// An image with a leak by words lets information flow where it may not.
pub fn leak_refutes()
    ensures { LeakRefutes }
{}
