//! The laws of bad walks. Each law is the contract of a function whose body does nothing.

ghost use Rattle.vsi_types.specs.Walks.{BadWalksRefute};
ghost use Rattle.vsi_infer.specs.Laws.{BaseWalksStayBad};

/// If there is a bad walk, no choice of classes is typable.
pub fn bad_walks_refute()
    ensures { BadWalksRefute }
{}

/// A walk that is bad under the base profile is bad under the strict one.
pub fn base_walks_stay_bad()
    ensures { BaseWalksStayBad }
{}
