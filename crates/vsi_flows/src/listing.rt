//! The further refused flows of a source text.

ghost use Rattle.std.specs.{Prelude.{◌≡◌, ◌≤◌, length, map, IfOk}, List.{All}};
ghost use Rattle.vsi_lattice.specs.LatticeView.{order};
ghost use Rattle.vsi_types.specs.Security.{program as program_of};
ghost use Rattle.vsi_flows.specs.Table.{AreSorted};
ghost use Rattle.vsi_flows.specs.Further as spec;

use crate::rows::declarations;
use crate::table::{FlowsError, Pair, flows_in, further_pairs};
use crate::walked::{WalkedPair, walks_of};
use std::alloc::{AllocError, Global};
use vsi_compiler::Source;
use vsi_scope::{Resolved, Var};
use vsi_types::Profile;

/// The most flows that are listed.
const MOST_FLOWS: usize = 19;

/// The most bytes of a text for which so many flows are listed.
const SHORT_LENGTH: usize = 32_768;

/// The most flows that are listed for a longer text.
const FEWER_FLOWS: usize = 7;

/// The most bytes of a text whose further flows are listed.
const MOST_LENGTH: usize = 131_072;

/// The most declarations of a program whose further flows are listed.
const MOST_DECLARATIONS: u16 = 128;

/// Whether the further flows of a program are listed, whose text has this many bytes.
fn is_small(program: &Resolved<'_>, length: usize) -> bool
    ensures { result ≡ spec.is_small (program_of program.now) length }
{
    declarations(program) <= MOST_DECLARATIONS && length <= MOST_LENGTH
}

/// The first pairs of a list, at most as many as are listed for a text of this many bytes.
fn first_of(pairs: &[Pair], length: usize) -> &[Pair]
    ensures { result.now ≡ spec.first_of length pairs.now }
{
    let most = if length <= SHORT_LENGTH {
        MOST_FLOWS
    } else {
        FEWER_FLOWS
    };
    &pairs[..pairs.len().min(most)]
}

/// The refused pairs of the table of a source text that have other ends than these.
fn further_in(
    alloc: Global,
    profile: Profile,
    source: &Source<'_>,
    from: Var,
    to: Var,
) -> Result<Vec<Pair>, AllocError>
    ensures { IfOk result (λ pairs. spec.AreFurther source.now profile from to pairs.items) }
{
    let lattice = source.lattice();
    let resolved = source.resolved();
    match flows_in(alloc, profile, lattice, resolved) {
        Ok(pairs) => further_pairs(alloc, from, to, &pairs),
        Err(FlowsError::Memory) => Err(AllocError),
    }
}

/// The first of these pairs, with their walks.
fn first_flows(
    alloc: Global,
    profile: Profile,
    source: &Source<'_>,
    from: Var,
    to: Var,
) -> Result<Vec<WalkedPair>, AllocError>
    ensures { IfOk result (λ flows. spec.AreFirst source.now profile from to flows.items) }
{
    let lattice = source.lattice();
    let resolved = source.resolved();
    let pairs = further_in(alloc, profile, source, from, to)?;
    let first = first_of(&pairs, source.text().len());
    walks_of(alloc, profile, lattice, resolved, first)
}

/// The same, or nothing if the program or its text is large.
fn listed_flows(
    alloc: Global,
    profile: Profile,
    source: &Source<'_>,
    from: Var,
    to: Var,
) -> Result<Vec<WalkedPair>, AllocError>
    ensures { IfOk result (λ flows. spec.AreListed source.now profile from to flows.items) }
{
    let resolved = source.resolved();
    let is_short = is_small(resolved, source.text().len());
    if is_short {
        first_flows(alloc, profile, source, from, to)
    } else {
        Ok(Vec::new(alloc))
    }
}

/// Refused flows of a source text under a profile, other than the one between these two ends, which
/// is reported already: at most 19, in the order of the table, each with a walk of its fewest steps.
/// A flow whose walk has more than 32 steps isn't listed. A text of more than 32,768 bytes has at
/// most 7, and one of more than 131,072 bytes, or a program of more than 128 declarations, has none.
pub fn further_flows(
    alloc: Global,
    profile: Profile,
    source: &Source<'_>,
    from: Var,
    to: Var,
) -> Result<Vec<WalkedPair>, AllocError>
    ensures few { IfOk result (λ flows. length flows.items ≤ 19) }
    ensures refused { IfOk result (λ flows. All (spec.IsRefusedFlow (order source.now.lattice)
        profile (program_of source.now.resolved)) flows.items) }
    ensures others { IfOk result (λ flows. All (spec.HasOtherEnds from to) flows.items) }
    ensures sorted { IfOk result (λ flows. AreSorted (map (λ f. f.pair) flows.items)) }
    ensures listed { IfOk result
        (λ flows. spec.AreListed source.now profile from to flows.items) }
{
    listed_flows(alloc, profile, source, from, to)
}
