//! The globals that released outputs can depend on, and the lines about them.

ghost use Rattle.std.specs.Prelude.{◌≡◌, ◌++◌, map, option_map, IfOk, OnOk};
ghost use Rattle.vsi_conform.specs.Reading.{bytes_of, cycle as cycle_of, is_among as is_among_of};
ghost use Rattle.vsi_conform.specs.Reaching as spec;
ghost use Rattle.vsi_conform.specs.ReachedLines as lines_spec;

use crate::interface::Judgement;
use crate::keys::Cycle;
use crate::texts::put_parts;
use std::alloc::{AllocError, Global};
use vsi_compiler::{CompileError, Source, read_source};
use vsi_flows::{FlowsError, Pair, flows_in};
use vsi_lattice::Lattice;
use vsi_types::Profile;

/// The flows of a program between its globals.
#[derive(Debug, Drop)]
pub(crate) struct GlobalFlows {
    /// The names of the globals, in order.
    pub names: Vec<Vec<u8>>,
    /// The pairs of the table of flows. Without a table, each global counts as reaching every other
    /// one.
    pub table: Option<Vec<Pair>>,
}

/// A released output of a boundary, and the other globals that reach it.
#[derive(Debug, Drop)]
pub struct Reach {
    /// The class of the boundary.
    pub class: Vec<u8>,
    /// The name of the output.
    pub output: Vec<u8>,
    /// The names of the other globals that reach it, in the order of the program.
    pub sources: Vec<Vec<u8>>,
    /// Those of them that the boundary has a list for and doesn't list.
    pub beyond: Vec<Vec<u8>>,
}

/// Whether one global reaches another: whether a pair leads from it to the other.
fn reaches(table: &Option<Vec<Pair>>, source: usize, target: usize) -> bool
    ensures { result
        ≡ spec.reaches (option_map (λ pairs. pairs.items) table.now) source target }
{
    let Some(pairs) = table else {
        return source != target;
    };
    for pair in pairs {
        if pair.source.0 as usize == source && pair.target.0 as usize == target {
            return true;
        }
    }
    false
}

/// The number of the first global with this name, or the number of globals if there is none.
fn number_of(names: &[Vec<u8>], name: &[u8]) -> usize
    ensures { result ≡ spec.number_of (bytes_of names.now) name.now }
{
    for (i, known) in names.iter().enumerate() {
        if known.as_slice() == name {
            return i;
        }
    }
    names.len()
}

/// Adds a name, if it is one that counts.
fn put_name(
    alloc: Global,
    names: &mut Vec<Vec<u8>>,
    name: &[u8],
    counts: bool,
) -> Result<(), AllocError>
    ensures { OnOk result (bytes_of names.new.items
        ≡ bytes_of names.old.items ++ spec.name_if counts name.now) }
{
    if !counts {
        return Ok(());
    }
    names.push(Vec::from_slice(alloc, name)?)?;
    Ok(())
}

/// Whether a name is in a list.
pub fn is_among(listed: &[Vec<u8>], name: &[u8]) -> bool
    ensures among { result ≡ is_among_of (bytes_of listed.now) name.now }
{
    for known in listed {
        if known.as_slice() == name {
            return true;
        }
    }
    false
}

/// A released output of a boundary.
fn reach_of(
    alloc: Global,
    flows: &GlobalFlows,
    cycle: &Cycle,
    output: &[u8],
) -> Result<Reach, AllocError>
    ensures { IfOk result (λ reach. spec.released reach
        ≡ spec.released_at (spec.flowing flows.now) (cycle_of cycle.now) output.now) }
{
    let target = number_of(&flows.names, output);
    let mut sources = Vec::new(alloc);
    for (i, name) in flows.names.iter().enumerate() {
        put_name(alloc, &mut sources, name, reaches(&flows.table, i, target))?;
    }
    let mut beyond = Vec::new(alloc);
    if let Some(allowed) = &cycle.from {
        for source in &sources {
            put_name(alloc, &mut beyond, source, !is_among(allowed, source))?;
        }
    }
    Ok(Reach {
        class: Vec::from_slice(alloc, &cycle.class)?,
        output: Vec::from_slice(alloc, output)?,
        sources,
        beyond,
    })
}

/// The released outputs of boundaries, in their order, each with the globals of a program that
/// reach it.
pub(crate) fn reaches_of(
    alloc: Global,
    flows: &GlobalFlows,
    cycles: &[Cycle],
) -> Result<Vec<Reach>, AllocError>
    ensures reaches { IfOk result (λ reaches. map spec.released reaches.items
        ≡ spec.all_released (spec.flowing flows.now) (map cycle_of cycles.now)) }
{
    let mut reaches = Vec::new(alloc);
    for cycle in cycles {
        for output in &cycle.released {
            let reach = reach_of(alloc, flows, cycle, output)?;
            reaches.push(reach)?;
        }
    }
    Ok(reaches)
}

/// Whether a boundary releases an output.
pub(crate) fn have_released(cycles: &[Cycle]) -> bool
    ensures released { result ≡ spec.releases (map cycle_of cycles.now) }
{
    for cycle in cycles {
        if !cycle.released.is_empty() {
            return true;
        }
    }
    false
}

/// Whether no released output is reached by a global that its boundary doesn't allow.
pub fn are_within(reaches: &[Reach]) -> bool
    ensures within { result ≡ spec.are_within (map spec.released reaches.now) }
{
    for reach in reaches {
        if !reach.beyond.is_empty() {
            return false;
        }
    }
    true
}

/// The profile whose flows count for a judgement.
pub fn flows_profile(judgement: Judgement) -> Profile
    ensures profile { result ≡ spec.profile_of judgement }
{
    match judgement {
        Judgement::Base => Profile::Base,
        Judgement::Strict | Judgement::Steady => Profile::Strict,
    }
}

/// The flows of a source text between its globals.
fn flows_of(alloc: Global, profile: Profile, source: &Source<'_>) -> Result<GlobalFlows, AllocError>
    ensures { IfOk result (λ flows. spec.AreFlowsOf source.now.lattice profile source.now.text
        (spec.flowing flows)) }
{
    let lattice = source.lattice();
    let resolved = source.resolved();
    let pairs = match flows_in(alloc, profile, lattice, resolved) {
        Ok(pairs) => pairs,
        Err(FlowsError::Memory) => return Err(AllocError),
    };
    let mut names = Vec::new(alloc);
    let globals = resolved.globals();
    for global in globals {
        names.push(Vec::from_slice(alloc, global.name)?)?;
    }
    Ok(GlobalFlows {
        names,
        table: Some(pairs),
    })
}

/// The released outputs of boundaries, in their order, each with the globals of a text that reach
/// it. A text that has no program has none. An error means that memory ran out.
pub fn text_reaches(
    alloc: Global,
    lattice: &Lattice,
    text: &[u8],
    judgement: Judgement,
    cycles: &[Cycle],
) -> Result<Vec<Reach>, AllocError>
    ensures reaches { IfOk result (λ reaches. spec.AreTextReleased lattice.now judgement text.now
        (map cycle_of cycles.now) (map spec.released reaches.items)) }
{
    if !have_released(cycles) {
        return Ok(Vec::new(alloc));
    }
    match read_source(alloc, lattice, text) {
        Ok(source) => {
            let flows = flows_of(alloc, flows_profile(judgement), &source)?;
            reaches_of(alloc, &flows, cycles)
        }
        Err(CompileError::Memory) => Err(AllocError),
        Err(_) => Ok(Vec::new(alloc)),
    }
}

/// Adds a text and names, each after a blank, or another text if there are no names.
fn put_names(
    text: &mut Vec<u8>,
    names: &[Vec<u8>],
    before: &[u8],
    none: &[u8],
) -> Result<(), AllocError>
    ensures { OnOk result (text.new.items
        ≡ text.old.items ++ lines_spec.names_text before.now none.now (bytes_of names.now)) }
{
    if names.is_empty() {
        return text.extend_from_slice(none);
    }
    text.extend_from_slice(before)?;
    for name in names {
        put_parts(text, &[b" ", name])?;
    }
    Ok(())
}

/// Adds the line of a released output: the globals that reach it, and those of them that aren't
/// allowed.
pub(crate) fn put_reach(text: &mut Vec<u8>, reach: &Reach) -> Result<(), AllocError>
    ensures line { OnOk result
        (text.new.items ≡ text.old.items ++ lines_spec.released_line (spec.released reach.now)) }
{
    put_parts(
        text,
        &[&reach.class, b" releases ", &reach.output, b" from"],
    )?;
    put_names(text, &reach.sources, b"", b" (nothing)")?;
    put_names(text, &reach.beyond, b", unexpected", b"")?;
    text.extend_from_slice(b"\n")
}
