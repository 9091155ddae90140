//! The table of flows as text, also with a shortest walk for each pair.

ghost use Rattle.std.specs.{Prelude.{◌≡◌, IfErr, OnOk, ◌++◌, codes, decimal, IfOk, List, ◌<◌, length}, List.{All, flat_map}};
ghost use Rattle.vsi_lattice.specs.{LatticeView.{class_named, order}, Order.{IsClass}};
ghost use Rattle.vsi_compiler.specs.{Acceptance.{IsAccepted}, Refusal.{Refuses, RefusesProgram}, declared.source.CompileError.TheVariants.{Memory}, Source.{Reads}};
ghost use Rattle.vsi_types.specs.Security.{program as program_of, program, steps_of};
ghost use Rattle.vsi_infer.specs.Inference.{AreClasses};
ghost use Rattle.vsi_syntax.specs.Tree.{Whole};
ghost use Rattle.vsi_scope.specs.{Language.{Command}, Resolving.{IsResolution}};
ghost use Rattle.vsi_flows.specs.{Text.{AddsLines}, Walking.{AreWalks, IsWalkTable}};
ghost use Rattle.vsi_flows.specs.Messages as spec;
ghost use Rattle.vsi_flows.specs.Text as text_spec;

use crate::rows::{declarations, found_in, program_rows, walk_of};
use crate::table::{FlowsError, Pair, decide, flows_in, pairs_of};
use std::alloc::{AllocError, Global, Global as Heap};
use vsi_compiler::{CompileError, Source, judge, read_source};
use vsi_infer::{
    FirstSteps, Mark, WalksTo, marks_of, put_steps, put_variable, rule_text, steps_down_each,
    variable_name,
};
use vsi_lattice::Lattice;
use vsi_scope::{Resolved, Var};
use vsi_syntax::{put_line_column, put_number};
use vsi_types::{Profile, Step};

/// Reads a text and judges its flows.
///
/// # Errors
///
/// Those of `read_source` and of `judge`.
pub(crate) fn judged(
    alloc: Global,
    profile: Profile,
    lattice: &Lattice,
    text: &[u8],
) -> Result<(), CompileError>
    ensures accepted { OnOk result
        (IsAccepted (class_named lattice.now) (order lattice.now) profile text.now) }
    ensures refused { IfErr result
        (Refuses (class_named lattice.now) (order lattice.now) profile text.now) }
    ensures exact { IsAccepted (class_named lattice.now) (order lattice.now) profile text.now
        → IfErr result (λ e. e ≡ Memory) }
{
    let source = read_source(alloc, lattice, text)?;
    match judge(alloc, profile, &source) {
        Ok(_classes) => Ok(()),
        Err(error) => Err(error),
    }
}

/// The message of a step that writes at a line and a column: its two variables, its rule and that
/// position.
pub fn step_text(
    alloc: Global,
    source: &Source<'_>,
    step: &Step,
    line: usize,
    column: usize,
) -> Result<Vec<u8>, AllocError>
    ensures text { IfOk result
        (λ text. text.items ≡ spec.step_text source.now.resolved step.now line column) }
{
    let program = source.resolved();
    let mut text = Vec::from_slice(alloc, variable_name(program, step.source))?;
    text.extend_from_slice(b" flows to ")?;
    text.extend_from_slice(variable_name(program, step.target))?;
    text.extend_from_slice(b" by ")?;
    text.extend_from_slice(rule_text(step.rule))?;
    text.extend_from_slice(b" at ")?;
    put_line_column(&mut text, line, column)?;
    Ok(text)
}

/// The message of a refused flow: the variables at its ends with their declared classes.
pub fn ends_text(
    alloc: Global,
    source: &Source<'_>,
    from: Var,
    to: Var,
) -> Result<Vec<u8>, AllocError>
    ensures text { IfOk result (λ text.
        text.items ≡ spec.ends_text source.now.lattice source.now.resolved from to) }
{
    let lattice = source.lattice();
    let program = source.resolved();
    let mut text = Vec::new(alloc);
    put_variable(&mut text, lattice, program, from)?;
    text.extend_from_slice(b" may not flow to ")?;
    put_variable(&mut text, lattice, program, to)?;
    Ok(text)
}

/// Adds the line of a pair.
pub(crate) fn put_pair(
    text: &mut Vec<u8>,
    lattice: &Lattice,
    program: &Resolved<'_>,
    pair: Pair,
) -> Result<(), AllocError>
    requires globals { All (IsClass (order lattice.now)) (program_of program.now).globals }
    requires declared { AreClasses (order lattice.now) (program_of program.now).declared }
    ensures { OnOk result (text.new.items ≡
        text.old.items ++ text_spec.pair_line lattice.now program.now pair) }
{
    put_variable(text, lattice, program, pair.source)?;
    text.extend_from_slice(b" flows to ")?;
    put_variable(text, lattice, program, pair.target)?;
    text.extend_from_slice(if pair.allowed {
        b" allowed "
    } else {
        b" refused "
    })?;
    put_number(text, pair.steps as usize)?;
    text.extend_from_slice(b"\n")
}

/// A line for each pair: both variables with their declared classes, `allowed` or `refused`, and
/// the fewest steps.
pub fn table_text(
    alloc: Heap,
    lattice: &Lattice,
    program: &Resolved<'_>,
    pairs: &[Pair],
) -> Result<Vec<u8>, AllocError>
    requires globals { All (IsClass (order lattice.now)) (program_of program.now).globals }
    requires declared { AreClasses (order lattice.now) (program_of program.now).declared }
    ensures { IfOk result (λ t. t.items ≡ text_spec.table_text lattice.now program.now pairs.now) }
{
    let mut text = Vec::new(alloc);
    for pair in pairs {
        put_pair(&mut text, lattice, program, *pair)?;
    }
    Ok(text)
}

/// The table of a source text under a profile, as text.
pub fn flows_text_of(
    alloc: Heap,
    profile: Profile,
    source: &Source<'_>,
) -> Result<Vec<u8>, AllocError>
    ensures { IfOk result (λ out.
        text_spec.IsTableText source.now.lattice profile source.now.text out.items) }
{
    let lattice = source.lattice();
    let resolved = source.resolved();
    let pairs = match flows_in(alloc, profile, lattice, resolved) {
        Ok(pairs) => pairs,
        Err(FlowsError::Memory) => return Err(AllocError),
    };
    let lines = table_text(alloc, lattice, resolved, &pairs)?;
    Ok(lines)
}

/// The table of a text under a profile, as text, by `flows_text_of`.
///
/// # Errors
///
/// The errors of `read_source`: no flow is refused here.
pub fn flows_text_in(
    alloc: Heap,
    profile: Profile,
    lattice: &Lattice,
    text: &[u8],
) -> Result<Vec<u8>, CompileError>
    ensures lines { IfOk result (λ out. text_spec.IsTableText lattice.now profile text.now out.items) }
    ensures refused { IfErr result (RefusesProgram (class_named lattice.now) text.now) }
    ensures exact { (tree : Whole) (commands : List Command) → Reads text.now tree
        → IsResolution (class_named lattice.now) tree commands → IfErr result (λ e. e ≡ Memory) }
{
    let source = read_source(alloc, lattice, text)?;
    let lines = flows_text_of(alloc, profile, &source)?;
    Ok(lines)
}

/// The pairs of a source text under a profile, the rows that walks go down, and the program's steps
/// that lead down them.
#[derive(Drop)]
pub struct WalkTable<'s, 'a> {
    profile: Profile,
    source: &'s Source<'a>,
    rows: Vec<Vec<u16>>,
    pairs: Vec<Pair>,
    known: FirstSteps,
}

/// The walks of a table's pairs. Each is found in the time that its steps take.
#[derive(Drop)]
pub struct Walks<'t, 's, 'a> {
    table: &'t WalkTable<'s, 'a>,
    found: Vec<Option<WalksTo<'t>>>,
    marks: Vec<Mark>,
}

/// The table of a source text under a profile. This takes two passes over the program, and an
/// inference of its classes, which proves the verdict.
pub fn walk_table<'s, 'a>(
    alloc: Heap,
    profile: Profile,
    source: &'s Source<'a>,
) -> Result<WalkTable<'s, 'a>, AllocError>
    ensures table { IfOk result IsWalkTable }
    ensures source { IfOk result (λ t. t.source.now ≡ source.now) }
    ensures profile { IfOk result (λ t. t.profile ≡ profile) }
{
    let lattice = source.lattice();
    let resolved = source.resolved();
    let rows = program_rows(alloc, profile, lattice, resolved)?;
    let pairs = pairs_of(alloc, lattice, resolved, &rows)?;
    decide(alloc, profile, lattice, resolved)?;
    let last = declarations(resolved);
    let known = steps_down_each(alloc, profile, resolved, &rows, last)?;
    Ok(WalkTable {
        profile,
        source,
        rows,
        pairs,
        known,
    })
}

/// The walks of a table.
pub fn table_walks<'t, 's, 'a>(
    alloc: Heap,
    table: &'t WalkTable<'s, 'a>,
) -> Result<Walks<'t, 's, 'a>, AllocError>
    requires { IsWalkTable table.now }
    ensures walks { IfOk result AreWalks }
    ensures table { IfOk result (λ w. w.table.now ≡ table.now) }
{
    let resolved = table.source.resolved();
    let last = declarations(resolved);
    let found = found_in(alloc, &table.known, &table.rows, last)?;
    let text = table.source.text();
    let marks = marks_of(alloc, text)?;
    Ok(Walks {
        table,
        found,
        marks,
    })
}

impl<'t, 's, 'a> Walks<'t, 's, 'a> {
    /// The number of pairs.
    pub fn len(&self) -> usize
        ensures { result ≡ length self.now.table.now.pairs.items }
    {
        self.table.pairs.len()
    }

    /// Adds the lines of the pair with this number: its own line and, below it, those of a walk of
    /// its fewest steps, as in a refusal's explanation. It is the walk that a refusal would show:
    /// the first in the order of the program's steps, step by step.
    pub fn put_lines(
        &self,
        alloc: Heap,
        number: usize,
        text: &mut Vec<u8>,
    ) -> Result<(), AllocError>
        requires walks { AreWalks self.now }
        requires number { number < length self.now.table.now.pairs.items }
        ensures { OnOk result (AddsLines self.now.table.now.source.now.lattice
            (steps_of self.now.table.now.profile (program self.now.table.now.source.now.resolved))
            self.now.table.now.source.now.text self.now.table.now.source.now.resolved
            self.now.table.now.pairs.items number text.old.items text.new.items) }
    {
        let source = self.table.source;
        let lattice = source.lattice();
        let source_text = source.text();
        let resolved = source.resolved();
        let pair = &self.table.pairs[number];
        put_pair(text, lattice, resolved, *pair)?;
        let last = declarations(resolved);
        let profile = self.table.profile;
        let walk = walk_of(alloc, profile, resolved, &self.found, last, *pair)?;
        put_steps(text, source_text, &self.marks, resolved, &walk)?;
        Ok(())
    }
}
