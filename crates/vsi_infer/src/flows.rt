//! The flows of a program by the rules of a filter, found in one walk and kept as rows of bits.

ghost use Rattle.std.specs.{Prelude.{◌≡◌, ℕ, ◌+◌, ◌*◌, ◌^◌, ◌<◌, ◌≤◌, ◌&&◌, ◌||◌, ◌==◌, false, length, slice_index, vec_len, IfOk}, List.{All}};
ghost use Rattle.vsi_infer.specs.{Leading.{reads_it, reads_by, row_reads, observes_ending as observes, IsReady, Noted, position_of, AreTaken}, StepsBetween.{same_rule as same_rule_of}, FlowRows.{flow_has}, Flowing.{AreFlowsOf, AreFlowsBy}};
ghost use Rattle.vsi_scope.specs.{Language.{HasLocations, If, While, Letvar}, View.{expression, command, sequence}};
ghost use Rattle.vsi_types.specs.Security.{program as program_of};
ghost use Rattle.vsi_types.specs.declared.rules.Rule.TheVariants as typing;

use crate::inference::Flow;
use std::alloc::{AllocError, Global as Heap};
use vsi_scope::{Cmd, Ex, Resolved, Var};
use vsi_types::{Profile, Rule, first_variables};

/// A filter of rules: it takes every rule, or one alone.
#[derive(Clone, Copy)]
pub(crate) enum RuleFilter {
    Every,
    Only(Rule),
}

/// Whether two rules are equal.
pub fn same_rule(first: Rule, second: Rule) -> bool
    ensures { result ≡ same_rule_of first second }
{
    match (first, second) {
        (Rule::Assign, Rule::Assign) => true,
        (Rule::If, Rule::If) => true,
        (Rule::While, Rule::While) => true,
        (Rule::Letvar, Rule::Letvar) => true,
        (Rule::Loop, Rule::Loop) => true,
        _ => false,
    }
}

/// Sets one bit of one row.
pub(crate) fn note(rows: &mut [u64], row: usize, bit: usize)
    requires bit { bit < 1024 }
    requires row { row * 16 + 16 ≤ length rows.old }
    ensures len { length rows.new ≡ length rows.old }
    ensures bits { (a b : ℕ) → flow_has rows.new b a
        ≡ (flow_has rows.old b a || ((b == row) && (a == bit))) }
{
    rows[row * 16 + bit / 64] |= 1 << (bit % 64);
}

/// The word at an index, or 0 past the end.
fn word_at(words: &[u64], place: usize) -> u64
    ensures { result ≡ slice_index words.now place }
{
    words.get(place).copied().unwrap_or(0)
}

/// Adds one row of some words to one row.
pub(crate) fn note_row(rows: &mut [u64], row: usize, words: &[u64], from: usize)
    requires row { row * 16 + 16 ≤ length rows.old }
    requires from { from < 2 ^ 48 }
    ensures len { length rows.new ≡ length rows.old }
    ensures bits { (a b : ℕ) → flow_has rows.new b a ≡ (flow_has rows.old b a ||
        ((b == row) && flow_has words.now from a)) }
{
    for i in 0..16 {
        rows[row * 16 + i] |= word_at(words, from * 16 + i);
    }
}

/// Whether the row has the bit.
pub(crate) fn has_bit(rows: &[u64], row: usize, bit: usize) -> bool
    requires { row < 2 ^ 48 }
    ensures { result ≡ flow_has rows.now row bit }
{
    if bit >= 1024 {
        return false;
    }
    let place = row * 16 + bit / 64;
    if place < rows.len() {
        rows[place] >> (bit % 64) & 1 != 0
    } else {
        false
    }
}

/// For each variable, a row of the variables that flow to it; also the variable of each location,
/// and the number of the next declaration.
#[derive(Drop)]
pub(crate) struct FlowMatrix {
    pub(crate) rows: Vec<u64>,
    pub(crate) scope: Vec<Var>,
    pub(crate) next: u16,
}

/// Notes the reads of an expression in a row.
fn note_reads(rows: &mut [u64], row: usize, scope: &[Var], e: &Ex)
    requires places { HasLocations (length scope.now) (expression e.now) }
    requires scope { All (λ v. v < 1024) scope.now }
    requires room { row * 16 + 16 ≤ length rows.old }
    ensures len { length rows.new ≡ length rows.old }
    ensures bits { (a b : ℕ) → flow_has rows.new b a ≡ (flow_has rows.old b a ||
        ((b == row) && reads_it scope.now (expression e.now) a)) }
{
    match e {
        Ex::Num(_) => {}
        Ex::Loc(l, _) => {
            let source = scope[*l as usize];
            note(rows, row, source.0 as usize);
        }
        Ex::Op(_, a, b) => {
            note_reads(rows, row, scope, a);
            note_reads(rows, row, scope, b);
        }
    }
}

/// Notes the reads of an expression in a row, if the filter takes the rule.
fn note_reads_by(
    filter: RuleFilter,
    rule: Rule,
    rows: &mut [u64],
    row: usize,
    scope: &[Var],
    e: &Ex,
)
    requires places { HasLocations (length scope.now) (expression e.now) }
    requires scope { All (λ v. v < 1024) scope.now }
    requires room { row * 16 + 16 ≤ length rows.old }
    ensures len { length rows.new ≡ length rows.old }
    ensures bits { (a b : ℕ) → flow_has rows.new b a ≡ (flow_has rows.old b a ||
        ((b == row) && reads_by filter rule scope.now (expression e.now) a)) }
{
    match filter {
        RuleFilter::Only(one) if !same_rule(one, rule) => {}
        _ => note_reads(rows, row, scope, e),
    }
}

/// Whether the profile observes the ending of a command that loops.
pub(crate) fn observes_ending(profile: Profile, looping: bool) -> bool
    ensures { result ≡ observes profile looping }
{
    match profile {
        Profile::Base => false,
        Profile::Strict => looping,
    }
}

/// Notes the ending of a command that loops.
fn note_ending(
    walk: &mut FlowMatrix,
    filter: RuleFilter,
    profile: Profile,
    looping: bool,
    sink: u16,
    guard: &Ex,
)
    requires places { HasLocations (length walk.old.scope.items) (expression guard.now) }
    requires scope { All (λ v. v < 1024) walk.old.scope.items }
    requires room { sink * 16 + 16 ≤ length walk.old.rows.items }
    ensures scope { walk.new.scope.items ≡ walk.old.scope.items }
    ensures next { walk.new.next ≡ walk.old.next }
    ensures len { length walk.new.rows.items ≡ length walk.old.rows.items }
    ensures bits { (a b : ℕ) → flow_has walk.new.rows.items b a ≡
        (flow_has walk.old.rows.items b a || (observes profile looping
        && ((b == sink)
        && reads_by filter typing.Loop walk.old.scope.items (expression guard.now) a))) }
{
    if observes_ending(profile, looping) {
        let row = sink as usize;
        note_reads_by(filter, Rule::Loop, &mut walk.rows, row, &walk.scope, guard);
    }
}

/// The surrounding guards, and one more if the filter takes its rule.
fn within(
    filter: RuleFilter,
    rule: Rule,
    around: &[u64; 16],
    scope: &[Var],
    guard: &Ex,
) -> [u64; 16]
    requires places { HasLocations (length scope.now) (expression guard.now) }
    requires scope { All (λ v. v < 1024) scope.now }
    ensures { (a : ℕ) → row_reads result a
        ≡ (row_reads around.now a || reads_by filter rule scope.now (expression guard.now) a) }
{
    let mut words = *around;
    note_reads_by(filter, rule, &mut words, 0, scope, guard);
    words
}

/// Notes a choice, and says whether it loops.
#[cycle(walk)]
fn note_if(
    walk: &mut FlowMatrix,
    filter: RuleFilter,
    profile: Profile,
    sink: u16,
    around: &[u64; 16],
    then_branch: &[Cmd],
    else_branch: &[Cmd],
    guard: &Ex,
) -> Result<bool, AllocError>
    requires { IsReady sink (position_of walk.old)
        (If (expression guard.now) (sequence then_branch.now)
        (sequence else_branch.now)) }
    ensures { Noted filter profile sink (row_reads around.now) (position_of walk.old)
        (If (expression guard.now) (sequence then_branch.now) (sequence else_branch.now))
        (position_of walk.new) result }
{
    let inner = within(filter, Rule::If, around, &walk.scope, guard);
    let one = note_commands(walk, filter, profile, sink, &inner, then_branch)?;
    let two = note_commands(walk, filter, profile, sink, &inner, else_branch)?;
    let looping = one | two;
    note_ending(walk, filter, profile, looping, sink, guard);
    Ok(looping)
}

/// Notes a loop.
#[cycle(walk)]
fn note_while(
    walk: &mut FlowMatrix,
    filter: RuleFilter,
    profile: Profile,
    sink: u16,
    around: &[u64; 16],
    body: &[Cmd],
    guard: &Ex,
) -> Result<bool, AllocError>
    requires { IsReady sink (position_of walk.old)
        (While (expression guard.now) (sequence body.now)) }
    ensures { Noted filter profile sink (row_reads around.now) (position_of walk.old)
        (While (expression guard.now) (sequence body.now)) (position_of walk.new) result }
{
    note_ending(walk, filter, profile, true, sink, guard);
    let inner = within(filter, Rule::While, around, &walk.scope, guard);
    note_commands(walk, filter, profile, sink, &inner, body)?;
    Ok(true)
}

/// Notes a letvar, and says whether it loops.
#[cycle(walk)]
fn note_letvar(
    walk: &mut FlowMatrix,
    filter: RuleFilter,
    profile: Profile,
    sink: u16,
    around: &[u64; 16],
    body: &[Cmd],
    value: &Ex,
) -> Result<bool, AllocError>
    requires { IsReady sink (position_of walk.old)
        (Letvar (expression value.now) (sequence body.now)) }
    ensures { Noted filter profile sink (row_reads around.now) (position_of walk.old)
        (Letvar (expression value.now) (sequence body.now)) (position_of walk.new) result }
{
    let row = walk.next as usize;
    note_reads_by(
        filter,
        Rule::Letvar,
        &mut walk.rows,
        row,
        &walk.scope,
        value,
    );
    let outside = walk.scope.len();
    walk.scope.push(Var(walk.next))?;
    walk.next += 1;
    let looping = note_commands(walk, filter, profile, sink, around, body)?;
    walk.scope.truncate(outside);
    Ok(looping)
}

/// Notes the commands of a list, and says whether one loops.
#[cycle(walk)]
pub(crate) fn note_commands(
    walk: &mut FlowMatrix,
    filter: RuleFilter,
    profile: Profile,
    sink: u16,
    around: &[u64; 16],
    body: &[Cmd],
) -> Result<bool, AllocError>
    requires { IsReady sink (position_of walk.old) (sequence body.now) }
    ensures { Noted filter profile sink (row_reads around.now) (position_of walk.old)
        (sequence body.now) (position_of walk.new) result }
{
    let mut looping = false;
    for c in body {
        let one = note_command(walk, filter, profile, sink, around, c)?;
        looping |= one;
    }
    Ok(looping)
}

/// Notes one command, and says whether it loops.
#[cycle(walk)]
fn note_command(
    walk: &mut FlowMatrix,
    filter: RuleFilter,
    profile: Profile,
    sink: u16,
    around: &[u64; 16],
    c: &Cmd,
) -> Result<bool, AllocError>
    requires { IsReady sink (position_of walk.old) (command c.now) }
    ensures { Noted filter profile sink (row_reads around.now) (position_of walk.old)
        (command c.now) (position_of walk.new) result }
{
    match c {
        Cmd::Assign {
            loc,
            span: _span,
            value,
        } => {
            let row = walk.scope[*loc as usize].0 as usize;
            let rows = &mut walk.rows;
            note_reads_by(filter, Rule::Assign, rows, row, &walk.scope, value);
            note_row(&mut walk.rows, row, around, 0);
            Ok(false)
        }
        Cmd::If { guard, yes, no } => note_if(walk, filter, profile, sink, around, yes, no, guard),
        Cmd::While { guard, body } => note_while(walk, filter, profile, sink, around, body, guard),
        Cmd::Letvar { value, body } => note_letvar(
            walk, filter, profile, sink, around, body, value,
        ),
    }
}

/// For each variable 16 words, with a bit for each variable that flows to it; the last row belongs
/// to the ending of loops.
#[derive(Drop)]
pub struct FlowRows {
    pub(crate) rows: Vec<u64>,
    ghost lawful: { length rows.items ≤ 16400 },
}

impl Flow for FlowRows {
    ghost use Rattle.vsi_infer.specs.FlowRows.{flow_has};

    ghost flows = { λ s a b. flow_has s.rows.items b a };

    fn has(&self, from: usize, to: usize) -> bool {
        to < 1025 && has_bit(&self.rows, to, from)
    }
}

/// The rows of a program's flows by the rules of a filter.
fn taken_rows(
    alloc: Heap,
    filter: RuleFilter,
    profile: Profile,
    program: &Resolved<'_>,
) -> Result<FlowRows, AllocError>
    ensures { IfOk result
        (λ f. AreTaken filter profile (program_of program.now) (⟦<FlowRows as Flow>⟧.flows f)) }
{
    let body = program.body();
    let count = program.globals().len() as u16;
    let sink = count + program.letvars().len() as u16;
    let mut walk = FlowMatrix {
        rows: vec![in alloc; 0; sink as usize * 16 + 16]?,
        scope: first_variables(alloc, count)?,
        next: count,
    };
    note_commands(&mut walk, filter, profile, sink, &[0; 16], body)?;
    let FlowMatrix { rows, .. } = walk;
    Ok(FlowRows { rows })
}

/// The rows of a program's flows.
pub fn flow_rows(
    alloc: Heap,
    profile: Profile,
    program: &Resolved<'_>,
) -> Result<FlowRows, AllocError>
    ensures { IfOk result
        (λ f. AreFlowsOf profile (program_of program.now) (⟦<FlowRows as Flow>⟧.flows f)) }
{
    taken_rows(alloc, RuleFilter::Every, profile, program)
}

/// The rows of a program's flows by one rule.
pub fn flow_rows_by(
    alloc: Heap,
    rule: Rule,
    profile: Profile,
    program: &Resolved<'_>,
) -> Result<FlowRows, AllocError>
    ensures { IfOk result
        (λ f. AreFlowsBy rule profile (program_of program.now) (⟦<FlowRows as Flow>⟧.flows f)) }
{
    taken_rows(alloc, RuleFilter::Only(rule), profile, program)
}
