//! The text of a walk: its lines and columns, its rules, variables and classes.

ghost use Rattle.std.specs.{Prelude.{◌≡◌, ◌+◌, ◌≤◌, take, length, IfOk, IfSome, ◌++◌, [], OnOk, codes, is_ok, if◌then◌else◌}, List.{All, flat_map}};
ghost use Rattle.vsi_infer.specs.{Lines.{IsMarkOf}, Inference.{AreClasses}};
ghost use Rattle.vsi_lattice.specs.{LatticeView.{order}, Order.{IsClass}};
ghost use Rattle.vsi_syntax.specs.Lines.{place_text};
ghost use Rattle.vsi_types.specs.{Security.{program as program_of}, Walks.{IsBad}, declared.rules.Profile.TheVariants.{Strict}};
ghost use Rattle.vsi_syntax.specs.Lines as spec;
ghost use Rattle.vsi_infer.specs.Explanation as explanation_spec;

use crate::walk::{Walk, declared_class};
use std::alloc::{AllocError, Global, Global as Heap};
use vsi_lattice::{Class, Lattice};
use vsi_scope::{Resolved, Var};
use vsi_syntax::{line_column, put_line_column};
use vsi_types::{LOOP, Rule, Step};

/// The distance between two marks of a text.
const SPACE: usize = 1024;

/// A position of a text, and its line and column, both counted from 1.
#[derive(Clone, Copy)]
pub struct Mark {
    at: usize,
    line: usize,
    column: usize,
}

/// The mark of the next position.
fn next_mark(text: &[u8], mark: Mark) -> Mark
    requires mark { IsMarkOf text.now mark }
    requires more { mark.at + 1 ≤ length text.now }
    ensures mark { IsMarkOf text.now result }
    ensures at { result.at ≡ mark.at + 1 }
{
    if text[mark.at] == b'\n' {
        Mark {
            at: mark.at + 1,
            line: mark.line + 1,
            column: 1,
        }
    } else {
        Mark {
            at: mark.at + 1,
            line: mark.line,
            column: mark.column + 1,
        }
    }
}

/// Marks of a text at regular distances, from its start on.
pub fn marks_of(alloc: Global, text: &[u8]) -> Result<Vec<Mark>, AllocError>
    ensures { IfOk result (λ m. All (IsMarkOf text.now) m.items) }
{
    let mut marks = Vec::new(alloc);
    let mut mark = Mark {
        at: 0,
        line: 1,
        column: 1,
    };
    while mark.at < text.len() {
        if mark.at % SPACE == 0 {
            marks.push(mark)?;
        }
        mark = next_mark(text, mark);
    }
    Ok(marks)
}

/// The line and the column of a position, as `line_column` computes them, if the marks are those of
/// the text.
pub(crate) fn place_among(text: &[u8], marks: &[Mark], at: usize) -> (usize, usize)
    requires { All (IsMarkOf text.now) marks.now }
    ensures line { result.0 ≡ 1 + spec.breaks (take at text.now) }
    ensures column { result.1 ≡ 1 + length (spec.last_line (take at text.now)) }
{
    let Some(mark) = marks.get(at / SPACE) else {
        return line_column(text, at);
    };
    if at < mark.at {
        return line_column(text, at);
    }
    let end = at.min(text.len());
    let mut here = *mark;
    while here.at < end {
        here = next_mark(text, here);
    }
    (here.line, here.column)
}

/// The name of the rule by which a step flows.
pub fn rule_text(rule: Rule) -> &'static [u8]
    ensures { result.now ≡ explanation_spec.rule_text rule }
{
    match rule {
        Rule::Assign => b"ASSIGN",
        Rule::If => b"IF",
        Rule::While => b"WHILE",
        Rule::Letvar => b"LETVAR",
        Rule::Loop => b"LOOP",
    }
}

/// The name of a variable: a global's, a `letvar`'s, or `(loop)` for the ending of loops.
///
/// A number that no declaration of the program has gives no bytes.
pub fn variable_name<'a>(program: &Resolved<'a>, variable: Var) -> &'a [u8]
    ensures { result.now ≡ explanation_spec.name_of program.now variable }
{
    if variable == LOOP {
        return b"(loop)";
    }
    let number = variable.0 as usize;
    let globals = program.globals();
    if number < globals.len() {
        return globals[number].name;
    }
    match program.letvars().get(number - globals.len()) {
        Some(entry) => entry.name,
        None => b"",
    }
}

/// The name of a declared class, or no bytes where no class is declared.
pub fn class_name(lattice: &Lattice, class: Option<Class>) -> &[u8]
    requires { IfSome class (IsClass (order lattice.now)) }
    ensures { result.now ≡ explanation_spec.class_text lattice.now class }
{
    match class {
        Some(class) => lattice.name(class),
        None => b"",
    }
}

/// Adds the line and the column of a position, or leaves the text unchanged.
fn put_place(text: &mut Vec<u8>, source: &[u8], marks: &[Mark], at: usize) -> Result<(), AllocError>
    requires { All (IsMarkOf source.now) marks.now }
    ensures { text.new.items ≡ (if is_ok result
        then text.old.items ++ place_text source.now at else text.old.items) }
{
    let (line, column) = place_among(source, marks, at);
    put_line_column(text, line, column)
}

/// Adds the name of a variable, or leaves the text unchanged.
fn put_name(text: &mut Vec<u8>, program: &Resolved<'_>, variable: Var) -> Result<(), AllocError>
    ensures { text.new.items ≡ (if is_ok result
        then text.old.items ++ explanation_spec.name_of program.now variable else text.old.items) }
{
    text.extend_from_slice(variable_name(program, variable))
}

/// Adds ` : ` and the name of a class, or leaves the text unchanged.
fn put_class_after_colon(
    text: &mut Vec<u8>,
    lattice: &Lattice,
    class: Option<Class>,
) -> Result<(), AllocError>
    requires { IfSome class (IsClass (order lattice.now)) }
    ensures { text.new.items ≡ (if is_ok result
        then text.old.items ++ codes " : " ++ explanation_spec.class_text lattice.now class
        else text.old.items) }
{
    let before = text.len();
    text.extend_from_slice(b" : ")?;
    let added = text.extend_from_slice(class_name(lattice, class));
    if added.is_err() {
        text.truncate(before);
    }
    added
}

/// Adds the name of a variable and the name of its declared class. If memory runs out, the text is
/// unchanged.
pub fn put_variable(
    text: &mut Vec<u8>,
    lattice: &Lattice,
    program: &Resolved<'_>,
    variable: Var,
) -> Result<(), AllocError>
    requires globals { All (IsClass (order lattice.now)) (program_of program.now).globals }
    requires declared { AreClasses (order lattice.now) (program_of program.now).declared }
    ensures { text.new.items ≡ (if is_ok result
        then text.old.items ++ explanation_spec.variable_text lattice.now program.now variable
        else text.old.items) }
{
    let before = text.len();
    put_name(text, program, variable)?;
    let class = declared_class(lattice, program, variable);
    let added = put_class_after_colon(text, lattice, class);
    if added.is_err() {
        text.truncate(before);
    }
    added
}

/// Adds the line of a step, or a part of it if memory runs out.
#[tactic(auto, using(crate::proofs::Begun::begins_more))]
fn put_step(
    text: &mut Vec<u8>,
    source: &[u8],
    marks: &[Mark],
    program: &Resolved<'_>,
    step: &Step,
) -> Result<(), AllocError>
    requires { All (IsMarkOf source.now) marks.now }
    ensures line { OnOk result
        (text.new.items ≡ text.old.items ++ explanation_spec.step_line source.now program.now
        step.now) }
    ensures begins { take (length text.old.items) text.new.items ≡ text.old.items }
{
    put_place(text, source, marks, step.read.start)?;
    text.extend_from_slice(b" ")?;
    put_name(text, program, step.source)?;
    text.extend_from_slice(b" flows to ")?;
    put_name(text, program, step.target)?;
    text.extend_from_slice(b" by ")?;
    text.extend_from_slice(rule_text(step.rule))?;
    text.extend_from_slice(b" at ")?;
    put_place(text, source, marks, step.written.start)?;
    text.extend_from_slice(b"\n")?;
    Ok(())
}

/// Adds the lines of steps, or a part of them if memory runs out.
fn put_lines(
    text: &mut Vec<u8>,
    source: &[u8],
    marks: &[Mark],
    program: &Resolved<'_>,
    steps: &[Step],
) -> Result<(), AllocError>
    requires { All (IsMarkOf source.now) marks.now }
    ensures lines { OnOk result (text.new.items ≡ text.old.items ++ flat_map
        (explanation_spec.step_line source.now program.now) steps.now) }
    ensures begins { take (length text.old.items) text.new.items ≡ text.old.items }
{
    for step in steps {
        put_step(text, source, marks, program, step)?;
    }
    Ok(())
}

/// Adds the lines of steps. If memory runs out, the text is unchanged.
pub fn put_steps(
    text: &mut Vec<u8>,
    source: &[u8],
    marks: &[Mark],
    program: &Resolved<'_>,
    steps: &[Step],
) -> Result<(), AllocError>
    requires { All (IsMarkOf source.now) marks.now }
    ensures { text.new.items ≡ (if is_ok result
        then text.old.items ++ flat_map (explanation_spec.step_line source.now program.now)
        steps.now else text.old.items) }
{
    let before = text.len();
    let added = put_lines(text, source, marks, program, steps);
    if added.is_err() {
        text.truncate(before);
    }
    added
}

/// The text of a walk that `check_walk_in` calls bad under the strict profile: a line for each
/// step, and a last line with the classes. A walk that is bad under the base profile is bad under
/// the strict profile too. The positions are those of the source text.
pub fn explain(
    alloc: Heap,
    source: &[u8],
    lattice: &Lattice,
    program: &Resolved<'_>,
    walk: &Walk,
) -> Result<Vec<u8>, AllocError>
    requires globals { All (IsClass (order lattice.now)) (program_of program.now).globals }
    requires declared { AreClasses (order lattice.now) (program_of program.now).declared }
    requires bad { IsBad (order lattice.now) Strict (program_of program.now) walk.now.steps.items }
    ensures { IfOk result
        (λ t. t.items ≡ explanation_spec.explanation lattice.now source.now program.now
        walk.now.steps.items) }
{
    let mut text = Vec::new(alloc);
    let steps = walk.steps.as_slice();
    if steps.is_empty() {
        return Ok(text);
    }
    let first = steps[0];
    let last = steps[steps.len() - 1];
    let marks = marks_of(alloc, source)?;
    put_steps(&mut text, source, &marks, program, steps)?;
    put_variable(&mut text, lattice, program, first.source)?;
    text.extend_from_slice(b" may not flow to ")?;
    put_variable(&mut text, lattice, program, last.target)?;
    text.extend_from_slice(b"\n")?;
    Ok(text)
}
