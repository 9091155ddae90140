//! The raises to the least policy under which a program is accepted, and their lines.

ghost use Rattle.std.specs.{Prelude.{◌≡◌, IfOk, ◌<◌, MatchOption, ◌++◌, map, IfErr, OnOk}, List.{All}};
ghost use Rattle.vsi_flows.specs.{declared.least.RaisedError.TheVariants.{Memory}, Reaching.{floor, AreFloors, IsQuiet, IsSettled}, Raising.{Answers, AreLeastRaises, IsFinal}, Answers.{HasClassesIn, IsRaiseText, RefusesRaise}};
ghost use Rattle.vsi_lattice.specs.{Order.{IsClass}, LatticeView.{order}};
ghost use Rattle.vsi_types.specs.{Security.{program as program_of}, declared.rules.Profile.{Profile}};
ghost use Rattle.vsi_infer.specs.{Inference.{AreClasses}, Flowing.{AreFlowsOf, size_of}};
ghost use Rattle.vsi_syntax.specs.CommandView.{declared};
ghost use Rattle.vsi_flows.specs.Lines as spec;

use crate::rows::{declarations, joined, name_start, nearest_over};
use std::alloc::{AllocError, AllocFailed, Global, Global as Heap};
use thiserror::Error;
use vsi_compiler::{CompileError, Source, read_source};
use vsi_infer::{
    Flow, FlowRows, Walk, declared_class, fewest_flows, flow_rows, put_variable, steps_down,
    variable_name, walks_to,
};
use vsi_lattice::{Class, Classes, Lattice};
use vsi_scope::{Resolved, Var};
use vsi_syntax::{Declaration, put_place};
use vsi_types::Profile;

/// A declared variable whose class must rise.
#[derive(Clone, Copy, Debug, PartialEq, Eq)]
pub struct Raise {
    /// The variable.
    pub variable: Var,
    /// Its declared class.
    pub old: Class,
    /// The class to which it must rise.
    pub new: Class,
    /// A declared variable that reaches it and whose class isn't at or below the old one.
    pub cause: Var,
}

/// How a program can be accepted.
#[derive(Debug, Drop)]
pub enum Raising {
    /// By these raises, in the order of declarations; none if it is accepted unchanged.
    Raised(Vec<Raise>),
    /// By no raise: a variable whose declared class isn't the bottom reaches the ending of loops,
    /// by this walk.
    Refused(Walk),
}

/// A reason why there is no text with raised classes. Lack of memory is always `Memory`, and never
/// an inner error.
#[derive(Debug, Drop, Error)]
pub enum RaisedError {
    /// The source text has no program, or no raise makes it accepted.
    #[error("the text is refused whatever its classes rise to")]
    Source(CompileError),
    /// The text with the raised classes isn't accepted: that text, and why it is refused.
    #[error("the text with the raised classes is refused")]
    Raised(Vec<u8>, CompileError),
    /// There was too little memory.
    #[error("out of memory")]
    Memory,
}

impl From<AllocError> for RaisedError {
    ghost from_gives = { λ _ e. e ≡ Memory };

    fn from(_error: AllocError) -> RaisedError {
        RaisedError::Memory
    }
}

impl<T: Drop> From<AllocFailed<T>> for RaisedError {
    ghost from_gives = { λ _ e. e ≡ Memory };

    fn from(_error: AllocFailed<T>) -> RaisedError {
        RaisedError::Memory
    }
}

/// The declared class of a variable, or the bottom if none is declared.
fn floor_of<C: Classes>(lattice: &C, program: &Resolved<'_>, variable: Var) -> Class
    ensures { result ≡ floor (C.lattice lattice.now) (program_of program.now) variable }
{
    declared_class(lattice, program, variable).unwrap_or(lattice.bottom())
}

/// The floors of all declarations, in order.
pub(crate) fn floors<C: Classes>(
    alloc: Heap,
    lattice: &C,
    program: &Resolved<'_>,
) -> Result<Vec<Class>, AllocError>
    requires globals { All (IsClass (C.lattice lattice.now)) (program_of program.now).globals }
    requires declared { AreClasses (C.lattice lattice.now) (program_of program.now).declared }
    ensures floors { IfOk result
        (λ f. AreFloors (C.lattice lattice.now) (program_of program.now) f.items) }
    ensures classes { IfOk result (λ f. All (IsClass (C.lattice lattice.now)) f.items) }
{
    let count = declarations(program);
    let mut floors = Vec::new(alloc);
    for v in 0..count {
        floors.push(floor_of(lattice, program, Var(v)))?;
    }
    Ok(floors)
}

/// The raises of declared classes to the least policy at or above the declared one under which a
/// profile accepts the program, or a walk that no such policy permits.
pub fn raises_in<C: Classes>(
    alloc: Heap,
    profile: Profile,
    lattice: &C,
    program: &Resolved<'_>,
) -> Result<Raising, AllocError>
    requires globals { All (IsClass (C.lattice lattice.now)) (program_of program.now).globals }
    requires declared { AreClasses (C.lattice lattice.now) (program_of program.now).declared }
    ensures answer { IfOk result
        (Answers (C.lattice lattice.now) profile (program_of program.now)) }
{
    // `body` ensures that the program is resolved, which the proofs need.
    let _body = program.body();
    let flow = flow_rows(alloc, profile, program)?;
    let floors = floors(alloc, lattice, program)?;
    let found = final_walk(alloc, profile, lattice, program, &flow, &floors)?;
    if let Some(walk) = found {
        return Ok(Raising::Refused(walk));
    }
    // Only variables at the bottom reach the ending of loops.
    let count = declarations(program);
    let mut policy = Vec::new(alloc);
    let mut raises = Vec::new(alloc);
    for variable in 0..count {
        let settled = settle(alloc, profile, lattice, program, &flow, &floors, variable)?;
        policy.push(settled.0)?;
        let change = settled.1;
        let Some(raise) = change else {
            continue;
        };
        raises.push(raise)?;
    }
    Ok(Raising::Raised(raises))
}

/// The raises of a source text under a profile, by `raises_in`.
pub fn raises_of(alloc: Heap, profile: Profile, source: &Source<'_>) -> Result<Raising, AllocError>
    ensures answer { IfOk result
        (Answers (order source.now.lattice) profile (program_of source.now.resolved)) }
{
    raises_in(alloc, profile, source.lattice(), source.resolved())
}

/// The class that reaches a variable, and its raise if its declared class is another one.
pub(crate) fn settle<C: Classes>(
    alloc: Heap,
    profile: Profile,
    lattice: &C,
    program: &Resolved<'_>,
    flow: &FlowRows,
    floors: &[Class],
    variable: u16,
) -> Result<(Class, Option<Raise>), AllocError>
    requires globals { All (IsClass (C.lattice lattice.now)) (program_of program.now).globals }
    requires declared { AreClasses (C.lattice lattice.now) (program_of program.now).declared }
    requires flows { AreFlowsOf profile (program_of program.now)
        (⟦<FlowRows as Flow>⟧.flows flow.now) }
    requires floors { AreFloors (C.lattice lattice.now) (program_of program.now) floors.now }
    requires classes { All (IsClass (C.lattice lattice.now)) floors.now }
    requires variable { variable < size_of (program_of program.now) }
    ensures { IfOk result (λ r. IsSettled (C.lattice lattice.now) profile (program_of program.now)
        variable r.0 r.1) }
{
    // `body` ensures that the program is resolved, which the proofs need.
    let _body = program.body();
    let row = fewest_flows(alloc, flow, floors.len() + 1, variable as usize)?;
    let new = joined(lattice, floors, &row);
    let Some(old) = declared_class(lattice, program, Var(variable)) else {
        return Ok((new, None));
    };
    let Some(cause) = nearest_over(lattice, floors, &row, old) else {
        return Ok((new, None));
    };
    let raise = Raise {
        variable: Var(variable),
        old,
        new,
        cause: Var(cause as u16),
    };
    Ok((new, Some(raise)))
}

/// A walk from a variable whose floor isn't the bottom to the ending of loops, if there is one.
pub(crate) fn final_walk<C: Classes>(
    alloc: Heap,
    profile: Profile,
    lattice: &C,
    program: &Resolved<'_>,
    flow: &FlowRows,
    floors: &[Class],
) -> Result<Option<Walk>, AllocError>
    requires globals { All (IsClass (C.lattice lattice.now)) (program_of program.now).globals }
    requires declared { AreClasses (C.lattice lattice.now) (program_of program.now).declared }
    requires flows { AreFlowsOf profile (program_of program.now)
        (⟦<FlowRows as Flow>⟧.flows flow.now) }
    requires floors { AreFloors (C.lattice lattice.now) (program_of program.now) floors.now }
    requires classes { All (IsClass (C.lattice lattice.now)) floors.now }
    ensures { IfOk result (λ o. MatchOption o
        (IsQuiet (C.lattice lattice.now) profile (program_of program.now))
        (λ w. IsFinal (C.lattice lattice.now) profile (program_of program.now) w.steps.items)) }
{
    // `body` ensures that the program is resolved, which the proofs need.
    let _body = program.body();
    let last = declarations(program);
    let row = fewest_flows(alloc, flow, last as usize + 1, last as usize)?;
    let Some(from) = nearest_over(lattice, floors, &row, lattice.bottom()) else {
        return Ok(None);
    };
    let known = steps_down(alloc, profile, program, &row, last)?;
    let walks = walks_to(&known, 0, &row, last);
    let steps = walks.walk_from(alloc, profile, program, Var(from as u16), row[from])?;
    Ok(Some(Walk { steps }))
}

/// Adds the beginning of the line of a raise.
fn put_change(
    text: &mut Vec<u8>,
    lattice: &Lattice,
    source: &[u8],
    start: usize,
    program: &Resolved<'_>,
    raise: &Raise,
) -> Result<(), AllocError>
    requires globals { All (IsClass (order lattice.now)) (program_of program.now).globals }
    requires declared { AreClasses (order lattice.now) (program_of program.now).declared }
    requires new { IsClass (order lattice.now) raise.now.new }
    ensures { OnOk result (text.new.items ≡ text.old.items
        ++ spec.change_text lattice.now source.now start program.now raise.now) }
{
    put_place(text, source, start)?;
    text.extend_from_slice(b" ")?;
    put_variable(text, lattice, program, raise.variable)?;
    text.extend_from_slice(b" -> ")?;
    text.extend_from_slice(lattice.name(raise.new))
}

/// Adds the line of a raise.
fn put_raise(
    text: &mut Vec<u8>,
    lattice: &Lattice,
    source: &[u8],
    declarations: &[Declaration<'_>],
    program: &Resolved<'_>,
    raise: &Raise,
) -> Result<(), AllocError>
    requires globals { All (IsClass (order lattice.now)) (program_of program.now).globals }
    requires declared { AreClasses (order lattice.now) (program_of program.now).declared }
    requires new { IsClass (order lattice.now) raise.now.new }
    ensures { OnOk result (text.new.items ≡ text.old.items ++ spec.raise_line lattice.now source.now
        (map declared declarations.now) program.now raise.now) }
{
    let start = name_start(declarations, program.letvars(), raise.variable);
    put_change(text, lattice, source, start, program, raise)?;
    text.extend_from_slice(b", since ")?;
    text.extend_from_slice(variable_name(program, raise.cause))?;
    text.extend_from_slice(b" reaches it\n")
}

/// A line for each raise of a source text.
fn lines_of(alloc: Global, source: &Source<'_>, raises: &[Raise]) -> Result<Vec<u8>, AllocError>
    requires { HasClassesIn (order source.now.lattice) raises.now }
    ensures { (P : Profile)
        → AreLeastRaises (order source.now.lattice) P (program_of source.now.resolved) raises.now
        → IfOk result (λ out. IsRaiseText source.now.lattice P source.now.text out.items) }
{
    let lattice = source.lattice();
    let text = source.text();
    let program = source.resolved();
    let globals = source.globals();
    let mut lines = Vec::new(alloc);
    for raise in raises {
        put_raise(&mut lines, lattice, text, globals, program, raise)?;
    }
    Ok(lines)
}

/// A line for each raise to the least policy under which a source text is accepted under a profile:
/// where the variable is declared, its name, its old class and its new one, and a variable that
/// reaches it and whose class isn't at or below the old one. There is no line where the text is
/// accepted as it is.
///
/// # Errors
///
/// `Flow` with a walk to the ending of loops, where no raise makes the text accepted; `Memory`.
pub fn raise_lines_of(
    alloc: Global,
    profile: Profile,
    source: &Source<'_>,
) -> Result<Vec<u8>, CompileError>
    ensures lines { IfOk result
        (λ out. IsRaiseText source.now.lattice profile source.now.text out.items) }
    ensures refused { IfErr result (RefusesRaise source.now.lattice profile source.now.text) }
{
    // The contract of `resolved` says that the source is one; the proofs need that.
    let _program = source.resolved();
    let raising = raises_of(alloc, profile, source)?;
    match raising {
        Raising::Raised(raises) => Ok(lines_of(alloc, source, &raises)?),
        Raising::Refused(walk) => Err(CompileError::Flow(walk)),
    }
}

/// The lines of the raises of a text, by `raise_lines_of`.
///
/// # Errors
///
/// Those of `read_source` and of `raise_lines_of`.
pub fn raise_lines_in(
    alloc: Global,
    profile: Profile,
    lattice: &Lattice,
    text: &[u8],
) -> Result<Vec<u8>, CompileError>
    ensures lines { IfOk result (λ out. IsRaiseText lattice.now profile text.now out.items) }
    ensures refused { IfErr result (RefusesRaise lattice.now profile text.now) }
{
    match read_source(alloc, lattice, text) {
        Ok(source) => raise_lines_of(alloc, profile, &source),
        Err(error) => Err(error),
    }
}
