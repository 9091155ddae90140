//! The answers about an image: its runs and its bound.

ghost use Rattle.std.specs.Prelude.{◌≡◌, length, IfOk, MatchResult};
ghost use Rattle.vsi_lattice.specs.{LatticeView.{order}, NamePlaces.{texts}, Order.{IsClass}};
ghost use Rattle.vsi_answers.specs.Requests.{BeginsWith, ComparesTo, RunsSourceTo, RunsTo, ViewsTo, ListsTo, ReadsImage, ReadsLattice};
ghost use Rattle.vsi_answers.specs.Bounds as spec;

use crate::Fault;
use crate::unanswered::{Unanswered, refused_file, refused_source, refused_start};
use std::alloc::{AllocError, Global};
use vsi_compiler::{CompileError, compile, resolved_program};
use vsi_drive::{EngineError, first_words, verified_image};
use vsi_image::{Instr, Verified, listing};
use vsi_lattice::{Class, Lattice, LatticeError, read_lattice};
use vsi_machine::{Bound, Machine, Outcome, Reason, bound_of};
use vsi_scope::{Cmd, Ex};
use vsi_store::{Comparison, StoreError, View, ViewError, store_text};
use vsi_syntax::{Kind, lex, line_column, put_line_column, put_number};

/// The words at the start of a run, from the bytes of a store file and the settings after it.
pub fn start_words(
    alloc: Global,
    verified: &Verified,
    file: &[u8],
    settings: &[&[u8]],
    is_full: bool,
) -> Result<Vec<i64>, Unanswered>
    ensures begins { BeginsWith verified.now file.now (texts settings.now) is_full result }
    ensures len { IfOk result (λ words. length words.items ≡ length verified.now.globals.items) }
{
    match first_words(alloc, verified.image(), file, settings, is_full) {
        Ok(Ok(words)) => Ok(words),
        Ok(Err(fault)) => Err(refused_start(alloc, fault)),
        Err(StoreError::Memory) => Err(Unanswered::Memory),
        Err(error) => Err(refused_file(alloc, Fault::Store(error))),
    }
}

/// The text of the store with which an image halts, starting from these words.
pub fn run(
    alloc: Global,
    verified: &Verified,
    words: &[i64],
    budget: u64,
) -> Result<Vec<u8>, Unanswered>
    requires { length words.now ≡ length verified.now.globals.items }
    ensures runs { RunsTo verified.now words.now budget result }
{
    let Ok(mut machine) = Machine::new(alloc, verified, words) else {
        return Err(Unanswered::Memory);
    };
    match machine.run(budget) {
        Outcome::Halted => Ok(store_text(alloc, verified.image(), machine.store())?),
        Outcome::OutOfBudget => Err(Unanswered::OutOfBudget),
    }
}

/// The text of the store with which the image of a source text halts, starting from zeros.
pub fn run_source(
    alloc: Global,
    lattice: &Lattice,
    source: &[u8],
    budget: u64,
) -> Result<Vec<u8>, Unanswered>
    ensures runs { RunsSourceTo lattice.now source.now budget result }
{
    match compile(alloc, lattice, source) {
        Ok(verified) => {
            let words = vec![in alloc; 0i64; verified.image().globals.len()]?;
            run(alloc, &verified, words.as_slice(), budget)
        }
        Err(error) => Err(refused_source(alloc, lattice, source, error)),
    }
}

/// The lines of the final store that a class may see, if the image halts, starting from these
/// words.
pub fn view(
    alloc: Global,
    lattice: &Lattice,
    verified: &Verified,
    class: Class,
    words: &[i64],
    budget: u64,
) -> Result<Vec<u8>, Unanswered>
    requires class { IsClass (order lattice.now) class }
    requires words { length words.now ≡ length verified.now.globals.items }
    ensures views { ViewsTo lattice.now class verified.now words.now budget result }
{
    match vsi_store::view(alloc, lattice, verified, class, words, budget) {
        Ok(View::Text(text)) => Ok(text),
        Ok(View::OutOfBudget) => Err(Unanswered::OutOfBudget),
        Err(ViewError::Memory) => Err(Unanswered::Memory),
        Err(error) => Err(refused_file(alloc, Fault::View(error))),
    }
}

/// The views that a class has of the runs of an image from two stores, side by side.
pub fn compare(
    alloc: Global,
    lattice: &Lattice,
    verified: &Verified,
    class: Class,
    first: &[i64],
    second: &[i64],
    budget: u64,
) -> Result<Comparison, Unanswered>
    requires class { IsClass (order lattice.now) class }
    requires first { length first.now ≡ length verified.now.globals.items }
    requires second { length second.now ≡ length verified.now.globals.items }
    ensures compares { ComparesTo lattice.now class verified.now first.now second.now budget result }
{
    match vsi_store::compare(alloc, lattice, verified, class, first, second, budget) {
        Ok(found) => Ok(found),
        Err(ViewError::Memory) => Err(Unanswered::Memory),
        Err(error) => Err(refused_file(alloc, Fault::View(error))),
    }
}

/// The answer about the bound of an image: its line, whether there is a bound, and what was found.
#[derive(Debug, Drop)]
pub struct BoundAnswer {
    pub text: Vec<u8>,
    pub is_bounded: bool,
    pub found: Bound,
}

/// Why a loop has no bound.
fn reason_text(reason: Reason) -> &'static [u8]
    ensures { result.now ≡ spec.reason_text reason }
{
    match reason {
        Reason::Guard => b"the loop compares no variable with a known number",
        Reason::Start => b"the loop's variable begins with a number that isn't known",
        Reason::Step => {
            b"the loop doesn't move its variable towards the limit by the same number at each turn"
        }
        Reason::Wraps => b"the loop's variable could wrap around before the limit",
    }
}

/// The line of an answer, where a loop that it names is at a place of a source text, if one is
/// given.
fn bound_line(alloc: Global, place: Option<Place>, found: Bound) -> Result<Vec<u8>, AllocError>
    ensures { IfOk result (λ text. text.items ≡ spec.bound_line place found) }
{
    let mut text = Vec::new(alloc);
    match found {
        Bound::Halts { least: _, most } => {
            text.extend_from_slice(b"halts within ")?;
            put_number(&mut text, most as usize)?;
            text.extend_from_slice(b" instructions\n")?;
            Ok(text)
        }
        Bound::Endless { test, reason } => {
            text.extend_from_slice(b"no bound: ")?;
            match place {
                Some(place) => put_line_column(&mut text, place.line, place.column)?,
                None => {
                    text.extend_from_slice(b"instruction ")?;
                    put_number(&mut text, test)?;
                }
            }
            text.extend_from_slice(b": ")?;
            text.extend_from_slice(reason_text(reason))?;
            text.extend_from_slice(b"\n")?;
            Ok(text)
        }
        Bound::Unstructured(at) => {
            text.extend_from_slice(b"no bound: instruction ")?;
            put_number(&mut text, at)?;
            text.extend_from_slice(b": the code isn't made of loops and conditionals\n")?;
            Ok(text)
        }
        Bound::TooLarge => Vec::from_slice(
            alloc,
            b"no bound: the number of instructions is above 18446744073709551615\n",
        ),
    }
}

/// The answer with this bound and this place of a loop.
fn answer_of(alloc: Global, place: Option<Place>, found: Bound) -> Result<BoundAnswer, AllocError>
    ensures { IfOk result (λ told. (told.text.items ≡ spec.bound_line place found)
        × (told.is_bounded ≡ spec.is_bounded found) × (told.found ≡ found)) }
{
    let text = bound_line(alloc, place, found)?;
    Ok(BoundAnswer {
        text,
        is_bounded: matches!(found, Bound::Halts { .. }),
        found,
    })
}

/// The answer about the bound of an image. A loop without a bound is named by the number of the
/// instruction that tests its guard.
///
/// # Errors
///
/// There was no memory.
pub fn bound(alloc: Global, verified: &Verified) -> Result<BoundAnswer, AllocError>
    ensures bound { IfOk result (spec.TellsBound verified.now) }
{
    let found = bound_of(alloc, verified)?;
    let answer = answer_of(alloc, None, found)?;
    Ok(answer)
}

/// The answer about the bound of the image of a source text. A loop without a bound is named by the
/// line and the column of its `while`; no clause says that they are right.
///
/// # Errors
///
/// There was no memory.
pub fn bound_in(
    alloc: Global,
    lattice: &Lattice,
    source: &[u8],
    verified: &Verified,
) -> Result<BoundAnswer, AllocError>
    ensures bound { IfOk result (spec.TellsBound verified.now) }
{
    let found = bound_of(alloc, verified)?;
    let place = loop_place(alloc, lattice, source, verified, found)?;
    let answer = answer_of(alloc, place, found)?;
    Ok(answer)
}

/// A number of instructions within which an image halts from every store, or the line that says why
/// none was found. A loop without a bound is named as by `bound`.
///
/// # Errors
///
/// There was no memory.
pub fn enough_budget(alloc: Global, verified: &Verified) -> Result<Result<u64, Vec<u8>>, AllocError>
    ensures budget { IfOk result (λ answer. MatchResult answer
        (spec.IsBound verified.now) (λ line. spec.LacksBound verified.now line.items)) }
{
    let found = bound_of(alloc, verified)?;
    match found {
        Bound::Halts { least: _, most } => Ok(Ok(most)),
        _ => {
            let line = bound_line(alloc, None, found)?;
            Ok(Err(line))
        }
    }
}

/// The lattice that the bytes of a lattice file declare.
pub fn declared_lattice(alloc: Global, bytes: &[u8]) -> Result<Lattice, Unanswered>
    ensures lattice { ReadsLattice bytes.now result }
{
    match read_lattice(alloc, bytes) {
        Ok(lattice) => Ok(lattice),
        Err(LatticeError::Memory) => Err(Unanswered::Memory),
        Err(error) => Err(refused_file(alloc, Fault::Lattice(error))),
    }
}

/// The valid image with these bytes.
pub fn judged_image(alloc: Global, bytes: &[u8]) -> Result<Verified, Unanswered>
    ensures image { ReadsImage bytes.now result }
{
    match verified_image(alloc, bytes) {
        Ok(verified) => Ok(verified),
        Err(EngineError::Decode(error)) => Err(refused_file(alloc, Fault::Decode(error))),
        Err(EngineError::Verify(error)) => Err(refused_file(alloc, Fault::Verify(error))),
        Err(_) => Err(Unanswered::Memory),
    }
}

/// The listing of the image with these bytes.
pub fn list(alloc: Global, bytes: &[u8]) -> Result<Vec<u8>, Unanswered>
    ensures lists { ListsTo bytes.now result }
{
    let verified = judged_image(alloc, bytes)?;
    Ok(listing(alloc, verified.image())?)
}

/// The line and the column of a loop in a source text.
#[derive(Clone, Copy, Debug, PartialEq, Eq)]
pub struct Place {
    pub line: usize,
    pub column: usize,
}

/// The number that an expression without variables gives.
fn constant(e: &Ex) -> Option<i64> {
    match e {
        Ex::Num(n) => Some(*n),
        Ex::Loc(_, _) => None,
        Ex::Op(op, left, right) => Some(op.apply(constant(left)?, constant(right)?)),
    }
}

/// Adds for each loop of a body, in the order of the text, whether the optimiser keeps it.
fn mark_all(body: &[Cmd], is_kept: bool, kept: &mut Vec<bool>) -> Result<(), AllocError> {
    for c in body {
        match c {
            Cmd::Assign { .. } => {}
            Cmd::If { guard, yes, no } => {
                let value = constant(guard);
                mark_all(yes, is_kept && value != Some(0), kept)?;
                mark_all(no, is_kept && (value.is_none() || value == Some(0)), kept)?;
            }
            Cmd::While { guard, body } => {
                let is_kept = is_kept && constant(guard) != Some(0);
                kept.push(is_kept)?;
                mark_all(body, is_kept, kept)?;
            }
            Cmd::Letvar { body, .. } => mark_all(body, is_kept, kept)?,
        }
    }
    Ok(())
}

/// The places in a text, in bytes, of the loops that the optimiser keeps, in their order.
fn loop_starts(
    alloc: Global,
    lattice: &Lattice,
    source: &[u8],
) -> Result<Vec<usize>, CompileError> {
    let program = resolved_program(alloc, lattice, source)?;
    let mut kept = Vec::new(alloc);
    mark_all(program.body(), true, &mut kept)?;
    let tokens = lex(alloc, source)?;
    let mut starts = Vec::new(alloc);
    let mut number = 0;
    for token in &tokens {
        if token.kind == Kind::While && number < kept.len() {
            if kept[number] {
                starts.push(token.span.start)?;
            }
            number += 1;
        }
    }
    Ok(starts)
}

/// The number of loops whose tests are before this place of a code. An instruction tests the guard
/// of a loop if it jumps past one that jumps back to a place at or before it.
fn loops_before(code: &[Instr], end: usize) -> usize {
    let mut count = 0;
    for place in 0..end {
        if let Some(Instr::Jz(target)) = code.get(place)
            && let Some(jump) = (*target as usize).checked_sub(1)
            && let Some(Instr::Jmp(start)) = code.get(jump)
            && *start as usize <= place
        {
            count += 1;
        }
    }
    count
}

/// The place in a source text of the loop that an answer about its image names. Loops and tests
/// have the same order. There is none for a text that has no program.
fn loop_place(
    alloc: Global,
    lattice: &Lattice,
    source: &[u8],
    verified: &Verified,
    found: Bound,
) -> Result<Option<Place>, AllocError> {
    let Bound::Endless { test, reason: _ } = found else {
        return Ok(None);
    };
    let starts = match loop_starts(alloc, lattice, source) {
        Ok(starts) => starts,
        Err(CompileError::Memory) => return Err(AllocError),
        Err(_) => return Ok(None),
    };
    let code = verified.image().code.as_slice();
    let number = loops_before(code, test);
    if starts.len() != loops_before(code, code.len()) || number >= starts.len() {
        return Ok(None);
    }
    let (line, column) = line_column(source, starts[number]);
    Ok(Some(Place { line, column }))
}
