//! Whether a text conforms to an interface: its globals, its classes and its runs.

ghost use Rattle.std.specs.Prelude.{◌≡◌, IfOk, map, IfSome, None, true, [], MatchResult, ◌++◌, OnOk};
ghost use Rattle.vsi_image.specs.Fields.{global, globals, is_taken};
ghost use Rattle.vsi_syntax.specs.CommandView.{declared};
ghost use Rattle.vsi_lattice.specs.LatticeView.{class_named, order};
ghost use Rattle.vsi_conform.specs.{Bounded.{ReportsBound}, Points.{is_conforming, points_of}, declared.interface.Bounded.TheVariants.{AtMost}};
ghost use Rattle.vsi_types.specs.declared.rules.Profile.{Profile};
ghost use Rattle.vsi_answers.specs.Bounds.{TellsBound};
ghost use Rattle.vsi_conform.specs.Points as spec;
ghost use Rattle.vsi_conform.specs.Shown as shown_spec;
ghost use Rattle.vsi_conform.specs.Conforms as conforms_spec;
ghost use Rattle.vsi_conform.specs.Bounded as bounded_spec;

use crate::interface::{Answer, Bounded, Interface, Judgement, Point, Trial, put_told};
use crate::texts::put_counted;
use std::alloc::{AllocError, Global};
use vsi_answers::{BoundAnswer, bound_in, enough_budget};
use vsi_compiler::{CompileError, Source, compile_source, read_source, unjudged_image};
use vsi_image::Verified;
use vsi_lattice::Lattice;
use vsi_machine::{Machine, Outcome};
use vsi_steady::{UnsteadyError, steady_image_of};
use vsi_syntax::{Declaration, LexError, ParseError, lex, parse};
use vsi_types::Profile;

/// Whether a global has this name.
pub(crate) fn is_named(variables: &[(Vec<u8>, Vec<u8>)], name: &[u8]) -> bool
    ensures { result ≡ is_taken (globals variables.now) name.now }
{
    for variable in variables {
        if variable.0.as_slice() == name {
            return true;
        }
    }
    false
}

/// Whether two globals have the same name and the same class.
pub(crate) fn are_same(one: &(Vec<u8>, Vec<u8>), other: &(Vec<u8>, Vec<u8>)) -> bool
    ensures { result ≡ spec.are_same (global one.now) (global other.now) }
{
    one.0.as_slice() == other.0.as_slice() && one.1.as_slice() == other.1.as_slice()
}

/// Required globals, and those found beside them, each by its name and its class.
#[derive(Clone, Copy)]
struct Beside<'a> {
    wanted: &'a [(Vec<u8>, Vec<u8>)],
    found: &'a [(Vec<u8>, Vec<u8>)],
}

impl Beside<'_> {
    /// The point of one required global.
    fn entry_point(&self, number: usize, wanted: &(Vec<u8>, Vec<u8>)) -> Option<Point>
        ensures { result
            ≡ spec.entry_point number (global wanted.now) 0 (globals self.now.found.now) }
    {
        for (place, variable) in self.found.iter().enumerate() {
            if variable.0.as_slice() == wanted.0.as_slice() {
                if variable.1.as_slice() == wanted.1.as_slice() {
                    return None;
                }
                let wanted = number;
                return Some(Point::WrongClass { place, wanted });
            }
        }
        Some(Point::Missing(number))
    }

    /// The points of the globals, apart from their order.
    fn set_points(&self, alloc: Global) -> Result<Vec<Point>, AllocError>
        ensures { IfOk result (λ points. points.items
            ≡ spec.set_points (globals self.now.wanted.now) (globals self.now.found.now)) }
    {
        let mut points = Vec::new(alloc);
        for (number, entry) in self.wanted.iter().enumerate() {
            put_told(&mut points, self.entry_point(number, entry))?;
        }
        for (place, variable) in self.found.iter().enumerate() {
            if !is_named(self.wanted, variable.0.as_slice()) {
                points.push(Point::Unexpected(place))?;
            }
        }
        Ok(points)
    }

    /// The position of the first difference.
    fn first_difference(&self) -> Option<usize>
        ensures { result ≡ spec.first_difference 0 (globals self.now.wanted.now)
            (globals self.now.found.now) }
    {
        for (place, entry) in self.wanted.iter().enumerate() {
            let Some(variable) = self.found.get(place) else {
                return Some(place);
            };
            if !are_same(entry, variable) {
                return Some(place);
            }
        }
        let Some(_more) = self.found.get(self.wanted.len()) else {
            return None;
        };
        Some(self.wanted.len())
    }
}

/// The points of the globals.
pub(crate) fn global_points(
    alloc: Global,
    is_ordered: bool,
    wanted: &[(Vec<u8>, Vec<u8>)],
    found: &[(Vec<u8>, Vec<u8>)],
) -> Result<Vec<Point>, AllocError>
    ensures { IfOk result (λ points. points.items
        ≡ spec.global_points is_ordered (globals wanted.now) (globals found.now)) }
{
    let beside = Beside { wanted, found };
    if !is_ordered {
        return beside.set_points(alloc);
    }
    let Some(place) = beside.first_difference() else {
        return Ok(Vec::new(alloc));
    };
    let mut points = beside.set_points(alloc)?;
    if points.is_empty() {
        points.push(Point::WrongOrder(place))?;
    }
    Ok(points)
}

/// The globals of a text, in its order; a text without a tree has none.
pub(crate) fn declarations<'a>(
    alloc: Global,
    text: &'a [u8],
) -> Result<Vec<Declaration<'a>>, AllocError>
    ensures { IfOk result (λ found. shown_spec.Declares text.now (map declared found.items)) }
{
    let tokens = match lex(alloc, text) {
        Ok(tokens) => tokens,
        Err(LexError::Memory) => return Err(AllocError),
        Err(_error) => return Ok(Vec::new(alloc)),
    };
    let program = match parse(alloc, &tokens) {
        Ok(program) => program,
        Err(ParseError::Memory) => return Err(AllocError),
        Err(_error) => return Ok(Vec::new(alloc)),
    };
    let found = program.globals().to_vec(alloc)?;
    Ok(found)
}

/// The differences between the globals and runs of an image and the required ones.
pub(crate) fn image_points(
    alloc: Global,
    verified: &Verified,
    interface: &Interface,
) -> Result<Vec<Point>, AllocError>
    ensures points { IfOk result (λ points. points.items ≡ points_of verified.now interface.now) }
{
    let is_ordered = interface.is_ordered;
    let found = &verified.image().globals;
    let mut points = global_points(alloc, is_ordered, &interface.globals, found)?;
    for (number, trial) in interface.trials.iter().enumerate() {
        put_trial(alloc, &mut points, verified, number, trial)?;
    }
    Ok(points)
}

/// The differences between an image and the requirements, and the line about its bound.
fn image_differences(
    alloc: Global,
    lattice: &Lattice,
    text: &[u8],
    verified: &Verified,
    interface: &Interface,
) -> Result<(Vec<Point>, Option<Vec<u8>>), AllocError>
    ensures points { IfOk result (λ pair. pair.0.items ≡ points_of verified.now interface.now) }
    ensures bound { IfOk result
        (λ pair. ReportsBound interface.now.bounded verified.now pair.1) }
{
    let points = image_points(alloc, verified, interface)?;
    if !interface.demands_bound() {
        return Ok((points, None));
    }
    let answer = bound_in(alloc, lattice, text, verified)?;
    let line = bound_report(alloc, verified, interface.bounded, answer)?;
    Ok((points, line))
}

/// The differences of a refused text, if it has a program.
fn refused_differences(
    alloc: Global,
    lattice: &Lattice,
    text: &[u8],
    interface: &Interface,
) -> Result<(Vec<Point>, Option<Vec<u8>>), AllocError>
    ensures { IfOk result (λ pair. conforms_spec.TellsReadable (class_named lattice.now) text.now
        interface.now pair.0.items pair.1) }
{
    match unjudged_image(alloc, lattice, text) {
        Ok(verified) => {
            let pair = image_differences(alloc, lattice, text, &verified, interface)?;
            Ok(pair)
        }
        Err(CompileError::Memory) => Err(AllocError),
        Err(_) => Ok((Vec::new(alloc), None)),
    }
}

/// The differences between a text and an interface: why it isn't accepted and, if it has a program,
/// each global and each run that isn't as required, and the bound if it isn't as required.
/// An error means that memory ran out.
pub fn conform(
    alloc: Global,
    lattice: &Lattice,
    text: &[u8],
    interface: &Interface,
) -> Result<Answer, AllocError>
    ensures conforms { IfOk result (λ answer. is_conforming answer ≡ true
        → conforms_spec.Conforms lattice.now text.now interface.now) }
    ensures exact { conforms_spec.Conforms lattice.now text.now interface.now
        → IfOk result (λ answer. answer.unbounded ≡ None → is_conforming answer ≡ true) }
    ensures unrefused { conforms_spec.Conforms lattice.now text.now interface.now
        → IfOk result (λ answer. answer.refusal ≡ None) }
    ensures pointless { conforms_spec.Conforms lattice.now text.now interface.now
        → IfOk result (λ answer. answer.points.items ≡ []) }
    ensures bound { IfOk result (λ answer. IfSome answer.unbounded (λ line.
        conforms_spec.IsUnbounded lattice.now text.now interface.now line.items)) }
    ensures told { IfOk result (conforms_spec.Tells lattice.now text.now interface.now) }
{
    match judged(alloc, interface.judgement, lattice, text)? {
        Ok(verified) => {
            let (points, unbounded) = image_differences(
                alloc, lattice, text, &verified, interface,
            )?;
            Ok(Answer {
                refusal: None,
                points,
                unbounded,
            })
        }
        Err(error) => {
            let (points, unbounded) = refused_differences(alloc, lattice, text, interface)?;
            Ok(Answer {
                refusal: Some(error),
                points,
                unbounded,
            })
        }
    }
}

/// The image of a source text under a profile, or its refusal.
fn compiled_of(
    alloc: Global,
    profile: Profile,
    source: &Source<'_>,
) -> Result<Result<Verified, UnsteadyError>, AllocError>
    ensures { IfOk result (λ answer. MatchResult answer
        (conforms_spec.IsCompiled (class_named source.now.lattice) (order source.now.lattice)
        profile source.now.text)
        (conforms_spec.IsRefused (class_named source.now.lattice) (order source.now.lattice) profile
        source.now.text)) }
{
    match compile_source(alloc, profile, source) {
        Ok(verified) => Ok(Ok(verified)),
        Err(CompileError::Memory) => Err(AllocError),
        Err(error) => Ok(Err(UnsteadyError::Compile(error))),
    }
}

/// The image of a source text that was read and is accepted as required, or its refusal. An error
/// means that memory ran out.
pub fn judged_of(
    alloc: Global,
    judgement: Judgement,
    source: &Source<'_>,
) -> Result<Result<Verified, UnsteadyError>, AllocError>
    ensures { IfOk result (λ answer. MatchResult answer
        (conforms_spec.IsAcceptedAs (class_named source.now.lattice) (order source.now.lattice)
        judgement source.now.text)
        (conforms_spec.IsRefusedAs (class_named source.now.lattice) (order source.now.lattice)
        judgement source.now.text)) }
{
    match judgement {
        Judgement::Base => compiled_of(alloc, Profile::Base, source),
        Judgement::Strict => compiled_of(alloc, Profile::Strict, source),
        Judgement::Steady => match steady_image_of(alloc, source) {
            Ok(verified) => Ok(Ok(verified)),
            Err(UnsteadyError::Memory) => Err(AllocError),
            Err(error) => Ok(Err(error)),
        },
    }
}

/// The image of a text that is accepted as required, or its refusal. An error means that memory ran
/// out.
pub fn judged(
    alloc: Global,
    judgement: Judgement,
    lattice: &Lattice,
    text: &[u8],
) -> Result<Result<Verified, UnsteadyError>, AllocError>
    ensures { IfOk result (λ answer. MatchResult answer
        (conforms_spec.IsAcceptedAs (class_named lattice.now) (order lattice.now) judgement
        text.now) (conforms_spec.IsRefusedAs (class_named lattice.now) (order lattice.now) judgement
        text.now)) }
{
    match read_source(alloc, lattice, text) {
        Ok(source) => judged_of(alloc, judgement, &source),
        Err(CompileError::Memory) => Err(AllocError),
        Err(error) => Ok(Err(UnsteadyError::Compile(error))),
    }
}

/// The word given for a name, or 0.
fn given_word(entries: &[(Vec<u8>, i64)], name: &[u8]) -> i64
    ensures { result ≡ spec.given_word (spec.entries entries.now) name.now }
{
    for entry in entries {
        if entry.0.as_slice() == name {
            return entry.1;
        }
    }
    0
}

/// The word of the global with a name.
fn word_of(variables: &[(Vec<u8>, Vec<u8>)], words: &[i64], name: &[u8]) -> Option<i64>
    ensures { result ≡ spec.word_of (globals variables.now) words.now name.now }
{
    for (i, variable) in variables.iter().enumerate() {
        let word = words.get(i)?;
        if variable.0.as_slice() == name {
            return Some(*word);
        }
    }
    None
}

/// Adds the points of the expected words.
fn put_words(
    points: &mut Vec<Point>,
    trial: usize,
    expect: &[(Vec<u8>, i64)],
    variables: &[(Vec<u8>, Vec<u8>)],
    words: &[i64],
) -> Result<(), AllocError>
    ensures { OnOk result (points.new.items ≡ points.old.items
        ++ spec.word_points trial 0 (spec.entries expect.now) (globals variables.now) words.now) }
{
    for (wanted, entry) in expect.iter().enumerate() {
        let point = match word_of(variables, words, entry.0.as_slice()) {
            None => Some(Point::NoWord { trial, wanted }),
            Some(word) if word == entry.1 => None,
            Some(word) => Some(Point::WrongWord {
                trial,
                wanted,
                word,
            }),
        };
        put_told(points, point)?;
    }
    Ok(())
}

/// Adds the points of one run.
fn put_trial(
    alloc: Global,
    points: &mut Vec<Point>,
    verified: &Verified,
    number: usize,
    trial: &Trial,
) -> Result<(), AllocError>
    ensures { OnOk result (points.new.items ≡ points.old.items
        ++ spec.trial_points verified.now number trial.now) }
{
    let variables = verified.image().globals.as_slice();
    let mut words = Vec::new(alloc);
    for variable in variables {
        words.push(given_word(&trial.store, variable.0.as_slice()))?;
    }
    let Ok(mut machine) = Machine::new(alloc, verified, &words) else {
        return Err(AllocError);
    };
    match machine.run(trial.budget) {
        Outcome::Halted => put_words(points, number, &trial.expect, variables, machine.store()),
        Outcome::OutOfBudget => {
            points.push(Point::OutOfBudget(number))?;
            Ok(())
        }
    }
}

/// The report about a bound where one of at most `maximum` instructions is required.
#[tactic(auto, using(crate::proofs::BoundLines::within_reported, crate::proofs::BoundLines::excess_reported, crate::proofs::BoundLines::line_reported))]
fn report_within(
    alloc: Global,
    verified: &Verified,
    maximum: u64,
) -> Result<Option<Vec<u8>>, AllocError>
    ensures { IfOk result (λ line. bounded_spec.ReportsBound (AtMost maximum) verified.now line) }
{
    match enough_budget(alloc, verified)? {
        Ok(most) => {
            if most <= maximum {
                return Ok(None);
            }
            let mut line = Vec::new(alloc);
            put_counted(&mut line, b"halts within ", most as usize)?;
            put_counted(
                &mut line,
                b" instructions, expected at most ",
                maximum as usize,
            )?;
            line.extend_from_slice(b"\n")?;
            Ok(Some(line))
        }
        Err(line) => Ok(Some(line)),
    }
}

/// The line about the bound of an image that isn't as required, by the answer of `vsi bound`.
#[tactic(auto, using(crate::proofs::BoundLines::answer_bounded, crate::proofs::BoundLines::answer_lacks, crate::proofs::BoundLines::answer_above))]
pub(crate) fn bound_report(
    alloc: Global,
    verified: &Verified,
    bounded: Bounded,
    answer: BoundAnswer,
) -> Result<Option<Vec<u8>>, AllocError>
    requires answer { TellsBound verified.now answer }
    ensures report { IfOk result (λ line. bounded_spec.ReportsBound bounded verified.now line) }
{
    match bounded {
        Bounded::No => Ok(None),
        Bounded::Yes => {
            if answer.is_bounded {
                return Ok(None);
            }
            Ok(Some(answer.text))
        }
        Bounded::AtMost(maximum) => {
            if answer.is_bounded {
                return report_within(alloc, verified, maximum);
            }
            Ok(Some(answer.text))
        }
    }
}
