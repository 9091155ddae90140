//! The explanation of a source text that is refused for flows: each refused flow with the steps of
//! a shortest walk, what would make it go away, and what would make the whole text accepted.

ghost use Rattle.std.specs.Prelude.{◌≡◌, IfOk, true};
ghost use Rattle.vsi_telling.specs.{declared.place.ColourMode.TheVariants.{Plain}, Safe.{all_plain}};

use crate::parts::{part_of, span_at};
use crate::place::ColourMode;
use crate::subject::Subject;
use crate::telling::Part;
use std::alloc::{AllocError, Global};
use vsi_compiler::{CompileError, Source, judge};
use vsi_flows::{WalkedPair, raise_lines_of, refused_pairs, walks_of};
use vsi_lattice::Classes;
use vsi_scope::Var;
use vsi_types::{LOOP, Profile, Rule, Step};

/// The largest number of flows, and of raises, that are listed.
const LISTED: usize = 20;

/// The number of flows that are explained step by step; each of the others has a line.
const EXPLAINED: usize = 3;

/// The largest number of steps of a walk that is reported whole.
const WHOLE: usize = 16;

/// The number of steps that are reported at either end of a longer walk.
const NEAR: usize = 8;

/// A refused flow, by the steps of a shortest walk.
type Walk<'w> = &'w [Step];

/// Where a walk begins.
fn source_of(walk: Walk<'_>) -> Var {
    walk.first().map_or(LOOP, |step| step.source)
}

/// Where a walk ends.
fn target_of(walk: Walk<'_>) -> Var {
    walk.last().map_or(LOOP, |step| step.target)
}

/// The steps that are reported: those near the beginning of a long walk, and near its end.
fn ends_of<'w>(walk: Walk<'w>) -> (Walk<'w>, Walk<'w>) {
    if walk.len() <= WHOLE {
        return (walk, &walk[..0]);
    }
    (&walk[..NEAR], &walk[walk.len() - NEAR..])
}

/// Whether two steps lead from the same variable to the same one at the same places.
fn are_same(one: &Step, other: &Step) -> bool {
    one.source == other.source
        && one.target == other.target
        && one.read.start == other.read.start
        && one.written.start == other.written.start
}

/// The step, among those of a walk that are reported, that most of these walks take, and how many
/// do; among equals the last one.
fn busiest(walk: Walk<'_>, walks: &[Walk<'_>]) -> Option<(Step, usize)> {
    let (start, end) = ends_of(walk);
    let taken = |step: &Step| {
        let takes = |walk: &&Walk<'_>| walk.iter().any(|other| are_same(step, other));
        (*step, walks.iter().filter(takes).count())
    };
    let steps = start.iter().chain(end).map(taken);
    steps.max_by_key(|(_, count)| *count)
}

/// The sentences about a step by its rule: about its source, its target, its target and its source.
fn sentences(rule: Rule) -> &'static str {
    match rule {
        Rule::Assign => "Here % is read, and a value computed from it is assigned to %.\n",
        Rule::Letvar => {
            "Here % is read, and a value computed from it is the initial value of %.\n"
        }
        Rule::If => {
            "Here the guard of an `if` reads %.\n\
            Which branch runs depends on it, and a branch assigns %.\n\
            No value is copied, but % may then depend on %.\nThe assignment is here:\n"
        }
        Rule::While => {
            "Here the guard of a `while` reads %.\n\
            How often the body runs depends on it, and the body assigns %.\n\
            No value is copied, but % may then depend on %.\nThe assignment is here:\n"
        }
        Rule::Loop => {
            "Whether a loop ends depends on %, which is read here.\n\
            Under the strict profile everyone sees whether a run ends.\n"
        }
    }
}

impl Subject<'_, '_> {
    /// Adds a step of a walk that begins at a variable: where it reads, what happens there, and
    /// which class a variable without a declared one gets.
    fn put_step(&mut self, from: Var, step: &Step) -> Result<(), AllocError> {
        let (source, target) = (self.name(step.source), self.name(step.target));
        self.show(step.read)?;
        self.say(sentences(step.rule), &[source, target, target, source])?;
        if let Rule::If | Rule::While = step.rule {
            self.show(step.written)?;
        }
        match (self.declared(step.target), self.declared(from)) {
            (None, Some(class)) => {
                let lattice = self.source.lattice();
                let sentence = if class == lattice.name(lattice.top()) {
                    "So % is %.\n"
                } else {
                    "So % is % or a class above it.\n"
                };
                self.say(sentence, &[target, Part::Text(class)])
            }
            _ => Ok(()),
        }
    }

    /// Whether a `letvar` of the text declares a variable.
    fn is_local(&self, variable: Var) -> bool {
        variable != LOOP && variable.0 as usize >= self.source.resolved().globals().len()
    }

    /// Adds which class the target of a flow would need, and what that means.
    fn put_raise(&mut self, walk: Walk<'_>) -> Result<(), AllocError> {
        let (from, to) = (source_of(walk), target_of(walk));
        let target = self.name(to);
        let (Some(raised), Some(own)) = (self.raised(from, to), self.declared(to)) else {
            let sentence = ".\nNo declaration changes the class of %.\n";
            return self.say(sentence, &[target]);
        };
        let sentence = if self.is_local(to) {
            ", or\n- declare % as %, or leave out `: %`, and its class is inferred.\n"
        } else {
            ", or\n- declare % as %: nothing at % may then depend on it.\n"
        };
        self.say(sentence, &[target, Part::Text(raised), Part::Text(own)])
    }

    /// Adds what would make a flow go away, of these flows the one with this number.
    fn put_fixes(&mut self, walks: &[Walk<'_>], number: usize) -> Result<(), AllocError> {
        let walk = walks.get(number).copied().unwrap_or(&[]);
        let Some((step, count)) = busiest(walk, walks) else {
            return Ok(());
        };
        let path = Part::Text(self.path);
        let place = Part::Place(self.source.text(), step.read.start);
        let (from, to) = (self.name(step.source), self.name(step.target));
        self.say(
            "This flow goes away if you\n- change %:% so that % doesn't depend on %, and no other \
            walk is left",
            &[path, place, to, from],
        )?;
        self.put_raise(walk)?;
        if count > 1 {
            let sentence = "% of the flows shown here take the step at %:%.\n";
            self.say(sentence, &[Part::Number(count), path, place])?;
        }
        let start = source_of(walk);
        let mut earlier = walks.iter().take(number);
        if earlier.any(|other| source_of(other) == start) {
            return Ok(());
        }
        let sentence = "Declaring % lower is not a fix: % may then flow to more variables.\n";
        self.say(sentence, &[self.name(start), self.name(start)])
    }

    /// Adds the flows: the conflict of each, and the steps of the walks of the first ones.
    fn put_flows(&mut self, walks: &[Walk<'_>]) -> Result<(), AllocError> {
        for (place, walk) in walks.iter().enumerate() {
            let (from, to) = (source_of(walk), target_of(walk));
            let (source, target) = (self.name(from), self.name(to));
            let low = Part::Text(self.declared(from).unwrap_or(b""));
            let high = Part::Text(self.declared(to).unwrap_or(b""));
            self.say(
                "% flows to %: % is % and % is %, and % is not at or below %.\n",
                &[source, target, source, low, target, high, low, high],
            )?;
            if place < EXPLAINED {
                let (start, end) = ends_of(walk);
                for (number, step) in start.iter().chain(end).enumerate() {
                    if number == start.len() {
                        let left_out = walk.len().saturating_sub(WHOLE);
                        self.say("Steps left out here: %.\n", &[Part::Number(left_out)])?;
                    }
                    self.put_step(from, step)?;
                }
                self.put_fixes(walks, place)?;
                self.say("\n", &[])?;
            }
        }
        let end = if walks.len() > EXPLAINED { "\n" } else { "" };
        self.say(end, &[])
    }

    /// Adds the least raise of classes with which the whole text is accepted, if there is one.
    fn put_least_raise(&mut self, profile: Profile, walks: &[Walk<'_>]) -> Result<(), AllocError> {
        let lines = match raise_lines_of(self.alloc, profile, self.source) {
            Ok(lines) => lines,
            Err(CompileError::Memory) => return Err(AllocError),
            Err(_) => {
                let sentence = "No raise of declared classes makes the text accepted.\n";
                return self.say(sentence, &[]);
            }
        };
        // The place after the last line that is listed, if not all are.
        let mut ends = lines.iter().enumerate().filter(|(_, byte)| **byte == b'\n');
        let last = ends.nth(LISTED - 1);
        let length = last.map_or(lines.len(), |(at, _)| at.saturating_add(1));
        let others = "`vsi mend` prints the others, too.\n";
        let rest = if length < lines.len() { others } else { "" };
        self.say(
            "The whole text is accepted if you raise these classes (`vsi mend`):\n%%Nothing at the \
            class before `->` may then depend on the variable.\n",
            &[
                Part::Text(part_of(&lines, span_at(0, length))),
                Part::Text(rest.as_bytes()),
            ],
        )?;
        let has_local = walks.iter().any(|walk| self.is_local(target_of(walk)));
        let sentence = "A `letvar` needs no raise if you leave out its class: it is inferred.\n";
        self.say(if has_local { sentence } else { "" }, &[])
    }
}

/// The flows that are listed, at most 20: first the one of the fixed lines, with the steps of its
/// walk, then the others in their order.
fn listed<'w>(
    alloc: Global,
    named: Walk<'w>,
    others: &'w [WalkedPair],
) -> Result<Vec<Walk<'w>>, AllocError> {
    let mut walks = Vec::new(alloc);
    walks.push(named)?;
    for other in others {
        let (source, target) = (other.pair.source, other.pair.target);
        let is_other = source != source_of(named) || target != target_of(named);
        if is_other && walks.len() < LISTED {
            walks.push(other.steps.as_slice())?;
        }
    }
    Ok(walks)
}

/// The explanation of a source text that is refused for a flow, by the steps of its walk.
fn refused_text(
    alloc: Global,
    mode: ColourMode,
    profile: Profile,
    path: &[u8],
    source: &Source<'_>,
    named: Walk<'_>,
) -> Result<Vec<u8>, AllocError>
    ensures { mode ≡ Plain → IfOk result (λ text. all_plain text.items ≡ true) }
{
    let lattice = source.lattice();
    let resolved = source.resolved();
    let pairs = refused_pairs(alloc, profile, lattice, resolved)?;
    let first = &pairs[..pairs.len().min(LISTED)];
    let walks = walks_of(alloc, profile, lattice, resolved, first)?;
    let flows = listed(alloc, named, &walks)?;
    let mut subject = Subject::new(alloc, path, source);
    subject.put_flows(&flows)?;
    subject.say(
        "This language has no way to release a single result on purpose.\n\
        `vsi leak` with the same files looks for two runs that show the leak.\n",
        &[],
    )?;
    if pairs.len() != flows.len() {
        let parts = [Part::Number(pairs.len()), Part::Number(flows.len())];
        subject.say("Refused flows: %. Shown here: %.\n", &parts)?;
    }
    subject.put_least_raise(profile, &flows)?;
    subject.shown(mode)
}

/// The explanation of a source text that is refused for a flow under a profile: at most 20 refused
/// flows, the first three step by step, what would make each of these go away, and the least raise
/// of classes with which the whole text is accepted. There is none for an accepted text.
pub fn flows_explanation(
    alloc: Global,
    mode: ColourMode,
    profile: Profile,
    path: &[u8],
    source: &Source<'_>,
) -> Result<Vec<u8>, AllocError>
    // Without colours no byte drives a terminal.
    ensures plain { mode ≡ Plain → IfOk result (λ text. all_plain text.items ≡ true) }
{
    match judge(alloc, profile, source) {
        Ok(_) => Ok(Vec::new(alloc)),
        Err(CompileError::Flow(walk)) => {
            refused_text(alloc, mode, profile, path, source, walk.steps.as_slice())
        }
        // A text that has a program is refused for a flow alone.
        Err(_) => Err(AllocError),
    }
}
