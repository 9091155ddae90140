//! The search for a repair of a fault of the tree.

use crate::open::{Open, Reading, Start, landmark_from, put_numbered, read, tokens_of};
use std::alloc::{AllocError, Global};
use vsi_syntax::Kind::*;
use vsi_syntax::{Kind, Token};

/// The most tokens that are skipped.
const MAX_SKIPPED: usize = 400;

/// The most tokens that are read after a repair: one with which reading goes over them is enough.
const MAX_AHEAD: usize = 200;

/// The cost of trying a repair, in tokens, beside the tokens that are read for it.
const TRIAL: usize = 20;

/// The name that repairs put in.
pub(crate) const NAME: &str = "put_in_by_a_repair";

/// A command.
pub(crate) const COMMAND: &str = "put_in_by_a_repair := 0";

/// A branch after a first one.
const OTHERWISE: &str = "else put_in_by_a_repair := 0";

/// A body of a loop.
const LOOPING: &str = "do put_in_by_a_repair := 0";

/// A first branch.
const FIRST: &str = "then put_in_by_a_repair := 0";

/// A body of a local variable.
const WITHIN: &str = "in put_in_by_a_repair := 0";

/// A value that is assigned.
const ASSIGNED: &str = ":= 0";

/// A class of a declaration.
const CLASS: &str = ": put_in_by_a_repair";

/// The repairs of one token in their order: how many tokens are left out, and what is put there.
const SMALL: [(usize, &[&str]); 6] = [
    (0, &[";", "0"]),
    (1, &["", ":="]),
    (0, &["then", "do", "in", ")", "}", ":=", ":", NAME]),
    (1, &["then", "do", "in", ";", "<", NAME, "0", "var"]),
    (0, &[OTHERWISE, COMMAND, CLASS, ASSIGNED]),
    (2, &[":=", ""]),
];

/// The replacements of all tokens up to one at which reading can go on.
const FILLINGS: [&str; 7] = ["", "0", ASSIGNED, CLASS, COMMAND, LOOPING, FIRST];

/// What is put at the end of a text that ends too early: the first of these that can come there.
const ENDINGS: [&str; 11] = [
    "}", ")", "0", COMMAND, OTHERWISE, LOOPING, FIRST, WITHIN, ASSIGNED, CLASS, ";",
];

/// The number of tokens of a declaration of a global.
pub(crate) const DECLARATION: usize = 5;

/// The tokens of a declaration of a global.
const DECLARED: [Kind; DECLARATION] = [Var, Name, Colon, Name, Semicolon];

/// The most tokens that are passed over in search of one.
const MAX_PASSED: usize = 10_000;

/// The kinds that begin a construct, and those that end it or its first part.
const ENDS: [(Kind, Kind); 5] = [
    (OpenBrace, CloseBrace),
    (Kind::Open, Close),
    (If, Else),
    (While, Do),
    (Letvar, In),
];

/// The constructs that begin in a skipped part and haven't ended: how many there are for each row
/// of `ENDS`. Within braces only braces count.
type Nest = [usize; 5];

/// The kinds that begin a construct which ends with another kind.
const OPENINGS: [Kind; 6] = [If, While, Letvar, Var, OpenBrace, Kind::Open];

/// Whether reading can go on at this kind: no construct of the skipped part has the token.
fn serves([braces, rounds, ifs, whiles, letvars]: Nest, kind: Kind) -> bool {
    let is_outside = match kind {
        Semicolon | Var => rounds == 0,
        CloseBrace => true,
        Else => ifs == 0,
        Do => whiles == 0,
        In => letvars == 0,
        _ => false,
    };
    braces == 0 && is_outside
}

/// Reads one more token of a skipped part.
fn note(nest: &mut Nest, kind: Kind) {
    let rows = if nest[0] == 0 { 5 } else { 1 };
    if kind == OpenBrace || kind == CloseBrace {
        nest[1] = 0;
    }
    if kind == Semicolon && nest[0] == 0 && nest[1] == 0 {
        *nest = [0; 5];
    }
    for number in 0..rows {
        let (begin, end) = ENDS[number];
        if kind == begin {
            nest[number] = nest[number].saturating_add(1);
        } else if kind == end {
            nest[number] = nest[number].saturating_sub(1);
        }
    }
}

/// The kinds of tokens that are in no brackets.
const UNBRACKETED: [Kind; 7] = [OpenBrace, CloseBrace, Then, Do, Else, In, Var];

/// The number of the first token outside braces that ends what began before these tokens, if it is
/// near and no token of the kinds in `stops` comes before it.
fn lone_end(list: &[Token<'_>], begin: Kind, end: Kind, stops: &[Kind]) -> Option<usize> {
    let mut braces = 0usize;
    let mut open = 0usize;
    for (number, token) in list.iter().enumerate().take(MAX_PASSED) {
        match token.kind {
            kind if stops.contains(&kind) => return None,
            OpenBrace => braces = braces.saturating_add(1),
            CloseBrace if braces == 0 => return None,
            CloseBrace => braces = braces.saturating_sub(1),
            _ if braces != 0 => {}
            kind if kind == begin => open = open.saturating_add(1),
            kind if kind == end && open == 0 => return Some(number),
            kind if kind == end => open = open.saturating_sub(1),
            _ => {}
        }
    }
    None
}

/// A repair at a fault. A text is put in at a beginning before the fault; the tokens from there up
/// to the fault come after it or are left out, and so many tokens after the fault are left out too.
/// Then the first fault is so many tokens after this one at the earliest.
#[derive(Clone, Copy)]
pub(crate) struct Choice {
    pub(crate) start: Start,
    pub(crate) put: &'static str,
    pub(crate) is_before: bool,
    pub(crate) stop: usize,
    /// Whether a declaration that is out of place is left out.
    pub(crate) is_misplaced: bool,
    reached: usize,
}

/// The repair with a text in place of the tokens from a beginning up to one after the fault.
fn replacing(start: Start, stop: usize, put: &'static str) -> Choice {
    Choice {
        start,
        put,
        is_before: false,
        stop,
        is_misplaced: false,
        reached: 0,
    }
}

/// An attempt, which fails only if memory runs out.
type Tried = Result<(), AllocError>;

/// A search: it ends with the first repair with which reading goes on up to a landmark and over it.
/// `open` has what was read up to the fault, and `rest` the tokens from it on.
#[derive(Drop)]
struct Search<'s, 'a> {
    alloc: Global,
    rest: &'s [Token<'a>],
    open: &'s Open<'a>,
    left: usize,
    best: Option<Choice>,
    is_found: bool,
    /// How many landmarks are read after a repair.
    landmarks: usize,
}

impl Search<'_, '_> {
    /// How many tokens after the fault the first fault is with a repair, if the tokens up to this
    /// number come after what is kept; none if it is before them.
    fn reached(&mut self, choice: Choice, end: usize) -> Result<Option<usize>, AllocError> {
        let kept = self.open.kept.as_slice();
        let mut made = Vec::new(self.alloc);
        put_numbered(&mut made, kept.get(..choice.start.kept).unwrap_or(&[]))?;
        put_numbered(&mut made, &tokens_of(self.alloc, choice.put.as_bytes())?)?;
        if choice.is_before {
            put_numbered(&mut made, kept.get(choice.start.kept..).unwrap_or(&[]))?;
        }
        let before = made.len();
        put_numbered(&mut made, self.rest.get(choice.stop..end).unwrap_or(&[]))?;
        self.left = self.left.saturating_sub(made.len().saturating_add(TRIAL));
        match read(self.alloc, &made)? {
            Reading::Whole => Ok(Some(end)),
            Reading::Unexpected(place) if before <= place => {
                Ok(Some(place.saturating_sub(before).saturating_add(choice.stop)))
            }
            _ => Ok(None),
        }
    }

    /// Tries a repair. It is kept if it is enough, or the first one that reaches so far.
    fn attempt(&mut self, choice: Choice) -> Tried {
        if self.is_found || self.left == 0 || self.rest.len() < choice.stop {
            return Ok(());
        }
        // The text that is read ends after the next landmarks, and after a `var` that follows them
        // where declarations may come.
        let last = self.rest.len().min(choice.stop.saturating_add(MAX_AHEAD));
        let near = self.rest.get(..last).unwrap_or(self.rest);
        let mut end = choice.stop;
        for _landmark in 0..self.landmarks {
            end = landmark_from(near, end).saturating_add(1);
        }
        let is_var = near.get(end).is_some_and(|token| token.kind == Var);
        let is_at_head = self.open.outer.is_empty() && self.open.now.item.kept == 0;
        end = if is_var && is_at_head {
            end.saturating_add(1)
        } else {
            end.min(last)
        };
        if let Some(reached) = self.reached(choice, end)? {
            let is_better = self.best.is_none_or(|best| best.reached < reached);
            self.is_found = end <= reached;
            if is_better || self.is_found {
                self.best = Some(Choice { reached, ..choice });
            }
        }
        Ok(())
    }

    /// Tries to put in a text at a beginning.
    fn attempt_before(&mut self, start: Start, put: &'static str) -> Tried {
        let mut choice = replacing(start, 0, put);
        choice.is_before = true;
        self.attempt(choice)
    }

    /// Tries to put each text in place of tokens. A token that begins a construct which ends with
    /// another one is left out only if reading goes on over two landmarks.
    fn try_texts(&mut self, here: Start, out: usize, texts: &[&'static str]) -> Tried {
        let left_out = self.rest.get(..out).unwrap_or(&[]);
        if self.landmarks <= 1 && left_out.iter().any(|token| OPENINGS.contains(&token.kind)) {
            return Ok(());
        }
        for put in texts {
            self.attempt(replacing(here, out, *put))?;
        }
        Ok(())
    }

    /// Tries repairs of one token.
    fn try_small(&mut self, here: Start) -> Tried {
        for (out, texts) in SMALL.as_slice() {
            self.try_texts(here, *out, *texts)?;
        }
        Ok(())
    }

    /// Tries repairs with which reading goes on over two landmarks: of one token, without the token
    /// before, and with the beginning of a construct.
    fn try_sure(&mut self, here: Start) -> Tried {
        self.landmarks = 2;
        if let Some(number) = lone_end(self.rest, Kind::Open, Kind::Close, &UNBRACKETED) {
            self.attempt(replacing(here, number, ""))?;
            self.attempt(replacing(here, number, "0"))?;
        }
        self.try_small(here)?;
        if let Some(kept) = here.kept.checked_sub(1) {
            let before = Start::new(here.place.saturating_sub(1), kept);
            self.attempt(replacing(before, 0, ""))?;
        }
        let start = self.open.now.command;
        self.attempt_before(start, "if")?;
        self.attempt_before(start, "while")?;
        self.landmarks = 1;
        Ok(())
    }

    /// Tries to go on at a landmark.
    fn try_landmark(&mut self, here: Start, number: usize, kind: Kind) -> Tried {
        for put in FILLINGS.as_slice() {
            self.attempt(replacing(here, number, *put))?;
        }
        let now = self.open.now;
        self.attempt(replacing(now.command, number, COMMAND))?;
        self.attempt(replacing(now.item, number, COMMAND))?;
        if kind == Kind::Semicolon {
            self.attempt(replacing(now.item, number.saturating_add(1), ""))?;
        }
        Ok(())
    }

    /// Leaves out a declaration that begins where only a command, or a `;` and a command, may come.
    fn leave_declaration(&mut self, here: Start) -> Tried {
        let rest = self.rest;
        for (number, kind) in DECLARED.iter().enumerate() {
            if rest.get(number).is_none_or(|token| token.kind != *kind) {
                return Ok(());
            }
        }
        let is_followed = rest.get(DECLARATION).is_some_and(|next| {
            matches!(next.kind, Name | If | While | Letvar | OpenBrace | Var)
        });
        let mut choice = replacing(here, DECLARATION, ";");
        choice.is_misplaced = true;
        let is_begun = self.open.now.item.place == here.place;
        let is_ended = !is_begun && self.reached(choice, DECLARATION)?.is_some();
        choice.put = match (is_begun, is_followed) {
            (true, false) => COMMAND,
            (false, true) => ";",
            _ => "",
        };
        if is_begun || is_ended && !self.open.is_declaration() {
            self.best = Some(choice);
            self.is_found = true;
        }
        Ok(())
    }

    /// Tries all repairs of the fault.
    fn run(&mut self, here: Start) -> Tried {
        let Some(token) = self.rest.first() else {
            for put in ENDINGS.as_slice() {
                if self.best.is_none() {
                    self.attempt(replacing(here, 0, *put))?;
                }
            }
            return Ok(());
        };
        self.leave_declaration(here)?;
        let item = self.open.now.item;
        let is_named = item.place.saturating_add(1) == here.place && self.open.outer.is_empty();
        if token.kind == Kind::Colon && is_named {
            self.attempt_before(item, "var")?;
        }
        if let Some(number) = lone_end(self.rest, Kind::If, Kind::Else, &[]) {
            self.attempt(replacing(here, number, ""))?;
        }
        self.try_sure(here)?;
        self.try_small(here)?;
        let mut nest = [0; 5];
        let rest = self.rest;
        for (number, token) in rest.iter().enumerate().take(MAX_SKIPPED) {
            if self.is_found {
                return Ok(());
            }
            if serves(nest, token.kind) {
                self.try_landmark(here, number, token.kind)?;
            }
            note(&mut nest, token.kind);
        }
        if rest.len() <= MAX_SKIPPED {
            self.try_landmark(here, rest.len(), Kind::Name)?;
        }
        Ok(())
    }
}

/// The repair of the fault at the first of these tokens, if one is found. `open` has what was read
/// before them, `place` counts the tokens before them, and at most `left` tokens are read; those
/// that are left then are the second part of the answer.
pub(crate) fn repair_of<'a>(
    alloc: Global,
    open: &Open<'a>,
    place: usize,
    rest: &[Token<'a>],
    left: usize,
) -> Result<(Option<Choice>, usize), AllocError> {
    let mut search = Search {
        alloc,
        rest,
        open,
        left,
        best: None,
        is_found: false,
        landmarks: 1,
    };
    let kept = open.kept.len();
    search.run(Start { place, kept })?;
    Ok((search.best, search.left))
}
