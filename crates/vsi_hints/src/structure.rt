//! Keywords and signs that are missing or superfluous, and constructs that begin with a sign.

use crate::drafts::{Found, LONGEST, Letters, Shape, say, shaped, valued};
use crate::expression::is_operator;
use crate::names::{ELSE_IF, ONE_SIGN, TYPES, local_value};
use crate::offers::{BITS, COMMANDS, NONE, SIGNS, Saying, character_saying, narrow, saying_in};
use crate::scan::{DECLARING, KEYWORDS, Scan, Sort, after, is_decimal, number_of};

/// The keywords with which an `if` goes on after its first branch.
const ELSE: &[u8] = b"else elif elsif elseif ELSE";

/// A `;` before a keyword or sign that ends something.
fn superfluous(scan: &Scan, at: usize) -> Option<Found> {
    let next = at.saturating_add(1);
    let is_last = next >= scan.pieces.len();
    let is_declared = 4 <= at && scan.is(at.saturating_sub(4), b"var");
    if scan.is(next, b"else") {
        let rest = " before `else`, as in `if x then y := 1 else y := 2`.";
        say(at, next, "remove the ", rest)
    } else if scan.is(next, b"}") || is_last && !is_declared {
        let rest = " after a last command: it separates two commands, as in `{ x := 1; y := 2 }`.";
        say(at, next, "remove the ", rest)
    } else {
        None
    }
}

/// Whether a piece seems to begin a command. The guard at the end of another language's loop is
/// followed by the end of the command.
fn is_command(scan: &Scan, at: usize) -> bool {
    let next = at.saturating_add(1);
    scan.is_any(at, b"if letvar")
        || scan.is(at, b"while") && scan.is_any(scan.value_stop(next), b"do {")
        || scan.is_name(at) && scan.is_any(next, b":= = += -= ++ --")
}

/// A command on a line of its own, after one that has no `;`.
fn unended(scan: &Scan, at: usize) -> Option<Found> {
    let before = at.checked_sub(1)?;
    if !scan.piece(at).is_first
        || !scan.ends_operand(before)
        || !is_command(scan, at)
        || saying_in(&COMMANDS, scan.text(before)).is_some()
    {
        return None;
    }
    // No command has ended if its line begins with a keyword that takes a guard or a branch.
    let line = (0..at).rev().find(|place| scan.piece(*place).is_first);
    if line.is_some_and(|at| scan.is_any(at, b"if while }") || scan.is_any(at, ELSE)) {
        return None;
    }
    let (next, before) = (at.saturating_add(1), "end the command before this ");
    let rest = " with a `;`: it separates two commands, as in `x := 1; y := 2`.";
    say(at, next, before, rest)
}

/// The piece at which the branch that begins at a piece has ended, if that is clear.
fn branch_stop(scan: &Scan, at: usize) -> Option<usize> {
    if scan.is(at, b"{") {
        let stop = scan.closing(at.saturating_add(1), b"{", b"}");
        scan.is(stop, b"}").then_some(stop.saturating_add(1))
    } else if is_command(scan, at) && !scan.is_any(at, KEYWORDS) {
        Some(scan.value_stop(at.saturating_add(2)))
    } else {
        None
    }
}

/// An `if` after a value that is assigned, as other languages choose between two values.
fn conditional(scan: &Scan, at: usize) -> Option<Found> {
    let (before, next) = (at.checked_sub(1)?, at.saturating_add(1));
    let is_later = scan.ends_operand(before)
        && !scan.piece(at).is_first
        && scan.is_after(scan.value_start(before), b"= :=")
        && scan.is(scan.value_stop(next), b"else");
    if !scan.is(at, b"if") || !is_later && !scan.is_any(before, b"= :=") {
        return None;
    }
    let rest = " in an expression: choose with `if a < b then x := a else x := b`.";
    say(at, next, NONE, rest)
}

/// The pieces of the guard and of the two values of a choice, each up to a piece.
type Choice = ((usize, usize), (usize, usize), (usize, usize));

/// The parts of a choice between two values that a command assigns.
pub(crate) fn choice_at(scan: &Scan, at: usize) -> Option<Choice> {
    let (sign, value, ..) = after(at);
    if !scan.is_any(sign, b":= =") {
        return None;
    }
    let part = |start: usize| (start, scan.value_stop(start));
    let is_leading = scan.is(value, b"if");
    let first = part(value.saturating_add(usize::from(is_leading)));
    let second = part(first.1.saturating_add(1));
    let third = part(second.1.saturating_add(1));
    if !scan.is_any(third.1, b"; } else") && !scan.piece(third.1).is_first {
        return None;
    }
    let are = |sign: &[u8], other: &[u8]| scan.is(first.1, sign) && scan.is(second.1, other);
    if is_leading && are(b"then", b"else") || are(b"?", b":") {
        Some((first, second, third))
    } else if are(b"if", b"else") {
        Some((second, first, third))
    } else {
        None
    }
}

/// A guard of a branch or of a loop without the keyword after it.
fn unguarded(scan: &Scan, at: usize) -> Option<Found> {
    let is_branch = scan.is(at, b"if");
    let stop = scan.value_stop(at.saturating_add(1));
    if scan.is(stop, b":") {
        let rest = " after a guard, as in `if x < 1 then y := 1 else while x < 9 do x := x + 1`.";
        let keyword = if is_branch { "then" } else { "do" };
        let next = stop.saturating_add(1);
        shaped(stop, next, Shape::Put, (b"", rest, keyword))
    } else if !scan.is(stop, b"{") && !is_command(scan, stop) {
        None
    } else if is_branch {
        let rest = ", as in `if x < 1 then { y := 1 } else y := 2`.";
        say(at, stop, "put `then` after the guard of this ", rest)
    } else {
        let rest = ", as in `while x < 9 do { x := x + 1 }`.";
        say(at, stop, "put `do` after the guard of this ", rest)
    }
}

/// A keyword or a sign that is missing or superfluous at a piece.
pub(crate) fn structure_at(scan: &Scan, at: usize) -> Option<Found> {
    if scan.is_after(at, DECLARING) {
        return None;
    }
    let next = at.saturating_add(1);
    match scan.text(at) {
        _ if conditional(scan, at).is_some() => None,
        [b'l', b'e', b't', b'v', b'a', b'r'] => {
            let (sign, stop) = local_value(scan, at);
            if !scan.is_any(sign, b":= =") || scan.is(stop, b"in") {
                return None;
            }
            let rest = ", and { } around the commands that use it, as in `letvar y := 1 in { x := \
                y; z := y }`.";
            say(at, stop, "put `in` after the value of this ", rest)
        }
        [b';'] => superfluous(scan, at),
        [b'}'] if is_command(scan, next) => {
            let rest = " before the next command, as in `{ x := 1 }; y := 2`.";
            say(at, next, "put a `;` after the ", rest)
        }
        [b'i', b'f'] | [b'w', b'h', b'i', b'l', b'e'] => unguarded(scan, at),
        [b'e', b'l', b's', b'e'] if scan.is(next, b":") => {
            let rest = " without a `:` after it, as in `if x < 1 then y := 1 else y := 2`.";
            say(at, at.saturating_add(2), "write ", rest)
        }
        _ => unended(scan, at),
    }
}

/// An `if` without an `else` at a piece.
pub(crate) fn halved_at(scan: &Scan, at: usize) -> Option<Found> {
    let is_if = scan.is(at, b"if") || scan.is_any(at, ELSE_IF);
    if !is_if || conditional(scan, at).is_some() {
        return None;
    }
    let guard = scan.value_stop(at.saturating_add(1));
    let branch = guard.saturating_add(usize::from(scan.is_any(guard, b"then :")));
    let stop = branch_stop(scan, branch)?;
    let is_single = !scan.is(stop, b";") || scan.is(stop.saturating_add(1), b"else");
    let goes_on = |at: &usize| scan.is_any(*at, b"else if { }");
    let late = (stop..scan.pieces.len()).find(goes_on);
    if !is_single && late.is_some_and(|at| scan.is(at, b"else")) {
        let before = "put { } around several commands in a branch of this ";
        let rest = ", as in `if x < 1 then { y := 1; z := 2 } else y := 2`.";
        return say(at, stop, before, rest);
    }
    let is_closed = scan.is(stop, b";") || scan.is(stop, b"}") && !scan.is(branch, b"{");
    if scan.is_any(stop.saturating_add(usize::from(is_closed)), ELSE) {
        return None;
    }
    let rest = " an `else`, which may do nothing, as in `if x < 1 then x := 1 else x := x`.";
    say(at, stop, "give this ", rest)
}

/// How a counting loop goes on after its counter, and how far from there its first number, its limit
/// and its body are. It counts from 0 if that is the first number.
type Counting = (&'static [u8], usize, usize, usize);

/// The counting loops of other languages.
static COUNTING: [Counting; 10] = [
    (b"? * to * do", 2, 4, 6),
    (b"? * to * {", 2, 4, 5),
    (b"in range ( * ) :", 0, 4, 7),
    (b"in range ( * ) {", 0, 4, 6),
    (b"in range ( * , * ) :", 4, 6, 9),
    (b"in range ( * , * ) {", 4, 6, 8),
    (b"? * ; * _ * ; * ++ )", 2, 6, 11),
    (b"? * ; * _ * ; ++ * )", 2, 6, 11),
    (b"? * ; * _ * ; * += 1 )", 2, 6, 12),
    (b"? * ; * _ * ; * ? * + 1 )", 2, 6, 14),
];

/// The reason for the commands of a loop that counts.
pub(crate) const COUNTED: &str = ": the only loop is `while`.";

/// The reason for the commands of a loop with its test after its body.
const TESTED: &str = ": a loop tests its guard first.";

/// The pieces of the counter, the first number, the limit and the body of a counting loop.
pub(crate) fn counting_at(scan: &Scan, start: usize) -> Option<(usize, usize, usize, usize)> {
    let mut counter = start.saturating_add(1);
    for _ in 0..2 {
        let is_before = scan.is_any(counter, b"( int let var");
        counter = counter.saturating_add(usize::from(is_before));
    }
    let after = |offset: usize| counter.saturating_add(offset);
    let form = COUNTING.iter().find(|form| scan.begins(after(1), form.0))?;
    Some((counter, after(form.1), after(form.2), after(form.3)))
}

/// A loop that counts, if its body assigns neither to the counter nor to the limit.
fn counting(scan: &Scan, start: usize) -> Option<Found> {
    let (counter, _, limit, body) = counting_at(scan, start)?;
    let next = branch_stop(scan, body)?;
    let differs = |at: usize| {
        let sign = at.saturating_add(1);
        let is_counter = scan.is(at, scan.text(counter));
        let is_other = at < body
            && !is_counter
            && (limit < at && scan.is_name(at) || scan.is_any(sign, b"< <="));
        let is_bound = is_counter || scan.is(at, scan.text(limit));
        is_other || at >= body && is_bound && scan.is(sign, b":=")
    };
    if (counter..next).any(differs) {
        return None;
    }
    let text: &'static [u8] = if scan.is_declared(scan.text(counter)) {
        b"{ I := F; while I < G do { B; I := I + 1 } }"
    } else {
        b"letvar I := F in while I < G do { B; I := I + 1 }"
    };
    valued((start, body, next), Shape::Commands, (text, COUNTED, ""))
}

/// The reason for a variable of the commands after it.
pub(crate) const LOCAL: &str = ": it declares a variable for one command.";

/// A declaration with a value, and the commands after it in its block.
fn locals(scan: &Scan, start: usize) -> Option<Found> {
    let (sign, stop) = local_value(scan, start);
    let is_begun = |at: usize| scan.is(at, b":=") && scan.is_assignment(at);
    if !scan.is_any(start, TYPES) && !(scan.is(start, b"var") && (0..start).any(is_begun))
        || !scan.is_any(sign, b":= =")
        || !scan.is(stop, b";")
    {
        return None;
    }
    let text: &'static [u8] = if scan.is(start.saturating_add(2), b":") {
        b"letvar A : C := V in { B }"
    } else {
        b"letvar A := V in { B }"
    };
    let (value, stop) = (sign.saturating_add(1), scan.closing(start, b"{", b"}"));
    valued((start, value, stop), Shape::Commands, (text, LOCAL, ""))
}

/// A choice between two values that a command assigns.
const CHOICE: Letters = (
    b"if J then N := H else N := S",
    ": commands choose, and not values.",
    "",
);

/// A loop with its test after its body.
fn tested(scan: &Scan, start: usize) -> Option<Found> {
    let (word, text): (&[u8], &'static [u8]) = if scan.is(start, b"do") {
        (b"while", b"{ B; while V do { B } }")
    } else {
        (b"until", b"{ B; while X = 0 do { B } }")
    };
    let value = (start..scan.pieces.len().saturating_add(1)).find(|value| {
        scan.is_after(*value, word) && !scan.is_any(scan.value_stop(*value), b"do {")
    })?;
    let pieces = (start, value, scan.value_stop(value));
    valued(pieces, Shape::Commands, (text, TESTED, ""))
}

/// A loop, a declaration or a choice of another language at a piece, if it is short and on one
/// line.
pub(crate) fn commands_at(scan: &Scan, start: usize) -> Option<Found> {
    let next = start.saturating_add(1);
    let found = if scan.is(start, b"for") {
        counting(scan, start)?
    } else if !scan.is_command_start(start) {
        return None;
    } else if scan.is_any(next, b":= =") {
        let (_, _, third) = choice_at(scan, start)?;
        shaped(start, third.1, Shape::Commands, CHOICE)?
    } else if scan.is_any(start, b"do repeat") {
        tested(scan, start)?
    } else {
        locals(scan, start)?
    };
    let longest = scan.piece(start).at.saturating_add(LONGEST);
    let is_far = |at: usize| scan.piece(at).is_first || scan.stop(at) > longest;
    (!(next..found.next).any(is_far)).then_some(found)
}

/// The signs and names that compare.
const COMPARING: &[u8] = b"= == === < > <= =< >= != !== <> ~= not !";

/// The sentence for a sign that joins bits, or a power whose exponent is no small number.
pub(crate) fn unwritten(scan: &Scan, at: usize) -> Option<Saying> {
    let has_exponent = matches!(scan.text(at.saturating_add(1)), [b'2'..=b'4']);
    if scan.is_any(at, b"^ **") && !has_exponent {
        return saying_in(&SIGNS, scan.text(at));
    }
    if !scan.is_any(at, b"& |") {
        return None;
    }
    // A sign joins bits if a number follows it, or nothing around it compares.
    let start = scan.value_start(at);
    let joins_bits = scan.piece(at.saturating_add(1)).sort == Sort::Number
        || !scan.has(start, scan.value_stop(start), COMPARING);
    joins_bits.then_some(BITS)
}

/// Whether a sign compares an operand that the sign before it has already compared.
fn is_chained(scan: &Scan, at: usize) -> bool {
    let mut open: usize = 0;
    for place in scan.value_start(at)..at {
        match scan.text(place) {
            [b'('] => open = open.saturating_add(1),
            [b')'] => open = open.saturating_sub(1),
            [b'<' | b'='] if open == 0 => return true,
            _ => {}
        }
    }
    false
}

/// A command that begins with a sign and counts by 1.
fn stepped(scan: &Scan, at: usize) -> Option<Found> {
    let (name, stop, ..) = after(at);
    let text: &'static [u8] = match scan.text(at) {
        [b'+', b'+'] => b"A := A + 1",
        [b'-', b'-'] => b"A := A - 1",
        _ => return None,
    };
    if !scan.is_command_start(at) || !scan.is_name(name) {
        return None;
    }
    shaped(at, stop, Shape::Commands, (text, ONE_SIGN, ""))
}

/// The value around a foreign operator, or the operator alone if that can't be rewritten.
fn operator(scan: &Scan, at: usize) -> Option<Found> {
    let next = at.saturating_add(1);
    if scan.is(at, b".") && scan.piece(next).sort == Sort::Number {
        let sentence = "numbers are whole, so count in a smaller unit, such as 50 cents for .50.";
        return shaped(at, next, Shape::Tell, (b"", sentence, ""));
    }
    if let Some((_, before, after)) = unwritten(scan, at) {
        return say(at, next, before, after);
    }
    // Whether the language lacks the operator in this position.
    let is_foreign = match scan.text(at) {
        [b'-'] => !scan.is_after_operand(at),
        [b'<' | b'='] => scan.is_after_operand(at) && is_chained(scan, at),
        text => is_operator(text) && !scan.is_any(at, b"+ *"),
    };
    if !is_foreign {
        let (_, before, after) = saying_in(&SIGNS, scan.text(at))?;
        return say(at, next, before, after);
    }
    let start = scan.value_start(at);
    let stop = scan.value_stop(start).max(next);
    // No expression replaces an operator without a translation, or a sign that is none.
    let is_unwritten = |place: usize| {
        let text = scan.text(place);
        saying_in(&SIGNS, text).is_some() && !is_operator(text) || unwritten(scan, place).is_some()
    };
    if (start..stop).any(is_unwritten) {
        shaped(at, next, Shape::Value, VALUE)
    } else {
        valued((start, at, stop), Shape::Value, VALUE)
    }
}

/// The expression around an operator.
const VALUE: Letters = (b"E", "", "");

/// A number in the digits of this language.
const DIGITS: Letters = (b"E", ": a number has only digits.", "");

/// A number that a command assigns to, or that the language writes differently or can't write.
fn number(scan: &Scan, at: usize) -> Option<Found> {
    let text = scan.text(at);
    let next = at.saturating_add(1);
    if scan.is_command_start(at) && scan.is_any(next, b":= =") {
        let rest = ": a name comes before the `:=`, as in `x := 1`.";
        return say(at, next, "you can't assign to ", rest);
    }
    if text.contains(&b'.') {
        let before = "numbers are whole, so count in a smaller unit than ";
        return say(at, next, before, ", such as 150 cents for 1.50.");
    }
    if is_decimal(text) || number_of(text).is_none() {
        return None;
    }
    shaped(at, next, Shape::Expression, DIGITS)
}

/// The construct that a sign, a number, a text, a comment or a `do` begins.
pub(crate) fn sign(scan: &Scan, at: usize) -> Option<Found> {
    let next = at.saturating_add(1);
    let text = scan.text(at);
    match scan.piece(at).sort {
        Sort::Comment => shaped(at, next, Shape::Comment, (b"", "", "")),
        Sort::Strange if narrow(text) == text => {
            shaped(at, next, Shape::Tell, (b"", character_saying(text)?, ""))
        }
        Sort::Strange if scan.is_assignment(at) && matches!(narrow(text), [b'=']) => {
            let sentence = "write `:=` for this character, which only looks like `=`.";
            shaped(at, next, Shape::Tell, (b"", sentence, ""))
        }
        Sort::Strange => {
            let rest = " for this character, which only looks like it: outside comments a text is \
                ASCII.";
            say(at, next, "write ", rest)
        }
        Sort::Word if scan.is(at, b"if") => conditional(scan, at),
        Sort::Word if scan.is(at, b"do") && scan.is_command_start(at) => {
            let rest = ": write the body before the loop too, as in `{ C; while E do { C } }` for \
                the body C and the guard E.";
            say(at, next, "no loop begins with ", rest)
        }
        // Three quotes begin a comment of a function.
        Sort::Quoted
            if text.len() == 2 && scan.piece(next).sort == Sort::Quoted && scan.touches(next) => {
            let sentence = "begin each line of a comment with `#`, as in `# count`.";
            shaped(at, at.saturating_add(3), Shape::Tell, (b"", sentence, ""))
        }
        Sort::Quoted => {
            let rest = ": each variable holds a whole number, as in `x := 1`.";
            say(at, next, "there are no strings such as ", rest)
        }
        Sort::Number => number(scan, at),
        _ => stepped(scan, at).or(operator(scan, at)),
    }
}
