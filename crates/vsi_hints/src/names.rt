//! The constructs of other languages that begin with a name, and declarations.

use crate::drafts::{Found, Letters, Shape, say, shaped, valued};
use crate::expression::{FALSE, TRUE, is_operator};
use crate::offers::{CALLS, COMMANDS, NONE, SIGNS, Saying, saying_in};
use crate::scan::{KEYWORDS, Scan, Sort, after, is_one_of};
use crate::structure::{LOCAL, unwritten};

/// Names that declare a variable.
pub(crate) const TYPES: &[u8] =
    b"let const local auto int long unsigned float double bool boolean char \
    string val mut static global integer short dim";

/// Names that do nothing.
const IDLE: &[u8] = b"skip pass nop noop nothing SKIP";

/// The end of a sentence on declarations.
const ONE_EACH: &str = " declares one variable with its class, as in `var x : L; var y : L;`.";

/// A declaration with a value.
const INITIAL: Letters = (
    b"var A : C",
    ": a global gets its value from the store.",
    "declare a global without a value.",
);

/// A declaration of several names by one word.
const LISTED: Letters = (
    b"L",
    ": each `var` declares one variable.",
    "declare each variable on its own.",
);

/// A name with a `-` in it.
const HYPHEN: Letters = (b"N_P", ": a name has only letters, digits and `_`.", "");

/// A keyword in the position of a declared name.
const KEYWORD: Letters = (b"N_1", ": a keyword can't be a name.", "");

/// A name that declares a variable, or does nothing.
fn declaring_word(scan: &Scan, at: usize) -> Option<Found> {
    let next = at.saturating_add(1);
    if !scan.is_command_start(at) || !scan.is_any(at, TYPES) {
        if scan.is_command_start(at) && scan.is_any(at, IDLE) {
            let rest = ": assign a variable to itself to do nothing, as in `x := x`.";
            return say(at, next, NONE, rest);
        }
        return None;
    }
    let (sign, stop) = local_value(scan, at);
    if scan.is_any(sign, b":= =") && scan.is(stop, b"in") {
        shaped(at, sign, Shape::Put, (b"", LOCAL, "letvar"))
    } else if scan.is_name(next) {
        let rest = ": begin the command that uses the variable with `letvar x := 1 in`, or declare \
            a global with `var x : L;` at the beginning, where L is a class of the lattice file, \
            and set its value in the store.";
        say(at, scan.command_stop(at), NONE, rest)
    } else {
        None
    }
}

/// A name that no declaration can have: one with a `-` in it, or a keyword in its position.
fn bad_name(scan: &Scan, at: usize) -> Option<Found> {
    if scan.is_any(at, KEYWORDS) {
        shaped(at, at.saturating_add(1), Shape::Expression, KEYWORD)
    } else if scan.is_hyphened(at) {
        shaped(at, at.saturating_add(3), Shape::Expression, HYPHEN)
    } else {
        None
    }
}

/// A declaration by `var` that isn't valid here: its name, its class or its `;` is missing.
pub(crate) fn declaration(scan: &Scan, at: usize) -> Option<Found> {
    let (name, sign, _, end, value) = after(at);
    let found = bad_name(scan, name);
    if found.is_some() {
        return found;
    }
    if scan.is(sign, b",") {
        let stop = scan.command_stop(at);
        if scan.is(stop, b":") {
            return shaped(at, stop.saturating_add(2), Shape::Declarations, LISTED);
        }
        return say(at, stop, "", ONE_EACH);
    }
    if scan.piece(sign).sort == Sort::Strange || scan.piece(end).sort == Sort::Strange {
        return None;
    }
    if !scan.is(sign, b":") {
        let rest = " declares a variable with a class and no value, as in `var x : L;`: set its \
            value in the store.";
        return say(at, scan.command_stop(sign), "", rest);
    }
    match scan.text(end) {
        [b'='] | [b':', b'='] => shaped(at, scan.value_stop(value), Shape::Declarations, INITIAL),
        [b';'] => None,
        [b','] => say(at, scan.command_stop(end), "", ONE_EACH),
        _ => {
            let rest = " needs a `;` after the class, as in `var x : L;`.";
            say(at, end, "a declaration with ", rest)
        }
    }
}

/// The sign that assigns in a declaration by `letvar`, and the piece after the value.
pub(crate) fn local_value(scan: &Scan, at: usize) -> (usize, usize) {
    let mut sign = at.saturating_add(2);
    if scan.is(sign, b":") {
        sign = sign.saturating_add(2);
    }
    (sign, scan.value_stop(sign.saturating_add(1)))
}

/// A declaration by `letvar` that isn't valid here.
pub(crate) fn local(scan: &Scan, at: usize) -> Option<Found> {
    let name = at.saturating_add(1);
    let (sign, _) = local_value(scan, at);
    if scan.is_any(name, KEYWORDS) {
        bad_name(scan, name)
    } else if scan.is(sign, b"=") {
        let rest = ": `=` compares, as in `letvar y := x + 1 in z := y`.";
        shaped(sign, sign.saturating_add(1), Shape::Put, (b"", rest, ":="))
    } else {
        None
    }
}

/// Names for an `if` in an `else`.
pub(crate) const ELSE_IF: &[u8] = b"elif elsif elseif";

/// The signs that assign, or declare, after a name.
const ASSIGNING: &[u8] = b":= = : , += -= *= /= %= ++ -- |= &= ^= <<= >>=";

/// The end of a sentence on names of values.
const WHOLE: &str = ": each variable holds a whole number.";

/// Names that another text replaces: the names, the text, and the end of the sentence.
static REPLACED: [(&[u8], &str, &str); 5] = [
    (ELSE_IF, "else if", "."),
    (
        b"begin BEGIN",
        "{",
        ": { } hold several commands, as in `{ x := 1; y := 2 }`.",
    ),
    (TRUE, "1", WHOLE),
    (FALSE, "0", WHOLE),
    (b"null None nil NULL undefined", "0", WHOLE),
];

/// The commands that compute a quotient.
const QUOTIENT: &[u8] =
    b"letvar R := U in letvar T := 0 in { while M < R do { R := R - Z; T := T + 1 }; N := T }";

/// The commands that compute a remainder.
const REMAINDER: &[u8] = b"letvar R := U in { while M < R do R := R - Z; N := R }";

/// The rule for a command that assigns to several variables.
const ONE_VARIABLE: &str = ": a command assigns to one variable.";

/// Two values that are assigned to two names at once.
const SWAP: Letters = (
    b"letvar K := V in { P := W; N := K }",
    ONE_VARIABLE,
    "assign to one variable at a time, as in `letvar t := x in { x := y; y := t }`.",
);

/// The rule for other signs than `:=`.
pub(crate) const ONE_SIGN: &str = ": a command assigns with `:=` only.";

/// The advice on such a sign.
const ASSIGN: &str = "assign with `:=`, as in `x := x + 1`.";

/// The rule for a sign that compares.
const COMPARES: &str = ": `:=` assigns, and `=` compares.";

/// The advice on such a sign that compares.
const WRITE: &str = "write `:=` to assign, as in `x := 1`.";

/// The signs that assign after a name in other languages, and the commands to offer.
static ASSIGNMENTS: [(&[u8], Letters); 9] = [
    (b"=", (b"N := V", COMPARES, WRITE)),
    (b"==", (b"N := V", COMPARES, WRITE)),
    (b"< -", (b"N := V", COMPARES, WRITE)),
    (b": =", (b"N := V", COMPARES, WRITE)),
    (b"+=", (b"N := N + X", ONE_SIGN, ASSIGN)),
    (b"-=", (b"N := N - X", ONE_SIGN, ASSIGN)),
    (b"*=", (b"N := N * Y", ONE_SIGN, ASSIGN)),
    (b"++", (b"N := N + 1", ONE_SIGN, "")),
    (b"--", (b"N := N - 1", ONE_SIGN, "")),
];

/// The piece after the arguments of a call that begin with a piece, or after a command.
fn call_stop(scan: &Scan, at: usize) -> usize {
    let next = at.saturating_add(1);
    if scan.is(next, b"(") {
        scan.after_closing(next)
    } else {
        scan.command_stop(at)
    }
}

/// The sentence for a call of a function of the text.
const CALL: Saying = (
    b"",
    NONE,
    ": you can't call functions, so write its commands in its place, as in `y := x * x`.",
);

/// A call, whose name is the piece with this number.
fn call(scan: &Scan, at: usize) -> Option<Found> {
    let next = at.saturating_add(1);
    let has_bracket = scan.is(next, b"(");
    let (_, before, after) = match saying_in(&CALLS, scan.text(at)) {
        Some(saying) if has_bracket || scan.is_command_start(at) => saying,
        _ if has_bracket && scan.touches(next) => CALL,
        _ => return None,
    };
    say(at, call_stop(scan, at), before, after)
}

/// The construct that a name begins, unless it is a command that assigns.
fn word(scan: &Scan, at: usize) -> Option<Found> {
    let text = scan.text(at);
    let next = at.saturating_add(1);
    let is_declared = scan.is_declared(text);
    if is_declared && scan.is(next, b"(") && scan.touches(next) {
        return call(scan, at);
    }
    if is_declared || scan.is_any(next, ASSIGNING) || is_operator(text) {
        return None;
    }
    for (words, new, rest) in REPLACED.as_slice() {
        if is_one_of(*words, text) {
            return shaped(at, next, Shape::Put, (b"", *rest, *new));
        }
    }
    let found = declaring_word(scan, at);
    let is_placed = scan.is_after_operand(at) || scan.is_command_start(at);
    match saying_in(&COMMANDS, text) {
        _ if found.is_some() => found,
        Some((words, before, after)) if is_placed => {
            let is_ended = scan.is(next, b".")
                || scan.is_any(next, KEYWORDS) && !scan.piece(next).is_first;
            let stop = match words {
                [b'e', b'n', b'd', ..] if is_ended => next.saturating_add(1),
                [b'e', b'n', b'd', ..] | [b'r', b'e', b'p', ..] => next,
                [b's', b'w', ..] | [b't', b'r', b'y', ..] => next,
                _ => call_stop(scan, at),
            };
            say(at, stop, before, after)
        }
        _ => call(scan, at),
    }
}

/// Commands in place of pieces with a value up to a piece; in place of those before the value, if it
/// has an operator without a translation or a call.
fn rewriting(scan: &Scan, at: usize, value: usize, stop: usize, letters: Letters) -> Option<Found> {
    let is_beyond = |place: usize| {
        saying_in(&SIGNS, scan.text(place)).is_some()
            || unwritten(scan, place).is_some()
            || scan.is(place.saturating_add(1), b"(") && scan.is_name(place)
    };
    let stop = if (value..stop).any(is_beyond) {
        value
    } else {
        stop
    };
    valued((at, value, stop), Shape::Commands, letters)
}

/// An operand that is divided by another one, by a command that assigns the result.
fn division(scan: &Scan, at: usize) -> Option<Found> {
    let (assign, first, second, last, _) = after(at);
    let (value, sign, divisor) = match scan.is_any(assign, b"%= /= //=") {
        true => (at, assign, first),
        false if scan.is_any(assign, b":= =") => (first, second, last),
        false => return None,
    };
    let next = divisor.saturating_add(1);
    if !scan.is_operand(value) || !scan.is_operand(divisor) || scan.value_stop(divisor) != next {
        return None;
    }
    let text = if scan.is_any(sign, b"% mod MOD %=") {
        REMAINDER
    } else if scan.is_any(sign, b"/ // div DIV /= //=") {
        QUOTIENT
    } else {
        return None;
    };
    let rule = if scan.is_name(divisor) {
        ": subtract as often as you can, if the dividend isn't negative and the divisor is above 0."
    } else {
        ": subtract as often as you can, if the dividend isn't negative."
    };
    let plain = "divide in a loop, as `while 1 < r do { r := r - 2; q := q + 1 }` does for half of \
        r, if r isn't negative.";
    valued((at, value, next), Shape::Commands, (text, rule, plain))
}

/// A command that assigns by another sign, or to several names, or declares.
fn assigned(scan: &Scan, at: usize) -> Option<Found> {
    let (sign, value, second, last, _) = after(at);
    if scan.is(sign, b",") {
        if !scan.is_name(value) || !scan.is_any(second, b"= :=") {
            return None;
        }
        return rewriting(scan, at, last, scan.command_stop(at), SWAP);
    }
    if scan.is(sign, b"<") && !scan.touches(value) {
        return None;
    }
    for (signs, letters) in ASSIGNMENTS.as_slice() {
        if scan.begins(sign, *signs) {
            let value = value.saturating_add(usize::from(signs.contains(&b' ')));
            if letters.2.is_empty() {
                return valued((at, value, value), Shape::Commands, *letters);
            }
            return rewriting(scan, at, value, scan.value_stop(value), *letters);
        }
    }
    if scan.is(sign, b":") && saying_in(&COMMANDS, scan.text(at)).is_none() {
        let rest = " with `var`, as in `var x : L;`, at the beginning of the text.";
        return say(at, scan.command_stop(sign), "declare ", rest);
    }
    None
}

/// The construct that a name begins.
pub(crate) fn named(scan: &Scan, at: usize) -> Option<Found> {
    let found = word(scan, at).or(bad_name(scan, at));
    if found.is_some() || !scan.is_command_start(at) {
        return found;
    }
    let (sign, second, other, value, end) = after(at);
    let is_chain = scan.is_any(sign, b":= =") && scan.is(other, scan.text(sign));
    if !is_chain || !scan.is_name(second) {
        return division(scan, at).or(assigned(scan, at));
    }
    // A value is assigned to two names by one command.
    let plain = "assign to one variable at a time, as in `y := 1; x := y`.";
    let next = scan.value_stop(value);
    if scan.is_any(next, b":= ,") || scan.is(end, b"=") {
        return shaped(at, next, Shape::Tell, (b"", plain, ""));
    }
    let text: &'static [u8] = if at == 0 || scan.is_after(at, b"; { }") {
        b"P := V; N := P"
    } else {
        b"{ P := V; N := P }"
    };
    rewriting(scan, at, value, next, (text, ONE_VARIABLE, plain))
}
