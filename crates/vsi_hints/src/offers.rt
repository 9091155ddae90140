//! The hint for a construct of another language: a text that may replace it, or what to do.

ghost use Rattle.std.specs.Prelude.{◌≡◌, ◌++◌, ℕ, IfOk, IfSome, List, codes, true};
ghost use Rattle.vsi_syntax.specs.{ProgramView.{whole}, CommandView.{body_of, command}, Tree.{Assign, Done, Named, Then, Tree}};
ghost use Rattle.vsi_hints.specs.{Hints.{IsRead, OffersRead}, Offered.{IsExpression, IsProgramText, IsTreeOf, assigning}};

use crate::drafts::{Found, Hint, LONGEST, Reason, Shape, say, text_of};
use crate::expression::operator_text;
use crate::scan::{Scan, is_one_of};
use std::alloc::{AllocError, Global};
use vsi_syntax::{LexError, ParseError, Program, Stmt, lex, parse};

/// Names or signs with blanks between them, and the two parts of a sentence around one of them.
pub(crate) type Saying = (&'static [u8], &'static str, &'static str);

/// The beginning of most sentences.
pub(crate) const NONE: &str = "there is no ";

/// Names that call something. Each line has the names, and below them what comes before the name in
/// the sentence, if that isn't `NONE`, and what comes after it.
pub(crate) static CALLS: [&str; 9] = [
    "declassify endorse reveal release sanitize\n: nothing makes a secret public, so compute \
    what you publish from public variables alone, as in `l := l + 1`.",
    "input raw_input read readln readline scanf gets getchar cin argv\n: declare `var x : L;` \
    and give `x` its value in the store, with a line `x = 5`.",
    "print printf println puts echo write writeln cout putchar log console display show\n: \
    assign what you want to see to a global, as in `y := x`, since a run ends by printing its \
    globals.",
    "abs fabs\n: write `if x < 0 then y := 0 - x else y := x`.",
    "max\n: write `if a < b then m := b else m := a`.",
    "min\n: write `if a < b then m := a else m := b`.",
    "random rand randint time\n: give a global its value in the store, with a line `x = 5`, \
    since a run computes the same each time.",
    "sqrt isqrt\n: search for the root, as in `letvar r := 0 in { while r * r < x do r := r + 1; \
    y := r }`.",
    "int float str bool\n: each variable holds a whole number, so write the number itself, as in \
    `x := 5`.",
];

/// Names that begin or end commands, in the same form.
pub(crate) static COMMANDS: [&str; 12] = [
    "def fn func function fun void proc procedure sub\nyou can't define a function with \n: \
    write its commands where you need them, as in `x := x + 1`.",
    "return yield\n: assign the result to a global, as in `y := x`.",
    "break continue exit goto quit stop halt\n: end a loop with its guard, as in `while (x < 9) \
    * (found = 0) do x := x + 1`.",
    "end endif fi done od endwhile endfor wend next esac END\nremove \n: a branch or a loop is \
    one command, and { } make one of several, as in `{ x := 1; y := 2 }`.",
    "for foreach FOR\n: count with `letvar i := a in while i < b do { C; i := i + 1 }` for the body \
    C and each `i` from a to b - 1.",
    "repeat until loop\n: write the body before the loop too, as in `{ C; while (E) = 0 do { C } }` \
    for the body C, until E holds.",
    "switch case match when select default\n: choose with `if x = 1 then y := 1 else if x = 2 \
    then y := 2 else y := 3`.",
    "try catch except finally throw raise assert\n: nothing fails in a run, so test first, as in \
    `if x < 9 then y := x else y := 9`.",
    "import include using from package module require extern\n: a program is one text and uses \
    no other, as in `var x : L; x := 1`.",
    "class struct record object new enum typedef\n: declare a variable for each field, as in \
    `var p_x : L; var p_y : L;`.",
    "unless\n: write `if x = 0 then y := 1 else y := 2`.",
    "assume require ensure invariant\n: a program has commands and no claims about them, as in \
    `x := x + 1`.",
];

/// The signs between or before operands, in the same form.
pub(crate) static SIGNS: [&str; 15] = [
    "<< <<=\n: double the value for each place, as in `x := x * 2`.",
    ">> >>= >>> >>>=\n: halve the value for each place, as `while 1 < r do { r := r - 2; q := q \
    + 1 }` does if r isn't negative.",
    "|= &= ^=\n: write the new value after `:=`, as in `x := 0 < x + y` where both are 0 or 1.",
    "/ // div DIV /= //=\n: count how often you can subtract, as `while 1 < r do { r := r - 2; q \
    := q + 1 }` does for half of r, if r isn't negative.",
    "% mod MOD %=\n: subtract as often as you can, as `while 1 < r do r := r - 2` does for the \
    remainder by 2, if r isn't negative.",
    "?\n: choose with `if a < b then x := a else x := b`.",
    "[ ]\n: each variable holds one number, so declare one for each element, as in `var x_0 : L; \
    var x_1 : L;`.",
    ". -> =>\n: each variable is one number with a name of its own, such as `p_x`.",
    "$ @\nremove \n: a name has only letters, digits and `_`, as in `x_1`.",
    "\\\nremove \n: a command may continue on the next line.",
    "~\n: write `0 - 1 - x` for the number with each bit of `x` inverted.",
    "**= **\n: multiply, as in `x * x`.",
    "^\n: multiply for a power, as in `x * x`; write `1 - (a = b)` for the exclusive or of two \
    values that are 0 or 1.",
    "xor XOR\n: write `1 - (a = b)` where both are 0 or 1.",
    "++ --\n: a command assigns with `:=` only, as in `x := x + 1`.",
];

/// A sign between numbers whose bits it joins.
pub(crate) const BITS: Saying = (
    b"& |",
    NONE,
    ": a number has no bits here. What `while 1 < r do r := r - 2` leaves of an `r` that isn't \
    negative is its lowest bit; write `a * b` where both are 0 or 1, and `0 < a + b` where one is \
    enough.",
);

/// The sentence for a name or a sign in a table.
pub(crate) fn saying_in(sayings: &[&'static str], word: &[u8]) -> Option<Saying> {
    for saying in sayings {
        let saying: &'static str = *saying;
        let (words, rest) = saying.split_once("\n")?;
        if is_one_of(words.as_bytes(), word) {
            let (before, after) = rest.split_once("\n").unwrap_or((NONE, rest));
            return Some((words.as_bytes(), before, after));
        }
    }
    None
}

/// Characters outside of ASCII, each before the sign that it looks like.
const LIKE_SIGNS: &str = "\u{FF08}( \u{FF09}) \u{FF0A}* \u{FF0B}+ \u{FF0D}- \u{FF1A}: \u{2236}: \
    \u{FF1B}; \u{37E}; \u{FF1C}< \u{FF1D}= \u{FF5B}{ \u{FF5D}}";

/// The sign that a character outside of ASCII looks like, or else the same text.
pub(crate) fn narrow<'a>(text: &'a [u8]) -> &'a [u8] {
    let mut pairs = LIKE_SIGNS.as_bytes().split(|byte| *byte == b' ');
    let sign = pairs.find_map(|pair| pair.strip_prefix(text).filter(|sign| sign.len() == 1));
    sign.unwrap_or(text)
}

/// The sentence for a character outside of ASCII, if it is a common one.
pub(crate) fn character_saying(text: &[u8]) -> Option<&'static str> {
    let sentence = match text {
        [0xE2, 0x80, 0x90..=0x95] | [0xE2, 0x88, 0x92] => {
            "write `-` for this dash, as in `x - 1`: outside comments a text is ASCII."
        }
        [0xE2, 0x80, 0x98..=0x9F] => {
            "remove this typographic quote: each variable holds a whole number, as in `x := 1`."
        }
        [0xC2, 0xA0] | [0xE2, 0x80, 0x80..=0x8F] | [0xE2, 0x80, 0xAF] | [0xE3, 0x80, 0x80] => {
            "write an ordinary blank in place of this one, which is another character, as in \
            `x := 1`."
        }
        [0xE2, 0x89, 0xA4] => "write `1 - (b < a)` where `a` should be at most `b`.",
        [0xE2, 0x89, 0xA5] => "write `1 - (a < b)` where `a` should be at least `b`.",
        [0xE2, 0x89, 0xA0] => "write `1 - (a = b)` where `a` and `b` should differ.",
        [0xC3, 0x97] | [0xC2, 0xB7] => "write `*` for the product, as in `2 * x`.",
        _ => return None,
    };
    Some(sentence)
}

/// The program of a text, if it is one.
fn program_of<'a>(alloc: Global, text: &'a [u8]) -> Result<Option<Program<'a>>, AllocError>
    ensures { IfOk result (λ found. IfSome found (λ p. IsTreeOf text.now (whole p))) }
{
    let tokens = match lex(alloc, text) {
        Ok(tokens) => tokens,
        Err(LexError::Memory) => return Err(AllocError),
        Err(_) => return Ok(None),
    };
    match parse(alloc, &tokens) {
        Ok(program) => Ok(Some(program)),
        Err(ParseError::Memory) => Err(AllocError),
        Err(_) => Ok(None),
    }
}

/// Whether a text is a program.
fn is_program(alloc: Global, text: &[u8]) -> Result<bool, AllocError>
    ensures { IfOk result (λ is. is ≡ true → IsProgramText text.now) }
{
    match program_of(alloc, text)? {
        Some(_program) => Ok(true),
        None => Ok(false),
    }
}

/// Whether a command is an assignment.
fn is_assignment<'a>(written: &Stmt<'a>) -> bool
    ensures { result ≡ true → (name : Named) × ((value : Tree) × (command written.now
        ≡ Assign name value)) }
{
    let Stmt::Assign(_name, _value) = written else {
        return false;
    };
    true
}

/// Whether commands are one assignment.
fn is_one_assignment<'a>(body: &[Stmt<'a>]) -> bool
    ensures { result ≡ true → (name : Named) × ((value : Tree) × (body_of body.now
        ≡ Then (Assign name value) Done)) }
{
    let [only] = body else {
        return false;
    };
    is_assignment(only)
}

/// Whether a text is an expression.
fn is_expression(alloc: Global, text: &[u8]) -> Result<bool, AllocError>
    ensures { IfOk result (λ is. is ≡ true → IsExpression text.now) }
{
    let mut assignment = Vec::from_slice(alloc, b"x := ")?;
    assignment.extend_from_slice(text)?;
    match program_of(alloc, &assignment)? {
        Some(program) => Ok(program.globals().is_empty() && is_one_assignment(program.body())),
        None => Ok(false),
    }
}

/// Whether a text declares variables.
fn declares(alloc: Global, text: &[u8]) -> Result<bool, AllocError>
    ensures { IfOk result (λ is. is ≡ true → IsProgramText (text.now ++ codes "; x := 1")) }
{
    let mut program = Vec::from_slice(alloc, text)?;
    program.extend_from_slice(b"; x := 1")?;
    is_program(alloc, &program)
}

/// Whether a text is what it must be in this place, by the reader of the language.
fn is_read(alloc: Global, text: &[u8], shape: Shape) -> Result<bool, AllocError>
    ensures { IfOk result (λ is. is ≡ true → IsRead text.now) }
{
    match shape {
        Shape::Commands => Ok(is_program(alloc, text)?),
        Shape::Declarations => Ok(declares(alloc, text)?),
        _ => Ok(is_expression(alloc, text)?),
    }
}

/// The text that may replace pieces, if there is one.
pub(crate) fn offer(scan: &Scan, found: &Found) -> Result<Option<Vec<u8>>, AllocError>
    ensures { IfOk result (λ found. IfSome found (λ text. IsRead text.items)) }
{
    if found.letters.is_empty() {
        return Ok(None);
    }
    let Some(text) = text_of(scan, found)? else {
        return Ok(None);
    };
    let is_offered = text.len() <= LONGEST && is_read(scan.alloc, &text, found.shape)?;
    Ok(is_offered.then_some(text))
}

/// The sentence for a comment of several lines.
const BLOCK: &str = "begin each line of a comment with `#`, as in `# count`: it ends with its \
    line, and there is no `/*`.";

/// The hint for pieces for which no text is offered, if there is one.
fn fixed_hint<'s>(scan: &Scan<'s>, found: &Found, replaced: &'s [u8]) -> Option<Hint<'s>>
    ensures { IfSome result OffersRead }
{
    let text = scan.text(found.first);
    let (before, after) = (found.before, found.after);
    match found.shape {
        Shape::Say if before == "remove " => Some(Hint::Piece(before, replaced, after)),
        Shape::Say => Some(Hint::Piece(before, narrow(text), after)),
        Shape::Tell => Some(Hint::Plain(after)),
        Shape::Put => Some(Hint::Put(before, text, after)),
        Shape::Comment if text.starts_with(b"/*") => Some(Hint::Plain(BLOCK)),
        Shape::Comment => {
            let rest = ": a comment ends with its line, as in `# count`.";
            Some(Hint::Put("#", &text[..text.len().min(2)], rest))
        }
        Shape::Value => match scan.text(found.value) {
            [b'<' | b'='] => Some(Hint::Plain(
                "put ( ) around one of these comparisons, as in `(x < 5) = 1`: a comparison has \
                two sides.",
            )),
            [b'-'] => Some(Hint::Plain("write `0 - x` for `-x`: a number has no sign before it.")),
            sign => Some(Hint::Operator(operator_text(sign)?, sign)),
        },
        _ if before.is_empty() => None,
        _ => Some(Hint::Plain(before)),
    }
}

/// The hint for pieces, if there is one.
pub(crate) fn hint_of<'s>(scan: &Scan<'s>, found: &Found) -> Result<Option<Hint<'s>>, AllocError>
    ensures { IfOk result (λ hint. IfSome hint OffersRead) }
{
    let source = scan.source;
    let stop = scan.stop(found.next.saturating_sub(1)).min(source.len());
    let replaced = &source[scan.piece(found.first).at.min(stop)..stop];
    // Only these bytes can be shown between back quotes in a line.
    let is_shown = |byte: &u8| matches!(*byte, 32..=126) && *byte != b'`';
    if replaced.len() <= LONGEST && replaced.iter().all(is_shown) {
        if let Some(text) = offer(scan, found)? {
            let reason = match scan.text(found.value) {
                _ if found.shape != Shape::Value => Reason::Rule(found.after),
                [b'-'] => Reason::Rule(": a number has no sign before it."),
                [b'<'] | [b'='] => Reason::Rule(": a comparison has two sides."),
                sign => Reason::Lacking(sign),
            };
            return Ok(Some(Hint::Offer(text, replaced, reason)));
        }
    }
    Ok(fixed_hint(scan, found, replaced))
}
