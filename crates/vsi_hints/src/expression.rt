//! An expression of another language, written in this one while it is read from the left, and the
//! translations of its operators.

use crate::drafts::LONGEST;
use crate::scan::{Piece, Sort, is_decimal, is_one_of, number_of};
use std::alloc::{AllocError, Global};
use vsi_syntax::put_number;

/// The translation of an operator: a text with its operands in the places of P and Q, its own
/// level, and the levels that its operands must have. The levels are 0 for a comparison, 1 for a
/// sum, 2 for a product, and 3 for a name, a number or brackets.
type Pattern = (&'static [u8], u8, u8, u8);

/// An operator: its signs, how strongly it binds, and its translation.
type Form = (&'static [u8], u8, Pattern);

/// How strongly `or` binds.
const OR: u8 = 1;

/// How strongly `and` binds.
const AND: u8 = 2;

/// How strongly `not` binds.
const NOT: u8 = 3;

/// How strongly a comparison binds.
const COMPARISON: u8 = 4;

/// How strongly a sign before a number binds.
const NEGATIVE: u8 = 7;

/// How strongly a power binds.
const POWER: u8 = 8;

/// An open bracket, which joins nothing.
const OPEN: Form = (b"(", 0, (b"", 0, 0, 0));

/// The translation of `and` between operands that are 0 or 1.
const BOTH: Pattern = (b"P * Q", 2, 2, 3);

/// Whether a number isn't 0.
const TRUTH: Pattern = (b"1 - (P = 0)", 1, 1, 1);

/// The operators between two operands.
static BETWEEN: [Form; 12] = [
    (b"or OR || |", OR, (b"1 - (P = 0) * (Q = 0)", 1, 1, 1)),
    (b"and AND && &", AND, BOTH),
    (b"= == ===", COMPARISON, (b"P = Q", 0, 1, 1)),
    (b"<", COMPARISON, (b"P < Q", 0, 1, 1)),
    (b">", COMPARISON, (b"Q < P", 0, 1, 1)),
    (b"<= =<", COMPARISON, (b"1 - (Q < P)", 1, 1, 1)),
    (b">=", COMPARISON, (b"1 - (P < Q)", 1, 1, 1)),
    (b"!= !== <> ~=", COMPARISON, (b"1 - (P = Q)", 1, 1, 1)),
    (b"+", 5, (b"P + Q", 1, 1, 2)),
    (b"-", 5, (b"P - Q", 1, 1, 2)),
    (b"*", 6, BOTH),
    (b"** ^", POWER, (b"P * P", 2, 3, 3)),
];

/// The operators before one operand.
static BEFORE: [Form; 2] = [
    (b"not NOT !", NOT, (b"P = 0", 0, 1, 1)),
    (b"-", NEGATIVE, (b"0 - P", 1, 2, 2)),
];

/// The operator with a sign in a table.
fn form_in(forms: &[Form], sign: &[u8]) -> Option<Form> {
    forms.iter().find(|form| is_one_of(form.0, sign)).copied()
}

/// Whether a sign or a name is an operator of this language or another one.
pub(crate) fn is_operator(sign: &[u8]) -> bool {
    form_in(&BETWEEN, sign).is_some() || form_in(&BEFORE, sign).is_some()
}

/// The translation of an operator, if it has one. The flag says whether its operands are always 0
/// or 1, and `exponent` is the last operand, if it is a number.
fn pattern_of(form: Form, are_truths: bool, exponent: Option<u64>) -> Option<Pattern> {
    match form.1 {
        OR if are_truths => Some((b"0 < P + Q", 0, 1, 2)),
        NOT if are_truths => Some((b"1 - P", 1, 2, 2)),
        POWER if exponent == Some(3) => Some((b"P * P * P", 2, 3, 3)),
        POWER if exponent == Some(4) => Some((b"P * P * P * P", 2, 3, 3)),
        POWER if exponent != Some(2) => None,
        _ => Some(form.2),
    }
}

/// The translation of the operator with this sign between P and Q, of which each is 0 or 1.
pub(crate) fn operator_text(sign: &[u8]) -> Option<&'static [u8]> {
    let (text, ..) = pattern_of(form_in(&BETWEEN, sign)?, true, Some(2))?;
    Some(text)
}

/// The keywords that are no operands.
pub(crate) const NO_OPERANDS: &[u8] =
    b"var letvar in if then else while do and or not mod div AND OR NOT MOD DIV is xor";

/// The names that mean 1.
pub(crate) const TRUE: &[u8] = b"true True TRUE";

/// The names that mean 0.
pub(crate) const FALSE: &[u8] = b"false False FALSE";

/// A text and its level, as in a `Pattern`.
#[derive(Drop)]
struct Part {
    text: Vec<u8>,
    level: u8,
}

/// An operand that was read.
#[derive(Drop)]
struct Operand {
    part: Part,
    /// Whether it is always 0 or 1.
    is_truth: bool,
    /// Its value, if it is a number.
    value: Option<u64>,
    /// The translation of its sign, if it is a comparison without brackets around it.
    compared: &'static [u8],
    /// Its last operand, if it is a comparison.
    last: Part,
}

/// Adds a part in brackets if its level is below this one.
fn put_part(words: &mut Vec<u8>, part: &Part, level: u8) -> Result<(), AllocError> {
    if part.level >= level {
        return words.extend_from_slice(&part.text);
    }
    words.push(b'(')?;
    words.extend_from_slice(&part.text)?;
    words.extend_from_slice(b")")
}

/// An operator between two parts.
fn joined(pattern: Pattern, left: &Part, right: &Part) -> Result<Part, AllocError> {
    let (form, level, left_level, right_level) = pattern;
    let mut text = Vec::new(*left.text.allocator());
    for byte in form {
        match *byte {
            b'P' => put_part(&mut text, left, left_level)?,
            b'Q' => put_part(&mut text, right, right_level)?,
            other => text.push(other)?,
        }
    }
    Ok(Part { text, level })
}

impl Operand {
    /// Its truth: 1 if it isn't 0, and 0 otherwise.
    fn truth(&self) -> Result<Part, AllocError> {
        let same: Pattern = (b"P", self.part.level, 0, 0);
        joined(
            if self.is_truth { same } else { TRUTH },
            &self.part,
            &self.part,
        )
    }
}

/// An operator between two operands, or before one that is given twice, if it can be written.
fn applied(form: Form, left: &Operand, right: &Operand) -> Result<Option<Part>, AllocError> {
    let are_truths = left.is_truth && right.is_truth;
    let Some(pattern) = pattern_of(form, are_truths, right.value) else {
        return Ok(None);
    };
    // A comparison of a comparison is chained, as in `a < b < c`, and not as in `a < 5 = 1`. It
    // isn't clear which is meant by `a = b < c`, and no chain compares two numbers.
    let is_truth = left.compared != b"P = Q".as_slice() && matches!(right.value, Some(0 | 1));
    let compares = pattern.0.contains(&b'=');
    let is_fixed = right.value.is_some() && is_decimal(&left.last.text);
    let asks = compares && (is_fixed || is_truth);
    let is_chained = form.1 == COMPARISON && !left.compared.is_empty() && !asks;
    let is_mixed = is_fixed || left.compared.contains(&b'=') != compares;
    let part = if is_chained && is_mixed {
        return Ok(None);
    } else if is_chained {
        let second = joined(pattern, &left.last, &right.part)?;
        joined(BOTH, &left.part, &second)?
    } else if form.1 == AND {
        joined(pattern, &left.truth()?, &right.truth()?)?
    } else {
        joined(pattern, &left.part, &right.part)?
    };
    Ok(Some(part))
}

/// The operand of a piece, if it is one.
fn operand_of(alloc: Global, piece: Piece) -> Result<Option<Operand>, AllocError> {
    let value = match piece.sort {
        Sort::Number => number_of(piece.text),
        _ if is_one_of(TRUE, piece.text) => Some(1),
        _ if is_one_of(FALSE, piece.text) => Some(0),
        _ => None,
    };
    let mut text = Vec::new(alloc);
    if let Some(number) = value {
        put_number(&mut text, number as usize)?;
    } else if piece.sort == Sort::Word && !is_one_of(NO_OPERANDS, piece.text) {
        text.extend_from_slice(piece.text)?;
    } else {
        return Ok(None);
    }
    Ok(Some(Operand {
        part: Part { text, level: 3 },
        is_truth: matches!(value, Some(0 | 1)),
        value,
        compared: b"",
        last: Part {
            text: Vec::new(alloc),
            level: 3,
        },
    }))
}

/// What was read of an expression.
#[derive(Drop)]
struct Reading {
    alloc: Global,
    /// The finished operands.
    operands: Vec<Operand>,
    /// The operators that need their last operand.
    waiting: Vec<Form>,
    wants_operand: bool,
}

impl Reading {
    /// Adds an operand, and returns whether it is short.
    fn put(&mut self, operand: Operand) -> Result<bool, AllocError> {
        let is_short = operand.part.text.len() <= LONGEST;
        self.operands.push(operand)?;
        Ok(is_short)
    }

    /// Joins the last operands by each waiting operator that binds at least as strongly. Returns
    /// whether that can be written.
    fn join_stronger(&mut self, strength: u8) -> Result<bool, AllocError> {
        for _ in 0..self.waiting.len() {
            let form = match self.waiting.last().copied() {
                Some(form) if 0 < form.1 && strength <= form.1 => form,
                _ => return Ok(true),
            };
            self.waiting.truncate(self.waiting.len().saturating_sub(1));
            let is_before = form.1 == NOT || form.1 == NEGATIVE;
            let Some(right) = self.operands.pop() else {
                return Ok(false);
            };
            let left = if is_before { None } else { self.operands.pop() };
            let made = match &left {
                Some(left) => applied(form, left, &right)?,
                None if is_before => applied(form, &right, &right)?,
                None => None,
            };
            let Some(part) = made else {
                return Ok(false);
            };
            let Operand { part: last, .. } = right;
            let joined = Operand {
                part,
                is_truth: form.1 <= COMPARISON,
                value: None,
                compared: if form.1 == COMPARISON { form.2.0 } else { b"" },
                last,
            };
            if !self.put(joined)? {
                return Ok(false);
            }
        }
        Ok(true)
    }

    /// Reads a piece, and returns whether an expression may go on with it.
    fn read(&mut self, piece: Piece) -> Result<bool, AllocError> {
        let wants_operand = self.wants_operand;
        let form = match piece.text {
            [b'('] if wants_operand => Some(OPEN),
            [b')'] if !wants_operand => {
                if !self.join_stronger(0)? {
                    return Ok(false);
                }
                return match (self.waiting.pop(), self.operands.pop()) {
                    (Some((_, 0, _)), Some(mut operand)) => {
                        operand.compared = b"";
                        self.put(operand)
                    }
                    _ => Ok(false),
                };
            }
            sign if wants_operand => form_in(&BEFORE, sign),
            sign => form_in(&BETWEEN, sign),
        };
        if let Some(form) = form {
            self.wants_operand = true;
            let is_joined = wants_operand || self.join_stronger(form.1)?;
            self.waiting.push(form)?;
            return Ok(is_joined);
        }
        self.wants_operand = false;
        match operand_of(self.alloc, piece)? {
            Some(operand) if wants_operand => self.put(operand),
            _ => Ok(false),
        }
    }
}

/// The expression of these pieces, written in this language at least at a level, if it is short.
pub(crate) fn rewritten(
    alloc: Global,
    pieces: &[Piece],
    level: u8,
) -> Result<Option<Vec<u8>>, AllocError> {
    let mut reading = Reading {
        alloc,
        operands: Vec::new(alloc),
        waiting: Vec::new(alloc),
        wants_operand: true,
    };
    for piece in pieces {
        if !reading.read(*piece)? {
            return Ok(None);
        }
    }
    let is_ended = !reading.wants_operand && reading.join_stronger(0)?;
    let mut text = Vec::new(alloc);
    match reading.operands.last() {
        Some(operand) if is_ended && reading.waiting.is_empty() => {
            put_part(&mut text, &operand.part, level)?;
            Ok(Some(text))
        }
        _ => Ok(None),
    }
}
