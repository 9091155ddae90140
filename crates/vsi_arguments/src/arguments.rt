//! The arguments after a subcommand: its operands, flags, and options with their values.

ghost use Rattle.std.specs.{Prelude.{◌≡◌, ◌+◌, ◌*◌, ◌-◌, ◌<◌, ◌≤◌, ◌∷◌, [], IfOk, IfSome, IsTrue, MatchOption, None, Some, codes, drop, false, length, option_map, true}, Char.{is_ascii_digit}, List.{list_all}};
ghost use Rattle.vsi_arguments.specs.{Asked.{given}, declared.request.Budget.TheVariants.{Auto}};
ghost use Rattle.vsi_arguments.specs.Numbers as numbers;
ghost use Rattle.vsi_arguments.specs.Words as spec;

use crate::Budget;
use std::alloc::{AllocError, Global};

/// Whether an argument is one of these options, alone or with `=` and its value.
fn is_option(options: &[&str], word: &[u8]) -> bool
    ensures { result ≡ spec.is_option (spec.shown options.now) word.now }
{
    for option in options {
        if word == option.as_bytes() {
            return true;
        }
        if let Some(_) = joined(option.as_bytes(), word) {
            return true;
        }
    }
    false
}

/// Whether each flag and option among the arguments is one of these.
fn are_own(words: &[String], flags: &[&str], options: &[&str]) -> bool
    ensures { result ≡ list_all (spec.is_own (spec.shown flags.now) (spec.shown options.now))
        (spec.dashed_in false (spec.texts words.now)) }
{
    let mut is_value = false;
    for word in words {
        if is_value {
            is_value = false;
        } else if is_end(word.as_bytes()) {
            return true;
        } else if is_dashed(word.as_bytes()) {
            if !is_among(flags, word.as_bytes()) && !is_option(options, word.as_bytes()) {
                return false;
            }
            is_value = is_valued(word.as_bytes());
        }
    }
    true
}

/// The arguments after the first, if the first is the name.
fn behind_name<'a>(words: &'a [String], name: &str) -> Option<&'a [String]>
    ensures { IfSome result (λ rest. spec.texts words.now ≡ name.now ∷ spec.texts rest.now) }
{
    match words {
        [first, rest @ ..] if first.as_bytes() == name.as_bytes() => Some(rest),
        _ => None,
    }
}

/// The arguments after the first, if the first is the name, and each flag and option is one of
/// these.
pub(crate) fn behind<'a>(
    words: &'a [String],
    name: &str,
    flags: &[&str],
    options: &[&str],
) -> Option<&'a [String]>
    ensures named { IfSome result (λ rest. spec.texts words.now ≡ name.now ∷ spec.texts rest.now) }
    ensures own { IfSome result (λ rest. IsTrue (list_all
        (spec.is_own (spec.shown flags.now) (spec.shown options.now))
        (spec.dashed_in false (spec.texts words.now)))) }
{
    let rest = behind_name(words, name)?;
    are_own(words, flags, options).then_some(rest)
}

/// The arguments after the first, as `behind` returns them, by a row: the name, the flags and the
/// options of the subcommand, to which those are added that say how a refusal is explained, and the
/// flag that lets it replace a file, if it has that.
macro_rules! rest_of {
    ($words:ident $name:literal [$($flag:literal)*] [$($option:literal)*] $($force:literal)?) => {
        behind(
            $words,
            $name,
            [$($flag,)* "--explain", "--all" $(, $force)?].as_slice(),
            [$($option,)* "--color"].as_slice(),
        )?
    };
}

pub(crate) use rest_of;

/// Texts, as a row.
macro_rules! texts {
    ($($text:literal)*) => { [$($text),*] };
}

/// The options that take a value.
const VALUED: [&str; 22] = texts! {
    "--budget" "--class" "--color" "--format" "--from" "--init" "--inputs" "--interface" "--lattice"
    "--name" "--out" "--outputs" "--project" "--release" "--rule" "--save" "--save-every" "--seed"
    "--set" "--store" "--to" "--tries"
};

/// Whether an argument is `--`, after which every argument is an operand.
pub(crate) fn is_end(word: &[u8]) -> bool
    ensures { result ≡ spec.is_end word.now }
{
    word == b"--".as_slice()
}

/// Whether an argument is one of these names.
pub(crate) fn is_among(names: &[&str], word: &[u8]) -> bool
    ensures { result ≡ spec.is_among (spec.shown names.now) word.now }
{
    for name in names {
        if word == name.as_bytes() {
            return true;
        }
    }
    false
}

/// Whether an argument is an option that takes the next one as its value.
pub fn is_valued(word: &[u8]) -> bool
    ensures { result ≡ spec.is_among spec.VALUED word.now }
{
    is_among(VALUED.as_slice(), word)
}

/// Whether an argument begins with a hyphen and is longer than that.
pub(crate) fn is_dashed(word: &[u8]) -> bool
    ensures { result ≡ spec.is_dashed word.now }
{
    match word {
        [byte, _, ..] => *byte == b'-',
        _ => false,
    }
}

/// Whether a flag is one of the arguments before the first `--`.
pub(crate) fn has_flag(words: &[String], flag: &str) -> bool
    ensures { result ≡ spec.has_flag flag.now (spec.texts words.now) }
{
    for word in words {
        if is_end(word.as_bytes()) {
            return false;
        }
        if word.as_bytes() == flag.as_bytes() {
            return true;
        }
    }
    false
}

/// The position after this one, if the text at this one is the argument.
fn past(texts: &[&[u8]], place: usize, word: &[u8]) -> Option<usize>
    ensures within { IfSome result (λ next. next ≤ length texts.now) }
    ensures text { IfSome result (λ next. drop place (spec.shown texts.now)
        ≡ word.now ∷ drop next (spec.shown texts.now)) }
{
    match texts.get(place) {
        Some(text) if *text == word => Some(place + 1),
        _ => None,
    }
}

/// The part of an argument after the option and `=`.
pub(crate) fn joined<'a>(option: &[u8], word: &'a [u8]) -> Option<&'a [u8]>
    ensures { option_map (λ value. value.now) result ≡ spec.joined option.now word.now }
{
    let mut left = option;
    let mut rest = word;
    while let [wanted, more @ ..] = left {
        let [byte, behind @ ..] = rest else {
            return None;
        };
        if *byte != *wanted {
            return None;
        }
        left = more;
        rest = behind;
    }
    match rest {
        [byte, value @ ..] if *byte == b'=' => Some(value),
        _ => None,
    }
}

/// Checks that these are the values that the arguments give for an option.
pub(crate) fn has_values(words: &[String], option: &str, values: &[&[u8]]) -> Option<()>
    ensures { IfSome result (λ _.
        spec.values_in option.now false (spec.texts words.now) ≡ spec.shown values.now) }
{
    let mut done = 0;
    let mut is_value = false;
    for word in words {
        if is_value {
            done = past(values, done, word.as_bytes())?;
            is_value = false;
        } else if is_end(word.as_bytes()) {
            break;
        } else if word.as_bytes() == option.as_bytes() {
            is_value = true;
        } else if let Some(value) = joined(option.as_bytes(), word.as_bytes()) {
            done = past(values, done, value)?;
        }
    }
    (done == values.len()).then_some(())
}

/// The first value that the arguments give for an option, and the arguments after it.
fn next_value<'a>(words: &'a [String], option: &str) -> Option<(&'a str, &'a [String])> {
    let mut rest = words;
    while let [word, behind @ ..] = rest {
        let text = word.as_str();
        if is_end(text.as_bytes()) {
            return None;
        }
        if text == option {
            let (value, after) = behind.split_first()?;
            return Some((value.as_str(), after));
        }
        if let Some(value) = text.strip_prefix(option)
            && let Some(value) = value.strip_prefix("=")
        {
            return Some((value, behind));
        }
        rest = behind;
    }
    None
}

/// The values that the arguments give for an option. They are a proposal: `has_values` decides.
pub(crate) fn values_of<'a>(
    alloc: Global,
    words: &'a [String],
    option: &str,
) -> Result<Vec<&'a [u8]>, AllocError> {
    let mut values = Vec::new(alloc);
    let mut rest = words;
    for _ in words {
        let Some((value, behind)) = next_value(rest, option) else {
            return Ok(values);
        };
        values.push(value.as_bytes())?;
        rest = behind;
    }
    Ok(values)
}

/// The only value of an option, if it has one; nothing if it has several.
pub(crate) fn value<'a>(words: &'a [String], option: &str) -> Option<Option<&'a str>>
    ensures { IfSome result (λ value.
        spec.values_in option.now false (spec.texts words.now) ≡ given value) }
{
    let Some((value, _)) = next_value(words, option) else {
        has_values(words, option, &[])?;
        return Some(None);
    };
    has_values(words, option, [value.as_bytes()].as_slice())?;
    Some(Some(value))
}

/// The values of an option, if there are two.
pub(crate) fn two_values<'a>(words: &'a [String], option: &str) -> Option<(&'a str, &'a str)>
    ensures { IfSome result (λ both.
        spec.values_in option.now false (spec.texts words.now) ≡ both.0.now ∷ both.1.now ∷ []) }
{
    let (first, rest) = next_value(words, option)?;
    let (second, _) = next_value(rest, option)?;
    let both = [first.as_bytes(), second.as_bytes()];
    has_values(words, option, both.as_slice())?;
    Some((first, second))
}

/// The first operand of arguments, each of which is one if `is_over`, and the arguments after it
/// with whether each of them is one.
fn next_operand<'a>(words: &'a [String], is_over: bool) -> Option<(&'a str, (&'a [String], bool))>
    ensures operand { MatchOption result (spec.left is_over false (spec.texts words.now) ≡ [])
        (λ next. spec.left is_over false (spec.texts words.now)
        ≡ next.0.now ∷ spec.left next.1.1 false (spec.texts next.1.0.now)) }
    ensures shorter { IfSome result (λ next. length next.1.0.now < length words.now) }
{
    let mut rest = words;
    let mut is_value = false;
    let mut is_past = is_over;
    while let [word, behind @ ..] = rest {
        if is_past {
            return Some((word.as_str(), (behind, true)));
        }
        if is_value {
            is_value = false;
        } else if is_end(word.as_bytes()) {
            is_past = true;
        } else if is_valued(word.as_bytes()) {
            is_value = true;
        } else if !is_dashed(word.as_bytes()) {
            return Some((word.as_str(), (behind, false)));
        }
        rest = behind;
    }
    None
}

/// The operand of arguments, each of which is one if `is_over`, if there is none or one.
pub(crate) fn at_most_one<'a>(words: &'a [String], is_over: bool) -> Option<Option<&'a str>>
    ensures { IfSome result (λ only. spec.left is_over false (spec.texts words.now) ≡ given only) }
{
    let Some((first, (left, is_past))) = next_operand(words, is_over) else {
        return Some(None);
    };
    match next_operand(left, is_past) {
        Some(_) => None,
        None => Some(Some(first)),
    }
}

/// All operands.
pub(crate) fn operands<'a>(alloc: Global, words: &'a [String]) -> Result<Vec<&'a [u8]>, AllocError>
    ensures { IfOk result (λ made.
        spec.operands_in false (spec.texts words.now) ≡ spec.shown made.items) }
{
    let mut operands = Vec::new(alloc);
    let mut rest = words;
    let mut is_over = false;
    while let Some((operand, left)) = next_operand(rest, is_over) {
        operands.push(operand.as_bytes())?;
        (rest, is_over) = left;
    }
    Ok(operands)
}

/// The operands among arguments, each of which is one if `is_over`.
fn paths<'a>(alloc: Global, words: &'a [String], is_over: bool) -> Result<Vec<&'a str>, AllocError>
    ensures { IfOk result (λ made.
        spec.left is_over false (spec.texts words.now) ≡ spec.shown made.items) }
{
    let mut paths = Vec::new(alloc);
    let mut rest = words;
    let mut is_past = is_over;
    while let Some((path, left)) = next_operand(rest, is_past) {
        paths.push(path)?;
        (rest, is_past) = left;
    }
    Ok(paths)
}

/// The first operand, if there is one, and all others.
pub(crate) fn one_and_more<'a>(
    alloc: Global,
    words: &'a [String],
) -> Result<Option<(&'a str, Vec<&'a str>)>, AllocError>
    ensures { IfOk result (λ made. IfSome made (λ some.
        spec.operands_in false (spec.texts words.now) ≡ some.0.now ∷ spec.shown some.1.items)) }
{
    let Some((first, (left, is_over))) = next_operand(words, false) else {
        return Ok(None);
    };
    Ok(Some((first, paths(alloc, left, is_over)?)))
}

/// The operand, if there is one.
pub(crate) fn one<'a>(words: &'a [String]) -> Option<&'a str>
    ensures { IfSome result (λ first.
        spec.operands_in false (spec.texts words.now) ≡ first.now ∷ []) }
{
    at_most_one(words, false)?
}

/// The operands, if there are one or two.
pub(crate) fn one_or_two<'a>(words: &'a [String]) -> Option<(&'a str, Option<&'a str>)>
    ensures { IfSome result (λ some.
        spec.operands_in false (spec.texts words.now) ≡ some.0.now ∷ given some.1) }
{
    let (first, (left, is_over)) = next_operand(words, false)?;
    Some((first, at_most_one(left, is_over)?))
}

/// The operands, if there are two.
pub(crate) fn two<'a>(words: &'a [String]) -> Option<(&'a str, &'a str)>
    ensures { IfSome result (λ both.
        spec.operands_in false (spec.texts words.now) ≡ both.0.now ∷ both.1.now ∷ []) }
{
    let (first, second) = one_or_two(words)?;
    Some((first, second?))
}

/// The operands, if there are three.
pub(crate) fn three<'a>(words: &'a [String]) -> Option<(&'a str, (&'a str, &'a str))>
    ensures { IfSome result (λ some. spec.operands_in false (spec.texts words.now)
        ≡ some.0.now ∷ some.1.0.now ∷ some.1.1.now ∷ []) }
{
    let (first, (left, is_over)) = next_operand(words, false)?;
    let (second, (left, is_over)) = next_operand(left, is_over)?;
    Some((first, (second, at_most_one(left, is_over)??)))
}

/// The number that an argument spells in decimal digits alone, if it fits in 64 bits.
pub(crate) fn number_in(word: &[u8]) -> Option<u64>
    ensures { IfSome result (λ number. numbers.number_in word.now ≡ Some number) }
{
    word.first()?;
    let mut number: u64 = 0;
    for byte in word {
        if !byte.is_ascii_digit() {
            return None;
        }
        number = number
            .checked_mul(10)?
            .checked_add(u64::from(*byte - b'0'))?;
    }
    Some(number)
}

/// The number that the arguments give an option: by its only value or, without one, the default.
pub(crate) fn number(words: &[String], option: &str, otherwise: Option<u64>) -> Option<u64>
    ensures { IfSome result (λ number.
        numbers.Gives (spec.values_in option.now false (spec.texts words.now)) otherwise number) }
{
    match value(words, option)? {
        Some(value) => number_in(value.as_bytes()),
        None => otherwise,
    }
}

/// The budget of a run, `auto` or a number, or the default where none is given.
pub(crate) fn budget(words: &[String], default: Option<Budget>) -> Option<Budget>
    ensures { IfSome result (λ budget. numbers.GivesBudget
        (spec.values_in (codes "--budget") false (spec.texts words.now)) default budget) }
{
    match value(words, "--budget")? {
        Some(value) if value.as_bytes() == b"auto".as_slice() => Some(Budget::Auto),
        Some(value) => Some(Budget::Number(number_in(value.as_bytes())?)),
        None => default,
    }
}
