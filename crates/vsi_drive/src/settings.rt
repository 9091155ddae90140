//! The settings of a line, its fields, and their faults.

ghost use Rattle.std.specs.Prelude.{◌≡◌, ℕ, IfNone, ◌+◌, ◌*◌, ◌<◌, length, drop, slice_get, Some, Ok, Err, IfOk, MatchResult, ◌≤◌, ◌++◌, [], slice_range, nat_le, if◌then◌else◌, None, IfSome, true, pos, neg_ℤ, OnOk};
ghost use Rattle.vsi_image.specs.Fields.{global, globals};
ghost use Rattle.vsi_lattice.specs.NamePlaces.{texts};
ghost use Rattle.vsi_drive.specs.{Control.{control}, Reaches.{settable}};
ghost use Rattle.vsi_syntax.specs.Words.{is_digit, every, value_of};
ghost use Rattle.vsi_drive.specs.Settings as spec;
ghost use Rattle.vsi_drive.specs.Fields as fields_spec;

use crate::controller::Controller;
use std::alloc::{AllocError, Global};
use thiserror::Error;
use vsi_image::Image;

/// The setting that three fields form: the number of the global that the first one names, if it may
/// be set, and the word that the third one spells.
pub(crate) fn setting(
    reach: &Reach,
    number: usize,
    name: &[u8],
    equal: &[u8],
    value: &[u8],
) -> Result<(usize, i64), LineFault>
    ensures setting { result
        ≡ spec.setting (settable reach.now) number name.now equal.now value.now }
    ensures within { IfOk result (λ s. s.0 < length (settable reach.now).image.globals.items) }
{
    if equal != b"=".as_slice() {
        return Err(LineFault::BadSetting(number));
    }
    for (i, variable) in reach.globals().iter().enumerate() {
        if variable.0.as_slice() != name {
            continue;
        }
        if let Some(fault) = reach.fault(number, variable) {
            return Err(fault);
        }
        return match word_of(value) {
            Some(word) => Ok((i, word)),
            None => Err(LineFault::NotANumber(number)),
        };
    }
    Err(LineFault::UnknownGlobal(number))
}

/// The field at a position.
pub(crate) fn field<'a>(fields: &[&'a [u8]], at: usize) -> &'a [u8]
    requires { at < length fields.now }
    ensures { slice_get (texts fields.now) at ≡ Some result.now }
{
    fields[at]
}

/// The store after the settings of a line, three fields each, or the fault of the line.
pub(crate) fn words_set(
    alloc: Global,
    controller: &Controller,
    line: &[u8],
    store: &[i64],
) -> Result<Result<Vec<i64>, LineFault>, AllocError>
    requires { length store.now ≡ length (control controller.now).image.globals.items }
    ensures len { IfOk result
        (λ answer. IfOk answer (λ words. length words.items ≡ length store.now)) }
    ensures set { IfOk result (λ answer. MatchResult answer
        (λ words. spec.written (spec.settings_of (control controller.now) line.now) store.now
        ≡ Ok words.items)
        (λ fault. spec.settings_of (control controller.now) line.now ≡ Err fault)) }
{
    if line.len() > LINE_LIMIT {
        return Ok(Err(LineFault::TooLong));
    }
    let fields = fields_of(alloc, line)?;
    let mut words = store.to_vec(alloc)?;
    let reach = Reach::UpTo(controller);
    let mut number = 0;
    let mut rest = fields.as_slice();
    while let [name, equal, value, behind @ ..] = rest {
        match setting(&reach, number, name, equal, value) {
            Ok((place, word)) => words[place] = word,
            Err(fault) => return Ok(Err(fault)),
        }
        number += 1;
        rest = behind;
    }
    if !rest.is_empty() {
        return Ok(Err(LineFault::BadSetting(number)));
    }
    Ok(Ok(words))
}

/// The greatest signed number of 64 bits.
const GREATEST: u64 = 9_223_372_036_854_775_807;

/// The magnitude of the least such number.
const LEAST_MAGNITUDE: u64 = 9_223_372_036_854_775_808;

/// Adds a field, unless it is empty.
fn put_field<'a>(fields: &mut Vec<&'a [u8]>, field: &'a [u8]) -> Result<(), AllocError>
    ensures { OnOk result
        (texts fields.new.items ≡ texts fields.old.items ++ fields_spec.ended field.now []) }
{
    if !field.is_empty() {
        fields.push(field)?;
    }
    Ok(())
}

/// The fields of a line.
pub(crate) fn fields_of<'a>(alloc: Global, line: &'a [u8]) -> Result<Vec<&'a [u8]>, AllocError>
    ensures { IfOk result (λ fields. texts fields.items ≡ fields_spec.fields_of line.now) }
{
    let mut fields = Vec::new(alloc);
    let mut start = 0;
    for i in 0..line.len() {
        let byte = line[i];
        if byte == b'\t' || byte == b'\r' || byte == b' ' {
            put_field(&mut fields, &line[start..i])?;
            start = i + 1;
            continue;
        }
        if byte == b'=' {
            put_field(&mut fields, &line[start..i])?;
            fields.push(b"=")?;
            start = i + 1;
        }
    }
    put_field(&mut fields, &line[start..])?;
    Ok(fields)
}

/// The number that one or more digits spell, if it is at most the limit.
fn number_up_to(digits: &[u8], limit: u64) -> Option<u64>
    ensures number { result ≡ fields_spec.number_up_to limit digits.now }
    ensures bound { IfSome result (λ n. n ≤ limit) }
{
    if digits.is_empty() {
        return None;
    }
    let mut value: u64 = 0;
    let mut rest = digits;
    while let [byte, behind @ ..] = rest {
        if !byte.is_ascii_digit() {
            return None;
        }
        let sum = 10 * value as u128 + (*byte - b'0') as u128;
        if sum > limit as u128 {
            return None;
        }
        value = sum as u64;
        rest = behind;
    }
    Some(value)
}

/// The word that a field spells.
fn word_of(field: &[u8]) -> Option<i64>
    ensures { result ≡ fields_spec.word_of field.now }
{
    match field {
        [] => None,
        [b'-', digits @ ..] => match number_up_to(digits, LEAST_MAGNITUDE) {
            Some(value) => Some((-(value as i128)) as i64),
            None => None,
        },
        digits => match number_up_to(digits, GREATEST) {
            Some(value) => Some(value as i64),
            None => None,
        },
    }
}

/// The greatest number of bytes in a line, without its line end.
pub const LINE_LIMIT: usize = 65_536;

/// Why a line sets nothing: its first fault. The number is the number of the faulty setting, from
/// 0.
#[derive(Clone, Copy, PartialEq, Eq, Debug, Error)]
pub enum LineFault {
    /// The line has more than `LINE_LIMIT` bytes.
    #[error("the line is too long")]
    TooLong,
    /// The fields aren't the name of a global, `=` and a number: the second one isn't `=`, or there
    /// are too few.
    #[error("setting {0} is not of the form NAME = NUMBER")]
    BadSetting(usize),
    /// The image has no global of this name.
    #[error("setting {0} names no global")]
    UnknownGlobal(usize),
    /// The global isn't at or below the class that sets it.
    #[error("setting {0} names a global that is not at or below the class")]
    AboveClass(usize),
    /// The global isn't one of the controller's inputs.
    #[error("setting {0} names a global that is no input")]
    NotAnInput(usize),
    /// The third field isn't a number that fits in a word.
    #[error("setting {0} has no number")]
    NotANumber(usize),
}

/// Which globals of an image may be set.
#[derive(Clone, Copy)]
pub(crate) enum Reach<'r, 'a> {
    /// Those at or below the class of the controller.
    UpTo(&'r Controller<'a>),
    /// All globals, for the user who starts a run.
    All(&'r Image),
}

impl<'r, 'a> Reach<'r, 'a> {
    /// The names of the globals and of their classes.
    fn globals(&self) -> &[(Vec<u8>, Vec<u8>)]
        ensures { result.now ≡ (settable self.now).image.globals.items }
    {
        match self {
            Reach::UpTo(controller) => controller.globals(),
            Reach::All(image) => image.globals.as_slice(),
        }
    }
    /// The fault of a setting of this number that sets a global, if the global may not be set.
    fn fault(&self, number: usize, variable: &(Vec<u8>, Vec<u8>)) -> Option<LineFault>
        ensures some { IfSome result (λ fault. (i : ℕ)
            → spec.place_of (settable self.now) number i (global variable.now) ≡ Err fault) }
        ensures none { IfNone result ((i : ℕ)
            → spec.place_of (settable self.now) number i (global variable.now) ≡ Ok i) }
    {
        let Reach::UpTo(controller) = self else {
            return None;
        };
        if !controller.sees(variable.1.as_slice()) {
            return Some(LineFault::AboveClass(number));
        }
        if !controller.takes(variable.0.as_slice()) {
            return Some(LineFault::NotAnInput(number));
        }
        None
    }
}
