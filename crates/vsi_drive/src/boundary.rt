//! The boundary of a controller, and how a run begins.

ghost use Rattle.std.specs.Prelude.{◌≡◌, ◌+◌, ◌<◌, ◌≤◌, ◌++◌, length, drop, slice_range, IfOk, Ok, Err, Some, None, IfErr, MatchResult};
ghost use Rattle.vsi_lattice.specs.NamePlaces.{texts};
ghost use Rattle.vsi_image.specs.Fields.{globals};
ghost use Rattle.vsi_store.specs.File.{IsRefusal};
ghost use Rattle.vsi_drive.specs.Reaches.{settable};
ghost use Rattle.vsi_drive.specs.Boundary as spec;
ghost use Rattle.vsi_drive.specs.Fields as fields_spec;
ghost use Rattle.vsi_drive.specs.Starts as starts_spec;

use crate::settings::{LineFault, Reach, field, fields_of, setting};
use std::alloc::{AllocError, Global};
use thiserror::Error;
use vsi_image::Image;
use vsi_store::{StoreError, named_globals, read_store};

/// The globals that lines set and cycles write, by their names.
#[derive(Clone, Copy)]
pub struct Boundary<'a> {
    /// The globals that a line may set; without a list all at or below the class.
    pub inputs: Option<&'a [&'a [u8]]>,
    /// The globals that a cycle writes; without a list all that the class sees, and the released.
    pub outputs: Option<&'a [&'a [u8]]>,
    /// The outputs that are written whatever their class.
    pub released: &'a [&'a [u8]],
}

impl<'a> Boundary<'a> {
    /// The boundary without lists.
    pub fn none() -> Boundary<'a>
        ensures { spec.boundary_of result ≡ spec.no_boundary }
    {
        Boundary {
            inputs: None,
            outputs: None,
            released: &[],
        }
    }
}

/// Why a controller doesn't begin: the first fault of its boundary. The number is that of the name
/// in its list, from 0.
#[derive(Clone, Copy, PartialEq, Eq, Debug, Error)]
pub enum BoundaryFault {
    /// The image has no global with the name of this input.
    #[error("input {0} names no global")]
    UnknownInput(usize),
    /// This input isn't at or below the class.
    #[error("input {0} is not at or below the class")]
    InputAboveClass(usize),
    /// The image has no global with the name of this output.
    #[error("output {0} names no global")]
    UnknownOutput(usize),
    /// This output isn't at or below the class, and it isn't released.
    #[error("output {0} is not at or below the class, and not released")]
    OutputAboveClass(usize),
    /// This released name isn't that of an output.
    #[error("released name {0} is no output")]
    NotAnOutput(usize),
}

/// The role of a list of names.
#[derive(Clone, Copy)]
pub(crate) enum Role {
    Input,
    Output,
    Released,
}

/// Whether a name is one of these.
pub(crate) fn is_among(names: &[&[u8]], name: &[u8]) -> bool
    ensures { result ≡ spec.is_among (texts names.now) name.now }
{
    let mut rest = names;
    while let [first, behind @ ..] = rest {
        if *first == name {
            return true;
        }
        rest = behind;
    }
    false
}

/// Whether a name is one of a list, or there is no list.
pub(crate) fn is_listed(list: Option<&[&[u8]]>, name: &[u8]) -> bool
    ensures { result ≡ spec.is_listed (spec.listed list.entry) name.now }
{
    match list {
        Some(names) => is_among(names, name),
        None => true,
    }
}

/// The names in a text with commas between them. An empty text has none.
pub fn names_of<'a>(alloc: Global, text: &'a [u8]) -> Result<Vec<&'a [u8]>, AllocError>
    ensures { IfOk result (λ names. texts names.items ≡ spec.names_of text.now) }
{
    let mut names = Vec::new(alloc);
    if text.is_empty() {
        return Ok(names);
    }
    let mut start = 0;
    for i in 0..text.len() {
        if text[i] == b',' {
            names.push(&text[start..i])?;
            start = i + 1;
        }
    }
    names.push(&text[start..])?;
    Ok(names)
}

/// Why a run doesn't begin, though its store file has no fault.
#[derive(Clone, Copy, PartialEq, Eq, Debug, Error)]
pub enum StartFault {
    /// A setting has a fault. Its number is the number of the text.
    #[error("{0}")]
    Setting(LineFault),
    /// The boundary of a controller has a fault, so its first cycle doesn't begin.
    #[error("{0}")]
    Boundary(BoundaryFault),
    /// The global with this number, from 0, is the first that has no key in the store file and
    /// isn't set.
    #[error("global {0} is not in the store file and not set")]
    Unnamed(usize),
}

/// The words with which a run begins: those of a store file, and then the settings that the texts
/// form, each `NAME=NUMBER` for any global. With `is_full` each global must have a key in the file
/// or be set.
///
/// # Errors
///
/// A fault of the store file, as for `read_store`, comes before a fault of the settings.
pub fn first_words(
    alloc: Global,
    image: &Image,
    file: &[u8],
    settings: &[&[u8]],
    is_full: bool,
) -> Result<Result<Vec<i64>, StartFault>, StoreError>
    ensures begins { IfOk result (λ answer. MatchResult answer
        (λ words. starts_spec.Begins image.now file.now (texts settings.now) is_full words.items)
        (starts_spec.IsStartFault image.now file.now (texts settings.now) is_full)) }
    ensures len { IfOk result (λ answer. IfOk answer (λ words.
        length words.items ≡ length image.now.globals.items)) }
    ensures refused { IfErr result (IsRefusal (globals image.now.globals.items) file.now) }
{
    let mut words = read_store(alloc, image, file)?;
    let mut named = named_globals(alloc, image, file)?;
    let reach = Reach::All(image);
    if let Err(fault) = set_each(alloc, &reach, settings, &mut words, &mut named)? {
        return Ok(Err(StartFault::Setting(fault)));
    }
    if !is_full {
        return Ok(Ok(words));
    }
    for (i, is_named) in named.iter().enumerate() {
        if !*is_named {
            return Ok(Err(StartFault::Unnamed(i)));
        }
    }
    Ok(Ok(words))
}

/// The setting that a single text forms.
fn setting_of(
    alloc: Global,
    reach: &Reach,
    number: usize,
    text: &[u8],
) -> Result<Result<(usize, i64), LineFault>, AllocError>
    ensures setting { IfOk result (λ answer. answer
        ≡ starts_spec.one_setting (settable reach.now) number (fields_spec.fields_of text.now)) }
    ensures within { IfOk result (λ answer. IfOk answer (λ s.
        s.0 < length (settable reach.now).image.globals.items)) }
{
    let fields = fields_of(alloc, text)?;
    if fields.len() != 3 {
        return Ok(Err(LineFault::BadSetting(number)));
    }
    let name = field(&fields, 0);
    let equal = field(&fields, 1);
    let value = field(&fields, 2);
    Ok(setting(reach, number, name, equal, value))
}

/// Makes the settings that texts form, and marks each global that is set. After a fault some are
/// made.
fn set_each(
    alloc: Global,
    reach: &Reach,
    settings: &[&[u8]],
    words: &mut [i64],
    named: &mut [bool],
) -> Result<Result<(), LineFault>, AllocError>
    requires words { length words.old ≡ length (settable reach.now).image.globals.items }
    requires named { length named.old ≡ length (settable reach.now).image.globals.items }
    ensures set { IfOk result (λ answer. MatchResult answer
        (λ _. starts_spec.set_behind (starts_spec.settings_each (settable reach.now) 0 (texts
        settings.now))
        (starts_spec.start words.old named.old) ≡ Ok (starts_spec.start words.new named.new))
        (λ fault. starts_spec.settings_each (settable reach.now) 0 (texts settings.now) ≡ Err
        fault)) }
{
    for number in 0..settings.len() {
        match setting_of(alloc, reach, number, field(settings, number))? {
            Ok((place, word)) => {
                words[place] = word;
                named[place] = true;
            }
            Err(fault) => return Ok(Err(fault)),
        }
    }
    Ok(Ok(()))
}
