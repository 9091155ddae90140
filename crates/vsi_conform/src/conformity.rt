//! The answer about a text or an image beside an interface, as lines and as a line of JSON.

ghost use Rattle.std.specs.Prelude.{◌≡◌, ◌++◌, map, option_map, IfOk, OnOk};
ghost use Rattle.serde_json.specs.View.{members_view, view};
ghost use Rattle.vsi_conform.specs.{Reaching.{released}, Reading.{bytes_of}, Rows.{row}};
ghost use Rattle.vsi_conform.specs.Conformity as spec;

use crate::reaching::{Reach, are_within, put_reach};
use crate::rows::{Detail, Row};
use crate::texts::put_row;
use std::alloc::{AllocError, Global};
use vsi_answers::{Object, Objects};

/// A trial beside the reference of an interface: whether it shows no difference, and its line.
#[derive(Drop)]
pub struct Tried {
    pub agrees: bool,
    pub line: Vec<u8>,
}

/// The answer about a text or an image beside an interface. It conforms if no point differs, the
/// interface allows each global that reaches a released output, and no trial shows a difference.
#[derive(Drop)]
pub struct Conformity {
    /// Whether no point differs.
    pub fits: bool,
    /// The points that differ.
    pub rows: Vec<Row>,
    /// The released outputs.
    pub reaches: Vec<Reach>,
    /// The trial beside the reference, if the interface names one.
    pub tried: Option<Tried>,
}

/// The object of a row.
fn row_object(alloc: Global, point: &Row) -> Result<Object, AllocError>
    ensures { IfOk result (λ made. members_view made ≡ spec.members (row point.now)) }
{
    let made = Object::new(alloc).text("point", point.kind.word())?;
    match &point.detail {
        Detail::Lines(lines) => made.text("text", lines),
        Detail::Global {
            name,
            class,
            expected,
        } => {
            let mut made = made.text("name", name)?.text("class", class)?;
            if let Some((line, column)) = point.place {
                made = made.natural("line", line)?.natural("column", column)?;
            }
            match expected {
                Some(expected) => made.text("expected", expected),
                None => Ok(made),
            }
        }
        Detail::Budget { run, budget } => {
            let made = made.natural("run", *run)?;
            match budget {
                Some(budget) => made.natural("budget", *budget as usize),
                None => Ok(made),
            }
        }
        Detail::Word {
            run,
            name,
            expected,
            found,
        } => {
            made.natural("run", *run)?
                .text("name", name)?
                .word("expected", *expected)?
                .found("word", *found)
        }
    }
}

/// The objects of rows.
fn points(alloc: Global, rows: &[Row]) -> Result<Objects, AllocError>
    ensures { IfOk result (λ made. map view made ≡ spec.objects (map row rows.now)) }
{
    let mut made = Objects::new(alloc);
    for point in rows {
        made.push(row_object(alloc, point)?)?;
    }
    Ok(made)
}

/// The strings of names.
fn names_of(alloc: Global, names: &[Vec<u8>]) -> Result<Objects, AllocError>
    ensures { IfOk result (λ made. map view made ≡ spec.strings (bytes_of names.now)) }
{
    let mut made = Objects::new(alloc);
    for name in names {
        made.push_text(name)?;
    }
    Ok(made)
}

/// The object of a released output.
fn reach_object(alloc: Global, reach: &Reach) -> Result<Object, AllocError>
    ensures { IfOk result
        (λ made. members_view made ≡ spec.reach_members (released reach.now)) }
{
    Object::new(alloc)
        .array("beyond", names_of(alloc, &reach.beyond)?)?
        .text("class", &reach.class)?
        .array("from", names_of(alloc, &reach.sources)?)?
        .text("output", &reach.output)
}

/// The objects of released outputs.
fn reached(alloc: Global, reaches: &[Reach]) -> Result<Objects, AllocError>
    ensures { IfOk result (λ made. map view made ≡ spec.reached (map released reaches.now)) }
{
    let mut made = Objects::new(alloc);
    for reach in reaches {
        made.push(reach_object(alloc, reach)?)?;
    }
    Ok(made)
}

/// An object with the released outputs, if there are any.
#[tactic(auto, using(crate::proofs::NoOutputs::none_reached, crate::proofs::NoOutputs::some_reached))]
fn with_reached(alloc: Global, made: Object, reaches: &[Reach]) -> Result<Object, AllocError>
    ensures { IfOk result (λ whole. members_view whole
        ≡ spec.with_reached (map released reaches.now) (members_view made)) }
{
    if reaches.is_empty() {
        return Ok(made);
    }
    made.array("reached", reached(alloc, reaches)?)
}

/// An object with the trial beside the reference, if there is one.
fn with_tried(alloc: Global, made: Object, tried: &Option<Tried>) -> Result<Object, AllocError>
    ensures { IfOk result (λ whole. members_view whole
        ≡ spec.with_tried (option_map spec.trial tried.now) (members_view made)) }
{
    match tried {
        Some(tried) => {
            let inner = Object::new(alloc)
                .flag("agrees", tried.agrees)?
                .text("text", &tried.line)?;
            made.object("reference", inner)
        }
        None => Ok(made),
    }
}

impl Conformity {
    ghost use Rattle.std.specs.Prelude.{◌≡◌, IfOk};
    ghost use Rattle.vsi_conform.specs.Conformity as spec;

    /// Whether the text or the image conforms to the interface.
    pub fn conforms(&self) -> bool
        ensures verdict { result ≡ spec.conforms (spec.said self.now) }
    {
        let agrees = match &self.tried {
            Some(tried) => tried.agrees,
            None => true,
        };
        self.fits && are_within(&self.reaches) && agrees
    }

    /// The lines: `conforms` if the text or the image does, then those of the points, of the
    /// released outputs and of the trial.
    pub fn lines(&self, alloc: Global) -> Result<Vec<u8>, AllocError>
        ensures lines { IfOk result (λ text. text.items ≡ spec.lines (spec.said self.now)) }
    {
        let mut text = Vec::new(alloc);
        if self.conforms() {
            text.extend_from_slice(b"conforms\n")?;
        }
        for point in &self.rows {
            put_row(&mut text, point)?;
        }
        for reach in &self.reaches {
            put_reach(&mut text, reach)?;
        }
        if let Some(tried) = &self.tried {
            text.extend_from_slice(&tried.line)?;
        }
        Ok(text)
    }

    /// The line of JSON: an object with `conforms`, with `points`, an array with an object for each
    /// point, with `reached` if outputs are released, and with `reference` if there was a trial.
    pub fn json(&self, alloc: Global) -> Result<Vec<u8>, AllocError>
        ensures json { IfOk result (λ line. line.items ≡ spec.json (spec.said self.now)) }
    {
        let made = Object::new(alloc)
            .flag("conforms", self.conforms())?
            .array("points", points(alloc, &self.rows)?)?;
        let made = with_reached(alloc, made, &self.reaches)?;
        with_tried(alloc, made, &self.tried)?.line()
    }
}
