//! The points of a text or an image beside an interface as rows, which each form of an answer goes
//! over.

ghost use Rattle.std.specs.Prelude.{◌≡◌, ◌++◌, map, option_map, Some, IfOk, OnOk};
ghost use Rattle.vsi_conform.specs.Shown as shown;
ghost use Rattle.vsi_conform.specs.Rows as spec;

use crate::interface::{Interface, Point};
use std::alloc::{AllocError, Global};
use vsi_image::Image;
use vsi_syntax::{Declaration, line_column};

/// A kind of point, in the order of the rules of a document. A refusal and the line about a bound
/// are points, too.
#[derive(Clone, Copy)]
pub enum Kind {
    Refused,
    Missing,
    Unexpected,
    Class,
    Order,
    Budget,
    Word,
    Bound,
}

impl Kind {
    /// The word of a kind, which is the identifier of its rule.
    pub fn word(self) -> &'static [u8]
        ensures { result.now ≡ spec.word_of self }
    {
        match self {
            Kind::Refused => b"refused",
            Kind::Missing => b"missing",
            Kind::Unexpected => b"unexpected",
            Kind::Class => b"class",
            Kind::Order => b"order",
            Kind::Budget => b"budget",
            Kind::Word => b"word",
            Kind::Bound => b"bound",
        }
    }
}

/// The contents of a point.
#[derive(Drop)]
pub enum Detail {
    /// The lines of a refusal, or the line about a bound.
    Lines(Vec<u8>),
    /// A global, and the class or the name that is expected in its place.
    Global {
        name: Vec<u8>,
        class: Vec<u8>,
        expected: Option<Vec<u8>>,
    },
    /// A run, numbered from 1, doesn't halt within its budget.
    Budget {
        run: usize,
        budget: Option<u64>,
    },
    /// A run, numbered from 1, ends with another word, or there is no such global.
    Word {
        run: usize,
        name: Vec<u8>,
        expected: i64,
        found: Option<i64>,
    },
}

/// A point as it is written: its kind, the line and the column, both from 1, of the global in the
/// text, and what it says.
#[derive(Drop)]
pub struct Row {
    pub kind: Kind,
    pub place: Option<(usize, usize)>,
    pub detail: Detail,
}

/// What is judged: a source text and the globals that it declares, or an image.
#[derive(Clone, Copy)]
pub(crate) enum Judged<'a> {
    Text(&'a [u8], &'a [Declaration<'a>]),
    Image(&'a Image),
}

/// A global: its name, its class name and, if it is one of a text, the line and the column of one
/// of them.
#[derive(Clone, Copy)]
pub(crate) struct Held<'a> {
    pub name: &'a [u8],
    pub class: &'a [u8],
    pub place: Option<(usize, usize)>,
}

/// The global of an image at an index; one with an empty name if there is none.
pub(crate) fn numbered(image: &Image, place: usize) -> Held<'_>
    ensures global { spec.held result ≡ spec.image_held image.now place }
{
    match image.globals.get(place) {
        Some(global) => Held {
            name: global.0.as_slice(),
            class: global.1.as_slice(),
            place: None,
        },
        None => Held {
            name: b"",
            class: b"",
            place: None,
        },
    }
}

/// The global of what is judged at an index, with the position of its name or its class name; one
/// with an empty name if there is none.
fn held_at<'a>(judged: &Judged<'a>, place: usize, is_class: bool) -> Held<'a>
    ensures { spec.held result ≡ spec.held_of judged.now is_class place }
{
    let (text, found) = match judged {
        Judged::Text(text, found) => (text, found),
        Judged::Image(image) => return numbered(image, place),
    };
    let Some(declaration) = found.get(place) else {
        return Held {
            name: b"",
            class: b"",
            place: Some((1, 1)),
        };
    };
    let at = if is_class {
        declaration.class.span.start
    } else {
        declaration.name.span.start
    };
    Held {
        name: declaration.name.text,
        class: declaration.class.text,
        place: Some(line_column(text, at)),
    }
}

/// The required global with this number.
pub(crate) fn asked<'a>(interface: &'a Interface, number: usize) -> (&'a [u8], &'a [u8])
    ensures { (result.0.now, result.1.now) ≡ shown.asked interface.now number }
{
    match interface.globals.get(number) {
        Some(entry) => (entry.0.as_slice(), entry.1.as_slice()),
        None => (b"", b""),
    }
}

/// The name and the word that a run expects, by number.
fn expected(interface: &Interface, trial: usize, wanted: usize) -> (&[u8], i64)
    ensures { (result.0.now, result.1) ≡ shown.expected interface.now trial wanted }
{
    let Some(trial) = interface.trials.get(trial) else {
        return (b"", 0);
    };
    match trial.expect.get(wanted) {
        Some(entry) => (entry.0.as_slice(), entry.1),
        None => (b"", 0),
    }
}

/// The row of a global, with what is expected in its place.
fn global_row(
    alloc: Global,
    kind: Kind,
    held: &Held,
    expected: Option<Vec<u8>>,
) -> Result<Row, AllocError>
    ensures { IfOk result (λ made. spec.row made
        ≡ spec.global_row kind (spec.held held.now) (option_map (λ e. e.items) expected)) }
{
    Ok(Row {
        kind,
        place: held.place,
        detail: Detail::Global {
            name: Vec::from_slice(alloc, held.name)?,
            class: Vec::from_slice(alloc, held.class)?,
            expected,
        },
    })
}

/// The row of a word that differs from the expected one.
fn word_row(
    alloc: Global,
    number: usize,
    expected: (&[u8], i64),
    found: Option<i64>,
) -> Result<Row, AllocError>
    ensures { IfOk result (λ made. spec.row made
        ≡ spec.word_row number (expected.entry.0.now, expected.entry.1) found) }
{
    Ok(Row {
        kind: Kind::Word,
        place: None,
        detail: Detail::Word {
            run: number.saturating_add(1),
            name: Vec::from_slice(alloc, expected.0)?,
            expected: expected.1,
            found,
        },
    })
}

/// The row of a point.
fn row_of(
    alloc: Global,
    judged: &Judged,
    interface: &Interface,
    point: Point,
) -> Result<Row, AllocError>
    ensures { IfOk result
        (λ made. spec.row made ≡ spec.row_of interface.now (spec.held_of judged.now) point) }
{
    match point {
        Point::Missing(number) => {
            let (name, class) = asked(interface, number);
            let place = None;
            global_row(alloc, Kind::Missing, &Held { name, class, place }, None)
        }
        Point::Unexpected(place) => {
            let held = held_at(judged, place, false);
            global_row(alloc, Kind::Unexpected, &held, None)
        }
        Point::WrongClass { place, wanted } => {
            let held = held_at(judged, place, true);
            let class = Vec::from_slice(alloc, asked(interface, wanted).1)?;
            global_row(alloc, Kind::Class, &held, Some(class))
        }
        Point::WrongOrder(place) => {
            let held = held_at(judged, place, false);
            let name = Vec::from_slice(alloc, asked(interface, place).0)?;
            global_row(alloc, Kind::Order, &held, Some(name))
        }
        Point::OutOfBudget(number) => Ok(Row {
            kind: Kind::Budget,
            place: None,
            detail: Detail::Budget {
                run: number.saturating_add(1),
                budget: interface.trials.get(number).map(|trial| trial.budget),
            },
        }),
        Point::WrongWord {
            trial,
            wanted,
            word,
        } => word_row(alloc, trial, expected(interface, trial, wanted), Some(word)),
        Point::NoWord { trial, wanted } => {
            word_row(alloc, trial, expected(interface, trial, wanted), None)
        }
    }
}

/// Adds the row of a refusal or a bound, if there are lines about it.
fn put_lines(
    alloc: Global,
    found: &mut Vec<Row>,
    kind: Kind,
    lines: &Option<Vec<u8>>,
) -> Result<(), AllocError>
    ensures { OnOk result (map spec.row found.new.items
        ≡ map spec.row found.old.items ++ spec.lines_rows kind lines.now) }
{
    if let Some(lines) = lines {
        found.push(Row {
            kind,
            place: None,
            detail: Detail::Lines(Vec::from_slice(alloc, lines)?),
        })?;
    }
    Ok(())
}

/// The rows of an answer about what is judged: that of the refusal, if it is refused, one for each
/// point, and that of the bound, if it isn't as required.
pub(crate) fn rows_of(
    alloc: Global,
    judged: &Judged,
    interface: &Interface,
    refusal: &Option<Vec<u8>>,
    points: &[Point],
    unbounded: &Option<Vec<u8>>,
) -> Result<Vec<Row>, AllocError>
    ensures rows { IfOk result (λ found. map spec.row found.items ≡ spec.rows_of interface.now
        (spec.held_of judged.now) refusal.now points.now unbounded.now) }
{
    let mut found = Vec::new(alloc);
    put_lines(alloc, &mut found, Kind::Refused, refusal)?;
    for point in points {
        let row = row_of(alloc, judged, interface, *point)?;
        found.push(row)?;
    }
    put_lines(alloc, &mut found, Kind::Bound, unbounded)?;
    Ok(found)
}
