//! Turns events into commands over locations.

use crate::flow::Unread;
use crate::lasting::needs_of;
use crate::reading::{Event, Need, Part, events_of, span_at};
use std::alloc::Global;
use std::mem;
use vsi_image::Image;
use vsi_scope::{Cmd, Ex};
use vsi_syntax::MAX_DEPTH;

/// The most declarations of a program, globals and `letvar`s together.
pub(crate) const MAX_DECLARATIONS: usize = 1024;

/// The commands of the code, and the place of the store that begins each `letvar`, in the order of
/// the code.
#[derive(Drop)]
pub(crate) struct Commands {
    pub letvars: Vec<usize>,
    pub body: Vec<Cmd>,
}

/// A `letvar` that has begun but not ended, and the commands before it in its sequence.
#[derive(Drop)]
struct Local {
    value: Ex,
    before: Vec<Cmd>,
}

/// A conditional or a loop that has begun but not ended: the first branch of a conditional, if that
/// has ended, and the state before it.
#[derive(Drop)]
struct Frame {
    guard: Ex,
    yes: Vec<Cmd>,
    before: Vec<Cmd>,
    floor: u16,
}

/// A builder of commands.
#[derive(Drop)]
struct Builder {
    locals: Vec<Local>,
    frames: Vec<Frame>,
    /// The commands of the innermost sequence.
    done: Vec<Cmd>,
    letvars: Vec<usize>,
    /// The number of slots in scope.
    scope: u16,
    /// The number of slots that were in scope where the innermost branch or body began.
    floor: u16,
    /// Whether a `letvar` ends as soon as its slot is no longer needed, rather than only with its
    /// branch or body.
    ends_early: bool,
}

/// The commands of an image's code: with as many `letvar`s as possible, or, if those are too many,
/// with as few as possible.
///
/// # Errors
///
/// `At` with the number of the first instruction that doesn't belong to commands.
pub(crate) fn commands_of(alloc: Global, image: &Image) -> Result<Commands, Unread> {
    let commands = build(alloc, image, true)?;
    if image.globals.len().saturating_add(commands.letvars.len()) <= MAX_DECLARATIONS {
        return Ok(commands);
    }
    build(alloc, image, false)
}

/// The commands of an image's code.
fn build(alloc: Global, image: &Image, ends_early: bool) -> Result<Commands, Unread> {
    let globals = image.globals.len().min(256) as u16;
    let events = events_of(alloc, &image.code)?;
    let mut needs = needs_of(alloc, globals, &events)?;
    let mut builder = Builder {
        locals: Vec::new(alloc),
        frames: Vec::new(alloc),
        done: Vec::new(alloc),
        letvars: Vec::new(alloc),
        scope: globals,
        floor: globals,
        ends_early,
    };
    for event in events {
        // The needs are in reverse order.
        let need = needs.pop().unwrap_or(Need {
            scope: 0,
            begins: false,
        });
        put_event(&mut builder, alloc, need, event)?;
    }
    end_letvars(&mut builder, globals)?;
    let Builder { letvars, done, .. } = builder;
    Ok(Commands {
        letvars,
        body: done,
    })
}

/// Adds an event.
fn put_event(builder: &mut Builder, alloc: Global, need: Need, event: Event) -> Result<(), Unread> {
    match event {
        Event::Store {
            slot,
            place,
            reads,
            value,
        } => {
            begin(builder, need, place, reads)?;
            put_store(builder, alloc, need.begins, slot, place, value)
        }
        Event::Begin {
            place,
            reads,
            guard,
            ..
        } => {
            begin(builder, need, place, reads)?;
            have_room(builder, place)?;
            let before = mem::replace(&mut builder.done, Vec::new(alloc));
            let yes = Vec::new(alloc);
            let floor = mem::replace(&mut builder.floor, builder.scope);
            Ok(
                builder.frames.push(Frame {
                    guard,
                    yes,
                    before,
                    floor,
                })?,
            )
        }
        Event::Else => {
            end_letvars(builder, 0)?;
            if let Some(frame) = builder.frames.last_mut() {
                frame.yes = mem::replace(&mut builder.done, Vec::new(alloc));
            }
            Ok(())
        }
        Event::End(part) => end_part(builder, part),
    }
}

/// Ends the `letvar`s that are no longer needed, and checks that the slots to be read are in scope.
fn begin(builder: &mut Builder, need: Need, place: usize, reads: u16) -> Result<(), Unread> {
    if builder.ends_early {
        end_letvars(builder, need.scope)?;
    }
    if reads > builder.scope {
        return Err(Unread::At(place));
    }
    Ok(())
}

/// Checks that there is room for one more open command.
fn have_room(builder: &Builder, place: usize) -> Result<(), Unread> {
    if builder.locals.len().saturating_add(builder.frames.len()) >= MAX_DEPTH as usize {
        return Err(Unread::At(place));
    }
    Ok(())
}

/// Adds a store: a `letvar` if it may begin one and its slot is the next one, otherwise an
/// assignment.
fn put_store(
    builder: &mut Builder,
    alloc: Global,
    begins: bool,
    slot: u16,
    place: usize,
    value: Ex,
) -> Result<(), Unread> {
    if begins && slot == builder.scope {
        have_room(builder, place)?;
        let before = mem::replace(&mut builder.done, Vec::new(alloc));
        builder.locals.push(Local { value, before })?;
        builder.letvars.push(place)?;
        builder.scope = builder.scope.saturating_add(1);
        return Ok(());
    }
    if slot >= builder.scope {
        return Err(Unread::At(place));
    }
    builder.done.push(Cmd::Assign {
        loc: slot,
        span: span_at(place),
        value,
    })?;
    Ok(())
}

/// Ends the `letvar`s of the innermost branch or body whose slots are this one or above.
fn end_letvars(builder: &mut Builder, scope: u16) -> Result<(), Unread> {
    let keep = scope.max(builder.floor);
    for _ in keep..builder.scope {
        let Some(Local { value, before }) = builder.locals.pop() else {
            return Ok(());
        };
        let body = mem::replace(&mut builder.done, before);
        builder.scope = builder.scope.saturating_sub(1);
        builder.done.push(Cmd::Letvar { value, body })?;
    }
    Ok(())
}

/// Ends a conditional or a loop.
fn end_part(builder: &mut Builder, part: Part) -> Result<(), Unread> {
    end_letvars(builder, 0)?;
    let Some(frame) = builder.frames.pop() else {
        return Ok(());
    };
    let Frame {
        guard,
        yes,
        before,
        floor,
    } = frame;
    builder.floor = floor;
    let last = mem::replace(&mut builder.done, before);
    builder.done.push(match part {
        Part::If => Cmd::If {
            guard,
            yes,
            no: last,
        },
        Part::While => Cmd::While { guard, body: last },
    })?;
    Ok(())
}
