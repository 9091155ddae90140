//! Graphs and their drawings, and the test that a drawing is sound.

ghost use Rattle.std.specs.{Prelude.{◌≡◌, ◌≤◌, ◌<◌, ◌+◌, ℕ, length, IsTrue, IfOk, IfSome}, List.{slice_index_or}};
ghost use Rattle.vsi_layered.specs.{Drawing.{HasSize, IsWithin, AreApart, AllApart, AllSized, AllWithin, AllInside, IsSound}, declared.drawing.Place.{Place as Box}};

use crate::groups::{frame_of, groups_of};
use crate::rows::placed_in;
use std::alloc::{AllocError, Global};

/// The result of a function that needs memory.
pub(crate) type Made<T> = Result<T, AllocError>;

/// The number at an index, or 0 past the end.
pub(crate) fn at(list: &[usize], place: usize) -> usize {
    list.get(place).copied().unwrap_or(0)
}

/// Writes a number at an index, if there is one.
pub(crate) fn write_at(list: &mut Vec<usize>, place: usize, number: usize) {
    if let Some(cell) = list.get_mut(place) {
        *cell = number;
    }
}

/// Adds to the number at an index.
pub(crate) fn add_at(list: &mut Vec<usize>, place: usize, more: usize) {
    let sum = at(list, place).saturating_add(more);
    write_at(list, place, sum);
}

/// Raises the number at an index to another one.
pub(crate) fn raise_at(list: &mut Vec<usize>, place: usize, least: usize) {
    let most = at(list, place).max(least);
    write_at(list, place, most);
}

/// The distance between two numbers.
pub(crate) fn apart(one: usize, other: usize) -> usize {
    one.max(other).saturating_sub(one.min(other))
}

/// A number moved by a distance, up or down.
pub(crate) fn moved(number: usize, distance: usize, is_more: bool) -> usize {
    if is_more {
        number.saturating_add(distance)
    } else {
        number.saturating_sub(distance)
    }
}

/// The number that is `part` of `whole` on the way from a number to another.
pub(crate) fn between(from: usize, to: usize, part: usize, whole: usize) -> usize {
    let way = apart(from, to).saturating_mul(part).checked_div(whole);
    moved(from, way.unwrap_or(0), from <= to)
}

/// A node: the width and the height of its box, and the number of its group.
#[derive(Clone, Copy)]
pub struct Node {
    pub wide: usize,
    pub high: usize,
    pub group: usize,
}

/// A graph: its nodes; for each of up to 64 groups the least width of its box, and the set of the
/// groups at or above it, as bits; and its arrows, each with the numbers of both ends.
#[derive(Clone, Copy)]
pub struct Graph<'a> {
    pub nodes: &'a [Node],
    pub titles: &'a [usize],
    pub above: &'a [u64],
    pub arrows: &'a [(usize, usize)],
}

impl Graph<'_> {
    /// The number of a node's group, or the largest number for no node.
    pub(crate) fn group_of(self, node: usize) -> usize {
        self.nodes.get(node).map_or(usize::MAX, |node| node.group)
    }

    /// The width of a node's box.
    pub(crate) fn width_of(self, node: usize) -> usize {
        self.nodes.get(node).map_or(0, |node| node.wide)
    }

    /// Whether a group is at or below another.
    pub(crate) fn is_below(self, low: usize, high: usize) -> bool {
        let set = self.above.get(low).copied().unwrap_or(0);
        set & (1u64 << (high % 64)) != 0
    }
}

/// A point: its distances from the left edge and from the upper edge of a drawing.
#[derive(Clone, Copy)]
pub struct Point {
    pub x: usize,
    pub y: usize,
}

impl Point {
    /// The greater of the distances to another point across and down.
    pub fn distance(self, other: Point) -> usize {
        apart(self.x, other.x).max(apart(self.y, other.y))
    }

    /// The point that is `part` of `whole` on the way to another one.
    pub fn towards(self, other: Point, part: usize, whole: usize) -> Point {
        Point {
            x: between(self.x, other.x, part, whole),
            y: between(self.y, other.y, part, whole),
        }
    }
}

/// A box: its left edge, its upper edge, its width and its height.
#[derive(Clone, Copy, Default)]
pub struct Place {
    pub left: usize,
    pub top: usize,
    pub wide: usize,
    pub high: usize,
}

/// A drawing: the box of each node; the box of each group, empty for a group without nodes; for
/// each arrow the points of its line; and the width and the height of the drawing.
#[derive(Drop)]
pub struct Drawing {
    pub places: Vec<Place>,
    pub groups: Vec<Place>,
    pub ways: Vec<Vec<Point>>,
    pub wide: usize,
    pub high: usize,
}

/// Whether a stretch is within another one.
fn stretch_within(from: usize, length: usize, outer: usize, whole: usize) -> bool
    ensures { IsTrue result → (outer ≤ from) × (from + length ≤ outer + whole) }
{
    outer <= from && length <= whole && from - outer <= whole - length
}

/// Whether a stretch ends before a number.
fn ends_before(from: usize, length: usize, other: usize) -> bool
    ensures { IsTrue result → from + length ≤ other }
{
    from <= other && length <= other - from
}

/// Whether a box has the size that its node asks for, and isn't empty.
fn has_size(node: Node, place: Place) -> bool
    ensures { IsTrue result → HasSize node place }
{
    place.wide == node.wide && place.high == node.high && place.wide > 0 && place.high > 0
}

/// Whether a box is within another one.
fn is_within(inner: Place, outer: Place) -> bool
    ensures { IsTrue result → IsWithin inner outer }
{
    stretch_within(inner.left, inner.wide, outer.left, outer.wide)
        && stretch_within(inner.top, inner.high, outer.top, outer.high)
}

/// Whether two boxes have no point in common.
fn are_apart(one: Place, other: Place) -> bool
    ensures { IsTrue result → AreApart one other }
{
    ends_before(one.left, one.wide, other.left)
        || ends_before(other.left, other.wide, one.left)
        || ends_before(one.top, one.high, other.top)
        || ends_before(other.top, other.high, one.top)
}

/// Whether a box and each one before it have no point in common.
fn is_apart_from_first(places: &[Place], place: usize) -> bool
    requires { place < length places.now }
    ensures { IsTrue result → (j : ℕ) (d : Box) → j < place
        → AreApart (slice_index_or places.now j d) (slice_index_or places.now place d) }
{
    for other in 0..place {
        if !are_apart(places[other], places[place]) {
            return false;
        }
    }
    true
}

/// Whether each box is within a frame, and no two boxes have a point in common.
fn are_laid_out(places: &[Place], frame: Place) -> bool
    ensures inside { IsTrue result → AllInside frame places.now }
    ensures apart { IsTrue result → AllApart places.now }
{
    for place in 0..places.len() {
        if !is_within(places[place], frame) {
            return false;
        }
        if !is_apart_from_first(places, place) {
            return false;
        }
    }
    true
}

/// Whether each node's box has the size that the node asks for, and is within the box of its group.
fn are_all_placed(nodes: &[Node], places: &[Place], groups: &[Place]) -> bool
    requires { length nodes.now ≤ length places.now }
    ensures sized { IsTrue result → AllSized nodes.now places.now }
    ensures within { IsTrue result → AllWithin nodes.now places.now groups.now }
{
    for node in 0..nodes.len() {
        if !has_size(nodes[node], places[node]) || groups.len() <= nodes[node].group {
            return false;
        }
        if !is_within(places[node], groups[nodes[node].group]) {
            return false;
        }
    }
    true
}

/// Whether a drawing has a box for each node, of the size that it asks for and within the box of
/// its group, and no two boxes of nodes or of groups overlap or reach out of the picture.
pub(crate) fn is_sound(nodes: &[Node], drawing: &Drawing) -> bool
    ensures { IsTrue result → IsSound nodes.now drawing.now }
{
    if drawing.places.len() != nodes.len() {
        return false;
    }
    if !are_all_placed(nodes, &drawing.places, &drawing.groups) {
        return false;
    }
    let frame = Place {
        left: 0,
        top: 0,
        wide: drawing.wide,
        high: drawing.high,
    };
    if !are_laid_out(&drawing.places, frame) {
        return false;
    }
    are_laid_out(&drawing.groups, frame)
}

/// The drawing of a graph, if the search finds one that is sound; it finds none if a node's group
/// has no number below 64, if a node has no size, or if numbers are too large.
///
/// # Errors
///
/// Only if memory runs out.
pub fn drawing_of(alloc: Global, graph: Graph<'_>) -> Result<Option<Drawing>, AllocError>
    ensures sound { IfOk result (λ found. IfSome found (IsSound graph.entry.nodes.now)) }
{
    let mut groups = groups_of(alloc, graph)?;
    let frame = frame_of(&mut groups)?;
    let placed = placed_in(alloc, graph, &frame)?;
    let places = placed.places()?;
    let mut ways = Vec::new(alloc);
    for (index, arrow) in graph.arrows.iter().enumerate() {
        ways.push(placed.way_of(*arrow, index)?)?;
    }
    drop(placed);
    let drawing = Drawing {
        places,
        groups: frame.boxes,
        ways,
        wide: frame.wide,
        high: frame.high,
    };
    Ok(is_sound(graph.nodes, &drawing).then_some(drawing))
}
