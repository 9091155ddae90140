//! The lines of the arrows, which avoid the boxes of the rows between their ends, and the points on
//! them for the numbers of arrows.

use crate::drawing::{Drawing, Made, Place, Point, apart, at, between, moved};
use crate::groups::HALF;
use crate::rows::Placed;
use std::alloc::{AllocError, Global};

/// The most space between the ends of two arrows at one side of a box.
const STEP: usize = 15;
/// The space between a line and a box that it passes.
const CLEAR: usize = 8;
/// The space between the end of a line and the box of its target.
const TIP: usize = 5;

/// The position at a height of the straight line between two points.
fn position(from: Point, to: Point, y: usize) -> usize {
    between(from.x, to.x, apart(from.y, y), apart(from.y, to.y))
}

impl Placed<'_> {
    /// The position of the end of an arrow at a node: those at one side of a box are ordered by the
    /// nodes at their other ends, and then by their places in the list of all ends.
    fn port(&self, node: usize, other: usize, place: usize) -> usize {
        let own = at(&self.middles, other);
        let row = self.row_of(node);
        let is_above = row <= self.row_of(other);
        let mut count: usize = 0;
        let mut before: usize = 0;
        for (index, arrow) in self.graph.arrows.iter().enumerate() {
            for (number, from, to) in [(0, arrow.0, arrow.1), (1, arrow.1, arrow.0)] {
                if from != to && from == node && (row <= self.row_of(to)) == is_above {
                    let key = at(&self.middles, to);
                    let number = index.saturating_mul(2).saturating_add(number);
                    let is_before = key < own || (key == own && number < place);
                    count = count.saturating_add(1);
                    before = before.saturating_add(is_before as usize);
                }
            }
        }
        let room = self.graph.width_of(node).saturating_sub(24);
        let step = room.checked_div(count).unwrap_or(0).min(STEP);
        let half = count.saturating_sub(1).saturating_mul(step) / 2;
        let first = at(&self.middles, node).saturating_sub(half);
        first.saturating_add(before.saturating_mul(step))
    }

    /// Whether no box of a row is near the positions from one to another.
    fn is_free(&self, row: usize, from: usize, to: usize) -> bool {
        let (low, high) = (from.min(to), from.max(to));
        (0..self.middles.len()).all(|node| {
            let half = (self.graph.width_of(node) / 2).saturating_add(CLEAR);
            let middle = at(&self.middles, node);
            let is_near = low < middle.saturating_add(half) && middle < high.saturating_add(half);
            self.row_of(node) != row || !is_near
        })
    }

    /// Adds the points at which a line passes a row, unless it is straight there.
    fn pass(&self, line: &mut Vec<Point>, last: Point, to: Point, row: usize) -> Made<Point> {
        let middle = at(&self.frame.heights, row);
        let is_upwards = last.y > to.y;
        let near = moved(middle, HALF + 4, is_upwards);
        let far = moved(middle, HALF + 4, !is_upwards);
        if self.is_free(row, position(last, to, near), position(last, to, far)) {
            return Ok(last);
        }
        // The free position of the row nearest to the line's: that one, or one beside a box.
        let wanted = position(last, to, middle);
        let mut tries = vec![in self.alloc; wanted; 1]?;
        for node in (0..self.middles.len()).filter(|node| self.row_of(*node) == row) {
            let half = (self.graph.width_of(node) / 2).saturating_add(CLEAR + 3);
            tries.push(at(&self.middles, node).saturating_sub(half))?;
            tries.push(at(&self.middles, node).saturating_add(half))?;
        }
        let is_good = |x: &usize| (wanted == 0 || *x > 0) && self.is_free(row, *x, *x);
        let nearest = tries
            .iter()
            .copied()
            .filter(is_good)
            .min_by_key(|x| apart(*x, wanted));
        let x = nearest.unwrap_or(wanted);
        let end = Point { x, y: far };
        line.push(Point { x, y: near })?;
        line.push(end)?;
        Ok(end)
    }

    /// The line of an arrow with an index: one between two nodes of a row is above the row.
    pub(crate) fn way_of(&self, arrow: (usize, usize), index: usize) -> Made<Vec<Point>> {
        let mut line = Vec::new(self.alloc);
        if arrow.0 == arrow.1 {
            return Ok(line);
        }
        let (low, high) = (self.row_of(arrow.0), self.row_of(arrow.1));
        let (source, target) = (at(&self.frame.heights, low), at(&self.frame.heights, high));
        let place = index.saturating_mul(2);
        let from = Point {
            x: self.port(arrow.0, arrow.1, place),
            y: moved(source, HALF, source < target),
        };
        let to = Point {
            x: self.port(arrow.1, arrow.0, place.saturating_add(1)),
            y: moved(target, HALF + TIP, source >= target && low != high),
        };
        line.push(from)?;
        if low == high {
            let rise = (apart(from.x, to.x) / 24).min(16).saturating_add(14);
            let y = from.y.saturating_sub(rise);
            line.push(Point { x: from.x, y })?;
            line.push(Point { x: to.x, y })?;
        }
        let mut end = from;
        for step in 1..apart(low, high) {
            end = self.pass(&mut line, end, to, moved(low, step, low < high))?;
        }
        line.push(to)?;
        Ok(line)
    }
}

/// The distance between two points of a line that are tried for the number of its arrow.
const STRIDE: usize = 8;
/// The distance beyond which a point is free.
const ENOUGH: usize = 24;

/// The least distance of a point from others, up to `ENOUGH`.
fn distance_from(point: Point, others: &[Point]) -> usize {
    others
        .iter()
        .fold(ENOUGH, |found, other| found.min(point.distance(*other)))
}

/// The distance of a number from a stretch, 0 within it.
fn outside(from: usize, length: usize, number: usize) -> usize {
    let beyond = number.saturating_sub(from.saturating_add(length));
    from.saturating_sub(number).max(beyond)
}

/// The point of a line that is the most free, and of those the nearest to its middle: the farthest
/// from all other lines, from the boxes of nodes, and from the points that others have.
fn badge_of(places: &[Place], lines: &[Vec<Point>], own: usize, taken: &[Point]) -> Point {
    let mut found = Point { x: 0, y: 0 };
    let Some(line) = lines.get(own) else {
        return found;
    };
    let mut most: usize = 0;
    for number in 0..line.len() {
        let aside = number.saturating_add(1) / 2;
        let index = moved(line.len() / 2, aside, number % 2 == 0);
        let point = line.get(index).copied().unwrap_or(found);
        let mut free = distance_from(point, taken);
        for place in places {
            let across = outside(place.left, place.wide, point.x);
            free = free.min(across.max(outside(place.top, place.high, point.y)));
        }
        for (other, line) in lines.iter().enumerate() {
            if other != own && free > 0 {
                free = free.min(distance_from(point, line.as_slice()));
            }
        }
        if number == 0 || free > most {
            (most, found) = (free, point);
        }
    }
    found
}

/// For each of these arrows a point on its line, as far as possible from other lines, from boxes
/// and from the other points.
///
/// # Errors
///
/// Only if memory runs out.
pub fn badges_of(
    alloc: Global,
    drawing: &Drawing,
    arrows: &[usize],
) -> Result<Vec<Point>, AllocError> {
    let mut lines = Vec::new(alloc);
    for line in &drawing.ways {
        // Points of the line from its beginning to its end, a stride apart.
        let mut points = Vec::new(alloc);
        for (index, from) in line.iter().enumerate() {
            let to = line.get(index.saturating_add(1)).copied().unwrap_or(*from);
            let length = from.distance(to);
            for step in 0..(length / STRIDE).saturating_add(1) {
                points.push(from.towards(to, step.saturating_mul(STRIDE), length))?;
            }
        }
        lines.push(points)?;
    }
    let mut points = Vec::new(alloc);
    for own in arrows {
        points.push(badge_of(&drawing.places, &lines, *own, &points))?;
    }
    Ok(points)
}
