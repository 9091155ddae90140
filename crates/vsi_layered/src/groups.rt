//! The levels and the columns of the groups that have nodes, the layers of the nodes within their
//! groups, the boxes of the groups, and the rows of the nodes.
//!
//! The groups of a column form a chain, so in it no group is above another one that it isn't above
//! in the order. The box of a group reaches over the columns beside its own whose groups it can be
//! compared with.

use crate::drawing::{Graph, Made, Place, add_at, apart, at, raise_at, write_at};
use std::alloc::Global;

/// The groups of a graph: for each the number of its nodes, its level, its column, the first and
/// the last column of its box, the number of its layers, and the width of the widest one; the layer
/// of each node within its group; and the number of columns.
#[derive(Drop)]
pub(crate) struct Groups<'a> {
    pub(crate) alloc: Global,
    pub(crate) graph: Graph<'a>,
    pub(crate) nodes: Vec<usize>,
    pub(crate) levels: Vec<usize>,
    pub(crate) columns: Vec<usize>,
    pub(crate) firsts: Vec<usize>,
    pub(crate) lasts: Vec<usize>,
    pub(crate) layers: Vec<usize>,
    pub(crate) heights: Vec<usize>,
    pub(crate) widths: Vec<usize>,
    pub(crate) count: usize,
}

/// The layer of a node that has none yet.
const UNPLACED: usize = usize::MAX;
/// The most columns whose order is searched.
const MOST: usize = 12;
/// The space between two boxes of nodes.
pub(crate) const GAP: usize = 30;
/// The width of all columns together at which the layers of a group are full.
const FULL: usize = 1_040;
/// The least width at which a layer is full.
const LEAST: usize = 230;
/// The height of a row: a box and the space above it.
const ROW: usize = 86;
/// Half the height of a box of a node.
pub(crate) const HALF: usize = 17;
/// The space in a group's box above its uppermost boxes, where its title is.
const HEAD: usize = 40;
/// The space in a group's box below its lowest boxes.
const FOOT: usize = 18;
/// The space between the boxes of two groups.
const BETWEEN: usize = 34;
/// The space at the left and at the right of the boxes within a group's box.
const SIDE: usize = 18;
/// The space around a drawing.
const MARGIN: usize = 8;

/// The total distance of columns over which arrows go.
fn cost(graph: Graph<'_>, columns: &[usize]) -> usize {
    let mut sum: usize = 0;
    for arrow in graph.arrows {
        let from = at(columns, graph.group_of(arrow.0));
        sum = sum.saturating_add(apart(from, at(columns, graph.group_of(arrow.1))));
    }
    sum
}

/// Swaps two columns.
fn swap(columns: &mut Vec<usize>, one: usize, other: usize) {
    for cell in columns {
        if *cell == one || *cell == other {
            *cell = one.saturating_add(other).saturating_sub(*cell);
        }
    }
}

/// The first layer from `least` on that has room for a width.
fn layer_with_room(widths: &[usize], least: usize, wide: usize, full: usize) -> usize {
    let has_room = |used: usize| used == 0 || used.saturating_add(wide) <= full;
    let found = (least..widths.len()).find(|layer| has_room(at(widths, *layer)));
    found.unwrap_or(least)
}

/// The row of each node, from below; the height of the middle of each row; the boxes of the groups;
/// and the width and the height of the drawing.
#[derive(Drop)]
pub(crate) struct Frame {
    pub(crate) rows: Vec<usize>,
    pub(crate) heights: Vec<usize>,
    pub(crate) boxes: Vec<Place>,
    pub(crate) wide: usize,
    pub(crate) high: usize,
}

/// The sum of the numbers before an index.
fn sum_before(list: &[usize], place: usize) -> usize {
    list.iter()
        .take(place)
        .fold(0usize, |sum, number| sum.saturating_add(*number))
}

/// The left edge of a column, without the margin.
fn column_left(widths: &[usize], column: usize) -> usize {
    sum_before(widths, column).saturating_add(column.saturating_mul(BETWEEN))
}

/// The width of the columns from one to another, with the spaces between them.
fn columns_width(widths: &[usize], first: usize, last: usize) -> usize {
    let right = column_left(widths, last).saturating_add(at(widths, last));
    right.saturating_sub(column_left(widths, first))
}

/// The height of the bottom of a level above the bottom of the drawing.
fn level_foot(rows: &[usize], level: usize) -> usize {
    let spaces = level.saturating_mul(HEAD + FOOT + BETWEEN + 2 * HALF - ROW);
    spaces.saturating_add(sum_before(rows, level).saturating_mul(ROW))
}

/// The height of a level's boxes.
fn level_height(rows: &[usize], level: usize) -> usize {
    let above = at(rows, level).saturating_sub(1).saturating_mul(ROW);
    above.saturating_add(HEAD + FOOT + 2 * HALF)
}

/// The heights of the rows, from below.
fn row_heights(alloc: Global, rows: &[usize], high: usize) -> Made<Vec<usize>> {
    let mut heights = Vec::new(alloc);
    for level in 0..rows.len() {
        for row in 0..at(rows, level) {
            let up = level_foot(rows, level).saturating_add(row.saturating_mul(ROW));
            heights.push(high.saturating_sub(up.saturating_add(FOOT + HALF + MARGIN)))?;
        }
    }
    Ok(heights)
}

impl Groups<'_> {
    /// Orders the columns so that arrows go over few of them: swaps two if that shortens the
    /// arrows.
    fn order_columns(&mut self) {
        for _ in 0..self.count {
            for one in 0..self.count {
                for other in 0..one {
                    let before = cost(self.graph, &self.columns);
                    swap(&mut self.columns, one, other);
                    if cost(self.graph, &self.columns) >= before {
                        swap(&mut self.columns, one, other);
                    }
                }
            }
        }
    }

    /// Puts the groups into columns, level by level: each above the highest group at the top of a
    /// column that is below it.
    fn put_all(&mut self) -> Made<()> {
        let has_nodes = |group: &usize| at(&self.nodes, *group) > 0;
        let mut groups: Vec<usize> = (0..self.nodes.len()).filter(has_nodes).collect(self.alloc)?;
        groups.sort_by_key(|group| at(&self.levels, *group))?;
        let mut tops: Vec<usize> = Vec::new(self.alloc);
        for group in groups.iter().copied() {
            let mut column = tops.len();
            for (number, top) in tops.iter().enumerate() {
                let is_higher = at(&self.levels, *top) > at(&self.levels, at(&tops, column));
                if self.graph.is_below(*top, group) && (column == tops.len() || is_higher) {
                    column = number;
                }
            }
            write_at(&mut self.columns, group, column);
            if column == tops.len() {
                tops.push(group)?;
            }
            write_at(&mut tops, column, group);
        }
        self.count = tops.len();
        if self.count <= MOST {
            self.order_columns();
        }
        self.firsts = self.columns.to_vec(self.alloc)?;
        self.lasts = self.columns.to_vec(self.alloc)?;
        Ok(())
    }

    /// Whether a group can be compared with each other one whose box is in a column.
    fn can_reach(&self, group: usize, column: usize) -> bool {
        (0..self.nodes.len()).all(|other| {
            let is_there = at(&self.firsts, other) <= column && column <= at(&self.lasts, other);
            !is_there
                || at(&self.nodes, other) == 0
                || self.graph.is_below(group, other)
                || self.graph.is_below(other, group)
        })
    }

    /// Widens the box of a group over the columns beside it that it can reach.
    fn widen(&mut self, group: usize) {
        let own = at(&self.columns, group);
        let blocks = |column: &usize| !self.can_reach(group, *column);
        let next = (own.saturating_add(1)..self.count).find(blocks);
        let last = next.unwrap_or(self.count).saturating_sub(1);
        let before = (0..own).rev().find(blocks);
        let first = before.map_or(0, |column| column.saturating_add(1));
        write_at(&mut self.lasts, group, last);
        write_at(&mut self.firsts, group, first);
    }

    /// The number of columns over which the box of a group reaches.
    fn columns_of(&self, group: usize) -> usize {
        let last = at(&self.lasts, group).saturating_add(1);
        last.saturating_sub(at(&self.firsts, group))
    }

    /// The width at which a layer of a group is full: its share of the columns.
    fn full_width(&self, group: usize) -> usize {
        let share = FULL.saturating_mul(self.columns_of(group)) / self.count.max(1);
        share.max(LEAST)
    }

    /// How many arrows come to a node from others of its group without a layer, and the first layer
    /// above those of all others from which arrows come.
    fn wait_of(&self, node: usize) -> (usize, usize) {
        let mut waits: usize = 0;
        let mut least: usize = 0;
        let group = self.graph.group_of(node);
        for arrow in self.graph.arrows {
            let is_inside = arrow.0 != arrow.1 && self.graph.group_of(arrow.0) == group;
            if arrow.1 == node && is_inside {
                let layer = at(&self.layers, arrow.0);
                if layer == UNPLACED {
                    waits = waits.saturating_add(1);
                } else {
                    least = least.max(layer.saturating_add(1));
                }
            }
        }
        (waits, least)
    }

    /// The next node of a group: the one with the fewest arrows from nodes without a layer.
    fn next_of(&self, group: usize) -> Option<usize> {
        let is_left = |node: usize| at(&self.layers, node) == UNPLACED;
        (0..self.layers.len())
            .filter(|node| self.graph.group_of(*node) == group && is_left(*node))
            .min_by_key(|node| self.wait_of(*node).0)
    }

    /// The number of rows of each level.
    fn level_rows(&self) -> Made<Vec<usize>> {
        let past = |most: usize, level: &usize| most.max(level.saturating_add(1));
        let mut rows = vec![in self.alloc; 1; self.levels.iter().fold(1, past)]?;
        for group in 0..self.levels.len() {
            raise_at(&mut rows, at(&self.levels, group), at(&self.heights, group));
        }
        Ok(rows)
    }

    /// The widths of the columns, widened for each group until its box is wide enough: those of the
    /// groups with one column first.
    fn column_widths(&self) -> Made<Vec<usize>> {
        let mut widths = vec![in self.alloc; 0; self.count]?;
        for columns in 1..self.count.saturating_add(1) {
            for group in 0..self.nodes.len() {
                if self.columns_of(group) != columns || at(&self.nodes, group) == 0 {
                    continue;
                }
                let (first, last) = (at(&self.firsts, group), at(&self.lasts, group));
                let title = at(self.graph.titles, group);
                let inner = at(&self.widths, group).saturating_sub(GAP).max(title);
                let needed = inner.saturating_add(2 * SIDE);
                let lacks = needed.saturating_sub(columns_width(&widths, first, last));
                if lacks > 0 {
                    for column in first..last.saturating_add(1) {
                        add_at(&mut widths, column, (lacks / columns).saturating_add(1));
                    }
                }
            }
        }
        Ok(widths)
    }

    /// The box of a group.
    fn box_of(&self, rows: &[usize], widths: &[usize], high: usize, group: usize) -> Place {
        if at(&self.nodes, group) == 0 {
            return Place::default();
        }
        let first = at(&self.firsts, group);
        let level = at(&self.levels, group);
        let tall = level_height(rows, level);
        let foot = level_foot(rows, level).saturating_add(MARGIN);
        Place {
            left: column_left(widths, first).saturating_add(MARGIN),
            top: high.saturating_sub(foot.saturating_add(tall)),
            wide: columns_width(widths, first, at(&self.lasts, group)),
            high: tall,
        }
    }

    /// The rows of the nodes: their layers, in the middle of the rows of their levels.
    fn rows(&self, rows: &[usize]) -> Made<Vec<usize>> {
        let mut list = Vec::new(self.alloc);
        for node in 0..self.layers.len() {
            let group = self.graph.group_of(node);
            let level = at(&self.levels, group);
            let spare = at(rows, level).saturating_sub(at(&self.heights, group)) / 2;
            let row = spare.saturating_add(at(&self.layers, node));
            list.push(sum_before(rows, level).saturating_add(row))?;
        }
        Ok(list)
    }
}

/// The groups of a graph, with their levels and columns, and without layers.
pub(crate) fn groups_of(alloc: Global, graph: Graph<'_>) -> Made<Groups<'_>> {
    let count = graph.titles.len();
    let mut groups = Groups {
        alloc,
        graph,
        nodes: vec![in alloc; 0; count]?,
        levels: vec![in alloc; 0; count]?,
        columns: vec![in alloc; 0; count]?,
        firsts: Vec::new(alloc),
        lasts: Vec::new(alloc),
        layers: vec![in alloc; UNPLACED; graph.nodes.len()]?,
        heights: vec![in alloc; 0; count]?,
        widths: vec![in alloc; 0; count]?,
        count: 0,
    };
    for node in graph.nodes {
        add_at(&mut groups.nodes, node.group, 1);
    }
    // The level of a group is the length of the longest chain of groups with nodes up to it.
    for _ in 0..count {
        for high in 0..count {
            for low in 0..count {
                let have_nodes = at(&groups.nodes, low) > 0 && at(&groups.nodes, high) > 0;
                if low != high && have_nodes && graph.is_below(low, high) {
                    let least = at(&groups.levels, low).saturating_add(1);
                    raise_at(&mut groups.levels, high, least);
                }
            }
        }
    }
    groups.put_all()?;
    for group in 0..count {
        if at(&groups.nodes, group) > 0 {
            groups.widen(group);
        }
    }
    Ok(groups)
}

/// The frame of a drawing, after the nodes of all groups have got their layers.
pub(crate) fn frame_of(groups: &mut Groups<'_>) -> Made<Frame> {
    let alloc = groups.alloc;
    for group in 0..groups.nodes.len() {
        let full = groups.full_width(group);
        let count = at(&groups.nodes, group);
        let mut used = vec![in groups.alloc; 0; count]?;
        for _ in 0..count {
            if let Some(node) = groups.next_of(group) {
                let least = groups.wait_of(node).1;
                let wide = groups.graph.width_of(node).saturating_add(GAP);
                let layer = layer_with_room(&used, least, wide, full);
                add_at(&mut used, layer, wide);
                write_at(&mut groups.layers, node, layer);
                raise_at(&mut groups.widths, group, at(&used, layer));
                raise_at(&mut groups.heights, group, layer.saturating_add(1));
            }
        }
    }
    let rows = groups.level_rows()?;
    let widths = groups.column_widths()?;
    let top = rows.len().saturating_sub(1);
    let high = level_foot(&rows, top).saturating_add(level_height(&rows, top));
    let high = high.saturating_add(2 * MARGIN);
    let wide = columns_width(&widths, 0, groups.count.saturating_sub(1));
    let mut boxes = Vec::new(alloc);
    for group in 0..groups.nodes.len() {
        boxes.push(groups.box_of(&rows, &widths, high, group))?;
    }
    Ok(Frame {
        rows: groups.rows(&rows)?,
        heights: row_heights(alloc, &rows, high)?,
        boxes,
        wide: wide.saturating_add(2 * MARGIN),
        high,
    })
}
