//! The lattice in the language of Graphviz, with its classes by number, and parts of graphs.

ghost use Rattle.std.specs.{Prelude.{◌≡◌, ◌⊎◌, ◌+◌, IsTrue, IsFalse, IfOk, OnOk, ◌++◌, length, ◌≤◌}, List.{flat_map}};
ghost use Rattle.vsi_lattice.specs.{LatticeView.{names, order}, Order.{IsClass, Below}};
ghost use Rattle.vsi_report.specs.{Covering.{Covers, StandsBetween, HasJust, IsCoveringPair, IsRowSoFar}, Graph.{name_at, texts}, Drawn.{shown}};
ghost use Rattle.vsi_types.specs.Security.{count_from};
ghost use Rattle.vsi_infer.specs.{Flowing.{variable_at as variable_at_of}, StepsBetween.{leads_by}};
ghost use Rattle.vsi_report.specs.Graph as classes_spec;
ghost use Rattle.vsi_report.specs.FlowsGraph as spec;

use crate::page::Part::{Bytes, Markup, Number};
use crate::page::{Added, Made, Piece, fill};
use std::alloc::{AllocError, Global};
use vsi_flows::declarations;
use vsi_infer::{declared_class, same_rule};
use vsi_lattice::{Class, Classes, Lattice};
use vsi_scope::{Resolved, Var};
use vsi_types::{LOOP, Profile, Rule, Step};

/// The classes of a lattice by their numbers: the name of each; the covering pairs, with the lower
/// class first; and, for each class, the set of the classes at or above it, as bits.
#[derive(Drop)]
pub(crate) struct Order {
    pub(crate) names: Vec<Vec<u8>>,
    pub(crate) covers: Vec<(usize, usize)>,
    pub(crate) above: Vec<u64>,
}

/// Whether a class is between two others and differs from both.
fn stands_between(lattice: &Lattice, low: Class, high: Class, class: Class) -> bool
    requires low { IsClass (order lattice.now) low }
    requires high { IsClass (order lattice.now) high }
    requires class { IsClass (order lattice.now) class }
    ensures stands { IsTrue result → StandsBetween (order lattice.now) low high class }
    ensures nothing { IsFalse result → Below (order lattice.now) low class
        → Below (order lattice.now) class high → (class ≡ low) ⊎ (class ≡ high) }
{
    class != low && class != high && lattice.leq(low, class) && lattice.leq(class, high)
}

/// Whether the second class covers the first.
pub(crate) fn covers(lattice: &Lattice, low: Class, high: Class) -> bool
    requires low { IsClass (order lattice.now) low }
    requires high { IsClass (order lattice.now) high }
    ensures covers { IsTrue result → Covers (order lattice.now) low high }
    ensures each { Covers (order lattice.now) low high → IsTrue result }
{
    if low == high || !lattice.leq(low, high) {
        return false;
    }
    for middle in 0..lattice.count() {
        if stands_between(lattice, low, high, Class::at(middle as u8)) {
            return false;
        }
    }
    true
}

/// Adds the pairs of a class and the classes that cover it.
fn put_covers(lattice: &Lattice, low: usize, pairs: &mut Vec<(usize, usize)>) -> Added
    requires { IsClass (order lattice.now) low }
    ensures { HasJust (IsRowSoFar (order lattice.now) low 0) pairs.old.items
        → OnOk result (HasJust (IsRowSoFar (order lattice.now) (low + 1) 0) pairs.new.items) }
{
    for high in 0..lattice.count() {
        if covers(lattice, Class::at(low as u8), Class::at(high as u8)) {
            pairs.push((low, high))?;
        }
    }
    Ok(())
}

/// Whether a class is at or below another.
pub(crate) fn is_below(order: &Order, low: usize, high: usize) -> bool {
    let set = order.above.get(low).copied().unwrap_or(0);
    set & (1u64 << (high % 64)) != 0
}

/// The order of a lattice.
pub(crate) fn order_of(alloc: Global, lattice: &Lattice) -> Made<Order>
    ensures covers { IfOk result
        (λ o. HasJust (IsCoveringPair (order lattice.now)) o.covers.items) }
    ensures names { IfOk result (λ o. texts o.names.items ≡ names lattice.now) }
{
    let mut names = Vec::new(alloc);
    for number in 0..lattice.count() {
        names.push(lattice.name(Class::at(number as u8)).to_vec(alloc)?)?;
    }
    let mut covers = Vec::new(alloc);
    let mut above = Vec::new(alloc);
    for low in 0..lattice.count() {
        put_covers(lattice, low, &mut covers)?;
        let mut set: u64 = 0;
        for class in 0..lattice.count() {
            if lattice.leq(Class::at(low as u8), Class::at(class as u8)) {
                set |= 1u64 << (class % 64);
            }
        }
        above.push(set)?;
    }
    Ok(Order {
        names,
        covers,
        above,
    })
}

/// The name of a class, or an empty name for any other number.
pub(crate) fn name_of(order: &Order, class: usize) -> &[u8]
    ensures { result.now ≡ name_at (texts order.now.names.items) class }
{
    match order.names.get(class) {
        Some(name) => name.as_slice(),
        None => b"",
    }
}

/// A graph with a name and the lines of its body.
const GRAPH: &[u8] = b"digraph %0 {\n  rankdir=BT;\n  ranksep=0.35;\n  \
node [shape=box, style=rounded, penwidth=2];\n  \
edge [color=\"#57606a\", fontcolor=\"#57606a\", fontsize=11];\n%1}\n";
/// The node of a class.
const CLASS: &[u8] = b"  \"%0\" [color=\"%1\", fontcolor=\"%1\"];\n";
/// The line that keeps a class above another one.
const ABOVE: &[u8] = b"  \"above.%0\" -> \"below.%1\" [minlen=0];\n";
/// The line that keeps a node between the points of a class.
const BETWEEN: &[u8] = b"  \"below.%0\" -> \"v.%1\" -> \"above.%0\";\n";

/// The graph with a name and the lines of its body.
pub(crate) fn graph_text(alloc: Global, name: &[u8], lines: &[u8]) -> Made<Vec<u8>>
    ensures { IfOk result (λ text. text.items ≡ classes_spec.graph name.now lines.now) }
{
    let mut text = Vec::new(alloc);
    fill(&mut text, GRAPH, &[Bytes(name), Bytes(lines)])?;
    Ok(text)
}

/// The colour of a class, that of the pages in light.
pub(crate) fn colour(class: usize) -> Piece
    ensures { result.now ≡ classes_spec.colour class }
{
    match class % 8 {
        0 => b"#2e23a9",
        1 => b"#984a92",
        2 => b"#627039",
        3 => b"#5058de",
        4 => b"#490359",
        5 => b"#10370f",
        6 => b"#763b63",
        _ => b"#1f1821",
    }
}

/// Adds the nodes of the classes.
fn put_classes(text: &mut Vec<u8>, order: &Order) -> Added
    ensures { OnOk result (text.new.items ≡ text.old.items
        ++ flat_map (classes_spec.node_line (texts order.now.names.items))
        (count_from 0 (length (texts order.now.names.items)))) }
{
    for class in 0..order.names.len() {
        let parts = [Bytes(name_of(order, class)), Markup(colour(class))];
        fill(text, CLASS, &parts)?;
    }
    Ok(())
}

/// Adds the edges of the covering pairs.
fn put_covering(text: &mut Vec<u8>, order: &Order) -> Added
    ensures { OnOk result (text.new.items ≡ text.old.items
        ++ flat_map (classes_spec.edge_line (texts order.now.names.items)) order.now.covers.items) }
{
    for pair in &order.covers {
        let parts = [Bytes(name_of(order, pair.0)), Bytes(name_of(order, pair.1))];
        fill(text, b"  \"%0\" -> \"%1\";\n", &parts)?;
    }
    Ok(())
}

/// The lines of a lattice: a node for each class, and an edge from each class to each one that
/// covers it.
pub(crate) fn lattice_lines(alloc: Global, lattice: &Lattice) -> Made<Vec<u8>>
    ensures { IfOk result (λ lines. classes_spec.AreLatticeLines lattice.now lines.items) }
{
    let order = order_of(alloc, lattice)?;
    let mut lines = Vec::new(alloc);
    put_classes(&mut lines, &order)?;
    put_covering(&mut lines, &order)?;
    Ok(lines)
}

/// The lattice: a node for each class, and an edge from each class to each one that covers it.
///
/// # Errors
///
/// Only if memory runs out.
pub fn lattice_dot(alloc: Global, lattice: &Lattice) -> Result<Vec<u8>, AllocError>
    ensures graph { IfOk result (λ text. classes_spec.IsLatticeGraph lattice.now text.items) }
{
    let lines = lattice_lines(alloc, lattice)?;
    graph_text(alloc, b"lattice", &lines)
}

/// The contents of a graph of flows: a program over a lattice, the chosen classes of its letvars,
/// and the steps of a refused walk.
#[derive(Clone, Copy)]
pub(crate) struct Drawn<'a> {
    pub(crate) lattice: &'a Lattice,
    pub(crate) order: &'a Order,
    pub(crate) program: &'a Resolved<'a>,
    pub(crate) chosen: &'a [Class],
    pub(crate) walk: &'a [Step],
}

/// The variable with a number; the last number belongs to the ending of loops.
pub(crate) fn variable_at(drawn: &Drawn<'_>, number: u16) -> Var
    ensures { result ≡ variable_at_of (spec.size (shown drawn.now)) number }
{
    if number == declarations(drawn.program) {
        LOOP
    } else {
        Var(number)
    }
}

/// The class of a variable: the declared one, otherwise the chosen one.
pub(crate) fn class_shown(drawn: &Drawn<'_>, variable: Var) -> Option<Class>
    ensures { result ≡ spec.class_shown (shown drawn.now) variable }
{
    if let Some(class) = declared_class(drawn.lattice, drawn.program, variable) {
        return Some(class);
    }
    let place = (variable.0 as usize).saturating_sub(drawn.program.globals().len());
    drawn.chosen.get(place).copied()
}

/// Whether the flow from a number to another keeps the order, if the classes of both are known.
pub(crate) fn is_upward(drawn: &Drawn<'_>, source: u16, target: u16) -> Option<bool>
    ensures { result ≡ spec.is_upward (shown drawn.now) source target }
{
    let low = class_shown(drawn, variable_at(drawn, source))?;
    let high = class_shown(drawn, variable_at(drawn, target))?;
    let (lattice, count) = (drawn.lattice, drawn.lattice.count());
    Some(low.index() < count && high.index() < count && lattice.leq(low, high))
}

/// Whether a step goes from a variable to another by a rule.
fn leads(step: &Step, rule: Rule, source: Var, target: Var) -> bool
    ensures { result ≡ leads_by rule source target step.now }
{
    same_rule(rule, step.rule) && step.source.0 == source.0 && step.target.0 == target.0
}

/// The number of the step of the refused walk from a number to another by a rule.
pub(crate) fn step_number(drawn: &Drawn<'_>, rule: Rule, source: u16, target: u16) -> Option<usize>
    ensures { result ≡ spec.step_number (shown drawn.now) rule source target }
{
    let (from, to) = (variable_at(drawn, source), variable_at(drawn, target));
    let mut rest = drawn.walk;
    let mut number: usize = 1;
    while let [step, behind @ ..] = rest {
        if leads(step, rule, from, to) {
            return Some(number);
        }
        rest = behind;
        number += 1;
    }
    None
}

/// The attributes of an edge, by the number of its step and by whether it keeps the order.
pub(crate) fn edge_words(number: Option<usize>, is_upward: Option<bool>) -> Piece
    ensures { result.now ≡ spec.edge_words number is_upward }
{
    match (number, is_upward) {
        (None, Some(true)) => b"",
        (None, Some(false)) => { b", color=\"#b01e1e\", fontcolor=\"#b01e1e\", constraint=false" }
        (None, None) => b", constraint=false",
        (Some(_), Some(true)) => { b", color=\"#b01e1e\", fontcolor=\"#b01e1e\", penwidth=4" }
        (Some(_), _) => {
            b", color=\"#b01e1e\", fontcolor=\"#b01e1e\", penwidth=4, constraint=false"
        }
    }
}

/// The number of nodes; the ending of loops has one under the strict profile only.
pub(crate) fn nodes_shown(profile: Profile, last: u16) -> u16
    requires { last ≤ 1024 }
    ensures { result ≡ spec.nodes_shown profile last }
{
    match profile {
        Profile::Base => last,
        Profile::Strict => last + 1,
    }
}

/// Adds the lines that keep each class above those that it covers.
fn put_above(text: &mut Vec<u8>, order: &Order) -> Added
    ensures { OnOk result (text.new.items ≡ text.old.items
        ++ flat_map spec.above_line order.now.covers.items) }
{
    for pair in &order.covers {
        let parts = [Number(pair.0), Number(pair.1)];
        fill(text, ABOVE, &parts)?;
    }
    Ok(())
}

/// Adds the line that keeps a numbered node between the points of a class.
fn put_between(text: &mut Vec<u8>, class: Option<Class>, number: u16) -> Added
    ensures { OnOk result (text.new.items ≡ text.old.items ++ spec.between_line class number) }
{
    let Some(class) = class else {
        return Ok(());
    };
    let parts = [Number(class.index()), Number(number as usize)];
    fill(text, BETWEEN, &parts)
}

/// Adds the invisible lines that keep the first variables of higher classes above those of lower
/// ones.
pub(crate) fn put_frame(text: &mut Vec<u8>, drawn: &Drawn<'_>, count: u16) -> Added
    ensures { OnOk result (text.new.items ≡ text.old.items
        ++ spec.frame_lines (shown drawn.now) count drawn.now.order.now.covers.items) }
{
    text.extend_from_slice(b"  {\n  node [shape=point, style=invis];\n  edge [style=invis];\n")?;
    for class in 0..drawn.order.names.len() {
        fill(text, b"  \"below.%0\" -> \"above.%0\";\n", &[Number(class)])?;
    }
    put_above(text, drawn.order)?;
    for number in 0..count {
        put_between(text, class_shown(drawn, variable_at(drawn, number)), number)?;
    }
    text.extend_from_slice(b"  }\n")?;
    Ok(())
}
