//! The flows of a text in the language of Graphviz.

ghost use Rattle.std.specs.{Prelude.{◌≡◌, ◌++◌, ◌≤◌, List, IfOk, IfErr, OnOk}, List.{All, flat_map}};
ghost use Rattle.vsi_lattice.specs.{Order.{IsClass}, LatticeView.{class_named, order as order_of_lattice}};
ghost use Rattle.vsi_syntax.specs.Tree.{Whole};
ghost use Rattle.vsi_scope.specs.{Language.{Command}, Resolving.{IsResolution}};
ghost use Rattle.vsi_types.specs.Security.{program as program_of, count_from};
ghost use Rattle.vsi_infer.specs.Inference.{AreClasses};
ghost use Rattle.vsi_compiler.specs.{Source.{Reads}, declared.source.CompileError.TheVariants.{Memory}, Refusal.{RefusesProgram}};
ghost use Rattle.vsi_report.specs.{ByRule.{flows_in_rows}, Drawn.{shown}, Graph.{texts}};
ghost use Rattle.vsi_report.specs.FlowsGraph as spec;

use crate::dot::{
    Drawn, Order, class_shown, colour, edge_words, graph_text, is_upward, lattice_lines, name_of,
    nodes_shown, order_of, put_frame, step_number, variable_at,
};
use crate::facts::{Flows, MOST_DRAWN, flows_of, has_flow, judged_classes};
use crate::page::Part::{Bytes, Number, Prefix};
use crate::page::{Added, Made, Piece, fill};
use std::alloc::Global;
use vsi_compiler::{CompileError, resolved_program};
use vsi_flows::declarations;
use vsi_infer::{declared_class, rule_text, variable_name};
use vsi_lattice::{Class, Lattice};
use vsi_scope::Resolved;
use vsi_types::{Profile, Rule};

/// The node of a variable with a class.
const NODE: &[u8] = b"  \"v.%0\" [label=\"%1 : %3\", color=\"%4\", fontcolor=\"%4\"%2];\n";
/// An edge.
const EDGE: &[u8] = b"  \"v.%0\" -> \"v.%1\" [label=\"  %2%3\", style=%4%5];\n";
/// The lines of a lattice and those of a text's flows, each in a box of their own.
const BOXES: &[u8] = b"subgraph cluster_lattice {\n  label=\"lattice\";\n  labelloc=b;\n  \
color=\"#d3dae1\";\n%0}\nsubgraph cluster_flows {\n  label=\"flows\";\n  labelloc=b;\n  \
color=\"#d3dae1\";\n%1}\n";

/// The attribute of a node whose variable has this declared class.
fn box_words(declared: Option<Class>) -> Piece
    ensures { result.now ≡ spec.box_words declared }
{
    match declared {
        Some(_) => b"",
        None => b", style=\"rounded,dashed\"",
    }
}

/// Adds the node of a variable with this number, name, attribute of its box and class.
fn put_node<'x>(
    text: &mut Vec<u8>,
    order: &'x Order,
    number: u16,
    name: &'x [u8],
    dashes: &'x [u8],
    class: Option<Class>,
) -> Added
    ensures { OnOk result (text.new.items ≡ text.old.items
        ++ spec.node_line (texts order.now.names.items) number name.now dashes.now class) }
{
    let Some(class) = class else {
        let parts = [Number(number as usize), Bytes(name), Bytes(dashes)];
        return fill(text, b"  \"v.%0\" [label=\"%1\"%2];\n", &parts);
    };
    let parts = [
        Number(number as usize),
        Bytes(name),
        Bytes(dashes),
        Bytes(name_of(order, class.index())),
        Bytes(colour(class.index())),
    ];
    fill(text, NODE, &parts)
}

/// Adds the node of the variable with a number.
fn put_variable(text: &mut Vec<u8>, drawn: &Drawn<'_>, number: u16) -> Added
    ensures { OnOk result
        (text.new.items ≡ text.old.items ++ spec.variable_line (shown drawn.now) number) }
{
    let variable = variable_at(drawn, number);
    let name = variable_name(drawn.program, variable);
    let dashes = box_words(declared_class(drawn.lattice, drawn.program, variable));
    let class = class_shown(drawn, variable);
    put_node(text, drawn.order, number, name, dashes, class)
}

/// Adds the nodes of the first variables.
fn put_variables(text: &mut Vec<u8>, drawn: &Drawn<'_>, count: u16) -> Added
    ensures { OnOk result (text.new.items ≡ text.old.items
        ++ flat_map (spec.variable_line (shown drawn.now)) (count_from 0 count)) }
{
    for number in 0..count {
        put_variable(text, drawn, number)?;
    }
    Ok(())
}

/// The style of an edge.
fn style(rule: Rule) -> Piece
    ensures { result.now ≡ spec.style_text rule }
{
    match rule {
        Rule::Assign => b"solid",
        Rule::If => b"dashed",
        Rule::While => b"dotted",
        Rule::Letvar => b"bold",
        Rule::Loop => b"\"dashed,bold\"",
    }
}

/// Adds the edge from a variable to another by a rule, if there is such a flow.
fn put_edge_by(
    text: &mut Vec<u8>,
    drawn: &Drawn<'_>,
    flows: &Flows,
    source: u16,
    target: u16,
    rule: Rule,
) -> Added
    ensures { OnOk result (text.new.items ≡ text.old.items
        ++ spec.line_by (shown drawn.now) (flows_in_rows flows.now) source target rule) }
{
    if !has_flow(flows, rule, source as usize, target as usize) {
        return Ok(());
    }
    let number = step_number(drawn, rule, source, target);
    let parts = [
        Number(source as usize),
        Number(target as usize),
        Prefix(number),
        Bytes(rule_text(rule)),
        Bytes(style(rule)),
        Bytes(edge_words(number, is_upward(drawn, source, target))),
    ];
    fill(text, EDGE, &parts)
}

/// Adds the edges from a variable to another, one for each rule.
fn put_edges(
    text: &mut Vec<u8>,
    drawn: &Drawn<'_>,
    flows: &Flows,
    source: u16,
    target: u16,
) -> Added
    ensures { OnOk result (text.new.items ≡ text.old.items
        ++ spec.lines_between (shown drawn.now) (flows_in_rows flows.now) source target) }
{
    put_edge_by(text, drawn, flows, source, target, Rule::Assign)?;
    put_edge_by(text, drawn, flows, source, target, Rule::If)?;
    put_edge_by(text, drawn, flows, source, target, Rule::While)?;
    put_edge_by(text, drawn, flows, source, target, Rule::Letvar)?;
    put_edge_by(text, drawn, flows, source, target, Rule::Loop)?;
    Ok(())
}

/// Adds the edges between the first variables.
fn put_all_edges(text: &mut Vec<u8>, drawn: &Drawn<'_>, flows: &Flows, count: u16) -> Added
    ensures { OnOk result (text.new.items ≡ text.old.items
        ++ spec.edge_lines (shown drawn.now) (flows_in_rows flows.now) count) }
{
    for source in 0..count {
        for target in 0..count {
            put_edges(text, drawn, flows, source, target)?;
        }
    }
    Ok(())
}

/// Adds the edges of a program, unless it has more than 200 declarations.
fn put_flows(
    alloc: Global,
    text: &mut Vec<u8>,
    profile: Profile,
    drawn: &Drawn<'_>,
    last: u16,
) -> Added
    requires count { last ≡ spec.size (shown drawn.now) }
    requires small { last ≤ 1024 }
    ensures { OnOk result (text.new.items ≡ text.old.items ++ spec.edge_lines (shown drawn.now)
        (spec.flows_by_step profile (program_of drawn.now.program.now)) (spec.numbers_drawn last)) }
{
    if last as usize > MOST_DRAWN {
        return Ok(());
    }
    let flows = flows_of(alloc, profile, drawn.program)?;
    put_all_edges(text, drawn, &flows, last + 1)?;
    Ok(())
}

/// The lines of a program: a node for each variable, and an edge for each rule by which one flows
/// to another, or to itself, in one step.
fn program_lines(
    alloc: Global,
    profile: Profile,
    lattice: &Lattice,
    program: &Resolved<'_>,
) -> Made<Vec<u8>>
    requires globals { All (IsClass (order_of_lattice lattice.now))
        (program_of program.now).globals }
    requires declared { AreClasses (order_of_lattice lattice.now)
        (program_of program.now).declared }
    ensures { IfOk result (λ lines.
        spec.AreProgramLines lattice.now profile program.now lines.items) }
{
    let order = order_of(alloc, lattice)?;
    let judged = judged_classes(alloc, profile, lattice, program)?;
    let drawn = Drawn {
        lattice,
        order: &order,
        program,
        chosen: &judged.0,
        walk: &judged.1,
    };
    let last = declarations(program);
    let count = nodes_shown(profile, last);
    let mut lines = Vec::new(alloc);
    put_variables(&mut lines, &drawn, count)?;
    put_frame(&mut lines, &drawn, count)?;
    put_flows(alloc, &mut lines, profile, &drawn, last)?;
    Ok(lines)
}

/// The lines of a text's program.
fn flows_lines(
    alloc: Global,
    profile: Profile,
    lattice: &Lattice,
    source: &[u8],
) -> Result<Vec<u8>, CompileError>
    ensures lines { IfOk result
        (λ lines. spec.AreFlowsLines lattice.now profile source.now lines.items) }
    ensures refused { IfErr result (RefusesProgram (class_named lattice.now) source.now) }
    ensures exact { (tree : Whole) (commands : List Command) → Reads source.now tree
        → IsResolution (class_named lattice.now) tree commands
        → IfErr result (λ e. e ≡ Memory) }
{
    let program = resolved_program(alloc, lattice, source)?;
    Ok(program_lines(alloc, profile, lattice, &program)?)
}

/// The flows of a text: a node for each variable, and an edge for each rule by which one flows to
/// another, or to itself, in one step. If there are more than 200 declarations, there are no edges.
///
/// # Errors
///
/// The refusals of the tokens, the tree, the scope and the size, as in `compile_in`; no flow is
/// refused here.
pub fn flows_dot(
    alloc: Global,
    profile: Profile,
    lattice: &Lattice,
    source: &[u8],
) -> Result<Vec<u8>, CompileError>
    ensures graph { IfOk result
        (λ text. spec.IsFlowsGraph lattice.now profile source.now text.items) }
    ensures refused { IfErr result (RefusesProgram (class_named lattice.now) source.now) }
    ensures exact { (tree : Whole) (commands : List Command) → Reads source.now tree
        → IsResolution (class_named lattice.now) tree commands
        → IfErr result (λ e. e ≡ Memory) }
{
    let lines = flows_lines(alloc, profile, lattice, source)?;
    Ok(graph_text(alloc, b"flows", &lines)?)
}

/// A lattice and the flows of a text as one graph, each in a box of its own.
///
/// # Errors
///
/// Those of `flows_dot`.
pub fn policy_dot(
    alloc: Global,
    profile: Profile,
    lattice: &Lattice,
    source: &[u8],
) -> Result<Vec<u8>, CompileError>
    ensures graph { IfOk result
        (λ text. spec.IsPolicyGraph lattice.now profile source.now text.items) }
    ensures refused { IfErr result (RefusesProgram (class_named lattice.now) source.now) }
    ensures exact { (tree : Whole) (commands : List Command) → Reads source.now tree
        → IsResolution (class_named lattice.now) tree commands
        → IfErr result (λ e. e ≡ Memory) }
{
    let classes = lattice_lines(alloc, lattice)?;
    let lines = (classes, flows_lines(alloc, profile, lattice, source)?);
    let mut both = Vec::new(alloc);
    fill(&mut both, BOXES, &[Bytes(&lines.0), Bytes(&lines.1)])?;
    Ok(graph_text(alloc, b"policy", &both)?)
}
