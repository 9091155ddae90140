//! The facts of a program that a page or a picture shows: its variables, their classes and its
//! flows.
//!
//! A refused program has no typable choice of classes. Its letvars are shown with the least class
//! at or above all that reaches them. In an accepted program that is the class of the least choice.

ghost use Rattle.std.specs.{Prelude.{◌≡◌, IfOk}, List.{All}};
ghost use Rattle.vsi_types.specs.Security.{program as program_of};
ghost use Rattle.vsi_lattice.specs.{Order.{IsClass}, LatticeView.{order as order_of}};
ghost use Rattle.vsi_infer.specs.Inference.{AreClasses};
ghost use Rattle.vsi_flows.specs.Table.{IsTable};
ghost use Rattle.vsi_report.specs.{ByRule.{flows_in_rows, HasFlows}, FlowsGraph.{AreShown}};

use crate::dot::{Order, name_of};
use crate::page::{Made, Piece};
use crate::report::View;
use std::alloc::{AllocError, Global};
use vsi_client::Mention;
use vsi_flows::{FlowsError, Pair, declarations, flows_in};
use vsi_infer::{
    Flow, FlowRows, InferError, declared_class, fewest_flows, flow_rows, flow_rows_by, infer_in,
    variable_name,
};
use vsi_lattice::{Class, Classes, Lattice};
use vsi_scope::{Resolved, Var};
use vsi_types::{LOOP, Profile, Rule, Step};

/// The rules, in their order.
pub(crate) const RULES: [Rule; 5] = [
    Rule::Assign,
    Rule::If,
    Rule::While,
    Rule::Letvar,
    Rule::Loop,
];

/// The flows of a program by each of the rules.
#[derive(Drop)]
pub(crate) struct Flows {
    assignments: FlowRows,
    choices: FlowRows,
    loops: FlowRows,
    letvars: FlowRows,
    endings: FlowRows,
}

/// The flows of a program.
pub(crate) fn flows_of(alloc: Global, profile: Profile, program: &Resolved<'_>) -> Made<Flows>
    ensures { IfOk result (HasFlows profile (program_of program.now)) }
{
    Ok(Flows {
        assignments: flow_rows_by(alloc, Rule::Assign, profile, program)?,
        choices: flow_rows_by(alloc, Rule::If, profile, program)?,
        loops: flow_rows_by(alloc, Rule::While, profile, program)?,
        letvars: flow_rows_by(alloc, Rule::Letvar, profile, program)?,
        endings: flow_rows_by(alloc, Rule::Loop, profile, program)?,
    })
}

/// Whether a variable flows to another by a rule in one step.
pub(crate) fn has_flow(flows: &Flows, rule: Rule, source: usize, target: usize) -> bool
    ensures { result ≡ flows_in_rows flows.now rule source target }
{
    let rows = match rule {
        Rule::Assign => &flows.assignments,
        Rule::If => &flows.choices,
        Rule::While => &flows.loops,
        Rule::Letvar => &flows.letvars,
        Rule::Loop => &flows.endings,
    };
    rows.has(source, target)
}

/// The classes of the letvars of a program, or the steps of the walk for which it is refused.
pub(crate) fn judged_classes(
    alloc: Global,
    profile: Profile,
    lattice: &Lattice,
    program: &Resolved<'_>,
) -> Made<(Vec<Class>, Vec<Step>)>
    requires globals { All (IsClass (order_of lattice.now)) (program_of program.now).globals }
    requires declared { AreClasses (order_of lattice.now) (program_of program.now).declared }
    ensures { IfOk result (λ judged. AreShown (order_of lattice.now) profile
        (program_of program.now) judged.0.items judged.1.items) }
{
    match infer_in(alloc, profile, lattice, program) {
        Ok(chosen) => Ok((chosen, Vec::new(alloc))),
        Err(InferError::Refused(walk)) => Ok((Vec::new(alloc), walk.steps)),
        Err(InferError::Memory) => Err(AllocError),
    }
}

/// The classes that reach the letvars: for each the least one at or above the declared classes of
/// all variables that reach it.
pub(crate) fn reached_classes(
    alloc: Global,
    profile: Profile,
    lattice: &Lattice,
    program: &Resolved<'_>,
) -> Made<Vec<Class>>
    requires globals { All (IsClass (order_of lattice.now)) (program_of program.now).globals }
    requires declared { AreClasses (order_of lattice.now) (program_of program.now).declared }
{
    let flow = flow_rows(alloc, profile, program)?;
    let count = declarations(program);
    let mut classes = Vec::new(alloc);
    for variable in program.globals().len()..count as usize {
        let row = fewest_flows(alloc, &flow, count as usize + 1, variable)?;
        let mut class = lattice.bottom();
        for number in 0..count {
            let steps = row.get(number as usize);
            let reaches = steps.is_some_and(|steps| *steps != u16::MAX);
            if reaches && let Some(found) = declared_class(lattice, program, Var(number)) {
                class = lattice.join(class, found);
            }
        }
        classes.push(class)?;
    }
    Ok(classes)
}

/// The most variables of a program whose flows are in a graph.
pub(crate) const MOST_DRAWN: usize = 200;
/// The most variables of a program whose flows are drawn on a page.
pub(crate) const MOST_BOXES: usize = 40;

/// A variable: its name, its class with the name of that, and whether the text declares the class.
#[derive(Clone, Copy, Default)]
pub(crate) struct Variable<'a> {
    pub(crate) name: &'a [u8],
    pub(crate) class: usize,
    pub(crate) class_name: &'a [u8],
    pub(crate) is_declared: bool,
}

/// The variables of a program by their numbers, with the ending of loops last; the positions of
/// their names; the flows of one step, unless there are too many variables; and the table of flows.
#[derive(Drop)]
pub(crate) struct Facts<'a> {
    pub(crate) variables: Vec<Variable<'a>>,
    pub(crate) mentions: Vec<Mention>,
    pub(crate) flows: Option<Flows>,
    pub(crate) pairs: Vec<Pair>,
}

/// The facts of a program, with these classes of its letvars, and these names in its text.
pub(crate) fn facts_of<'a>(
    blank: &View<'_>,
    order: &'a Order,
    program: &Resolved<'a>,
    chosen: &[Class],
    mentions: Vec<Mention>,
) -> Made<Facts<'a>>
    requires globals { All (IsClass (order_of blank.now.lattice.now))
        (program_of program.now).globals }
    requires declared { AreClasses (order_of blank.now.lattice.now)
        (program_of program.now).declared }
    ensures { IfOk result (λ facts. IsTable (order_of blank.now.lattice.now) blank.now.profile
        (program_of program.now) facts.pairs.items) }
{
    let (alloc, profile, lattice) = (blank.alloc, blank.profile, blank.lattice);
    let last = declarations(program);
    let mut variables = Vec::new(alloc);
    for number in 0..last + 1 {
        let variable = if number == last { LOOP } else { Var(number) };
        let declared = declared_class(lattice, program, variable);
        let letvar = (number as usize).saturating_sub(program.globals().len());
        let class = declared.or(chosen.get(letvar).copied());
        let class = class.unwrap_or(lattice.bottom()).index();
        variables.push(Variable {
            name: variable_name(program, variable),
            class,
            class_name: name_of(order, class),
            is_declared: declared.is_some(),
        })?;
    }
    let mut flows = None;
    if variables.len() <= MOST_BOXES + 1 {
        flows = Some(flows_of(alloc, profile, program)?);
    }
    match flows_in(alloc, profile, lattice, program) {
        Ok(pairs) => Ok(Facts {
            variables,
            mentions,
            flows,
            pairs,
        }),
        Err(FlowsError::Memory) => Err(AllocError),
    }
}

impl<'a> Facts<'a> {
    /// The number of a variable; the ending of loops has the last number.
    pub(crate) fn number(&self, variable: Var) -> usize {
        (variable.0 as usize).min(self.variables.len().saturating_sub(1))
    }

    /// The variable with a number; past the last one it has no name.
    pub(crate) fn variable(&self, number: usize) -> Variable<'a> {
        self.variables.get(number).copied().unwrap_or_default()
    }

    /// A variable with its class.
    pub(crate) fn of(&self, variable: Var) -> Variable<'a> {
        self.variable(self.number(variable))
    }
}

/// The names of the colours of classes.
const COLOURS: [&[u8]; 8] = [b"k0", b"k1", b"k2", b"k3", b"k4", b"k5", b"k6", b"k7"];

/// The name of the colour of a class.
pub(crate) fn colour(class: usize) -> Piece {
    COLOURS[class % 8]
}
