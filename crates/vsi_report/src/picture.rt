//! The sections of a page with its pictures: that of a lattice, and that of a program's flows, with
//! the variables in the boxes of their classes. A picture too large to be read isn't drawn.

use crate::banner::count_refused;
use crate::dot::{is_below, name_of};
use crate::facts::{MOST_BOXES, RULES, colour, has_flow};
use crate::page::Part::{Block, Markup, Name, Number, Short, Text};
use crate::page::{Added, Made, Page, Part, Piece, either};
use crate::report::View;
use crate::sections::put_table;
use std::alloc::Global;
use vsi_flows::WalkedPair;
use vsi_infer::rule_text;
use vsi_layered::{Drawing, Graph, Node, Place, Point, badges_of, drawing_of};
use vsi_scope::Var;
use vsi_types::{Profile, Rule};

/// The most arrows of a picture.
const MOST_ARROWS: usize = 100;
/// The greatest width and height of a picture.
const LARGEST: (usize, usize) = (1_400, 2_000);
/// The greatest width and height of a picture that is printed: type in it has 7 points or more.
const PRINTED: (usize, usize) = (1_120, 1_200);
/// The most refused flows, and the most variables, that the description of a picture names.
const MOST_TOLD: usize = 12;
/// The height of a box.
const HIGH: usize = 34;
/// The length of a rounded corner of an arrow.
const CORNER: usize = 12;
/// The space above the classes in the drawing of a lattice, where a group has its title.
const TITLE: usize = 34;
/// The name of a class, in its area.
const NAME: &[u8] = b"<g class=\"band %0\"><text x=\"%8\" y=\"%9\">%1</text></g>";
/// The arrow of a step of a walk.
const STEP: &[u8] = b"<path id=\"a%1\" class=\"told w%1\" d=\"%0\" marker-end=\"url(#told)\"/>";
/// The number of a step of a walk, with a link to the step.
const BADGE: &[u8] =
    b"<a href=\"#s%0\"><g class=\"number w%0\"><circle r=\"12\" cx=\"%1\" cy=\"%2\"/>\
<text x=\"%1\" y=\"%3\">%0</text></g></a>";
/// The meaning of the style of an arrow.
const MEANING: &[u8] = b"<li><svg width=\"44\" height=\"12\" aria-hidden=\"true\">\
<path class=\"flow %0\" d=\"M2 6H42\"/></svg> %1: %2</li>";
/// The beginning of a picture.
const PICTURE: &[u8] = b"<figure%4><div class=\"scroll\"><svg class=\"picture\" role=\"img\" \
aria-label=\"%0\" xmlns=\"http://www.w3.org/2000/svg\" width=\"%1\" height=\"%2\" \
viewBox=\"0 %3 %1 %2\">";
/// A box with a name in the colour of a class.
const BOX: &[u8] = b"<g class=\"box %0\"><rect rx=\"8\" x=\"%2\" y=\"%3\" width=\"%4\" \
height=\"%5\"/><text x=\"%6\" y=\"%7\">%1</text></g>";
/// An arrow.
const ARROW: &[u8] = b"<path class=\"flow %0%1\" d=\"%3\" marker-end=\"url(#%2)\"/>";
/// The tips of the arrows.
const TIPS: &[u8] = b"<defs><marker id=\"tip\" viewBox=\"0 0 10 10\" refX=\"7\" refY=\"5\" \
markerWidth=\"8\" markerHeight=\"8\" markerUnits=\"userSpaceOnUse\" orient=\"auto\"><path \
class=\"tip\" d=\"M0 0L10 5L0 10z\"/></marker><marker id=\"told\" viewBox=\"0 0 10 10\" refX=\"7\" \
refY=\"5\" markerWidth=\"13\" markerHeight=\"13\" markerUnits=\"userSpaceOnUse\" orient=\"auto\">\
<path class=\"toldtip\" d=\"M0 0L10 5L0 10z\"/></marker><marker id=\"against\" \
viewBox=\"0 0 10 10\" refX=\"7\" refY=\"5\" markerWidth=\"8\" markerHeight=\"8\" \
markerUnits=\"userSpaceOnUse\" orient=\"auto\"><path class=\"toldtip\" \
d=\"M0 0L10 5L0 10z\"/></marker></defs>";
/// The area of a class.
const AREA: &[u8] = b"<g class=\"band %0\"><rect rx=\"10\" x=\"%2\" y=\"%3\" width=\"%4\" \
height=\"%5\"/></g>";

/// The width in pixels above which a picture of a lattice has a row of the page to itself.
const WIDE: usize = 430;
/// The beginning of a table of classes.
const CLASSES: &[u8] = b"<table><thead><tr><th scope=\"col\">Class</th>\
<th scope=\"col\">Directly above it</th></tr></thead>\n<tbody>\n";
/// The beginning of the section of the lattice.
const LATTICE: &[u8] = b"<section%0 aria-labelledby=\"lattice\"><h2 id=\"lattice\">Lattice</h2>\n";
/// The end of the picture, and the beginning of the table of its arrows.
const ARROWS: &[u8] =
    b"</ul>\n</figure>\n<details class=\"spare\"><summary>The arrows as a table</summary>\n<table>\
<thead><tr><th scope=\"col\">From</th><th scope=\"col\">To</th><th scope=\"col\">By</th></tr>\
</thead>\n<tbody>\n";
/// The text about the picture of a lattice.
const POLICY: &[u8] =
    b"</svg></div>\n<figcaption>Information may flow upwards, along the lines; each line joins \
a class and one directly above it.</figcaption></figure>\n<details class=\"spare\">\
<summary>The lattice as a table</summary>\n";
/// The text about a lattice without a picture.
const NO_POLICY: &[u8] = b"<p>Information may flow from a class to those above it. No picture is \
drawn, since it would be too large to be read.</p>\n";
/// The text about the picture of the flows.
const FLOWS: &[u8] =
    b"</svg></div>\n<figcaption>Each arrow is a flow of one step, and each coloured area is a \
class with its variables. An area right above another one is a class above the other's in the \
lattice. A flow of a variable into itself isn't drawn. A dashed box is a variable whose class the \
text doesn't declare.";
/// The beginning of the description of a picture of flows.
const SOME_ARROWS: &[u8] = b"The flows of one step between variables, as arrows.";
/// The beginning of the description of a picture without arrows.
const NO_ARROWS: &[u8] = b"Variables without arrows: none flows to another one.";
/// The numbers of what a description doesn't name.
const OTHERS: &[u8] = b" Not named here are refused flows (%0) and variables (%1).";
/// The text about the arrows of a walk.
const THICK: &[u8] = b" The thick arrows with numbers are the chain for which the text is refused; \
a thin red arrow goes against the order of the classes.";
/// The text about flows without a picture.
const NO_FLOWS: &[u8] = b"<p>No picture is drawn, since it would have too many variables or arrows \
to be read.</p>\n";

/// For each rule the style of its arrows.
const STYLES: [&[u8]; 5] = [b"r1", b"r2", b"r4", b"r8", b"r16"];
/// For each rule the meaning of its arrows.
const MEANINGS: [&[u8]; 5] = [
    b"from a value to the variable that is assigned",
    b"from a guard to the variables that its branches assign",
    b"from a guard to the variables that its body assigns",
    b"from an initial value to its variable",
    b"from a guard to the ending of a loop",
];

/// The width of a box with this name, of which a long one is shortened.
fn box_width(name: &[u8]) -> usize {
    name.len().min(24).saturating_mul(9).saturating_add(28)
}

/// The box that a name asks for, in a group.
fn node_of(name: &[u8], group: usize) -> Node {
    Node {
        wide: box_width(name),
        high: HIGH,
        group,
    }
}

/// The drawing of a graph, unless it is too large to be read.
fn readable(alloc: Global, graph: Graph<'_>) -> Made<Option<Drawing>> {
    if graph.arrows.len() > MOST_ARROWS {
        return Ok(None);
    }
    let fits = |drawing: &Drawing| drawing.wide <= LARGEST.0 && drawing.high <= LARGEST.1;
    Ok(drawing_of(alloc, graph)?.filter(fits))
}

/// A flow of one step: the numbers of its variables, and its rule.
type Arrow = (usize, usize, Rule);

/// The picture of a program's flows: an arrow for each flow of one step, the drawing of the
/// variables and the arrows, and for each step of a refused walk the index of its arrow.
#[derive(Drop)]
pub(crate) struct Scene {
    arrows: Vec<Arrow>,
    drawing: Drawing,
    walk: Vec<usize>,
}

/// The flows of one step between two variables, in order.
fn arrows_of(view: &View<'_>) -> Made<Vec<Arrow>> {
    let mut arrows = Vec::new(view.alloc);
    let Some(flows) = &view.facts.flows else {
        return Ok(arrows);
    };
    for source in 0..view.facts.variables.len() {
        for target in 0..view.facts.variables.len() {
            for rule in RULES {
                if source != target && has_flow(flows, rule, source, target) {
                    arrows.push((source, target, rule))?;
                }
            }
        }
    }
    Ok(arrows)
}

/// The picture of the flows, unless it is too large to be read.
pub(crate) fn scene_of(view: &View<'_>) -> Made<Option<Scene>> {
    // The ending of loops, which is the last variable, is shown under the strict profile only.
    let hidden = (view.profile == Profile::Base) as usize;
    let facts = view.facts;
    let count = facts.variables.len().saturating_sub(hidden);
    if count > MOST_BOXES {
        return Ok(None);
    }
    let mut nodes = Vec::new(view.alloc);
    for number in 0..count {
        let of = facts.variable(number);
        nodes.push(node_of(of.name, of.class))?;
    }
    let (mut titles, names) = (Vec::new(view.alloc), &view.order.names);
    titles.extend(names.iter().map(|name| box_width(name.as_slice())))?;
    let arrows = arrows_of(view)?;
    let mut ends = Vec::new(view.alloc);
    ends.extend(arrows.iter().map(|arrow| (arrow.0, arrow.1)))?;
    let graph = Graph {
        nodes: &nodes,
        titles: &titles,
        above: &view.order.above,
        arrows: &ends,
    };
    let Some(drawing) = readable(view.alloc, graph)? else {
        return Ok(None);
    };
    let mut walk = Vec::new(view.alloc);
    for step in view.walk {
        let (source, target) = (facts.number(step.source), facts.number(step.target));
        let is_it = |arrow: &Arrow| *arrow == (source, target, step.rule);
        walk.push(arrows.iter().position(is_it).unwrap_or(arrows.len()))?;
    }
    Ok(Some(Scene {
        arrows,
        drawing,
        walk,
    }))
}

/// Adds the beginning of a picture with a label, without what is above `top`.
fn put_picture(page: &mut Page, label: Part<'_>, drawing: &Drawing, top: usize) -> Added {
    let high = drawing.high.saturating_sub(top);
    let is_large = drawing.wide > PRINTED.0 || high > PRINTED.1;
    let class = Markup(either(is_large, b" class=\"large\"", b""));
    let (wide, high) = (Number(drawing.wide), Number(high));
    page.fill(PICTURE, &[label, wide, high, Number(top), class])
}

/// Adds a box with a name in its middle, the area of a class or its name, in the colour of a class.
fn put_box(page: &mut Page, markup: Piece, place: Place, class: usize, name: &[u8]) -> Added {
    let parts = [
        Markup(colour(class)),
        Short(name),
        Number(place.left),
        Number(place.top),
        Number(place.wide),
        Number(place.high),
        Number(place.left.saturating_add(place.wide / 2)),
        Number(place.top.saturating_add((place.high / 2).saturating_add(5))),
        Number(place.left.saturating_add(12)),
        Number(place.top.saturating_add(18)),
    ];
    page.fill(markup, &parts)
}

/// The line of the arrow with an index, with rounded corners.
fn line_of(alloc: Global, drawing: &Drawing, index: usize) -> Made<Page> {
    let mut page = Page::new(alloc);
    let Some(line) = drawing.ways.get(index) else {
        return Ok(page);
    };
    for (place, corner) in line.iter().enumerate() {
        let before = line.get(place.saturating_sub(1)).unwrap_or(corner);
        let after = line.get(place.saturating_add(1)).unwrap_or(corner);
        // A corner is rounded from a point on the way before it to one after it, near to it.
        let beside = |other: Point| {
            let whole = corner.distance(other);
            corner.towards(other, CORNER.min(whole / 2), whole)
        };
        let (from, to) = (beside(*before), beside(*after));
        let parts = [
            Number(corner.x),
            Number(corner.y),
            Number(from.x),
            Number(from.y),
            Number(to.x),
            Number(to.y),
        ];
        let is_last = place.saturating_add(1) == line.len();
        let to_corner = either(is_last, b"L%0 %1", b"L%2 %3Q%0 %1 %4 %5");
        page.fill(either(place == 0, b"M%0 %1", to_corner), &parts)?;
    }
    Ok(page)
}

/// Adds the areas of the classes that have variables, or their names, over the arrows.
fn put_areas(page: &mut Page, view: &View<'_>, drawing: &Drawing, area: Piece) -> Added {
    for (class, place) in drawing.groups.iter().enumerate() {
        if place.wide != 0 {
            put_box(page, area, *place, class, name_of(view.order, class))?;
        }
    }
    Ok(())
}

/// Adds the arrows that aren't steps of the walk: those that keep the order, or break it.
fn put_arrows(page: &mut Page, view: &View<'_>, scene: &Scene, breaks: bool) -> Added {
    let class = Markup(either(breaks, b" against", b""));
    let tip = Markup(either(breaks, b"against", b"tip"));
    for (index, arrow) in scene.arrows.iter().enumerate() {
        let low = view.facts.variable(arrow.0).class;
        let keeps = is_below(view.order, low, view.facts.variable(arrow.1).class);
        if keeps != breaks && !scene.walk.contains(&index) {
            let line = line_of(view.alloc, &scene.drawing, index)?;
            let style = Markup(STYLES[arrow.2 as usize]);
            page.fill(ARROW, &[style, class, tip, Block(&line)])?;
        }
    }
    Ok(())
}

/// The description of a picture of flows: the first refused flows, the chain if there are more, and
/// the classes of the first variables, in sentences, and how many others there are.
fn description_of(view: &View<'_>, scene: &Scene) -> Made<Page> {
    let (mut text, facts) = (Page::new(view.alloc), view.facts);
    text.put(either(scene.arrows.is_empty(), NO_ARROWS, SOME_ARROWS))?;
    let ends = |from: Var, to: Var| [Text(facts.of(from).name), Text(facts.of(to).name)];
    let refused = count_refused(&facts.pairs);
    let pairs = facts.pairs.iter().filter(|pair| !pair.allowed);
    for pair in pairs.take(MOST_TOLD) {
        let parts = ends(pair.source, pair.target);
        text.fill(b" The flow from %0 to %1 is refused.", &parts)?;
    }
    if let (Some(first), Some(last)) = (view.walk.first(), view.walk.last())
        && refused > MOST_TOLD
    {
        let parts = ends(first.source, last.target);
        text.fill(b" The chain from %0 to %1 is refused.", &parts)?;
    }
    let count = scene.drawing.places.len();
    for number in 0..count.min(MOST_TOLD) {
        let of = facts.variable(number);
        let parts = [Text(of.name), Text(of.class_name)];
        text.fill(b" %0 has the class %1.", &parts)?;
    }
    if refused.max(count) > MOST_TOLD {
        let others = |number: usize| Number(number.saturating_sub(MOST_TOLD));
        text.fill(OTHERS, &[others(refused), others(count)])?;
    }
    Ok(text)
}

/// Adds the picture of a program's flows, up to its last badge.
fn put_scene(page: &mut Page, view: &View<'_>, scene: &Scene) -> Added {
    let drawing = &scene.drawing;
    put_picture(page, Block(&description_of(view, scene)?), drawing, 0)?;
    page.put(TIPS)?;
    put_areas(page, view, drawing, AREA)?;
    put_arrows(page, view, scene, false)?;
    put_arrows(page, view, scene, true)?;
    for (place, index) in scene.walk.iter().enumerate() {
        let line = line_of(view.alloc, drawing, *index)?;
        page.fill(STEP, &[Block(&line), Number(place.saturating_add(1))])?;
    }
    put_areas(page, view, drawing, NAME)?;
    for (number, place) in drawing.places.iter().enumerate() {
        let of = view.facts.variable(number);
        page.put(either(of.is_declared, b"<g>", b"<g class=\"inferred\">"))?;
        put_box(page, BOX, *place, of.class, of.name)?;
        page.put(b"</g>")?;
    }
    let badges = badges_of(view.alloc, drawing, &scene.walk)?;
    for (place, point) in badges.iter().enumerate() {
        let (x, foot) = (Number(point.x), Number(point.y.saturating_add(5)));
        let number = Number(place.saturating_add(1));
        page.fill(BADGE, &[number, x, Number(point.y), foot])?;
    }
    Ok(())
}

/// Adds a row for each class, with the classes that cover it.
fn put_classes(page: &mut Page, view: &View<'_>) -> Added {
    page.put(CLASSES)?;
    for class in 0..view.order.names.len() {
        let name = Text(name_of(view.order, class));
        page.fill(b"<tr><th scope=\"row\">%0</th><td>", &[name])?;
        for pair in &view.order.covers {
            if pair.0 == class {
                page.fill(b"%0 ", &[Text(name_of(view.order, pair.1))])?;
            }
        }
        page.put(b"</td></tr>\n")?;
    }
    page.put(b"</tbody></table>\n")
}

/// The section of the lattice, and whether it has a row of the page to itself.
pub(crate) fn lattice_section(view: &View<'_>) -> Made<(Page, bool)> {
    let (alloc, order) = (view.alloc, view.order);
    let mut nodes = Vec::new(alloc);
    nodes.extend(order.names.iter().map(|name| node_of(name.as_slice(), 0)))?;
    let graph = Graph {
        nodes: &nodes,
        titles: &[0],
        above: &[1],
        arrows: &order.covers,
    };
    let found = readable(alloc, graph)?;
    let is_wide = !matches!(&found, Some(drawing) if drawing.wide <= WIDE);
    let mut page = Page::new(alloc);
    page.fill(LATTICE, &[Markup(either(is_wide, b" class=\"wide\"", b""))])?;
    if let Some(drawing) = &found {
        let is_one = order.names.len() == 1;
        let label = Markup(either(is_one, b"The only class", b"The lattice of classes"));
        put_picture(&mut page, label, drawing, TITLE)?;
        for index in 0..drawing.ways.len() {
            let line = line_of(alloc, drawing, index)?;
            page.fill(b"<path class=\"cover\" d=\"%0v-5\"/>", &[Block(&line)])?;
        }
        for (class, place) in drawing.places.iter().enumerate() {
            put_box(&mut page, BOX, *place, class, name_of(order, class))?;
        }
    }
    page.put(either(found.is_some(), POLICY, NO_POLICY))?;
    put_classes(&mut page, view)?;
    let end = b"</details>\n</section>\n";
    page.put(either(found.is_some(), end, b"</section>\n"))?;
    Ok((page, is_wide))
}

/// Adds the section of the flows, with their picture, the meanings of the styles of its arrows, a
/// row for each arrow, and the walks of refused pairs.
pub(crate) fn put_all_flows(
    page: &mut Page,
    view: &View<'_>,
    scene: &Option<Scene>,
    walks: &[WalkedPair],
) -> Added {
    page.put(b"<section class=\"wide\" aria-labelledby=\"flows\"><h2 id=\"flows\">Flows</h2>\n")?;
    if let Some(scene) = scene {
        put_scene(page, view, scene)?;
        page.put(FLOWS)?;
        page.put(either(view.walk.is_empty(), b"", THICK))?;
        page.put(b"</figcaption>\n<ul class=\"legend\">")?;
        for rule in RULES {
            if scene.arrows.iter().any(|arrow| arrow.2 == rule) {
                let (style, meaning) = (STYLES[rule as usize], MEANINGS[rule as usize]);
                let parts = [Markup(style), Markup(rule_text(rule)), Markup(meaning)];
                page.fill(MEANING, &parts)?;
            }
        }
        page.put(ARROWS)?;
        for (index, arrow) in scene.arrows.iter().enumerate() {
            let (from, to) = (view.facts.variable(arrow.0), view.facts.variable(arrow.1));
            let mark = either(scene.walk.contains(&index), b", in the refused chain", b"");
            let (rule, mark) = (Markup(rule_text(arrow.2)), Markup(mark));
            let parts = [Name(from), Name(to), rule, mark];
            page.fill(b"<tr><td>%0</td><td>%1</td><td>%2%3</td></tr>\n", &parts)?;
        }
        page.put(b"</tbody></table></details>\n")?;
    } else {
        page.put(NO_FLOWS)?;
    }
    put_table(page, view, walks)?;
    page.put(b"</section>\n")
}
