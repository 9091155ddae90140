//! The banner of a page: its first sentences, and what follows them.

ghost use Rattle.std.specs.Prelude.{◌≡◌, ◌++◌, IfOk, OnOk};
ghost use Rattle.vsi_lattice.specs.LatticeView.{names};
ghost use Rattle.vsi_report.specs.Graph.{texts};
ghost use Rattle.vsi_report.specs.Lead as spec;

use crate::dot::{Order, name_of};
use crate::facts::Variable;
use crate::page::Part::{Markup, Name, Number, Text};
use crate::page::{Added, Made, Page, Piece, either, put_escaped};
use crate::panel::{ends_at, hidden_at};
use crate::report::View;
use crate::sections::{leaf, profile_text};
use std::alloc::{AllocError, Global};
use vsi_flows::Pair;
use vsi_image::Verified;
use vsi_infer::{declared_class, variable_name};
use vsi_lattice::Lattice;
use vsi_machine::{Bound, bound_of};
use vsi_scope::{Resolved, Var};
use vsi_steady::{SteadyError, steady_in};
use vsi_syntax::line_column;
use vsi_types::{LOOP, Step};

/// The most bytes of a line that the banner quotes.
const QUOTED: usize = 160;
/// The beginning of a quoted line, with its number.
const QUOTE: &[u8] = b"<p class=\"quote\"><a href=\"#L%0\">%0</a> <code>";
/// The name of the file, the sentence about the profile, and the end of the banner.
const BY: &[u8] =
    b"<p class=\"by\">Source text: <code>%0</code>. Judged by the %1.</p>\n</header>\n";
/// The most steps whose variables the strip shows at each end of a long walk.
const SHOWN: usize = 12;
/// A variable of the strip, with a link to the step that reaches it.
const STOP: &[u8] = b"<li><a href=\"#s%1\">%0</a></li>";
/// The first sentence about a refused text, and the beginning of the second one.
const LEAD: &[u8] = b"<p class=\"lead\"><b class=\"k%0\">%1</b> <span class=\"chip k%0\">%2</span> \
reaches <b class=\"k%3\">%4</b> <span class=\"chip k%3\">%5</span> in %6%7";
/// The sentence about an accepted text without a pair.
const NO_PAIR: &[u8] =
    b"<p class=\"lead\">No declared variable flows to another: if runs halt, no global depends on \
another.</p>\n";

/// The facts in the first sentences about a refused text: the ends of a refused walk, the number of
/// its steps, the number of refused pairs, and that of all pairs.
#[derive(Clone, Copy)]
pub(crate) struct Lead<'a> {
    pub(crate) source: Variable<'a>,
    pub(crate) target: Variable<'a>,
    pub(crate) steps: usize,
    pub(crate) refused: usize,
    pub(crate) pairs: usize,
}

/// The text for one thing, or for several.
pub(crate) fn number_word(count: usize, one: Piece, several: Piece) -> Piece
    ensures { result.now ≡ spec.plural count one.now several.now }
{
    if count == 1 { one } else { several }
}

/// Adds the sentence about the ends and the number of steps of a refused walk.
fn put_ends(page: &mut Page, lead: &Lead<'_>) -> Added
    ensures { OnOk result (page.new.text.items ≡ page.old.text.items ++ spec.ends_words lead.now) }
{
    let parts = [
        Number(lead.source.class % 8),
        Text(lead.source.name),
        Text(lead.source.class_name),
        Number(lead.target.class % 8),
        Text(lead.target.name),
        Text(lead.target.class_name),
        Number(lead.steps),
        Markup(number_word(lead.steps, b" step.\n", b" steps.\n")),
    ];
    page.fill(LEAD, &parts)
}

/// The first sentences about a refused text.
pub(crate) fn refused_lead(alloc: Global, lead: &Lead<'_>) -> Made<Page>
    ensures { IfOk result (λ page. page.text.items ≡ spec.lead_words lead.now) }
{
    let mut page = Page::new(alloc);
    put_ends(&mut page, lead)?;
    let parts = [
        Number(lead.refused),
        Number(lead.pairs),
        Markup(number_word(lead.pairs, b"flow", b"flows")),
        Markup(number_word(lead.refused, b"is", b"are")),
    ];
    page.fill(b"%0 of %1 %2 %3 refused.</p>\n", &parts)?;
    Ok(page)
}

/// The first sentences about an accepted text.
pub(crate) fn allowed_lead(alloc: Global, pairs: usize) -> Made<Page>
    ensures { IfOk result (λ page. page.text.items ≡ spec.allowed_words pairs) }
{
    let mut page = Page::new(alloc);
    if pairs == 0 {
        page.put(NO_PAIR)?;
        return Ok(page);
    }
    if pairs == 1 {
        page.put(b"<p class=\"lead\">The only flow is allowed.</p>\n")?;
        return Ok(page);
    }
    page.fill(
        b"<p class=\"lead\">All %0 flows are allowed.</p>\n",
        &[Number(pairs)],
    )?;
    Ok(page)
}

/// The number of refused pairs.
pub(crate) fn count_refused(pairs: &[Pair]) -> usize
    ensures { result ≡ spec.refused_of pairs.now }
{
    let mut rest = pairs;
    let mut count: usize = 0;
    while let [pair, behind @ ..] = rest {
        if !pair.allowed {
            count += 1;
        }
        rest = behind;
    }
    count
}

/// The first and the last variable of a walk.
fn ends_of(walk: &[Step]) -> (Var, Var)
    ensures first { result.0 ≡ spec.first_of walk.now }
    ensures last { result.1 ≡ spec.last_of walk.now }
{
    let [first, later @ ..] = walk else {
        return (LOOP, LOOP);
    };
    let mut step = *first;
    let mut rest = later;
    while let [next, behind @ ..] = rest {
        step = *next;
        rest = behind;
    }
    (first.source, step.target)
}

/// A variable at an end of a walk.
fn end_of<'a>(lattice: &Lattice, order: &'a Order, program: &Resolved<'a>, end: Var) -> Variable<'a>
    requires { texts order.now.names.items ≡ names lattice.now }
    ensures { spec.IsEnd lattice.now program.now end result }
{
    let class = match declared_class(lattice, program, end) {
        Some(class) => class.index(),
        None => 0,
    };
    Variable {
        name: variable_name(program, end),
        class,
        class_name: name_of(order, class),
        is_declared: true,
    }
}

/// The facts in the first sentences about a refused text.
pub(crate) fn lead_of<'a>(
    lattice: &Lattice,
    order: &'a Order,
    program: &Resolved<'a>,
    walk: &[Step],
    pairs: &[Pair],
) -> Lead<'a>
    requires { texts order.now.names.items ≡ names lattice.now }
    ensures { spec.IsLead lattice.now program.now walk.now pairs.now result }
{
    let (first, last) = ends_of(walk);
    Lead {
        source: end_of(lattice, order, program, first),
        target: end_of(lattice, order, program, last),
        steps: walk.len(),
        refused: count_refused(pairs),
        pairs: pairs.len(),
    }
}

/// Adds the line of the source text with the byte at a position, with a link to it. Characters that
/// aren't visible are replaced, and a long line begins at that byte.
pub(crate) fn put_quote(page: &mut Page, source: &[u8], at: usize) -> Added {
    let (line, column) = line_column(source, at);
    let back = column.saturating_sub(1);
    let first = at.saturating_sub(if back < QUOTED { back } else { 0 });
    let last = source.len().min(first.saturating_add(QUOTED));
    let mut next = first;
    page.fill(QUOTE, &[Number(line)])?;
    for place in first..last {
        if ends_at(source, place) {
            break;
        }
        if place < next {
            continue;
        }
        if let Some((length, _)) = hidden_at(source, place) {
            next = place.saturating_add(length);
            page.put(b"\xef\xbf\xbd")?;
        } else {
            let byte = source.get(place..place.saturating_add(1));
            put_escaped(&mut page.text, byte.unwrap_or(b""))?;
        }
    }
    page.put(b"</code></p>\n")
}

/// Adds the name of the file, the sentence about the profile, and the end of the banner.
pub(crate) fn put_judged(page: &mut Page, view: &View<'_>) -> Added {
    let profile = Markup(profile_text(view.profile));
    page.fill(BY, &[Text(leaf(view.filing.source)), profile])
}

/// Adds the first and the last line of the refused walk, and its variables in order, each with a
/// link to its step.
pub(crate) fn put_refused(page: &mut Page, view: &View<'_>) -> Added {
    let mut first = usize::MAX;
    let mut last: usize = 0;
    for step in view.walk {
        first = first.min(step.read.start).min(step.written.start);
        last = last.max(step.read.start).max(step.written.start);
    }
    let (start, stop) = (first.min(last), last);
    put_quote(page, view.source, start)?;
    if line_column(view.source, start).0 < line_column(view.source, stop).0 {
        put_quote(page, view.source, stop)?;
    }
    page.put(b"<nav aria-label=\"The steps of the refused flow\"><ol class=\"strip\">")?;
    if let Some(step) = view.walk.first() {
        page.fill(STOP, &[Name(view.facts.of(step.source)), Number(1)])?;
    }
    for (place, step) in view.walk.iter().enumerate() {
        if place < SHOWN || view.walk.len().saturating_sub(place) <= SHOWN {
            let number = Number(place.saturating_add(1));
            page.fill(STOP, &[Name(view.facts.of(step.target)), number])?;
        } else if place == SHOWN {
            page.put(b"<li>\xe2\x80\xa6</li>")?;
        }
    }
    page.put(b"</ol></nav>\n")?;
    put_judged(page, view)
}

/// Adds the facts known of the runs of an accepted text's image: its bound and its steadiness.
pub(crate) fn put_accepted(page: &mut Page, view: &View<'_>, verified: &Verified) -> Added {
    page.put(b"<ul class=\"warrant\">\n")?;
    if let Bound::Halts { least, most } = bound_of(view.alloc, verified)? {
        let word = number_word(most as usize, b"instruction", b"instructions");
        let parts = [Markup(word), Number(most as usize), Number(least as usize)];
        page.put(b"<li>Bound: from every store it halts, after ")?;
        page.fill(either(least < most, b"%2 to ", b""), &parts)?;
        page.fill(b"%1 %0.</li>\n", &parts)?;
    } else {
        page.put(b"<li>No bound on the number of instructions is known.</li>\n")?;
    }
    page.put(match steady_in(view.alloc, view.lattice, verified) {
        Ok(()) => {
            b"<li>Steady: the number of instructions depends on nothing above the least \
class.</li>\n"
        }
        Err(SteadyError::Memory) => return Err(AllocError),
        Err(_) => {
            b"<li>Not steady: the number of instructions may depend on a variable above \
the least class.</li>\n"
        }
    })?;
    page.put(b"</ul>\n")?;
    put_judged(page, view)
}
