//! The search for a leak of a refused text, and the section of a page that shows a leak or that
//! none was found.

ghost use Rattle.std.specs.Prelude.{IfOk, All};
ghost use Rattle.vsi_lattice.specs.{LatticeView.{class_named, order}, Order.{IsClass}};
ghost use Rattle.vsi_leak.specs.Leaks.{IsFinding};

use crate::dot::is_below;
use crate::page::Part::{Block, Markup, Number, Text, Word};
use crate::page::{Added, Made, Page, Piece, either};
use crate::report::View;
use vsi_compiler::{Source, image_of};
use vsi_image::Verified;
use vsi_lattice::{Class, Classes, Lattice};
use vsi_leak::{Effort, Finding, Leak, Sign, check_leak, classes_upwards, find_leak, leak_text};
use vsi_store::RunEnding;
use vsi_types::Profile;

/// The signs of a leak: words, and the ending of a run, which is one under the strict profile only.
const SIGNS: [Sign; 2] = [Sign::Words, Sign::Endings];
/// The most instructions of a run in the search for a leak.
const BUDGET: u64 = 10_000;
/// The number of pairs of stores that are drawn for all classes together: for one at most half of
/// them, and at least 8.
const TRIES: u64 = 600;
/// The most variables of a table that shows all of them.
const MOST_ROWS: usize = 12;
/// The row of a variable: its name, its values in both runs, and whether these differ.
const ROW: &[u8] = b"<tr%4><th scope=\"row\">%0</th><td>%1</td><td>%2</td><td>%3</td></tr>\n";
/// The variables with equal values, which open on request.
const ALIKE: &[u8] = b"<details class=\"spare\"><summary>The other variables have equal values\
</summary>\n<p>%0</p></details>\n";
/// The beginning of a table of two stores, with its caption.
const STORES: &[u8] = b"<table class=\"runs\"><caption>%0\
</caption>\n<thead><tr><th scope=\"col\">Variable</th><th scope=\"col\">First run</th>\
<th scope=\"col\">Second run</th><th scope=\"col\">Differs</th></tr></thead>\n<tbody>\n";
/// The numbers of instructions of two runs that halt.
const TAKES: &[u8] = b"<p>The first run takes %0 instructions, the second %1.</p>\n";
/// The section for pairs of runs that show no leak.
const NO_LEAK: &[u8] = b"<section aria-labelledby=\"leak\"><h2 id=\"leak\">No leak was found</h2>\n\
<p>In %0 pairs of runs from stores that agree on everything that a class sees, no final stores \
differed in something that it sees. This says nothing about other pairs: the text is judged, not a \
run, and a text that reveals nothing may be refused.</p></section>\n";
/// The beginning of the section of a leak.
const LEAK: &[u8] = b"<section aria-labelledby=\"leak\"><h2 id=\"leak\">A leak</h2>\n\
<p>Two runs of the text, from stores that agree on everything that an observer at %0 sees, and \
that the observer can tell apart.</p>\n";
/// The text of a leak, which opens on request.
const TEXT: &[u8] = b"<details class=\"spare\"><summary>What the observer sees, as <code>vsi leak\
</code> prints it</summary>\n<pre class=\"leak\"><code>%0</code></pre></details>\n</section>\n";

/// A search: the lattice, the image, the first variable of the refused flow, and the signs.
#[derive(Clone, Copy)]
struct Search<'a> {
    view: &'a View<'a>,
    lattice: &'a Lattice,
    verified: &'a Verified,
    source: usize,
    signs: &'a [Sign],
    effort: Effort,
}

/// The first leak at one of the classes, by the first sign that shows one. The first variable of
/// the refused flow is changed first.
fn found_in(search: &Search<'_>, classes: &[Class]) -> Made<Finding>
    requires { All (IsClass (order search.now.lattice.now)) classes.now }
    ensures { IfOk result (IsFinding (class_named search.now.lattice.now)
        (order search.now.lattice.now) search.now.verified.now search.now.effort.budget) }
{
    let (alloc, lattice, verified) = (search.view.alloc, search.lattice, search.verified);
    let (effort, signs) = (search.effort, search.signs);
    // A store of zeros, and one with a 1 in that variable.
    let first = vec![in alloc; 0i64; verified.image().globals.len()]?;
    let mut second = first.to_vec(alloc)?;
    if let Some(word) = second.get_mut(search.source) {
        *word = 1;
    }
    let mut done: u64 = 0;
    for sign in signs {
        for class in classes {
            let stores = (first.as_slice(), second.as_slice());
            let budget = effort.budget;
            if let Some(leak) = check_leak(
                alloc, lattice, verified, *sign, *class, stores, budget,
            )? {
                return Ok(Finding::Leak(leak));
            }
            match find_leak(alloc, lattice, verified, *sign, *class, effort)? {
                Finding::Leak(leak) => return Ok(Finding::Leak(leak)),
                Finding::Nothing { pairs } => done = done.saturating_add(pairs),
            }
        }
    }
    Ok(Finding::Nothing { pairs: done })
}

/// Adds the section about leaks of a refused text: a leak, at the class where the refused flow ends
/// if there is one, or that none was found.
pub(crate) fn put_leak(page: &mut Page, view: &View<'_>, read: &Source<'_>) -> Added {
    let (Some(first), Some(last)) = (view.walk.first(), view.walk.last()) else {
        return Ok(());
    };
    let verified = image_of(view.alloc, read)?;
    let lattice = read.lattice();
    let count = lattice.count().max(1) as u64;
    let search = Search {
        view,
        lattice,
        verified: &verified,
        source: first.source.0 as usize,
        signs: match view.profile {
            Profile::Base => &SIGNS[..1],
            Profile::Strict => &SIGNS,
        },
        effort: Effort {
            budget: BUDGET,
            tries: (TRIES / count).max(8).min(TRIES / 2),
            seed: 0,
        },
    };
    let class = view.facts.of(last.target).class;
    let mut done: u64 = 0;
    if class < lattice.count() {
        match found_in(&search, &[Class::at(class as u8)])? {
            Finding::Leak(leak) => return put_shown(page, &search, &leak),
            Finding::Nothing { pairs } => done = pairs,
        }
    }
    match found_in(&search, &classes_upwards(view.alloc, lattice)?)? {
        Finding::Leak(leak) => put_shown(page, &search, &leak),
        Finding::Nothing { pairs } => {
            page.fill(NO_LEAK, &[Number(done.saturating_add(pairs) as usize)])
        }
    }
}

/// Adds the table of the stores of two runs with a caption; if there are many variables, those with
/// equal values are below it.
fn put_stores(
    page: &mut Page,
    search: &Search<'_>,
    observer: Class,
    caption: Piece,
    stores: (&[i64], &[i64]),
) -> Added {
    let (view, globals) = (search.view, &search.verified.image().globals);
    let mut alike = Page::new(view.alloc);
    page.fill(STORES, &[Markup(caption)])?;
    for (index, global) in globals.iter().enumerate() {
        let one = stores.0.get(index).copied().unwrap_or(0);
        let other = stores.1.get(index).copied().unwrap_or(0);
        let name = Text(&global.0);
        if one == other && globals.len() > MOST_ROWS {
            alike.fill(b"%0 = %1 ", &[name, Word(one)])?;
            continue;
        }
        let class = view.facts.variable(index).class;
        let is_seen = is_below(view.order, class, observer.index());
        let differs = either(is_seen, b"differs", b"differs, not seen");
        let difference = Markup(either(one == other, b"", differs));
        let tint = Markup(either(one != other && is_seen, b" class=\"apart\"", b""));
        page.fill(ROW, &[name, Word(one), Word(other), difference, tint])?;
    }
    page.put(b"</tbody></table>\n")?;
    if alike.text.is_empty() {
        return Ok(());
    }
    page.fill(ALIKE, &[Block(&alike)])
}

/// Adds a leak: its class, its stores before the runs and, if both runs halt, after them, its
/// endings, and the text of `vsi leak`.
fn put_shown(page: &mut Page, search: &Search<'_>, leak: &Leak) -> Added
    requires { IsClass (order search.now.lattice.now) leak.now.class }
{
    let (lattice, class) = (search.lattice, leak.class);
    let text = leak_text(search.view.alloc, lattice, search.verified.image(), leak)?;
    page.fill(LEAK, &[Text(lattice.name(class))])?;
    let before = (leak.first.store.as_slice(), leak.second.store.as_slice());
    put_stores(page, search, class, b"Before the runs", before)?;
    match (&leak.first.ending, &leak.second.ending) {
        (
            RunEnding::Halted {
                instructions: count,
                words: first,
            },
            RunEnding::Halted {
                instructions: more,
                words: second,
            },
        ) => {
            let after = (first.as_slice(), second.as_slice());
            put_stores(page, search, class, b"After the runs", after)?;
            page.fill(TAKES, &[Number(*count as usize), Number(*more as usize)])?;
        }
        (RunEnding::OutOfBudget, RunEnding::OutOfBudget) => {
            page.put(b"<p>Both runs are out of budget.</p>\n")?;
        }
        _ => page.put(b"<p>One of the runs halts, and the other is out of budget.</p>\n")?,
    }
    page.fill(TEXT, &[Text(&text)])
}
