//! The sections of a page about flows: why a text is refused, and the table of all flows.

use crate::banner::{count_refused, number_word};
use crate::page::Part::{Chip, Markup, Name, Number, Position, Short};
use crate::page::{Added, Page, Part, Piece, either};
use crate::report::View;
use vsi_flows::WalkedPair;
use vsi_infer::rule_text;
use vsi_scope::Var;
use vsi_types::{Profile, Rule, Step};

/// What a page says of its making: the names of its files, the bytes of the lattice file, and the
/// version of the program.
#[derive(Clone, Copy)]
pub struct Filing<'a> {
    /// The path of the source text.
    pub source: &'a [u8],
    /// The path of the lattice file.
    pub lattice: &'a [u8],
    /// The bytes of the lattice file.
    pub policy: &'a [u8],
    /// The version of the program that makes the page, as `0.1.0`.
    pub version: &'a [u8],
}

/// The name of a file without its folders.
pub(crate) fn leaf(path: &[u8]) -> &[u8] {
    match path.iter().rposition(|byte| *byte == b'/') {
        Some(place) => path.get(place.saturating_add(1)..).unwrap_or(path),
        None => path,
    }
}

/// The name of a profile, and what it judges by.
pub(crate) fn profile_text(profile: Profile) -> Piece {
    let strict = b"strict profile: by flows into variables, and into the ending of loops";
    let base = b"base profile: by flows into variables";
    either(profile == Profile::Base, base, strict)
}

/// A step: its number, its source, its target and its rule.
const STEP: &[u8] = b"<li id=\"s%7\"><p class=\"step\">%0 %2 flows to %1 %3 by <strong>%6</strong>\
</p>";
/// The links from a step to its arrow, if the flows are drawn, and to the beginning of the steps.
const TURN: &[u8] = b"<p class=\"turn\"><a href=\"#a%7\">its arrow in the picture</a> \
<a href=\"#why\">back to the first step</a></p></li>\n";
/// When a flow goes away.
const BREAK: &[u8] = b"<p>This flow goes away if %1 no longer depends on %0.</p>";
/// The sentence about further refused flows.
const OTHERS: &[u8] = b"<p>It is one of %4 refused flows: each is in <a href=\"#table\">the table\
</a>.</p>\n";
/// The most pairs of a table that has a row for each.
pub(crate) const MOST_PAIRS: usize = 100;
/// The row of an allowed pair.
const ALLOWED: &[u8] = b"<tr><td>%0 %2</td><td>%1 %3</td><td class=\"yes\">\xe2\x9c\x93 allowed\
</td><td>%4</td></tr>\n";
/// The row of a refused pair, up to the steps of its walk.
const REFUSED: &[u8] = b"<tr class=\"refused\"><td>%0 %2</td><td>%1 %3</td><td class=\"no\">\
\xe2\x9c\x97 refused</td><td>%4</td></tr>\n<tr class=\"refused\"><td colspan=\"4\"><details>\
<summary>its walk</summary><ol>";
/// A step of a walk.
const LINE: &[u8] = b"<li>%4: %0 flows to %1 by %6 at %5</li>";
/// A step of a walk by LOOP, which writes nothing.
const ENDING: &[u8] = b"<li>%4: %0 flows to %1 by %6</li>";
/// The markup above the rows of a table of pairs.
const TABLE: &[u8] = b"<table>\n<thead><tr><th scope=\"col\">From</th><th scope=\"col\">To</th>\
<th scope=\"col\">Verdict</th><th scope=\"col\">Fewest steps</th></tr></thead>\n<tbody>\n";
/// The most refused pairs that are printed with their walks.
const MOST_PRINTED: usize = 10;
/// The text on paper above more of them.
const FIRST: &[u8] = b"<p class=\"paper\">Only the first ten refused flows are printed.</p>\n";
/// The markup above the rows of a table of many pairs.
const GROUPS: &[u8] = b"<table>\n<thead><tr><th scope=\"col\">From</th><th scope=\"col\">To</th>\
</tr></thead>\n<tbody>\n";
/// The beginning of a row for a variable.
const GROUP: &[u8] = b"<tr><th scope=\"row\">%0 %1</th><td>";
/// The beginning of many allowed pairs, which aren't printed.
const MANY: &[u8] = b"<p class=\"paper\">The allowed flows aren't printed.</p>\n\
<details class=\"spare\"><summary>%4%1</summary>\n";
/// The sentences about both ends of a walk.
const ENDS: &[u8] = b"<p class=\"end\">So %1 depends on %0. But %0 has the class %2, %1 has the \
class %3, and in the lattice the first isn't at or below the second. The text is judged, not a \
run: a branch that is never taken counts too.</p>\n";
/// The text about refused pairs without a walk.
const NO_WALKS: &[u8] = b"<div class=\"spare\"><p>All refused flows, of which only the first \
have their walks above: \
<code>vsi flows --walks</code> prints each.</p>\n";
/// For each rule the sentence about a step by it; a step by LOOP writes nothing.
const SENTENCES: [&[u8]; 5] = [
    b"<p>The value of %0, at %4, goes into the value that is assigned to %1, at %5: %1 then \
depends on %0.</p>\n",
    b"<p>The guard of an <code>if</code> reads %0, at %4. Which branch runs depends on it, and a \
branch assigns %1, at %5. No value is copied, but %1 then depends on %0.</p>\n",
    b"<p>The guard of a <code>while</code> reads %0, at %4. How often the body runs depends on it, \
and the body assigns %1, at %5. No value is copied, but %1 then depends on %0.</p>\n",
    b"<p>The value of %0, at %4, goes into the initial value of %1, at %5: %1 then depends on \
%0.</p>\n",
    b"<p>The guard of a loop reads %0, at %4, so whether the loop ends depends on it. Whether a \
run ends is visible at every class: %1 then depends on %0.</p>\n",
];

/// The names and the classes of two variables, and a number.
fn ends_of<'x>(view: &View<'x>, source: Var, target: Var, number: usize) -> [Part<'x>; 5] {
    let (from, to) = (view.facts.of(source), view.facts.of(target));
    [Name(from), Name(to), Chip(from), Chip(to), Number(number)]
}

/// The names and the classes of the ends of a step, where it reads and writes, its rule, and its
/// number.
fn parts_of<'x>(view: &View<'x>, step: &Step, number: usize) -> [Part<'x>; 8] {
    let [from, to, low, high, number] = ends_of(view, step.source, step.target, number);
    let read = Position(view.source, step.read.start);
    let written = Position(view.source, step.written.start);
    let rule = Markup(rule_text(step.rule));
    [from, to, low, high, read, written, rule, number]
}

/// Adds the explanation of a bad walk.
pub(crate) fn put_walk(page: &mut Page, view: &View<'_>, has_arrows: bool) -> Added {
    page.put(b"<section aria-labelledby=\"why\"><h2 id=\"why\">Why it is refused</h2>\n")?;
    page.put(b"<ol class=\"walk\">\n")?;
    for (place, step) in view.walk.iter().enumerate() {
        let parts = parts_of(view, step, place.saturating_add(1));
        page.fill(STEP, &parts)?;
        page.fill(SENTENCES[step.rule as usize], &parts)?;
        page.fill(either(has_arrows, TURN, b"</li>\n"), &parts)?;
    }
    page.put(b"</ol>\n")?;
    let refused = count_refused(&view.facts.pairs);
    if let (Some(first), Some(last)) = (view.walk.first(), view.walk.last()) {
        let ends = ends_of(view, first.source, last.target, refused);
        page.fill(ENDS, &ends)?;
        page.fill(BREAK, &ends)?;
        page.fill(either(refused > 1, OTHERS, b""), &ends)?;
    }
    page.put(b"</section>\n")
}

/// Adds a row for each of these refused pairs, and below it its walk, which opens.
fn put_walks(page: &mut Page, view: &View<'_>, walks: &[WalkedPair]) -> Added {
    page.put(either(walks.len() > MOST_PRINTED, FIRST, b""))?;
    page.put(TABLE)?;
    for walked in walks {
        let (source, target) = (walked.pair.source, walked.pair.target);
        let ends = ends_of(view, source, target, walked.steps.len());
        page.fill(REFUSED, &ends)?;
        for step in &walked.steps {
            let line = either(step.rule == Rule::Loop, ENDING, LINE);
            page.fill(line, &parts_of(view, step, 0))?;
        }
        page.put(b"</ol>")?;
        page.fill(BREAK, &ends)?;
        page.put(b"</details></td></tr>\n")?;
    }
    page.put(b"</tbody></table>\n")
}

/// Adds a row for each of the allowed pairs.
fn put_allowed(page: &mut Page, view: &View<'_>) -> Added {
    page.put(TABLE)?;
    for pair in &view.facts.pairs {
        if pair.allowed {
            let steps = pair.steps as usize;
            page.fill(ALLOWED, &ends_of(view, pair.source, pair.target, steps))?;
        }
    }
    page.put(b"</tbody></table>\n")
}

/// Adds the allowed or the refused pairs, in a row for each variable from which there are some.
fn put_groups(page: &mut Page, view: &View<'_>, are_allowed: bool) -> Added {
    page.put(GROUPS)?;
    let mut last = usize::MAX;
    for pair in &view.facts.pairs {
        if pair.allowed != are_allowed {
            continue;
        }
        let source = view.facts.number(pair.source);
        if source != last {
            let of = view.facts.variable(source);
            page.put(either(last == usize::MAX, b"", b"</td></tr>\n"))?;
            page.fill(GROUP, &[Name(of), Chip(of)])?;
            last = source;
        }
        page.fill(b"%0 ", &[Short(view.facts.of(pair.target).name)])?;
    }
    page.put(b"</td></tr>\n</tbody></table>\n")
}

/// Adds the numbers of pairs, the refused ones, the first of them with their walks, and the allowed
/// ones, which open.
pub(crate) fn put_table(page: &mut Page, view: &View<'_>, walks: &[WalkedPair]) -> Added {
    let endings = b", and from them to the ending of loops";
    let endings = Markup(either(view.profile == Profile::Strict, endings, b""));
    let heading = b"<h3 id=\"table\">All flows between declared variables%0</h3>\n";
    page.fill(heading, &[endings])?;
    let all = view.facts.pairs.len();
    if all == 0 {
        return page.put(b"<p>None: no declared variable flows to another one.</p>\n");
    }
    let refused = count_refused(&view.facts.pairs);
    let allowed = all.saturating_sub(refused);
    let parts = [
        Markup(number_word(all, b" flow: ", b" flows: ")),
        Markup(number_word(allowed, b" allowed flow", b" allowed flows")),
        Number(all),
        Number(refused),
        Number(allowed),
    ];
    page.fill(b"<p>%2%0%3 refused, %4 allowed.</p>\n", &parts)?;
    if !walks.is_empty() {
        put_walks(page, view, walks)?;
    }
    if walks.len() < refused {
        page.put(NO_WALKS)?;
        put_groups(page, view, false)?;
        page.put(b"</div>\n")?;
    }
    if refused < all {
        if allowed > MOST_PAIRS {
            page.fill(MANY, &parts)?;
            put_groups(page, view, true)?;
        } else {
            page.fill(b"<details><summary>%4%1</summary>\n", &parts)?;
            put_allowed(page, view)?;
        }
        page.put(b"</details>\n")?;
    }
    Ok(())
}
