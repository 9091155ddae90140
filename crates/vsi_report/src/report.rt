//! The page of a text: its parts around the panel of its source, and its style.

ghost use Rattle.std.specs.Prelude.{◌≡◌, IfOk};
ghost use Rattle.vsi_lattice.specs.LatticeView.{class_named, names, order as order_of_lattice};
ghost use Rattle.vsi_compiler.specs.{Acceptance.{IsAccepted}, Refusal.{HasShortestBadWalk, RefusesProgram}};
ghost use Rattle.vsi_report.specs.{Banner.{HasLead}, Graph.{texts}, Page.{HasPanel}, Verdict.{HasVerdict, verdict_of}};

use crate::banner::{
    allowed_lead, lead_of, put_accepted, put_judged, put_quote, put_refused, refused_lead,
};
use crate::dot::{Order, order_of};
use crate::facts::{Facts, facts_of, reached_classes};
use crate::leak::put_leak;
use crate::page::Part::{Block, Markup, Number, Position, Text};
use crate::page::{Added, Made, Page, Piece, Verdict, either, style_of, whole_page};
use crate::panel::{is_large, source_panel};
use crate::picture::{lattice_section, put_all_flows, scene_of};
use crate::sections::{Filing, MOST_PAIRS, leaf, profile_text, put_walk};
use sha2::{Digest, Sha256};
use std::alloc::{AllocError, Global};
use vsi_answers::{Field, refusal_diagnostic, refusal_text};
use vsi_client::mentions_of;
use vsi_compiler::{CompileError, Source, image_of, judge, read_source};
use vsi_flows::{raise_lines_of, refused_pairs, walks_of};
use vsi_image::{Image, listing};
use vsi_lattice::{Class, Lattice};
use vsi_telling::{ColourMode, source_explanation};
use vsi_types::{Profile, Step};

/// The name and the length of a file.
const FILE: &[u8] = b"<dt>%0</dt><dd><code>%1</code>, %2 bytes</dd>\n";
/// The checksum of a file.
const SUM: &[u8] = b"<dd>SHA-256 <code class=\"sum\">%0</code></dd>\n";
/// The profile, the version, and the text of the lattice file, which opens on request.
const MAKING: &[u8] = b"<dt>Judged by</dt><dd>the %0</dd>\n<dt>Made by</dt><dd>vsi %1</dd>\n</dl>\n\
<details><summary>The lattice file</summary>\n<pre class=\"wrap\"><code>%2\
</code></pre></details>\n</section>\n";
/// The beginning of the section about the files of a page.
const FILES: &[u8] = b"<section class=\"wide\" aria-labelledby=\"files\">\
<h2 id=\"files\">What was judged</h2>\n<dl>\n";
/// The limits of the base profile.
const BASE: &[u8] = b"The base profile promises neither whether a run halts nor the number of its \
instructions.";
/// The promise that the strict profile adds.
const STRICT: &[u8] = b"Whether a run halts is promised too: from two stores that agree on each \
global of the least class, either both runs halt or neither does. The number of instructions isn't \
promised by the profile.";
/// The promises about an accepted text.
const PROMISE: &[u8] =
    b"<div>\n<section aria-labelledby=\"promise\"><h2 id=\"promise\">What is promised\
</h2>\n<p>The image does what the text says. Take any class, and two stores that agree on each \
global whose class is at or below it: if the runs of the image from both halt, their final stores \
agree on these globals too. So, in runs that halt, no final value at or below the class depends on \
a global that isn't.</p>\n<p>%0</p>\n<p>This is proved about the compiler, for every text that it \
accepts. It says what may depend on what; the lattice decides whether a class means secrecy or \
trust.</p></section>\n";
/// The section about a fault, with its explanation.
const FAULT: &[u8] = b"<section aria-labelledby=\"why\"><h2 id=\"why\">Why it is refused</h2>\n\
<pre class=\"wrap\"><code>%0</code></pre>\n</section>\n";
/// The beginning of the section about the raise of classes with which the text is accepted.
const FIX: &[u8] = b"</div>\n<div>\n<section aria-labelledby=\"fix\">\
<h2 id=\"fix\">What would fix it</h2>\n";
/// The fix of raising classes.
const RAISES: &[u8] = b"<p>The whole text is accepted if the policy may change and these classes \
are raised. It is the least raise that is enough:</p>\n\
<pre class=\"raise\"><code>%0</code></pre>\n";
/// The text where no raise helps.
const NO_RAISE: &[u8] =
    b"<p>No raise of classes makes the text accepted: whether a loop ends would \
still depend on a variable above the least class.</p>\n";
/// The most steps of the walks of a table.
const MOST_WALKED: usize = 1_000;
/// The listing of an image, which opens on request.
const IMAGE: &[u8] = b"<section class=\"wide\" aria-labelledby=\"image\">\
<h2 id=\"image\">Image</h2>\n<details><summary>The listing of the image</summary>\n\
<pre class=\"listing\"><code>%0</code></pre></details>\n</section>\n";
/// The most instructions of an image that is listed.
const MOST_LISTED: usize = 5_000;
/// The section of an image with more of them.
const UNLISTED: &[u8] = b"<section class=\"wide\" aria-labelledby=\"image\">\
<h2 id=\"image\">Image</h2>\n<p>The image has %0 instructions, too many to be listed here: \
<code>vsi list</code> prints them.</p>\n</section>\n";
/// The text about the classes in the panel of the source text.
const HINT: &[u8] =
    b"\n<p class=\"hint\">A name is followed by its class where a line has it first, \
except where that is declared. A star marks the least class that is possible for a variable whose \
class the text doesn't declare.</p>\n</section>\n";
/// The text about the panel of a large source text.
const LARGE: &[u8] = b"\n<p class=\"hint\">The classes of the names aren't shown, since there are \
too many names: <code>vsi classes</code> prints them.</p>\n</section>\n";

/// The contents of a page. A text whose flows aren't judged has neither facts nor a walk, but
/// perhaps the position of its fault; an accepted text has no walk.
#[derive(Clone, Copy)]
pub(crate) struct View<'a> {
    pub(crate) alloc: Global,
    pub(crate) profile: Profile,
    pub(crate) filing: &'a Filing<'a>,
    pub(crate) lattice: &'a Lattice,
    pub(crate) order: &'a Order,
    pub(crate) source: &'a [u8],
    pub(crate) facts: &'a Facts<'a>,
    pub(crate) walk: &'a [Step],
    pub(crate) fault: Option<usize>,
}

/// The parts of the page of a text with a refused flow. The raise of classes is one with which the
/// text is accepted, and the first refused pairs have shortest walks.
fn refused_sides(view: &View<'_>, read: &Source<'_>) -> Made<(Page, Page)> {
    let (alloc, profile) = (view.alloc, view.profile);
    let (mut before, mut after) = (Page::new(alloc), Page::new(alloc));
    let (lattice, is_wide) = lattice_section(view)?;
    let scene = scene_of(view)?;
    put_refused(&mut before, view)?;
    after.put(either(is_large(view), LARGE, HINT))?;
    after.put(b"<div class=\"side\">\n")?;
    put_walk(&mut after, view, scene.is_some())?;
    let section = [Block(&lattice)];
    after.fill(either(is_wide, b"", b"%0"), &section)?;
    after.put(FIX)?;
    match &raise_lines_of(alloc, profile, read) {
        Ok(lines) => after.fill(RAISES, &[Text(lines.as_slice())])?,
        Err(CompileError::Memory) => return Err(AllocError),
        Err(_) => after.put(NO_RAISE)?,
    }
    after.put(b"</section>\n")?;
    put_leak(&mut after, view, read)?;
    after.fill(either(is_wide, b"</div>\n%0", b"</div>\n"), &section)?;
    let (lattice, resolved) = (read.lattice(), read.resolved());
    let pairs = refused_pairs(alloc, profile, lattice, resolved)?;
    let (mut steps, mut count) = (0usize, 0usize);
    for pair in &pairs {
        steps = steps.saturating_add(pair.steps as usize);
        if count < MOST_PAIRS && steps <= MOST_WALKED {
            count = count.saturating_add(1);
        }
    }
    let first = &pairs[..pairs.len().min(count)];
    let walks = walks_of(alloc, profile, lattice, resolved, first)?;
    put_all_flows(&mut after, view, &scene, &walks)?;
    Ok((before, after))
}

/// The parts of the page of a text whose flows aren't judged: a sentence by the number of its
/// refusal, the line of its fault, and the explanation of `--explain`.
fn faulty_sides(view: &View<'_>, error: &CompileError) -> Made<(Page, Page)> {
    let (alloc, lattice, source) = (view.alloc, view.lattice, view.source);
    let (mut before, mut after) = (Page::new(alloc), Page::new(alloc));
    before.put(b"<p class=\"lead\">")?;
    if let Some(fault) = refusal_diagnostic(source, error) {
        before.put(match fault.code {
            17 => b"A variable is declared twice",
            18 => b"A variable is declared with a class that the lattice doesn't have",
            19 => b"A variable isn't declared",
            20 | 21 => b"The program declares too many variables",
            22 => b"The program is too large",
            _ => b"The text can't be read as a program",
        })?;
    }
    if let Some(at) = view.fault {
        before.fill(b": see %0", &[Position(source, at)])?;
    }
    before.put(b". Its flows aren't judged.</p>\n")?;
    if let Some(at) = view.fault {
        put_quote(&mut before, source, at)?;
    }
    put_judged(&mut before, view)?;
    let mut why = refusal_text(alloc, lattice, source, error)?;
    let (mode, name) = (ColourMode::Plain, view.filing.source);
    why.extend_from_slice(&source_explanation(alloc, mode, name, lattice, source, error)?)?;
    before.fill(FAULT, &[Text(&why)])?;
    after.fill(b"\n</section>\n%0", &[Block(&lattice_section(view)?.0)])?;
    Ok((before, after))
}

/// The position of the fault of a text, if its refusal has one.
fn fault_at(source: &[u8], error: &CompileError) -> Option<usize> {
    let Field::Place(line, column) = refusal_diagnostic(source, error)?.field else {
        return None;
    };
    let mut start: usize = 0;
    let lines = source.split(|byte| *byte == b'\n');
    for text in lines.take(line.saturating_sub(1)) {
        start = start.saturating_add(text.len()).saturating_add(1);
    }
    let at = start.saturating_add(column.saturating_sub(1));
    Some(at.min(source.len()))
}

/// The page with this verdict, these first sentences of its banner and these other parts.
fn joined(view: &View<'_>, verdict: Verdict, lead: &Page, sides: (Page, Page)) -> Made<Vec<u8>>
    ensures panel { IfOk result (λ page. HasPanel page.items view.now.source.now) }
    ensures led { IfOk result (λ page. HasLead verdict lead.now.text.items page.items) }
{
    let (before, mut after) = sides;
    let filing = view.filing;
    after.put(FILES)?;
    let files: [(Piece, &[u8], &[u8]); 2] = [
        (b"Source text", filing.source, view.source),
        (b"Lattice", filing.lattice, filing.policy),
    ];
    for (kind, path, text) in files {
        let sum = hex::encode(view.alloc, Sha256::digest(text))?;
        after.fill(FILE, &[Markup(kind), Text(leaf(path)), Number(text.len())])?;
        after.fill(SUM, &[Text(sum.as_bytes())])?;
    }
    let profile = Markup(profile_text(view.profile));
    let parts = [profile, Text(filing.version), Text(filing.policy)];
    after.fill(MAKING, &parts)?;
    let (alloc, name) = (view.alloc, leaf(filing.source));
    let style = style_of(view)?;
    let panel = source_panel(view)?;
    whole_page(alloc, verdict, name, &style, lead, &before, &panel, &after)
}

/// Adds the listing of an image, unless it is too long.
fn put_image(page: &mut Page, alloc: Global, image: &Image) -> Added {
    let count = image.code.len();
    if count > MOST_LISTED {
        return page.fill(UNLISTED, &[Number(count)]);
    }
    page.fill(IMAGE, &[Text(&listing(alloc, image)?)])
}

/// The page of an accepted text, with the classes of its letvars and its image.
fn accepted_page(blank: &View<'_>, read: &Source<'_>, chosen: &[Class]) -> Made<Vec<u8>>
    requires lattice { blank.now.lattice.now ≡ read.now.lattice }
    requires text { blank.now.source.now ≡ read.now.text }
    requires accepted { IsAccepted (class_named read.now.lattice)
        (order_of_lattice read.now.lattice) blank.now.profile read.now.text }
    ensures panel { IfOk result (λ page. HasPanel page.items read.now.text) }
    ensures verdict { IfOk result (λ page.
        HasVerdict read.now.lattice blank.now.profile read.now.text page.items) }
{
    let (alloc, profile) = (blank.alloc, blank.profile);
    let program = read.resolved();
    let mentions = mentions_of(alloc, read)?;
    let facts = facts_of(blank, blank.order, program, chosen, mentions)?;
    let view = View {
        facts: &facts,
        ..*blank
    };
    let verified = image_of(alloc, read)?;
    let (mut before, mut after) = (Page::new(alloc), Page::new(alloc));
    let (section, is_wide) = lattice_section(&view)?;
    let scene = scene_of(&view)?;
    put_accepted(&mut before, &view, &verified)?;
    after.put(either(is_large(&view), LARGE, HINT))?;
    let endings = Markup(either(profile == Profile::Base, BASE, STRICT));
    after.fill(PROMISE, &[endings])?;
    let markup = either(is_wide, b"</div>\n%0", b"%0</div>\n");
    after.fill(markup, &[Block(&section)])?;
    put_all_flows(&mut after, &view, &scene, &[])?;
    put_image(&mut after, alloc, verified.image())?;
    let lead = allowed_lead(alloc, facts.pairs.len())?;
    joined(&view, Verdict::Accepted, &lead, (before, after))
}

/// The page of a text with a refused flow.
fn refused_page(blank: &View<'_>, read: &Source<'_>, walk: &[Step]) -> Made<Vec<u8>>
    requires lattice { blank.now.lattice.now ≡ read.now.lattice }
    requires text { blank.now.source.now ≡ read.now.text }
    requires names { texts blank.now.order.now.names.items ≡ names blank.now.lattice.now }
    ensures panel { IfOk result (λ page. HasPanel page.items read.now.text) }
    ensures verdict { HasShortestBadWalk (class_named read.now.lattice)
        (order_of_lattice read.now.lattice) blank.now.profile read.now.text walk.now
        → IfOk result (λ page.
        HasVerdict read.now.lattice blank.now.profile read.now.text page.items) }
{
    let (alloc, profile, lattice) = (blank.alloc, blank.profile, blank.lattice);
    let program = read.resolved();
    let chosen = reached_classes(alloc, profile, lattice, program)?;
    let mentions = mentions_of(alloc, read)?;
    let facts = facts_of(blank, blank.order, program, &chosen, mentions)?;
    let view = View {
        facts: &facts,
        walk,
        ..*blank
    };
    let sides = refused_sides(&view, read)?;
    let told = lead_of(lattice, blank.order, program, walk, &facts.pairs);
    let lead = refused_lead(alloc, &told)?;
    joined(&view, Verdict::Refused, &lead, sides)
}

/// The verdict about a text that is refused before its flows are judged.
fn verdict_for(error: &CompileError) -> Verdict
    ensures { result ≡ verdict_of error.now }
{
    match error {
        CompileError::Scope(_) => Verdict::Unjudged,
        _ => Verdict::NoProgram,
    }
}

/// The page of a text whose flows aren't judged. The place of its fault is a line and a column.
fn faulty_page(blank: &View<'_>, error: &CompileError) -> Made<Vec<u8>>
    ensures panel { IfOk result (λ page. HasPanel page.items blank.now.source.now) }
    ensures verdict { RefusesProgram (class_named blank.now.lattice.now) blank.now.source.now
        error.now → IfOk result (λ page. HasVerdict blank.now.lattice.now blank.now.profile
        blank.now.source.now page.items) }
{
    if let CompileError::Memory = error {
        return Err(AllocError);
    }
    let view = View {
        fault: fault_at(blank.source, error),
        ..*blank
    };
    let sides = faulty_sides(&view, error)?;
    let lead = Page::new(blank.alloc);
    joined(&view, verdict_for(error), &lead, sides)
}

/// The page of a text over a lattice under a profile, which names the files of the text and of the
/// lattice: the verdict, the source, the lattice and the flows. The page of an accepted text also
/// has its image and the promises about it; that of a refused text has the reason for the refusal.
/// Every text has a page.
///
/// # Errors
///
/// Only if memory runs out.
pub fn filed_page(
    alloc: Global,
    profile: Profile,
    filing: &Filing<'_>,
    lattice: &Lattice,
    source: &[u8],
) -> Result<Vec<u8>, AllocError>
    ensures panel { IfOk result (λ page. HasPanel page.items source.now) }
    ensures verdict { IfOk result (λ page.
        HasVerdict lattice.now profile source.now page.items) }
{
    let order = order_of(alloc, lattice)?;
    let facts: Facts<'static> = Facts {
        variables: Vec::new(alloc),
        mentions: Vec::new(alloc),
        flows: None,
        pairs: Vec::new(alloc),
    };
    let blank = View {
        alloc,
        profile,
        filing,
        lattice,
        order: &order,
        source,
        facts: &facts,
        walk: &[],
        fault: None,
    };
    match read_source(alloc, lattice, source) {
        Ok(read) => match judge(alloc, profile, &read) {
            Ok(chosen) => accepted_page(&blank, &read, &chosen),
            Err(CompileError::Flow(walk)) => refused_page(&blank, &read, walk.steps.as_slice()),
            // A text that has a program is refused for a flow alone.
            Err(_) => Err(AllocError),
        },
        Err(error) => faulty_page(&blank, &error),
    }
}
