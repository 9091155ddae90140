//! The parts of a page, and the writer that puts them into its markup. The style sheet of a page.

ghost use Rattle.std.specs.Prelude.{◌≡◌, ◌++◌, ◌∷◌, ◌-◌, OnOk, IfOk, List, ℕ, [], true};
ghost use Rattle.vsi_report.specs.{Banner.{untagged}, Escape.{escape, escaped}, Filled.{filled}, Page.{HasPanel}, Reading.{Shows}, Parts.{are_stated, is_stated, texts_of, words}};
ghost use Rattle.vsi_report.specs.Banner as spec;
ghost use Rattle.vsi_report.specs.Filled as filling;

use crate::facts::{Variable, colour};
use crate::report::View;
use itoa::Buffer;
use std::alloc::{AllocError, Global};
use vsi_syntax::{line_column, put_number};

/// The result of an addition to a page or a picture.
pub(crate) type Added = Result<(), AllocError>;

/// The result of a function that needs memory.
pub(crate) type Made<T> = Result<T, AllocError>;

/// A piece of markup, or another text of this crate's code.
pub(crate) type Piece = &'static [u8];

/// The first piece if a condition holds, otherwise the second one.
pub(crate) fn either(holds: bool, first: Piece, second: Piece) -> Piece {
    if holds { first } else { second }
}

/// Adds an escaped byte.
pub(crate) fn put_byte(page: &mut Vec<u8>, byte: u8) -> Added
    ensures { OnOk result (page.new.items ≡ page.old.items ++ escape byte) }
{
    match byte {
        b'<' => page.extend_from_slice(b"&#60;"),
        b'>' => page.extend_from_slice(b"&#62;"),
        b'&' => page.extend_from_slice(b"&#38;"),
        b'"' => page.extend_from_slice(b"&#34;"),
        b'\'' => page.extend_from_slice(b"&#39;"),
        other => page.extend_from_slice(&[other]),
    }
}

/// Adds an escaped text. None of its bytes begins or ends a tag or a quoted value, and a reader
/// sees the text.
pub fn put_escaped(page: &mut Vec<u8>, text: &[u8]) -> Result<(), AllocError>
    ensures { OnOk result (page.new.items ≡ page.old.items ++ escaped text.now) }
{
    for byte in text {
        put_byte(page, *byte)?;
    }
    Ok(())
}

/// Adds a style sheet, without the bytes that could begin a tag.
fn put_style(page: &mut Vec<u8>, style: &[u8]) -> Added
    ensures { OnOk result (page.new.items ≡ page.old.items ++ untagged style.now) }
{
    for byte in style {
        if *byte != b'<' {
            page.extend_from_slice(&[*byte])?;
        }
    }
    Ok(())
}

/// A part of a page or a graph, for a hole of its markup.
#[derive(Clone, Copy)]
pub(crate) enum Part<'a> {
    /// A piece of markup from the code.
    Markup(Piece),
    /// Bytes of a graph, or a panel, as they are.
    Bytes(&'a [u8]),
    /// A part of a page.
    Block(&'a Page),
    /// A text, escaped.
    Text(&'a [u8]),
    /// A style sheet, without the bytes that could begin a tag.
    Style(&'a [u8]),
    /// A number in decimal.
    Number(usize),
    /// A number and a blank, if there is one.
    Prefix(Option<usize>),
    /// A text, escaped; one of more than 24 letters keeps its first and last letters.
    Short(&'a [u8]),
    /// A word of the machine.
    Word(i64),
    /// The name of a variable, in the colour of its class.
    Name(Variable<'a>),
    /// The class of a variable, and whether it was inferred.
    Chip(Variable<'a>),
    /// The line and the column of a byte of a text, as a link to the line.
    Position(&'a [u8], usize),
}

/// Adds a text in the colour of a class, after the beginning of a tag.
fn put_tinted(page: &mut Vec<u8>, begin: Piece, class: usize, text: &[u8]) -> Added {
    page.extend_from_slice(begin)?;
    page.extend_from_slice(colour(class))?;
    page.extend_from_slice(b"\">")?;
    put_escaped(page, text)
}

/// Adds a position in a source text, as a link to its line.
fn put_position(page: &mut Vec<u8>, source: &[u8], at: usize) -> Added {
    let (line, column) = line_column(source, at);
    page.extend_from_slice(b"<a href=\"#L")?;
    put_number(page, line)?;
    page.extend_from_slice(b"\">line ")?;
    put_number(page, line)?;
    page.extend_from_slice(b", column ")?;
    put_number(page, column)?;
    page.extend_from_slice(b"</a>")
}

/// Adds a part.
fn put_part(page: &mut Vec<u8>, part: &Part<'_>) -> Added
    ensures { is_stated part.now ≡ true
        → OnOk result (page.new.items ≡ page.old.items ++ words part.now) }
{
    match part {
        Part::Markup(bytes) => page.extend_from_slice(bytes),
        Part::Bytes(bytes) => page.extend_from_slice(bytes),
        Part::Block(block) => page.extend_from_slice(&block.text),
        Part::Text(text) => put_escaped(page, text),
        Part::Style(style) => put_style(page, style),
        Part::Number(number) => put_number(page, *number),
        Part::Prefix(None) => Ok(()),
        Part::Prefix(Some(number)) => {
            put_number(page, *number)?;
            page.extend_from_slice(b" ")
        }
        Part::Short(text) => {
            if text.len() <= 24 {
                return put_escaped(page, text);
            }
            let last = text.len() - 11;
            put_escaped(page, &text[..12])?;
            page.extend_from_slice(b"\xe2\x80\xa6")?;
            put_escaped(page, &text[last..])
        }
        Part::Word(word) => put_escaped(page, Buffer::new().format(*word).as_bytes()),
        Part::Name(of) => {
            put_tinted(page, b"<b class=\"", of.class, of.name)?;
            page.extend_from_slice(b"</b>")
        }
        Part::Chip(of) => {
            put_tinted(page, b"<span class=\"chip ", of.class, of.class_name)?;
            let inferred = b"</span> <small>inferred</small>";
            page.extend_from_slice(either(of.is_declared, b"</span>", inferred))
        }
        Part::Position(source, at) => put_position(page, source, *at),
    }
}

/// Adds a byte of markup, or the part for a hole, and answers whether the next byte is the digit of
/// a hole.
fn put_next(page: &mut Vec<u8>, parts: &[Part<'_>], is_hole: bool, byte: u8) -> Made<bool>
    ensures { are_stated parts.now ≡ true → IfOk result (λ next. (rest : List ℕ)
        → page.new.items ++ filled (texts_of parts.now) next rest
        ≡ page.old.items ++ filled (texts_of parts.now) is_hole (byte ∷ rest)) }
{
    if is_hole {
        match parts.get(byte.saturating_sub(b'0') as usize) {
            Some(part) => put_part(page, part)?,
            None => {}
        }
        return Ok(false);
    }
    if byte == b'%' {
        return Ok(true);
    }
    page.extend_from_slice(&[byte])?;
    Ok(false)
}

/// Adds markup in which `%0` is a hole for the first part, and so on.
pub(crate) fn fill(page: &mut Vec<u8>, markup: Piece, parts: &[Part<'_>]) -> Added
    ensures { are_stated parts.now ≡ true
        → OnOk result (page.new.items
        ≡ page.old.items ++ filling.fill markup.now (texts_of parts.now)) }
{
    let mut is_hole = false;
    for byte in markup {
        is_hole = put_next(page, parts, is_hole, *byte)?;
    }
    Ok(())
}

/// The bytes of a page. They consist only of pieces of this crate's code, texts that `put_escaped`
/// writes, and the panel of a source text.
#[derive(Drop)]
pub(crate) struct Page {
    pub(crate) text: Vec<u8>,
}

impl Page {
    /// An empty page.
    pub(crate) fn new(alloc: Global) -> Page
        ensures { result.text.items ≡ [] }
    {
        Page {
            text: Vec::new(alloc),
        }
    }

    /// Adds a piece of markup from the code.
    pub(crate) fn put(&mut self, piece: Piece) -> Added
        ensures { OnOk result (self.new.text.items ≡ self.old.text.items ++ piece.now) }
    {
        self.text.extend_from_slice(piece)
    }

    /// Adds a piece of markup from the code, in which `%0` is a hole for the first part, and so on.
    pub(crate) fn fill(&mut self, markup: Piece, parts: &[Part<'_>]) -> Added
        ensures { are_stated parts.now ≡ true → OnOk result (self.new.text.items
            ≡ self.old.text.items ++ filling.fill markup.now (texts_of parts.now)) }
    {
        fill(&mut self.text, markup, parts)
    }
}

/// The verdict about a text.
#[derive(Clone, Copy)]
pub(crate) enum Verdict {
    /// The text is accepted.
    Accepted,
    /// A flow of the text is refused.
    Refused,
    /// The text is no program.
    NoProgram,
    /// The text is a program, but its names or its size are at fault.
    Unjudged,
}

/// The beginning of the title of a page.
fn title(verdict: Verdict) -> Piece
    ensures { result.now ≡ spec.title verdict }
{
    match verdict {
        Verdict::Accepted => b"<title>Accepted: a report of its flows, ",
        Verdict::Refused => b"<title>Refused: a report of its flows, ",
        Verdict::NoProgram => b"<title>Not a program, ",
        Verdict::Unjudged => b"<title>Not judged, ",
    }
}

/// The beginning of the banner of a page, with its heading.
fn heading(verdict: Verdict) -> Piece
    ensures { result.now ≡ spec.banner verdict }
{
    match verdict {
        Verdict::Accepted => b"<header class=\"good\"><h1>&#10003; Accepted</h1>\n",
        Verdict::Refused => b"<header class=\"bad\"><h1>&#10007; Refused</h1>\n",
        Verdict::NoProgram => b"<header class=\"bad\"><h1>&#10007; Not a program</h1>\n",
        Verdict::Unjudged => b"<header class=\"bad\"><h1>&#10007; Not judged</h1>\n",
    }
}

/// A page: its head, the first sentences and the rest of its banner, and its parts before and after
/// the panel of the source text.
const PAGE: &[u8] = b"<!DOCTYPE html>\n<html lang=\"en\">\n<head>\n<meta charset=\"utf-8\">\n\
<meta name=\"viewport\" content=\"width=device-width, initial-scale=1\">\n\
<meta http-equiv=\"Content-Security-Policy\" \
content=\"default-src 'none'; style-src 'unsafe-inline'\">\n\
<meta name=\"color-scheme\" content=\"light dark\">\n\
%0%1</title>\n<style>\n%2</style>\n</head>\n<body>\n<main>\n%3%4%5<div class=\"beside\">\n\
<section aria-labelledby=\"source\"><h2 id=\"source\">Source</h2>\n\
<pre class=\"source\"><code>%6</code></pre>%7</div>\n</main>\n</body>\n</html>\n";
/// The page with this verdict, name of its text, style and first sentences of its banner, and with
/// these parts before and after this panel of its source.
pub(crate) fn whole_page<'x>(
    alloc: Global,
    verdict: Verdict,
    name: &'x [u8],
    style: &'x Page,
    lead: &'x Page,
    before: &'x Page,
    panel: &'x [u8],
    after: &'x Page,
) -> Made<Vec<u8>>
    ensures panel { (source : List ℕ) → Shows panel.now source
        → IfOk result (λ page. HasPanel page.items source) }
    ensures led { IfOk result (λ page. spec.HasLead verdict lead.now.text.items page.items) }
{
    let mut page = Vec::new(alloc);
    let parts = [
        Part::Markup(title(verdict)),
        Part::Text(name),
        Part::Style(&style.text),
        Part::Markup(heading(verdict)),
        Part::Block(lead),
        Part::Block(before),
        Part::Bytes(panel),
        Part::Block(after),
    ];
    fill(&mut page, PAGE, &parts)?;
    Ok(page)
}

/// The style sheet.
const STYLE: &[u8] = b":root{color-scheme:light dark;--mono:ui-monospace,SFMono-Regular,Menlo,\
Consolas,\"DejaVu Sans Mono\",monospace;--ink:#1c2128;--soft:#57606a;--paper:#fff;--panel:#f5f7f9;\
--rule:#d3dae1;--good:#146c2e;--goodp:#e6f4ea;--bad:#b01e1e;--badp:#fdecea;--k0:#2e23a9;--k1:\
#984a92;--k2:#627039;--k3:#5058de;--k4:#490359;--k5:#10370f;--k6:#763b63;--k7:#1f1821}\n@media \
screen and (prefers-color-scheme:dark){:root{--ink:#e6edf3;--soft:#9aa5b1;--paper:#0f1419;--panel:\
#171d24;--rule:#343d48;--good:#62d384;--goodp:#12291a;--bad:#ff8f87;--badp:#331817;--k0:#8672fd;\
--k1:#fc82f3;--k2:#9eeb50;--k3:#65d18e;--k4:#f6bde1;--k5:#e0f1b5;--k6:#c367a5;--k7:#92ab3b}}\n*{\
box-sizing:border-box}\nbody{margin:0;background:var(--paper);color:var(--ink);font:17px/1.55 \
system-ui,-apple-system,\"Segoe UI\",Roboto,\"DejaVu Sans\",sans-serif;-webkit-text-size-adjust:\
100%}\nmain{max-width:76rem;margin:0 auto;padding:1rem clamp(.9rem,3vw,2.5rem) 3rem}\nheader{\
border-left:.5rem solid;border-radius:.4rem;padding:.9rem 1.2rem;margin:1rem 0 1.6rem}\nheader h1{\
margin:0;font-size:1.9rem;line-height:1.2}\nheader p,header ul{margin:.3rem 0 0;color:var(--ink);\
max-width:none}\n.lead{font-size:1.1rem;overflow-wrap:anywhere}.by{font-size:.9rem}.warrant{\
padding-left:1.2rem}\n.strip{list-style:none;display:flex;flex-wrap:wrap;gap:.3rem 0;margin:.5rem \
0 0;padding:0}\n.strip li{max-width:100%;overflow-wrap:anywhere}\n.strip li+li::before{content:\
\"\\2192\";padding:0 .45rem;color:var(--soft)}\n.good{border-color:var(--good);background:\
var(--goodp)}.good h1{color:var(--good)}\n.bad{border-color:var(--bad);background:var(--badp)}\
.bad h1{color:var(--bad)}\nh2{font-size:1.3rem;margin:1.8rem 0 .6rem}h3{font-size:1.05rem;margin:\
1.4rem 0 .5rem}\np{max-width:46rem;margin:.5rem 0}\na{color:inherit;text-underline-offset:.2em;\
padding:.3em 0}\n.strip a,.quote a{display:inline-block;min-width:1.5rem;text-align:center}\
\n.quote{overflow-wrap:anywhere}.quote code{white-space:pre-wrap;unicode-bidi:isolate;direction:\
ltr}\nsection{min-width:0}\n.beside{display:grid;gap:0 2rem;grid-template-columns:minmax(0,1fr);\
align-items:start}.beside>*{min-width:0}.wide{grid-column:1/-1}\n@media (min-width:62rem){.beside{\
grid-template-columns:minmax(0,3fr) minmax(0,2fr);grid-template-rows:min-content 1fr}.side{\
grid-column:2;grid-row:1/span 2}.picture{max-width:100%;height:auto}}\npre{background:var(--panel)\
;border:1px solid var(--rule);border-radius:.5rem;padding:.8rem 1rem;margin:.5rem 0;overflow-x:\
auto;font:.93rem/1.75 var(--mono);tab-size:4}\ncode{font-family:var(--mono)}\npre code{font:\
inherit}\n.source{padding-left:0;counter-reset:line;white-space:pre-wrap;overflow-wrap:anywhere}\
\n.line{display:block;position:relative;padding-left:4rem;min-height:1.75em}\n.line::before{\
counter-increment:line;content:counter(line);position:absolute;left:0;width:3.1rem;text-align:\
right;color:var(--soft);-webkit-user-select:none;user-select:none}\n.line{unicode-bidi:isolate;\
direction:ltr}\n.line:target{background:var(--badp)}.line,.walk li{scroll-margin:40vh 0}\n.line b{\
font-weight:600}\n.line .word{font-weight:700}\n.line .note{color:var(--soft);font-style:italic;\
font-weight:inherit}\n.line .fault{background:var(--paper);outline:2px solid var(--bad);\
border-radius:.2rem}\n.line .mark{white-space:nowrap;unicode-bidi:isolate;font-size:0}\n.mark::\
before{content:attr(data-class);background:var(--ink);color:var(--panel);font:700 .72rem/1 \
system-ui,sans-serif;border-radius:.2rem;padding:.1em .3em;vertical-align:.12em}\n.line \
[data-class]:not(.mark)::after{content:attr(data-class);font-size:.68em;font-weight:600;\
vertical-align:.45em;margin-left:.12em;-webkit-user-select:none;user-select:none}\n.line \
[data-step]{display:inline-block;max-width:100%;line-height:1.3;background:var(--badp);outline:\
2px solid var(--bad);border-radius:.2rem;padding:.05em .15em}\n.line [data-step]::before{content:\
attr(data-step);display:inline-block;white-space:nowrap;background:var(--bad);color:var(--paper);\
font:700 .72em/1 system-ui,sans-serif;border-radius:.2rem;padding:.15em .35em;margin-right:.3em;\
vertical-align:.12em}\n.k0{color:var(--k0)}.k1{color:var(--k1)}.k2{color:var(--k2)}.k3{color:\
var(--k3)}\n.k4{color:var(--k4)}.k5{color:var(--k5)}.k6{color:var(--k6)}.k7{color:var(--k7)}\
\n.chip{border:1px solid;border-radius:1rem;padding:0 .5em;font-size:.8em;font-weight:600;\
white-space:nowrap}\n.hint,figcaption,small{color:var(--soft);font-size:.88rem}\n.walk{\
padding-left:1.6rem;margin:.5rem 0}.walk li{margin:0 0 .9rem}.walk li::marker{font-weight:700;\
color:var(--bad)}\n.walk p{margin:.15rem 0}.step{font-size:1.02em}\n.turn{font-size:.85rem}.turn \
a{margin-right:.8em;white-space:nowrap}.walk,.lead,dd,td,th,.end{overflow-wrap:anywhere}\n.walk \
li:target{outline:2px solid var(--bad);outline-offset:.4rem;border-radius:.2rem}\n.end{\
border-left:.25rem solid var(--bad);padding-left:.8rem}\nfigure{margin:.5rem 0}figcaption{\
margin-top:.4rem;max-width:46rem}\n.scroll{overflow-x:auto;max-width:100%}\n.picture{display:\
block;font:600 15px var(--mono)}\n.cover{fill:none;stroke:var(--soft);stroke-width:2}.wide .cover{\
stroke-width:1.3}\n.box rect{fill:var(--paper);stroke:currentColor;stroke-width:2}\n.box text{\
fill:currentColor;text-anchor:middle}\n.inferred .box rect{stroke-dasharray:5 4}\n.band rect{fill:\
currentColor;fill-opacity:.07;stroke:currentColor;stroke-opacity:.35}\n.band text{fill:\
currentColor;font-size:13px;stroke:var(--paper);stroke-width:4px;paint-order:stroke}\n.flow{fill:\
none;stroke:var(--soft);stroke-width:1.6}\n.r2{stroke-dasharray:7 4}.r4{stroke-dasharray:2 4;\
stroke-width:2.4}.r8{stroke-width:3}.r16{stroke-dasharray:10 3 2 3}\n.tip{fill:var(--soft)}\
\n.against{stroke:var(--bad)}\n.told{fill:none;stroke:var(--bad);stroke-width:4}.told:target{\
stroke-width:8}.toldtip{fill:var(--bad)}\n.number circle{fill:var(--bad);stroke:var(--paper);\
stroke-width:2}\n.number text{fill:var(--paper);text-anchor:middle;font-size:14px}\n.legend{\
list-style:none;margin:.6rem 0;padding:0;display:flex;flex-wrap:wrap;gap:.1rem 1.4rem;font-size:\
.88rem}\n.legend svg{vertical-align:middle}\ntable{border-collapse:collapse;font-size:.95rem}\nth,\
td{text-align:left;padding:.35rem .9rem .35rem .5rem;border-bottom:1px solid var(--rule);\
vertical-align:baseline}\nth{color:var(--soft);font-size:.85rem}\n.yes{color:var(--good);\
white-space:nowrap}.no{color:var(--bad);font-weight:700;white-space:nowrap}\n.refused,.apart{\
background:var(--badp)}\nthead th{overflow-wrap:normal}td ol{margin:.2rem 0;padding-left:1.8rem}\
\ncaption{text-align:left;font-weight:700;padding:.3rem 0}.runs{margin:.4rem 0}\nth[scope=row]{\
min-width:5.5em;font-size:inherit;color:inherit;font-weight:600}\n.wrap,.raise{white-space:\
pre-wrap;overflow-wrap:anywhere}summary{cursor:pointer;padding:.2rem 0}dl{margin:.5rem 0}dt{\
font-weight:700;margin-top:.4rem}\ndd{margin:0}.sum{font-size:.85em}\n.paper{display:none}\
\n@media (min-width:40rem){th[scope=row]{overflow-wrap:break-word}}\n@media (max-width:40rem){\
body{font-size:16px}header h1{font-size:1.6rem}.line{padding-left:2.6rem}.line::before{width:2rem}\
pre{font-size:.85rem}th,td{padding-right:.5rem}td .chip{white-space:normal}}\n@media print{@page{\
margin:13mm 12mm}:root{font-size:10pt;--paper:#fff;--panel:#fff;--ink:#000;\
-webkit-print-color-adjust:exact;print-color-adjust:exact}body{font-size:10pt;line-height:1.4}\
main{max-width:none;padding:0}.beside{display:block}header{margin-top:0}h2{margin-top:1.2rem}pre{\
overflow:visible;white-space:pre-wrap;overflow-wrap:anywhere;font-size:8.5pt;line-height:1.3;\
-webkit-box-decoration-break:clone;box-decoration-break:clone}.listing{columns:17em;column-rule:\
1px solid var(--rule)}main:has(#L100) :is(.source,.raise){columns:26em}main:has(#L100) .line{\
padding-left:3.2em}.scroll{overflow:visible}.picture{max-width:100%;max-height:20cm;height:auto}\
.picture text{font-size:15px}table{font-size:9pt}.line{min-height:1.3em}.line::before{width:2.4em}\
.line [data-class]:not(.mark)::after,.line [data-step]::before{font-size:.85em}th,td{padding-top:\
.1rem;padding-bottom:.1rem}header,figure,dl,tr,li,.line,.end{break-inside:avoid}tr:has(details){\
break-inside:auto}tr:has(+tr details){break-after:avoid}.spare,.large{display:none}.paper,.large+\
.spare{display:block}.paper+table tr:nth-child(n+21),td li:nth-child(n+13),.walk li:nth-child(n+\
21) p+p{display:none}td li:nth-child(12):not(:last-child)::after{content:\". Further steps aren't \
printed.\"}.walk li:nth-child(21)::before{content:\"From here on sentences aren't printed.\"}\
.walk{padding-left:2.6em}.walk li{margin-bottom:.4rem}dl{display:grid;grid-template-columns:7em \
1fr}dt{grid-column:1;margin:0}dd{grid-column:2}h2,h3,summary{break-after:avoid}.turn{display:none}\
details::details-content{content-visibility:visible;display:block;height:auto}@page{@bottom-right{\
content:counter(page) \" of \" counter(pages)}}thead{display:table-header-group}}\n";
/// The style sheet of a page of a lattice with more classes than colours, which has none.
const PLAIN: &[u8] = b":root:root{--k0:var(--ink);--k1:var(--ink);--k2:var(--ink);--k3:var(--ink);\
--k4:var(--ink);--k5:var(--ink);--k6:var(--ink);--k7:var(--ink)}\n";
/// The most steps of a walk that are marked when a reader has gone to them.
const MOST_STEPS: usize = 100;
/// The rule that marks a step of a walk when a reader has gone to it.
const STEP: &[u8] =
    b"main:has(#s%0:target) :is([data-step~=\"%0\"],.w%0){outline-width:4px;stroke-width:8}\n";

/// The style sheet of a page. The line of a fault is tinted.
pub(crate) fn style_of(view: &View<'_>) -> Made<Page> {
    let mut style = Page::new(view.alloc);
    style.put(STYLE)?;
    if view.order.names.len() > 8 {
        style.put(PLAIN)?;
    }
    for step in 0..view.walk.len().min(MOST_STEPS) {
        style.fill(STEP, &[Part::Number(step.saturating_add(1))])?;
    }
    if let Some(at) = view.fault {
        let (line, _) = line_column(view.source, at);
        style.fill(b"#L%0{background:var(--badp)}\n", &[Part::Number(line)])?;
    }
    Ok(style)
}
