//! The page that links to the reports of a project.

use std::alloc::{AllocError, Global};
use vsi_syntax::put_number;

/// A program in the page.
#[derive(Clone, Copy)]
pub struct Row<'r> {
    /// Its name; its report is NAME.html.
    pub name: &'r str,
    /// The path of its source text.
    pub source: &'r str,
    /// Whether it is accepted.
    pub is_accepted: bool,
}

/// The page before its rows.
const BEGINNING: &[u8] = b"<!DOCTYPE html>\n<html lang=\"en\">\n<head>\n<meta charset=\"utf-8\">\n\
<meta name=\"viewport\" content=\"width=device-width, initial-scale=1\">\n\
<meta http-equiv=\"Content-Security-Policy\" \
content=\"default-src 'none'; style-src 'unsafe-inline'\">\n\
<meta name=\"color-scheme\" content=\"light dark\">\n<title>Reports of the programs</title>\n\
<style>\n:root{color-scheme:light dark;--ink:#1c2128;--paper:#fff;--rule:#d3dae1;--good:#146c2e;\
--bad:#b01e1e}\n@media screen and (prefers-color-scheme:dark){:root{--ink:#e6edf3;--paper:#0f1419;\
--rule:#343d48;--good:#62d384;--bad:#ff8f87}}\nbody{margin:0;background:var(--paper);\
color:var(--ink);font:17px/1.55 system-ui,-apple-system,\"Segoe UI\",Roboto,\"DejaVu Sans\",\
sans-serif}\nmain{max-width:46rem;margin:0 auto;padding:1rem}\ntable{border-collapse:collapse;\
width:100%}\nth,td{text-align:left;padding:.4rem .8rem .4rem 0;border-bottom:1px solid \
var(--rule);overflow-wrap:anywhere}\na{color:inherit}\n.good{color:var(--good)}\n.bad{\
color:var(--bad)}\n</style>\n</head>\n<body>\n<main>\n<h1>Programs</h1>\n<table>\n<thead><tr>\
<th scope=\"col\">Program</th><th scope=\"col\">Verdict</th><th scope=\"col\">Source</th></tr>\
</thead>\n<tbody>\n";

/// The page after its rows.
const END: &[u8] = b"</tbody>\n</table>\n</main>\n</body>\n</html>\n";

/// Adds a text, with its number for each byte that could begin or end markup.
fn put_escaped(page: &mut Vec<u8>, text: &[u8]) -> Result<(), AllocError> {
    for byte in text {
        if matches!(byte, b'<' | b'>' | b'&' | b'"' | b'\'') {
            page.extend_from_slice(b"&#")?;
            put_number(page, usize::from(*byte))?;
            page.extend_from_slice(b";")?;
        } else {
            page.extend_from_slice(&[*byte])?;
        }
    }
    Ok(())
}

/// Adds the row of a program.
fn put_row(page: &mut Vec<u8>, row: &Row<'_>) -> Result<(), AllocError> {
    page.extend_from_slice(b"<tr><td><a href=\"")?;
    put_escaped(page, row.name.as_bytes())?;
    page.extend_from_slice(b".html\">")?;
    put_escaped(page, row.name.as_bytes())?;
    page.extend_from_slice(if row.is_accepted {
        b"</a></td><td class=\"good\">&#10003; Accepted</td><td>".as_slice()
    } else {
        b"</a></td><td class=\"bad\">&#10007; Refused</td><td>"
    })?;
    put_escaped(page, row.source.as_bytes())?;
    page.extend_from_slice(b"</td></tr>\n")
}

/// A page with a row for each program in their order, which links to its report.
pub fn index_page(alloc: Global, rows: &[Row<'_>]) -> Result<Vec<u8>, AllocError> {
    let mut page = Vec::from_slice(alloc, BEGINNING)?;
    for row in rows {
        put_row(&mut page, row)?;
    }
    page.extend_from_slice(END)?;
    Ok(page)
}
