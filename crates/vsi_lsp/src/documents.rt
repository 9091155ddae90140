//! Open documents, and the errors that are published for them.

use crate::diagnostics::{START, error_list, objects_in};
use crate::document::{DocumentText, Editor, Made, joined};
use serde_json::Value;
use std::alloc::{AllocError, Global};
use vsi_answers::{Fault, fault_diagnostic, fault_text};
use vsi_client::{Encoding, Marked, Place as Line, offset_of, path_beside};
use vsi_conform::{
    InterfaceError, InterfaceFile, Policy as Place, interface_text, read_interface, unknown_class,
    unknown_cycle,
};
use vsi_documents::named_policy;
use vsi_lattice::{LatticeError, read_lattice};
use vsi_project::{ProjectError, read_project};
use vsi_syntax::Span;
use vsi_telling::{Telling, put_text};
use vsi_types::Profile;

/// The lattice file of two classes, for a document that names none.
const TWO_CLASSES: &[u8] = b"classes = [\"L\", \"H\"]\nbelow = [[\"L\", \"H\"]]\n";

/// Keys, or beginnings of lines, that an interface file has and a lattice file hasn't.
const OF_INTERFACES: [&[u8]; 6] = [
    b"globals", b"profile", b"order", b"lattice", b"[[runs", b"[[cycle",
];

/// The lattice file of a document.
#[derive(Drop)]
pub(crate) enum Policy {
    /// The file with `L` below `H`.
    Two,
    /// A file with these bytes.
    File(Vec<u8>),
    /// The file at this path, which can't be read.
    Lost(String),
}

impl Policy {
    /// The bytes of the file, or the path of one that can't be read.
    pub(crate) fn bytes(&self) -> Result<&[u8], &[u8]> {
        match self {
            Policy::Two => Ok(TWO_CLASSES),
            Policy::File(bytes) => Ok(bytes.as_slice()),
            Policy::Lost(path) => Err(path.as_bytes()),
        }
    }
}

/// A kind of document.
#[derive(Clone, Copy, Debug, PartialEq, Eq)]
pub(crate) enum DocumentKind {
    Source,
    /// A lattice file or a project file.
    Lattice,
    Interface,
    /// A store, or another file that isn't judged.
    Other,
}

/// An open document.
#[derive(Drop)]
pub(crate) struct Document {
    pub(crate) uri: Vec<u8>,
    pub(crate) version: Option<i64>,
    pub(crate) text: Vec<u8>,
    pub(crate) policy: Policy,
    /// The profile under which it is judged.
    pub(crate) profile: Profile,
    /// The last text that had a program.
    pub(crate) last: Vec<u8>,
}

impl Document {
    /// The document as it is judged.
    pub(crate) fn text_in<'a>(
        &'a self,
        alloc: Global,
        editor: Editor,
        marked: &'a Marked<'a>,
    ) -> DocumentText<'a> {
        DocumentText {
            alloc,
            encoding: editor.encoding,
            shows_steps: editor.shows_steps,
            profile: self.profile,
            uri: &self.uri,
            text: &self.text,
            marked,
            last: &self.last,
        }
    }

    /// The kind of the document: a TOML file that has a key of interfaces is an interface, and
    /// another one that has a key of lattice files is a lattice file.
    pub(crate) fn kind(&self) -> DocumentKind {
        if !self.uri.ends_with(b".toml") {
            return DocumentKind::Source;
        }
        if self.uri.ends_with(b"/vsi.toml") {
            return DocumentKind::Lattice;
        }
        let has = |key: &[u8]| {
            let mut lines = self.text.split(|byte| *byte == b'\n');
            lines.any(|line| line.starts_with(key))
        };
        if OF_INTERFACES.iter().any(|key| has(key)) {
            return DocumentKind::Interface;
        }
        if has(b"classes") || has(b"below") {
            return DocumentKind::Lattice;
        }
        DocumentKind::Other
    }

    /// The errors and warnings of the document.
    pub(crate) fn errors(&self, alloc: Global, editor: Editor) -> Made<Vec<Value>> {
        let marked = Marked::of(alloc, editor.encoding, &self.text)?;
        let document = self.text_in(alloc, editor, &marked);
        match self.kind() {
            DocumentKind::Other => Ok(Vec::new(alloc)),
            DocumentKind::Interface => interface_errors(document, &self.policy),
            DocumentKind::Lattice if self.uri.ends_with(b"/vsi.toml") => project_errors(document),
            DocumentKind::Lattice => match read_lattice(alloc, &self.text) {
                Ok(_lattice) => Ok(Vec::new(alloc)),
                Err(error) => refused_errors(document, None, &self.text, error),
            },
            DocumentKind::Source => {
                // The part of the text that names its lattice file.
                let span = match self.text.iter().position(|byte| *byte == b'#') {
                    Some(start) if named_policy(&self.text).is_some() => {
                        line_span(&self.text, start)
                    }
                    _ => START,
                };
                match self.policy.bytes() {
                    Ok(bytes) => match read_lattice(document.alloc, bytes) {
                        Ok(lattice) => objects_in(document, &lattice),
                        Err(error) => refused_errors(document, Some(span), bytes, error),
                    },
                    Err(path) => lost_errors(document, span, path),
                }
            }
        }
    }
}

/// The part of a text from a byte to the end of its line.
fn line_span(text: &[u8], start: usize) -> Span {
    let rest = text.get(start..).unwrap_or(b"").iter();
    let line = rest.take_while(|byte| **byte != b'\n' && **byte != b'\r');
    let stop = start.saturating_add(line.count());
    Span { start, stop }
}

/// The error of a lattice file that can't be read.
fn lost_errors(document: DocumentText<'_>, span: Span, path: &[u8]) -> Made<Vec<Value>> {
    let message = joined(document.alloc, &[b"file fault: ", path])?;
    error_list(document, span, 0, &message)
}

/// The error of a refused lattice file: at a part of the document, or else where it is wrong.
fn refused_errors(
    document: DocumentText<'_>,
    span: Option<Span>,
    bytes: &[u8],
    error: LatticeError,
) -> Made<Vec<Value>> {
    let fault = Fault::Lattice(error);
    let Some(diagnostic) = fault_diagnostic(&fault) else {
        return Err(AllocError);
    };
    let mut message = fault_text(document.alloc, &fault)?;
    let mut telling = Telling::new(document.alloc, document.uri, bytes);
    let found = telling.put_file(&fault)?;
    put_text(&mut message, &telling.words)?;
    let span = span.or(found).unwrap_or(line_span(document.text, 0));
    error_list(document, span, diagnostic.code, message.trim_ascii_end())
}

/// The error of a project file that is open, at the line of its fault.
fn project_errors(document: DocumentText<'_>) -> Made<Vec<Value>> {
    match read_project(document.alloc, "vsi.toml", document.text) {
        Ok(_project) => Ok(Vec::new(document.alloc)),
        Err(ProjectError::Memory) => Err(AllocError),
        Err(ProjectError::Fault(line, column, sentence)) => {
            let (line, character) = (line.saturating_sub(1), column.saturating_sub(1));
            let start = offset_of(Encoding::Utf8, document.text, Line { line, character });
            let message = [b"project fault: ".as_slice(), sentence.trim_ascii_end()];
            let message = joined(document.alloc, &message)?;
            error_list(document, line_span(document.text, start), 0, &message)
        }
    }
}

/// The path of the lattice file that an interface names, if it does.
pub(crate) fn interface_path(alloc: Global, uri: &[u8], text: &[u8]) -> Made<Option<String>> {
    match read_interface(alloc, text) {
        Ok(asked) => match &asked.policy {
            Place::File(path) => Ok(Some(path_beside(alloc, uri, path)?)),
            Place::Tables(_) => Ok(None),
        },
        Err(InterfaceError::Memory) => Err(AllocError),
        Err(_) => Ok(None),
    }
}

/// The errors of an interface file that is open, and of its lattice file if that was read.
fn interface_errors(document: DocumentText<'_>, policy: &Policy) -> Made<Vec<Value>> {
    let asked = match read_interface(document.alloc, document.text) {
        Ok(asked) => asked,
        Err(error) => return refused_interface(document, &error),
    };
    let span = line_span(document.text, 0);
    match (&asked.policy, policy) {
        (Place::Tables(text), _) => errors_by(document, &asked, text),
        (Place::File(_), Policy::File(bytes)) => errors_by(document, &asked, bytes),
        (Place::File(_), Policy::Lost(path)) => lost_errors(document, span, path.as_bytes()),
        (Place::File(_), Policy::Two) => Ok(Vec::new(document.alloc)),
    }
}

/// The error of an interface under a lattice file: its first unknown class, of globals first.
fn errors_by(document: DocumentText<'_>, asked: &InterfaceFile, bytes: &[u8]) -> Made<Vec<Value>> {
    let (alloc, interface) = (document.alloc, &asked.interface);
    let lattice = match read_lattice(alloc, bytes) {
        Ok(lattice) => lattice,
        Err(error) => {
            let span = line_span(document.text, 0);
            return refused_errors(document, Some(span), bytes, error);
        }
    };
    if let Some(place) = unknown_class(&lattice, interface)
        && let Some(entry) = interface.globals.get(place)
    {
        let name = Vec::from_slice(alloc, &entry.0)?;
        return refused_interface(document, &InterfaceError::UnknownClass(name));
    }
    if let Some(place) = unknown_cycle(&lattice, &asked.cycles)
        && let Some(cycle) = asked.cycles.get(place)
    {
        let name = Vec::from_slice(alloc, &cycle.class)?;
        let error = InterfaceError::UnknownInCycle(place.saturating_add(1), name);
        return refused_interface(document, &error);
    }
    Ok(Vec::new(alloc))
}

/// The error of an interface that is refused.
fn refused_interface(document: DocumentText<'_>, error: &InterfaceError) -> Made<Vec<Value>> {
    if let InterfaceError::Memory = error {
        return Err(AllocError);
    }
    let text = interface_text(document.alloc, error)?;
    let line = text.strip_suffix(b"\n").unwrap_or(&text);
    error_list(document, line_span(document.text, 0), 0, line)
}
