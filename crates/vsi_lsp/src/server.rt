//! The state of a server, and what it does for each message.

ghost use Rattle.std.specs.Prelude.{IfOk};
ghost use Rattle.vsi_client.specs.Frames.{AreFrames};

use crate::diagnostics::REFUSED;
use crate::document::{
    CHANGE, EARLY, Editor, Fault, METHOD, Made, PARAMETERS, PARSE, REQUEST, begins_with_change,
    changes_in, framed, joined, number_at, published, text_at, text_value, version_in,
};
use crate::documents::{Document, DocumentKind, Policy, interface_path};
use crate::projects::{MOST_FILES, Wanted, is_strict_at};
use crate::reading::{answer, is_topic};
use serde_json::{Value, json};
use std::alloc::{AllocError, Global};
use vsi_client::{Marked, Piece, changed_by, next_piece, path_beside};
use vsi_documents::named_policy;
use vsi_project::{ProjectError, read_project};
use vsi_types::Profile;

/// The line about texts that name no lattice file.
const TWO_SAID: &[u8] = b"vsi: a text that names no lattice file is judged with the classes L and \
H. Its first comment line can name one: # policy: FILE";

/// The line about a header that gives no length.
const LOST: &[u8] = b"vsi: a message has no header of at most 4096 bytes with a line \
`Content-Length: N`, N at most 16777216\n";

/// The text about a change that isn't obeyed.
const MALFORMED: &[u8] = b"vsi: a malformed change isn't obeyed: the errors are those of the text \
before it";

/// The state of the conversation with a client.
#[derive(Clone, Copy, Debug, PartialEq, Eq)]
enum Phase {
    New,
    Running,
    ShutDown,
    Exited,
    /// The client has ended without `shutdown`.
    Failed,
    /// The client has sent a header without a length.
    Lost,
}

/// A server: the bytes that aren't obeyed yet, the open documents, and messages for the client.
#[derive(Drop)]
pub struct Server {
    alloc: Global,
    profile: Profile,
    lattice: Option<String>,
    stream: Vec<u8>,
    editor: Editor,
    phase: Phase,
    has_said: bool,
    /// The last line about a faulty project file.
    fault: Vec<u8>,
    documents: Vec<Document>,
    messages: Vec<Value>,
}

impl Server {
    /// A server that judges under a profile, with a lattice file for texts that name none.
    pub fn new(alloc: Global, profile: Profile, lattice: Option<String>) -> Server {
        Server {
            alloc,
            profile,
            lattice,
            stream: Vec::new(alloc),
            editor: Editor::of(&Value::Null),
            phase: Phase::New,
            has_said: false,
            fault: Vec::new(alloc),
            documents: Vec::new(alloc),
            messages: Vec::new(alloc),
        }
    }

    /// Whether the server is to end.
    pub fn has_exited(&self) -> bool {
        self.phase == Phase::Exited || self.has_failed()
    }

    /// Whether the server is to end with a failure: `exit` came early, or a header had no length.
    pub fn has_failed(&self) -> bool {
        self.phase == Phase::Failed || self.phase == Phase::Lost
    }

    /// Adds the lines for standard error: that texts had two classes, and a header no length.
    pub fn put_notes(&self, lines: &mut Vec<u8>) -> Result<(), AllocError> {
        if self.has_said {
            lines.extend_from_slice(TWO_SAID)?;
            lines.extend_from_slice(b"\n")?;
        }
        if self.phase == Phase::Lost {
            lines.extend_from_slice(LOST)?;
        }
        Ok(())
    }

    /// Takes bytes of the client.
    pub fn take(&mut self, bytes: &[u8]) -> Result<(), AllocError> {
        self.stream.extend_from_slice(bytes)
    }

    /// The number of bytes that aren't obeyed yet.
    pub fn left(&self) -> usize {
        self.stream.len()
    }

    /// The bytes for the client since the last call: messages, each after its length.
    pub fn outgoing(&mut self) -> Result<Vec<u8>, AllocError>
        ensures framed { IfOk result (λ bytes. AreFrames bytes.items) }
    {
        let bytes = framed(self.alloc, &self.messages)?;
        self.messages.clear();
        Ok(bytes)
    }

    /// The next message, if all of it has come. A header without a length ends the conversation.
    pub fn next_message(&mut self) -> Result<Option<Vec<u8>>, AllocError> {
        match next_piece(&self.stream) {
            Piece::Unfinished => Ok(None),
            Piece::Message(header, size) => {
                let stop = header.saturating_add(size);
                let message = self.stream.get(header..stop).unwrap_or(b"");
                let message = Vec::from_slice(self.alloc, message)?;
                let rest = self.stream.get(stop..).unwrap_or(b"");
                self.stream = Vec::from_slice(self.alloc, rest)?;
                Ok(Some(message))
            }
            Piece::Faulty => {
                self.phase = Phase::Lost;
                Ok(None)
            }
        }
    }

    /// Does what a message asks, and returns the file that is to be read and given to `judge` then.
    pub fn obey(&mut self, message: &[u8]) -> Result<Option<Wanted>, AllocError> {
        let value = match Value::from_slice(self.alloc, message) {
            Ok(value) => value,
            Err(error) if error.is_memory() => return Err(AllocError),
            Err(_) => {
                self.fail(&Value::Null, PARSE)?;
                return Ok(None);
            }
        };
        let Some(method) = text_at(&value, "/method") else {
            // Answers of the client are nothing to do.
            if value.get("result").is_none() && value.get("error").is_none() {
                self.fail(&Value::Null, REQUEST)?;
            }
            return Ok(None);
        };
        let Some(id) = value.get("id") else {
            return self.note(method, &value);
        };
        match self.reply(method, &value) {
            Ok(answer) => {
                let message = json!(in self.alloc; {"jsonrpc": "2.0", "id": id, "result": answer})?;
                self.messages.push(message)?;
            }
            Err(fault) => self.fail(id, fault)?,
        }
        Ok(None)
    }

    /// Adds the answer to a request that isn't obeyed.
    fn fail(&mut self, id: &Value, fault: Fault) -> Made<()> {
        let Fault::Error(code, text) = fault else {
            return Err(AllocError);
        };
        let message = json!(in self.alloc; {
            "jsonrpc": "2.0", "id": id, "error": {"code": code, "message": text}
        })?;
        Ok(self.messages.push(message)?)
    }

    /// The answer to a request. The first one is `initialize`.
    fn reply(&mut self, method: &str, value: &Value) -> Result<Value, Fault> {
        match (self.phase, method) {
            (Phase::New, "initialize") => {
                self.editor = Editor::of(value);
                self.phase = Phase::Running;
                Ok(self.editor.welcome(self.alloc)?)
            }
            (Phase::New, _) => Err(EARLY),
            (Phase::Running, "initialize") => Err(REQUEST),
            (Phase::Running, "shutdown") => {
                self.phase = Phase::ShutDown;
                Ok(Value::Null)
            }
            (Phase::Running, "textDocument/diagnostic") => {
                let place = self.place_of(value).ok_or(PARAMETERS)?;
                let errors = Value::Array(self.judged(place)?);
                Ok(json!(in self.alloc; {"kind": "full", "items": errors})?)
            }
            (Phase::Running, _) => match method.strip_prefix("textDocument/") {
                Some(topic) if is_topic(topic) => {
                    let place = self.place_of(value).ok_or(PARAMETERS)?;
                    let document = self.documents.get(place).ok_or(PARAMETERS)?;
                    let marked = Marked::of(self.alloc, self.editor.encoding, &document.text)?;
                    let judged = document.text_in(self.alloc, self.editor, &marked);
                    let policy = match document.kind() {
                        DocumentKind::Source => document.policy.bytes().ok(),
                        _ => None,
                    };
                    answer(judged, policy, topic, value)
                }
                _ => Err(METHOD),
            },
            _ => Err(REQUEST),
        }
    }

    /// Does what a notification asks.
    fn note(&mut self, method: &str, value: &Value) -> Made<Option<Wanted>> {
        match (self.phase, method) {
            (Phase::ShutDown, "exit") => self.phase = Phase::Exited,
            (_, "exit") => self.phase = Phase::Failed,
            (Phase::Running, "textDocument/didOpen") => return self.open(value),
            (Phase::Running, CHANGE) => return self.change(value),
            (Phase::Running, "textDocument/didClose") => {
                if let Some(uri) = text_at(value, "/params/textDocument/uri") {
                    self.forget(uri.as_bytes());
                    // A closed document has no errors.
                    let none = Vec::new(self.alloc);
                    let message = published(self.alloc, uri.as_bytes(), None, none)?;
                    self.messages.push(message)?;
                }
            }
            (Phase::Running, "textDocument/didSave") => {
                if let Some(place) = self.place_of(value) {
                    let document = self.documents.get(place);
                    if document.is_some_and(|one| one.kind() == DocumentKind::Lattice) {
                        self.save_all()?;
                    }
                    return self.want(place);
                }
            }
            (Phase::Running, "workspace/didChangeWatchedFiles") => self.save_all()?,
            (Phase::Running, "initialized") if self.editor.watches => self.watch()?,
            _ => {}
        }
        Ok(None)
    }

    /// The number of the document that a message names.
    fn place_of(&self, value: &Value) -> Option<usize> {
        let uri = text_at(value, "/params/textDocument/uri")?;
        self.place_named(uri.as_bytes())
    }

    /// The number of the document of this name.
    fn place_named(&self, uri: &[u8]) -> Option<usize> {
        self.documents
            .iter()
            .position(|one| one.uri.as_slice() == uri)
    }

    /// Opens a document.
    fn open(&mut self, value: &Value) -> Made<Option<Wanted>> {
        let uri = text_at(value, "/params/textDocument/uri");
        let (Some(uri), Some(text)) = (uri, text_at(value, "/params/textDocument/text")) else {
            return Ok(None);
        };
        self.forget(uri.as_bytes());
        let document = Document {
            uri: Vec::from_slice(self.alloc, uri.as_bytes())?,
            version: version_in(value),
            text: Vec::from_slice(self.alloc, text.as_bytes())?,
            policy: Policy::Two,
            profile: self.profile,
            last: Vec::new(self.alloc),
        };
        let place = self.documents.len();
        self.documents.push(document)?;
        self.want(place)
    }

    /// Forgets the document of this name.
    fn forget(&mut self, uri: &[u8]) {
        self.documents
            .retain(|document| document.uri.as_slice() != uri);
    }

    /// Changes a document, unless a change is malformed, which a message says. It isn't judged if
    /// the next message has come and changes it again.
    fn change(&mut self, value: &Value) -> Made<Option<Wanted>> {
        let Some(place) = self.place_of(value) else {
            return Ok(None);
        };
        let Some(changes) = changes_in(self.alloc, value)? else {
            self.log(2, MALFORMED)?;
            return Ok(None);
        };
        if let Some(document) = self.documents.get_mut(place) {
            document.text = changed_by(self.alloc, self.editor.encoding, &document.text, &changes)?;
            document.version = version_in(value);
            if begins_with_change(self.alloc, &self.stream, &document.uri)? {
                return Ok(None);
            }
        }
        self.want(place)
    }

    /// The first file that is to be read for a document. If there is none, it is judged.
    fn want(&mut self, place: usize) -> Made<Option<Wanted>> {
        let Some(document) = self.documents.get_mut(place) else {
            return Ok(None);
        };
        document.profile = self.profile;
        let mut left = 0;
        let path = match document.kind() {
            DocumentKind::Interface => interface_path(self.alloc, &document.uri, &document.text)?,
            DocumentKind::Lattice | DocumentKind::Other => None,
            DocumentKind::Source => match (named_policy(&document.text), &self.lattice) {
                (Some(name), _) => Some(path_beside(self.alloc, &document.uri, name)?),
                (None, Some(path)) => Some(path.clone()?),
                (None, None) if document.uri.starts_with(b"file:///") => {
                    left = MOST_FILES - 1;
                    Some(path_beside(self.alloc, &document.uri, b"vsi.toml")?)
                }
                (None, None) => None,
            },
        };
        if let Some(path) = path {
            let uri = document.uri.clone()?;
            return Ok(Some(Wanted { path, uri, left }));
        }
        self.publish(place, Policy::Two)?;
        Ok(None)
    }

    /// Gives a document its lattice file, and adds the message with its errors. A message before it
    /// says once that texts are judged with two classes.
    fn publish(&mut self, place: usize, policy: Policy) -> Made<()> {
        let Some(document) = self.documents.get_mut(place) else {
            return Ok(());
        };
        let is_by_two = matches!(&policy, Policy::Two);
        document.policy = policy;
        if is_by_two && document.kind() == DocumentKind::Source && !self.has_said {
            self.has_said = true;
            self.log(3, TWO_SAID)?;
        }
        if !self.editor.asks {
            let errors = self.judged(place)?;
            if let Some(document) = self.documents.get(place) {
                let message = published(self.alloc, &document.uri, document.version, errors)?;
                self.messages.push(message)?;
            }
        }
        Ok(())
    }

    /// The errors and warnings of a document, whose text is kept if it has a program.
    fn judged(&mut self, place: usize) -> Made<Vec<Value>> {
        let Some(document) = self.documents.get_mut(place) else {
            return Ok(Vec::new(self.alloc));
        };
        let errors = document.errors(self.alloc, self.editor)?;
        let code = errors.first().and_then(|error| number_at(error, "/code"));
        if code.is_none() || code == Some(REFUSED) {
            document.last = Vec::from_slice(self.alloc, &document.text)?;
        }
        Ok(errors)
    }

    /// Puts a message before the others for each text with a lattice file, as if it were saved.
    fn save_all(&mut self) -> Made<()> {
        let alloc = self.alloc;
        self.fault.clear();
        let mut saved = Vec::new(alloc);
        for document in &self.documents {
            if document.kind() != DocumentKind::Lattice {
                let uri = text_value(alloc, &document.uri)?;
                saved.push(json!(in alloc; {
                    "method": "textDocument/didSave", "params": {"textDocument": {"uri": uri}}
                })?)?;
            }
        }
        let mut stream = framed(alloc, &saved)?;
        stream.extend_from_slice(&self.stream)?;
        self.stream = stream;
        Ok(())
    }

    /// Asks the client to say when a TOML file has changed.
    fn watch(&mut self) -> Made<()> {
        let watchers = json!(in self.alloc; [{"globPattern": "**/*.toml"}])?;
        let message = json!(in self.alloc; {
            "jsonrpc": "2.0", "id": "watch", "method": "client/registerCapability",
            "params": {"registrations": [{
                "id": "watch", "method": "workspace/didChangeWatchedFiles",
                "registerOptions": {"watchers": watchers}
            }]}
        })?;
        Ok(self.messages.push(message)?)
    }

    /// Adds a message for the client's log, of a type of the protocol: 2 is a warning, 3 is none.
    fn log(&mut self, kind: usize, text: &[u8]) -> Made<()> {
        let message = json!(in self.alloc; {
            "jsonrpc": "2.0", "method": "window/logMessage",
            "params": {"type": kind, "message": text_value(self.alloc, text)?}
        })?;
        Ok(self.messages.push(message)?)
    }

    /// Judges the document for which a file was wanted, with the bytes of the file, or nothing if
    /// it can't be read; or returns the next file that is to be read for it.
    pub fn judge(
        &mut self,
        wanted: Wanted,
        bytes: Option<Vec<u8>>,
    ) -> Result<Option<Wanted>, AllocError> {
        let Some(place) = self.place_named(&wanted.uri) else {
            return Ok(None);
        };
        let (next, policy) = match (wanted.left, bytes) {
            (0, Some(bytes)) => (None, Policy::File(bytes)),
            (0, None) => (None, Policy::Lost(wanted.path.clone()?)),
            (_, Some(bytes)) => (self.follow(place, &wanted, &bytes)?, Policy::Two),
            (_, None) => (wanted.above(self.alloc)?, Policy::Two),
        };
        if next.is_none() {
            self.publish(place, policy)?;
        }
        Ok(next)
    }

    /// Gives a document the profile that a project file requires for it, and returns its lattice
    /// file. A faulty project file gives nothing, and a message says once where its fault is.
    fn follow(&mut self, place: usize, wanted: &Wanted, bytes: &[u8]) -> Made<Option<Wanted>> {
        let (alloc, uri) = (self.alloc, wanted.uri.clone()?);
        let error = match read_project(alloc, wanted.path.as_str(), bytes) {
            Ok(project) => {
                // The document's path, with a slash at its end.
                let text = path_beside(alloc, &joined(alloc, &[&uri, b"/"])?, b"")?;
                if is_strict_at(alloc, &project.programs, text.as_bytes())?
                    && let Some(document) = self.documents.get_mut(place)
                {
                    document.profile = Profile::Strict;
                }
                let path = project.programs[0].lattice.clone()?;
                return Ok(Some(Wanted { path, uri, left: 0 }));
            }
            Err(ProjectError::Memory) => return Err(AllocError),
            Err(error) => error,
        };
        let line = error.line(alloc, wanted.path.as_str())?;
        if line != self.fault {
            self.log(2, &line)?;
            self.fault = line;
        }
        Ok(None)
    }
}
