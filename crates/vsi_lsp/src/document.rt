//! A document, JSON objects about its parts, and messages to the client.

ghost use Rattle.std.specs.Prelude.{IfOk, IfSome, ◌≡◌, ◌++◌, OnOk};
ghost use Rattle.vsi_syntax.specs.Layout.{IsLayout};
ghost use Rattle.vsi_client.specs.Frames as spec;

use serde_json::{Value, json};
use std::alloc::{AllocError, Global};
use vsi_client::{Change, Encoding, Marked, Piece, Place, Range, next_piece, offset_of};
use vsi_compiler::{CompileError, Source, read_source};
use vsi_lattice::Lattice;
use vsi_syntax::{LayoutError, LexError, Span, Token, layout, lex, put_number};
use vsi_types::Profile;

/// A result whose only error is that memory ran out.
pub(crate) type Made<T> = Result<T, AllocError>;

/// A client: the code units of its positions, and what it shows, asks for and watches.
#[derive(Clone, Copy)]
pub(crate) struct Editor {
    pub(crate) encoding: Encoding,
    pub(crate) shows_steps: bool,
    pub(crate) asks: bool,
    pub(crate) watches: bool,
    prepares: bool,
}

impl Editor {
    /// The client that sends `initialize`. It counts in UTF-8 if it offers that.
    pub(crate) fn of(value: &Value) -> Editor {
        let able = value.pointer("/params/capabilities").unwrap_or(value);
        let mut encoding = Encoding::Utf16;
        if let Some(Value::Array(offered)) = able.pointer("/general/positionEncodings")
            && offered.iter().any(|name| name.as_str() == Some("utf-8"))
        {
            encoding = Encoding::Utf8;
        }
        let is_true = |path: &str| able.pointer(path).and_then(Value::as_bool) == Some(true);
        Editor {
            encoding,
            shows_steps: is_true("/textDocument/publishDiagnostics/relatedInformation"),
            asks: able.pointer("/textDocument/diagnostic").is_some(),
            watches: is_true("/workspace/didChangeWatchedFiles/dynamicRegistration"),
            prepares: is_true("/textDocument/rename/prepareSupport"),
        }
    }

    /// The result of `initialize`.
    pub(crate) fn welcome(&self, alloc: Global) -> Made<Value> {
        let encoding = match self.encoding {
            Encoding::Utf8 => "utf-8",
            Encoding::Utf16 => "utf-16",
        };
        let synchronization = json!(in alloc; {
            "openClose": true, "change": 2, "save": {"includeText": false}
        })?;
        let rename = if self.prepares {
            json!(in alloc; {"prepareProvider": true})?
        } else {
            Value::Bool(true)
        };
        let mut able = json!(in alloc; {
            "textDocumentSync": synchronization,
            "hoverProvider": true,
            "inlayHintProvider": true,
            "definitionProvider": true,
            "referencesProvider": true,
            "documentHighlightProvider": true,
            "documentSymbolProvider": true,
            "renameProvider": rename,
            "documentFormattingProvider": true,
            "completionProvider": {"triggerCharacters": [":"]},
            "codeActionProvider": {"codeActionKinds": ["quickfix"]},
            "foldingRangeProvider": true,
            "positionEncoding": encoding
        })?;
        if self.asks
            && let Some(able) = able.as_object_mut()
        {
            let provider = json!(in alloc; {
                "interFileDependencies": true, "workspaceDiagnostics": false
            })?;
            let name = String::from_str(alloc, "diagnosticProvider")?;
            able.insert(name, provider)?;
        }
        json!(in alloc; {"capabilities": able, "serverInfo": {"name": "vsi"}})
    }
}

/// A document: how it is shown and judged, its name, its text with the text's positions, and the
/// last text that had a program.
#[derive(Clone, Copy)]
pub(crate) struct DocumentText<'a> {
    pub(crate) alloc: Global,
    pub(crate) encoding: Encoding,
    pub(crate) shows_steps: bool,
    pub(crate) profile: Profile,
    pub(crate) uri: &'a [u8],
    pub(crate) text: &'a [u8],
    pub(crate) marked: &'a Marked<'a>,
    pub(crate) last: &'a [u8],
}

impl<'a> DocumentText<'a> {
    /// The program of the text, if it has one.
    pub(crate) fn source(&self, lattice: &'a Lattice) -> Made<Option<Source<'a>>> {
        match read_source(self.alloc, lattice, self.text) {
            Ok(source) => Ok(Some(source)),
            Err(CompileError::Memory) => Err(AllocError),
            Err(_) => Ok(None),
        }
    }

    /// The byte at the position at a path of an object.
    pub(crate) fn byte_at(&self, value: &Value, path: &str) -> Option<usize> {
        Some(offset_of(self.encoding, self.text, place_at(value, path)?))
    }

    /// The object of a part of the text.
    pub(crate) fn range(&self, span: Span) -> Made<Value> {
        range_object(self.alloc, self.marked.range(span))
    }

    /// The object of a part of the text, with the name of the document.
    pub(crate) fn location(&self, span: Span) -> Made<Value> {
        let uri = text_value(self.alloc, self.uri)?;
        json!(in self.alloc; {"uri": uri, "range": self.range(span)?})
    }

    /// The list of the one change that puts a text in place of a part.
    pub(crate) fn edits(&self, span: Span, new: &[u8]) -> Made<Value> {
        let change = edit(self.alloc, self.marked.range(span), new)?;
        json!(in self.alloc; [change])
    }

    /// The list of changes at positions.
    pub(crate) fn change_list(&self, changes: &[Change<'_>]) -> Made<Value> {
        let mut list = Vec::new(self.alloc);
        for change in changes {
            if let Some((start, stop)) = change.range {
                list.push(edit(self.alloc, Range { start, stop }, change.text)?)?;
            }
        }
        Ok(Value::Array(list))
    }

    /// The changes of the document in a list.
    pub(crate) fn changes(&self, list: Value) -> Made<Value> {
        let uri = String::from_utf8_lossy(self.alloc, self.uri)?;
        json!(in self.alloc; {"changes": {(uri.as_str()): list}})
    }
}

/// Texts, one after the other.
pub(crate) fn joined(alloc: Global, parts: &[&[u8]]) -> Made<Vec<u8>> {
    let mut text = Vec::new(alloc);
    for part in parts {
        text.extend_from_slice(part)?;
    }
    Ok(text)
}

/// The text of bytes, with those that aren't UTF-8 replaced.
pub(crate) fn text_value(alloc: Global, bytes: &[u8]) -> Made<Value> {
    Ok(Value::String(String::from_utf8_lossy(alloc, bytes)?))
}

/// The object of a part of a text.
fn range_object(alloc: Global, range: Range) -> Made<Value> {
    json!(in alloc; {
        "start": {"line": range.start.line, "character": range.start.character},
        "end": {"line": range.stop.line, "character": range.stop.character}
    })
}

/// The change of a part of a text.
fn edit(alloc: Global, range: Range, new: &[u8]) -> Made<Value> {
    json!(in alloc; {"range": range_object(alloc, range)?, "newText": text_value(alloc, new)?})
}

/// The text at a path of an object.
pub(crate) fn text_at<'v>(value: &'v Value, path: &str) -> Option<&'v str> {
    value.pointer(path)?.as_str()
}

/// The number at a path of an object.
pub(crate) fn number_at(value: &Value, path: &str) -> Option<u64> {
    value.pointer(path)?.as_u64()
}

/// The position at a path of an object.
pub(crate) fn place_at(value: &Value, path: &str) -> Option<Place> {
    let place = value.pointer(path)?;
    let line = usize::try_from(number_at(place, "/line")?).ok()?;
    let character = usize::try_from(number_at(place, "/character")?).ok()?;
    Some(Place { line, character })
}

/// The version of the document that a message gives.
pub(crate) fn version_in(value: &Value) -> Option<i64> {
    value.pointer("/params/textDocument/version")?.as_i64()
}

/// The changes that a message gives, unless one is malformed.
pub(crate) fn changes_in(alloc: Global, value: &Value) -> Made<Option<Vec<Change<'_>>>> {
    let Some(Value::Array(list)) = value.pointer("/params/contentChanges") else {
        return Ok(None);
    };
    let mut changes = Vec::new(alloc);
    for part in list {
        let Some(change) = change_in(part) else {
            return Ok(None);
        };
        changes.push(change)?;
    }
    Ok(Some(changes))
}

/// The change that an object gives, unless it is malformed.
fn change_in(value: &Value) -> Option<Change<'_>> {
    let range = match value.get("range") {
        Some(part) => Some((place_at(part, "/start")?, place_at(part, "/end")?)),
        None => None,
    };
    let text = text_at(value, "/text")?.as_bytes();
    Some(Change { range, text })
}

/// The method of a change.
pub(crate) const CHANGE: &str = "textDocument/didChange";

/// Whether a stream begins with a whole message that changes the document of this name.
pub(crate) fn begins_with_change(alloc: Global, stream: &[u8], uri: &[u8]) -> Made<bool> {
    let Piece::Message(start, size) = next_piece(stream) else {
        return Ok(false);
    };
    let message = stream.get(start..start.saturating_add(size));
    match Value::from_slice(alloc, message.unwrap_or(b"")) {
        Ok(next) => Ok(
            text_at(&next, "/method") == Some(CHANGE)
                && next.get("id").is_none()
                && text_at(&next, "/params/textDocument/uri").map(str::as_bytes) == Some(uri)
                && changes_in(alloc, &next)?.is_some(),
        ),
        Err(error) if error.is_memory() => Err(AllocError),
        Err(_) => Ok(false),
    }
}

/// The tokens of a text, if each part of it has one.
pub(crate) fn tokens_of(alloc: Global, text: &[u8]) -> Made<Option<Vec<Token<'_>>>> {
    match lex(alloc, text) {
        Ok(tokens) => Ok(Some(tokens)),
        Err(LexError::Memory) => Err(AllocError),
        Err(_) => Ok(None),
    }
}

/// The layout of a text, which keeps its comments: nothing for a text that is no program's.
pub(crate) fn laid_out(alloc: Global, text: &[u8]) -> Made<Option<Vec<u8>>>
    ensures laid { IfOk result (λ found. IfSome found (λ out. IsLayout text.now out.items)) }
{
    match layout(alloc, text) {
        Ok(out) => Ok(Some(out)),
        Err(LayoutError::Memory) => Err(AllocError),
        Err(_) => Ok(None),
    }
}

/// The blocks of several lines of a text, each from the line of its `{` to the line before its `}`.
pub(crate) fn folds(alloc: Global, text: &[u8]) -> Made<Value> {
    let mut found = Vec::new(alloc);
    let mut open: Vec<usize> = Vec::new(alloc);
    let mut line: usize = 0;
    let mut last = 0;
    let mut is_comment = false;
    for byte in text {
        // A line feed after a carriage return is one end of a line with it.
        if *byte == b'\r' || *byte == b'\n' && last != b'\r' {
            line = line.saturating_add(1);
        }
        last = *byte;
        match *byte {
            b'#' => is_comment = true,
            b'\n' => is_comment = false,
            b'{' if !is_comment => open.push(line)?,
            b'}' if !is_comment => {
                let end = line.saturating_sub(1);
                if let Some(start) = open.pop()
                    && start < end
                {
                    found.push(json!(in alloc; {"startLine": start, "endLine": end})?)?;
                }
            }
            _ => {}
        }
    }
    Ok(Value::Array(found))
}

/// Why a message isn't obeyed.
#[derive(Clone, Copy, Debug)]
pub(crate) enum Fault {
    /// An error with this number of the protocol, and this text.
    Error(i64, &'static str),
    /// Memory ran out, which ends the server in place of an answer.
    Memory,
}

/// The message is no JSON.
pub(crate) const PARSE: Fault = Fault::Error(-32700, "the message can't be read");

/// The message is no request, or comes after `shutdown`.
pub(crate) const REQUEST: Fault = Fault::Error(-32600, "the message is no request");

/// There is no such method.
pub(crate) const METHOD: Fault = Fault::Error(-32601, "there is no such method");

/// The parameters are wrong.
pub(crate) const PARAMETERS: Fault = Fault::Error(-32602, "the parameters are wrong");

/// The request comes before `initialize`.
pub(crate) const EARLY: Fault = Fault::Error(-32002, "`initialize` has to come first");

/// A new name isn't one, or would change the program.
pub(crate) const RENAME: Fault = Fault::Error(
    -32803,
    "the new name is no name, or it would change the program",
);

impl From<AllocError> for Fault {
    fn from(_error: AllocError) -> Fault {
        Fault::Memory
    }
}

/// Adds a message after its header.
fn put_frame(out: &mut Vec<u8>, body: &[u8]) -> Made<()>
    ensures { OnOk result (out.new.items ≡ out.old.items ++ spec.frame body.now) }
{
    out.extend_from_slice(b"Content-Length: ")?;
    put_number(out, body.len())?;
    out.extend_from_slice(b"\r\n\r\n")?;
    out.extend_from_slice(body)
}

/// The bytes of messages, each after its header.
pub fn framed(alloc: Global, messages: &[Value]) -> Result<Vec<u8>, AllocError>
    ensures framed { IfOk result (λ bytes. spec.AreFrames bytes.items) }
{
    let mut out = Vec::new(alloc);
    for message in messages {
        let body = message.to_vec(alloc)?;
        put_frame(&mut out, &body)?;
    }
    Ok(out)
}

/// The message with the errors of a document.
pub(crate) fn published(
    alloc: Global,
    uri: &[u8],
    version: Option<i64>,
    errors: Vec<Value>,
) -> Made<Value> {
    let uri = text_value(alloc, uri)?;
    let errors = Value::Array(errors);
    let parameters = match version {
        Some(version) => json!(in alloc; {"uri": uri, "version": version, "diagnostics": errors})?,
        None => json!(in alloc; {"uri": uri, "diagnostics": errors})?,
    };
    json!(in alloc; {
        "jsonrpc": "2.0", "method": "textDocument/publishDiagnostics", "params": parameters
    })
}
