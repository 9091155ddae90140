//! Objects of JSON without fractional numbers, whose text is therefore known.

ghost use Rattle.std.specs.Prelude.{◌≡◌, ◌++◌, ◌∷◌, [], map, OnErr, OnOk};
ghost use Rattle.serde_json.specs.{Data.{object, string}, View.{members_view, view}};
ghost use Rattle.std.specs.Str.Lossy.{utf8_lossy};

use serde_json::{Map, Value, put};
use std::alloc::{AllocError, Global};
use std::marker::Model;

/// An object of JSON. None of its numbers is fractional, so its text is known.
#[derive(Drop)]
pub struct Object {
    alloc: Global,
    members: Map<String, Value>,
}

impl Model for Object {
    ghost use Rattle.std.specs.{Prelude.{◌≡◌, false, List, String}, declared.alloc.Global.{Global}, Coded.{codes}};
    ghost use Rattle.serde_json.specs.{View.{members_view}, Written.{members_have_float}};
    ghost use Rattle.serde_json.specs.declared.value.Value as json;
    ghost use Rattle.serde_json.specs.contracts.value.Value as value;

    ghost Value = { List (String Global × json.Value) };

    ghost coded = { Prim.hlevel (codes, value.the_row.coded) };

    ghost view = { λ o. o.members.entries };

    ghost invariant = { λ o. members_have_float (members_view o.members.entries) ≡ false };
}

/// Objects and strings, in their order.
#[derive(Drop)]
pub struct Objects {
    alloc: Global,
    items: Vec<Value>,
}

impl Model for Objects {
    ghost use Rattle.std.specs.{Prelude.{◌≡◌, false, List}, Coded.{codes}};
    ghost use Rattle.serde_json.specs.{View.{items_view}, Written.{items_have_float}};
    ghost use Rattle.serde_json.specs.declared.value.Value as json;
    ghost use Rattle.serde_json.specs.contracts.value.Value as value;

    ghost Value = { List json.Value };

    ghost coded = { Prim.hlevel (codes, value.the_row.coded) };

    ghost view = { λ o. o.items.items };

    ghost invariant = { λ o. items_have_float (items_view o.items.items) ≡ false };
}

/// Adds an object to values.
fn put_item(items: &mut Vec<Value>, added: Map<String, Value>) -> Result<(), AllocError>
    ensures added { OnOk result (map view items.new.items
        ≡ map view items.old.items ++ object (members_view added.entries) ∷ []) }
    ensures kept { OnErr result (items.new.items ≡ items.old.items) }
{
    Ok(items.push(Value::Object(added))?)
}

/// Adds a text to values, as a JSON string with bytes that aren't UTF-8 replaced.
fn put_text(alloc: Global, items: &mut Vec<Value>, added: &[u8]) -> Result<(), AllocError>
    ensures added { OnOk result (map view items.new.items
        ≡ map view items.old.items ++ string (utf8_lossy added.now) ∷ []) }
    ensures kept { OnErr result (items.new.items ≡ items.old.items) }
{
    let text = String::from_utf8_lossy(alloc, added)?;
    Ok(items.push(Value::String(text))?)
}

impl Objects {
    ghost use Rattle.std.specs.{Prelude.{◌≡◌, ◌++◌, ◌∷◌, [], map, IfOk, OnOk}, Str.Lossy.{utf8_lossy}};
    ghost use Rattle.serde_json.specs.{Data.{object, string}, View.{members_view, view}};

    /// No objects.
    pub fn new(alloc: Global) -> Objects
        ensures { result ≡ [] }
    {
        Objects {
            alloc,
            items: Vec::new(alloc),
        }
    }

    /// One object.
    pub fn of(alloc: Global, only: Object) -> Result<Objects, AllocError>
        ensures { IfOk result (λ one. map view one ≡ object (members_view only) ∷ []) }
    {
        let mut one = Objects::new(alloc);
        one.push(only)?;
        Ok(one)
    }

    /// Adds an object.
    #[tactic(auto, using(crate::proofs::Plain::one_plain))]
    pub fn push(&mut self, added: Object) -> Result<(), AllocError>
        ensures { OnOk result (map view self.new
            ≡ map view self.old ++ object (members_view added) ∷ []) }
    {
        put_item(&mut self.items, added.members)
    }

    /// Adds a text, as a JSON string with bytes that aren't UTF-8 replaced.
    #[tactic(auto, using(crate::proofs::Plain::item_plain))]
    pub fn push_text(&mut self, added: &[u8]) -> Result<(), AllocError>
        ensures { OnOk result (map view self.new
            ≡ map view self.old ++ string (utf8_lossy added.now) ∷ []) }
    {
        put_text(self.alloc, &mut self.items, added)
    }
}

impl Object {
    ghost use Rattle.std.specs.Prelude.{◌≡◌, IfOk, false};
    ghost use Rattle.serde_json.specs.{Data.{array, boolean, no_members, object, string, put as with}, View.{items_view, members_view, view}, Written.{has_float}};
    ghost use Rattle.vsi_answers.specs.Members as spec;

    /// An object without members.
    pub fn new(alloc: Global) -> Object
        ensures { members_view result ≡ no_members }
    {
        Object {
            alloc,
            members: Map::new(alloc),
        }
    }

    /// The object with a value at a key.
    #[tactic(auto, using(crate::proofs::Plain::put_plain))]
    fn with(self, key: &str, value: Value) -> Result<Object, AllocError>
        requires { has_float (view value) ≡ false }
        ensures { IfOk result (λ made.
            members_view made ≡ with key.now (view value) (members_view self)) }
    {
        let Object { alloc, mut members } = self;
        put(&mut members, alloc, key, value)?;
        Ok(Object { alloc, members })
    }

    /// The object with a text at a key, as a JSON string with bytes that aren't UTF-8 replaced.
    pub fn text(self, key: &str, bytes: &[u8]) -> Result<Object, AllocError>
        ensures text { IfOk result (λ made.
            members_view made ≡ spec.with_text key.now bytes.now (members_view self)) }
    {
        let text = String::from_utf8_lossy(self.alloc, bytes)?;
        self.with(key, Value::String(text))
    }

    /// The object with a number at a key, such as the number of a line or of a run.
    pub fn natural(self, key: &str, number: usize) -> Result<Object, AllocError>
        ensures number { IfOk result (λ made.
            members_view made ≡ spec.with_natural key.now number (members_view self)) }
    {
        self.with(key, Value::from(number))
    }

    /// The object with a truth value at a key.
    pub fn flag(self, key: &str, flag: bool) -> Result<Object, AllocError>
        ensures flag { IfOk result (λ made.
            members_view made ≡ with key.now (boolean flag) (members_view self)) }
    {
        self.with(key, Value::Bool(flag))
    }

    /// The object with a word at a key.
    pub fn word(self, key: &str, word: i64) -> Result<Object, AllocError>
        ensures word { IfOk result (λ made.
            members_view made ≡ spec.with_word key.now word (members_view self)) }
    {
        self.with(key, Value::from(word))
    }

    /// The object with a word at a key, or `null` there.
    pub fn found(self, key: &str, word: Option<i64>) -> Result<Object, AllocError>
        ensures found { IfOk result (λ made.
            members_view made ≡ with key.now (spec.found word) (members_view self)) }
    {
        match word {
            Some(word) => self.word(key, word),
            None => self.with(key, Value::Null),
        }
    }

    /// The object with another one at a key.
    pub fn object(self, key: &str, inner: Object) -> Result<Object, AllocError>
        ensures object { IfOk result (λ made.
            members_view made ≡ with key.now (object (members_view inner)) (members_view self)) }
    {
        self.with(key, Value::Object(inner.members))
    }

    /// The object with an array of objects at a key.
    pub fn array(self, key: &str, items: Objects) -> Result<Object, AllocError>
        ensures array { IfOk result (λ made.
            members_view made ≡ with key.now (array (items_view items)) (members_view self)) }
    {
        self.with(key, Value::Array(items.items))
    }

    /// The line of the object, with its line feed.
    pub fn line(self) -> Result<Vec<u8>, AllocError>
        ensures line { IfOk result (λ line. line.items ≡ spec.object_line (members_view self)) }
    {
        let alloc = self.alloc;
        let mut line = Value::Object(self.members).to_vec(alloc)?;
        line.extend_from_slice(b"\n")?;
        Ok(line)
    }
}
