//! Objects and lists in JSON.

ghost use Rattle.std.specs.Prelude.{◌≡◌, OnOk};
ghost use Rattle.serde_json.specs.Data.{no_members, object, put};
ghost use Rattle.serde_json.specs.View.{members_view, view};
ghost use Rattle.idl_json.specs.Text.{text_json, texts_json};

use crate::text::{text_value, texts_value};
use idl_base::Bytes;
use serde_json::{Map, Value};
use std::alloc::{AllocError, Global};

/// An object that is made member by member.
pub(crate) struct Object {
    alloc: Global,
    pub(crate) members: Map<String, Value>,
}

impl Drop for Object {
    fn drop(self) {
        let Object {
            alloc: _alloc,
            members: _members,
        } = self;
    }
}

impl Object {
    /// It has no members.
    pub fn new(alloc: Global) -> Object
        ensures { members_view result.members.entries ≡ no_members }
    {
        Object {
            alloc,
            members: Map::new(alloc),
        }
    }

    /// Puts in a member.
    pub fn put(&mut self, key: &str, value: Value) -> Result<(), AllocError>
        ensures { OnOk result (members_view self.new.members.entries
            ≡ put key.now (view value) (members_view self.old.members.entries)) }
    {
        serde_json::put(&mut self.members, self.alloc, key, value)
    }

    /// Puts in a text.
    pub fn put_text(&mut self, key: &str, text: &[u8]) -> Result<(), AllocError>
        ensures { OnOk result (members_view self.new.members.entries
            ≡ put key.now (text_json text.now) (members_view self.old.members.entries)) }
    {
        let value = text_value(self.alloc, text)?;
        self.put(key, value)
    }

    /// Puts in texts.
    pub fn put_texts(&mut self, key: &str, texts: &[Bytes]) -> Result<(), AllocError>
        ensures { OnOk result (members_view self.new.members.entries
            ≡ put key.now (texts_json texts.now) (members_view self.old.members.entries)) }
    {
        let value = texts_value(self.alloc, texts)?;
        self.put(key, value)
    }

    /// The object.
    pub fn into_value(self) -> Value
        ensures { view result ≡ object (members_view self.members.entries) }
    {
        let Object {
            alloc: _alloc,
            members,
        } = self;
        Value::Object(members)
    }
}
