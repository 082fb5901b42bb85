//! Objects and lists.

use serde_json::{Map, Value};
use std::alloc::{AllocError, Global};

/// An object that is being filled. It remembers a want of memory, and `into_line` returns it.
#[derive(Drop)]
pub struct Object {
    alloc: Global,
    members: Map<String, Value>,
    lacks: bool,
}

/// A list that is being filled. It remembers a want of memory, and passes it on to the object that it is put into.
#[derive(Drop)]
pub struct Items {
    alloc: Global,
    items: Vec<Value>,
    lacks: bool,
}

impl Object {
    /// An object without members.
    pub fn new(alloc: Global) -> Object {
        Object {
            alloc,
            members: Map::new(alloc),
            lacks: false,
        }
    }

    // Puts in a member, in place of a member with the same key.
    fn put(&mut self, key: &str, value: Result<Value, AllocError>) {
        match value {
            Ok(value) => self.insert(key, value),
            Err(_) => self.lacks = true,
        }
    }

    fn insert(&mut self, key: &str, value: Value) {
        match String::from_str(self.alloc, key) {
            Ok(key) => {
                if self.members.insert(key, value).is_err() {
                    self.lacks = true;
                }
            }
            Err(_) => {
                drop(value);
                self.lacks = true;
            }
        }
    }

    /// Puts in a text.
    pub fn text(&mut self, key: &str, text: &str) {
        self.put(key, Value::try_from_str(self.alloc, text));
    }

    /// Puts in the text of a call; an error counts as want of memory.
    pub fn made<E: Drop>(&mut self, key: &str, text: Result<String, E>) {
        match text {
            Ok(text) => self.insert(key, Value::String(text)),
            Err(_) => self.lacks = true,
        }
    }

    /// Puts in a number, with all its digits.
    pub fn number(&mut self, key: &str, number: i64) {
        self.insert(key, Value::from(number));
    }

    /// Puts in `true` or `false`.
    pub fn flag(&mut self, key: &str, is: bool) {
        self.insert(key, Value::from(is));
    }

    /// Puts in `null`, for a value that is not there.
    pub fn none(&mut self, key: &str) {
        self.insert(key, Value::Null);
    }

    /// Puts in an object.
    pub fn object(&mut self, key: &str, object: Object) {
        self.put(key, object.into_value());
    }

    /// Puts in a list.
    pub fn items(&mut self, key: &str, items: Items) {
        self.put(key, items.into_value());
    }

    /// The object as a line, without a line feed.
    pub fn into_line(self) -> Result<String, AllocError> {
        let alloc = self.alloc;
        match self.into_value() {
            Ok(value) => value.to_string(alloc),
            Err(error) => Err(error),
        }
    }

    fn into_value(self) -> Result<Value, AllocError> {
        let Object {
            alloc: _,
            members,
            lacks,
        } = self;
        if lacks {
            return Err(AllocError);
        }
        Ok(Value::Object(members))
    }
}

impl Items {
    /// A list without items.
    pub fn new(alloc: Global) -> Items {
        Items {
            alloc,
            items: Vec::new(alloc),
            lacks: false,
        }
    }

    fn put(&mut self, value: Result<Value, AllocError>) {
        match value {
            Ok(value) => self.push(value),
            Err(_) => self.lacks = true,
        }
    }

    fn push(&mut self, value: Value) {
        if self.items.push(value).is_err() {
            self.lacks = true;
        }
    }

    /// Adds a text.
    pub fn text(&mut self, text: &str) {
        self.put(Value::try_from_str(self.alloc, text));
    }

    /// Adds the text of a call; an error counts as want of memory.
    pub fn made<E: Drop>(&mut self, text: Result<String, E>) {
        match text {
            Ok(text) => self.push(Value::String(text)),
            Err(_) => self.lacks = true,
        }
    }

    /// Adds a number.
    pub fn number(&mut self, number: i64) {
        self.push(Value::from(number));
    }

    /// Adds an object.
    pub fn object(&mut self, object: Object) {
        self.put(object.into_value());
    }

    /// Adds a list.
    pub fn items(&mut self, items: Items) {
        self.put(items.into_value());
    }

    fn into_value(self) -> Result<Value, AllocError> {
        let Items {
            alloc: _,
            items,
            lacks,
        } = self;
        if lacks {
            return Err(AllocError);
        }
        Ok(Value::Array(items))
    }
}
