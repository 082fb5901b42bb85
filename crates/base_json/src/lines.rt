//! Text to which JSON is added, token by token.
ghost use Rattle.std.specs.Prelude.{◌≡◌, ◌++◌, false, IfOk, OnOk};
ghost use Rattle.std.specs.Fmt.{decimal};
ghost use Rattle.json.specs.Token as token_of;
ghost use Rattle.json.specs.Print.{separator, begins};
ghost use Rattle.base_json.specs.Lines.{with_token};

use crate::bytes::push_quoted;
use def_memory::Memory;
use itoa::Buffer;
use std::alloc::AllocError;
use std::marker::Model;

/// Text that grows by tokens of JSON, without a tree of values in between. If memory runs out, the line is lost.
#[derive(Drop)]
pub struct Line {
    text: Vec<u8>,
    ended: bool,
}

impl Model for Line {
    ghost use Rattle.base_json.specs.Lines.{Typed};

    ghost Value = { Typed };

    ghost view = { λ l. record { text = l.text.items; ended = l.ended } };
}

fn push_comma(out: &mut Vec<u8>, ended: bool) -> Result<(), AllocError>
    ensures { OnOk result (out.new.items ≡ out.old.items ++ separator ended token_of.null) }
{
    if ended {
        return out.extend_from_slice(b",");
    }
    Ok(())
}

impl Line {
    /// The line that continues a text.
    pub fn after(text: Vec<u8>) -> Line
        ensures { result ≡ record { text = text.items; ended = false } }
    {
        Line { text, ended: false }
    }

    /// The text.
    pub fn into_text(self) -> Vec<u8>
        ensures { result.items ≡ self.text }
    {
        let Line { text, ended: _ } = self;
        text
    }

    /// Begins an object.
    pub fn begin_object(mut self) -> Result<Line, Memory>
        ensures { IfOk result (λ line. line ≡ with_token self token_of.begin_object) }
    {
        push_comma(&mut self.text, self.ended)?;
        self.text.extend_from_slice(b"{")?;
        self.ended = false;
        Ok(self)
    }

    /// Ends the object.
    pub fn end_object(mut self) -> Result<Line, Memory>
        ensures { IfOk result (λ line. line ≡ with_token self token_of.end_object) }
    {
        self.text.extend_from_slice(b"}")?;
        self.ended = true;
        Ok(self)
    }

    /// Begins a list.
    pub fn begin_array(mut self) -> Result<Line, Memory>
        ensures { IfOk result (λ line. line ≡ with_token self token_of.begin_array) }
    {
        push_comma(&mut self.text, self.ended)?;
        self.text.extend_from_slice(b"[")?;
        self.ended = false;
        Ok(self)
    }

    /// Ends the list.
    pub fn end_array(mut self) -> Result<Line, Memory>
        ensures { IfOk result (λ line. line ≡ with_token self token_of.end_array) }
    {
        self.text.extend_from_slice(b"]")?;
        self.ended = true;
        Ok(self)
    }

    /// Adds the key of a member of the object.
    pub fn key(mut self, name: &[u8]) -> Result<Line, Memory>
        ensures { IfOk result (λ line. line ≡ with_token self (token_of.key name.now)) }
    {
        push_comma(&mut self.text, self.ended)?;
        push_quoted(&mut self.text, name)?;
        self.text.extend_from_slice(b":")?;
        self.ended = false;
        Ok(self)
    }

    /// Adds a text.
    pub fn string(mut self, text: &[u8]) -> Result<Line, Memory>
        ensures { IfOk result (λ line. line ≡ with_token self (token_of.string text.now)) }
    {
        push_comma(&mut self.text, self.ended)?;
        push_quoted(&mut self.text, text)?;
        self.ended = true;
        Ok(self)
    }

    /// Adds a whole number.
    pub fn number(mut self, number: u64) -> Result<Line, Memory>
        ensures { IfOk result (λ line. line ≡ with_token self (token_of.number (decimal number))) }
    {
        push_comma(&mut self.text, self.ended)?;
        let mut digits = Buffer::new();
        self.text
            .extend_from_slice(digits.format(number).as_bytes())?;
        self.ended = true;
        Ok(self)
    }
}
