//! Text to which words are added, laid out as on a line.

ghost use Rattle.std.specs.Prelude.{◌≡◌, ◌++◌, OnOk, IfOk};
ghost use Rattle.base_types.specs.Meanings.{datum_of, fact_of};
ghost use Rattle.def_language.specs.Words.{name, number, opens, closes, comma, colon, arrow};
ghost use Rattle.def_language.specs.Grammar.{fact_words, value_word};
ghost use Rattle.def_language.specs.Printing.{written_fact};
ghost use Rattle.lang_schema.specs.Pages.{blank, space, with_word, with_words, with_line_feed};

use crate::numerals::push_number;
use crate::plain::push_plain;
use crate::printing::push_fact;
use crate::schema::Schema;
use crate::spelling::push_value;
use base_types::{Memory, Tuple, Value};
use std::alloc::{AllocError, Global};
use std::marker::Model;

/// Text that grows word by word. A space comes between two words, but none after `(` and none before `(`, `)`, `,` and `:`. If
/// memory runs out, a call that owns the page drops it, and one that borrows it may leave part of its word on it.
#[derive(Drop)]
pub struct Page {
    text: Vec<u8>,
    apart: bool,
}

impl Model for Page {
    ghost use Rattle.lang_schema.specs.Pages.{Written};

    ghost Value = { Written };

    ghost view = { λ p. record { text = p.text.items; apart = p.apart } };
}

fn push_space(out: &mut Vec<u8>, apart: bool) -> Result<(), AllocError>
    ensures { OnOk result (out.new.items ≡ out.old.items ++ space apart) }
{
    if apart {
        out.push(b' ')?;
    }
    Ok(())
}

impl Page {
    /// The empty page.
    pub fn new(alloc: Global) -> Page
        ensures blank { result ≡ blank }
    {
        Page {
            text: Vec::new(alloc),
            apart: false,
        }
    }

    /// Makes room for `more` further bytes. The text stays as it is.
    pub fn reserve(&mut self, more: usize) -> Result<(), Memory>
        ensures same { self.new ≡ self.old }
    {
        self.text.reserve(more)?;
        Ok(())
    }

    /// Adds a name.
    pub fn add_name(&mut self, bytes: &[u8]) -> Result<(), Memory>
        ensures word { OnOk result (self.new ≡ with_word self.old (name bytes.now)) }
    {
        push_space(&mut self.text, self.apart)?;
        push_plain(&mut self.text, bytes)?;
        self.apart = true;
        Ok(())
    }

    /// Adds a number.
    pub fn add_number(&mut self, integer: i64) -> Result<(), Memory>
        ensures word { OnOk result (self.new ≡ with_word self.old (number integer)) }
    {
        push_space(&mut self.text, self.apart)?;
        push_number(&mut self.text, integer)?;
        self.apart = true;
        Ok(())
    }

    /// Adds a value, a null by its outer name.
    pub fn add_value(&mut self, value: &Value) -> Result<(), Memory>
        ensures word { OnOk result (self.new ≡
            with_word self.old (value_word (datum_of value.now))) }
    {
        push_space(&mut self.text, self.apart)?;
        push_value(&mut self.text, false, value)?;
        self.apart = true;
        Ok(())
    }

    /// Ends the line with a line feed.
    pub fn add_line_feed(&mut self) -> Result<(), Memory>
        ensures ended { OnOk result (self.new ≡ with_line_feed self.old) }
    {
        self.text.push(b'\n')?;
        self.apart = false;
        Ok(())
    }

    /// Adds a tuple: the name of its relation, and its values in parentheses with commas between them.
    pub fn add_tuple(&mut self, schema: &Schema, tuple: &Tuple) -> Result<(), Memory>
        ensures words { OnOk result (self.new ≡
            with_words self.old (fact_words (written_fact schema.now (fact_of tuple.now)))) }
    {
        let name = schema.name(tuple.relation);
        push_space(&mut self.text, self.apart)?;
        push_fact(&mut self.text, false, name, tuple.values.as_slice())?;
        self.apart = true;
        Ok(())
    }

    /// Adds a name, as `add_name` does.
    pub fn name(mut self, bytes: &[u8]) -> Result<Page, Memory>
        ensures word { IfOk result (λ page. page ≡ with_word self (name bytes.now)) }
    {
        self.add_name(bytes)?;
        Ok(self)
    }

    /// Adds a number, as `add_number` does.
    pub fn number(mut self, integer: i64) -> Result<Page, Memory>
        ensures word { IfOk result (λ page. page ≡ with_word self (number integer)) }
    {
        self.add_number(integer)?;
        Ok(self)
    }

    /// Adds a value, as `add_value` does.
    pub fn value(mut self, value: &Value) -> Result<Page, Memory>
        ensures word { IfOk result (λ page. page ≡
            with_word self (value_word (datum_of value.now))) }
    {
        self.add_value(value)?;
        Ok(self)
    }

    /// Adds a tuple, as `add_tuple` does.
    pub fn tuple(mut self, schema: &Schema, tuple: &Tuple) -> Result<Page, Memory>
        ensures words { IfOk result (λ page. page ≡
            with_words self (fact_words (written_fact schema.now (fact_of tuple.now)))) }
    {
        self.add_tuple(schema, tuple)?;
        Ok(self)
    }

    /// Adds `(`.
    pub fn open(mut self) -> Result<Page, Memory>
        ensures word { IfOk result (λ page. page ≡ with_word self opens) }
    {
        self.text.push(b'(')?;
        self.apart = false;
        Ok(self)
    }

    /// Adds `)`.
    pub fn close(mut self) -> Result<Page, Memory>
        ensures word { IfOk result (λ page. page ≡ with_word self closes) }
    {
        self.text.push(b')')?;
        self.apart = true;
        Ok(self)
    }

    /// Adds `,`.
    pub fn comma(mut self) -> Result<Page, Memory>
        ensures word { IfOk result (λ page. page ≡ with_word self comma) }
    {
        self.text.push(b',')?;
        self.apart = true;
        Ok(self)
    }

    /// Adds `:`.
    pub fn colon(mut self) -> Result<Page, Memory>
        ensures word { IfOk result (λ page. page ≡ with_word self colon) }
    {
        self.text.push(b':')?;
        self.apart = true;
        Ok(self)
    }

    /// Adds `->`.
    pub fn arrow(mut self) -> Result<Page, Memory>
        ensures word { IfOk result (λ page. page ≡ with_word self arrow) }
    {
        push_space(&mut self.text, self.apart)?;
        self.text.extend_from_slice(b"->")?;
        self.apart = true;
        Ok(self)
    }

    /// Ends the line, as `add_line_feed` does.
    pub fn end_line(mut self) -> Result<Page, Memory>
        ensures ended { IfOk result (λ page. page ≡ with_line_feed self) }
    {
        self.add_line_feed()?;
        Ok(self)
    }

    /// The text.
    pub fn into_text(self) -> Vec<u8>
        ensures text { result.items ≡ self.text }
    {
        let Page { text, apart: _ } = self;
        text
    }
}
