//! The command `load`.

use crate::bytes::option_run;
use crate::changes::Changed;
use crate::cursors::Cursor;
use crate::options::Options;
use ws_command::{Change, Load, Opt, Source, Verb};
use ws_fault::Refusal;

impl<'a> Cursor<'a> {
    /// The change that the rest of a `load` asks for.
    pub(crate) fn load_change(&mut self) -> Result<Changed, Refusal> {
        let relation = self.owned_name("a relation")?;
        let here = self.rest;
        let path = self.load_path()?;
        let mut options = self.options(Verb::Load)?;
        let lines = options.number(Opt::Lines);
        let source = self.source(here, path, lines)?;
        let still = options.still();
        let load = load_of(relation, source, &mut options);
        Ok((Change::Load(load), still))
    }

    // The source of the rows: the file that stood at `here`, or the next lines of the input.
    fn source(
        &mut self,
        here: &'a [u8],
        path: Option<String>,
        lines: Option<u32>,
    ) -> Result<Source, Refusal> {
        match (path, lines) {
            (Some(path), None) => Ok(Source::File(path)),
            (None, Some(lines)) => Ok(Source::Lines(lines)),
            (Some(_), Some(_)) => {
                self.rest = here;
                self.unread(self.at(), "a file or --lines, not both", "")
            }
            (None, None) => {
                self.rest = here;
                self.fail_with("a file", "or --lines N: the next N lines of the input")
            }
        }
    }

    // The path of the file; None if an option stands here.
    fn load_path(&mut self) -> Result<Option<String>, Refusal> {
        if option_run(self.rest).is_some() {
            return Ok(None);
        }
        Ok(Some(self.word("a file")?))
    }
}

fn load_of(relation: String, source: Source, options: &mut Options) -> Load {
    Load {
        relation,
        source,
        create: options.has(Opt::Create),
        unknowns: options.has(Opt::Unknowns),
        steps: options.steps(),
        empty: options.take_word(Opt::Empty),
        separator: options.take_word(Opt::Separator),
        text: options.take_word(Opt::Text),
        null: options.take_word(Opt::Null),
        columns: options.take_word(Opt::Columns),
    }
}
