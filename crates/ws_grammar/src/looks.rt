//! Commands that only look.

use crate::cursors::Cursor;
use crate::items::Item;
use ws_command::{Asked, Export, Look, Opt, Paging, Pattern, Shown, Verb, Why};
use ws_fault::Refusal;
use ws_written::Atom;

impl<'a> Cursor<'a> {
    /// The look that a verb and the rest of its line ask for.
    pub(crate) fn look(&mut self, verb: Verb) -> Result<Look, Refusal> {
        match verb {
            Verb::Show => self.show(),
            Verb::Ask => self.ask(),
            Verb::Why => self.why(),
            Verb::Questions => self.questions(),
            Verb::Violations => self.violations(),
            Verb::Log => self.log(),
            Verb::Export => self.export(),
            Verb::Graph => Ok(Look::Graph(self.to_file(verb)?)),
            Verb::Page => Ok(Look::Page(self.to_file(verb)?)),
            Verb::Dump => Ok(Look::Dump(self.to_file(verb)?)),
            _ => {
                self.options(verb)?;
                Ok(Look::Status)
            }
        }
    }

    // The file of `--to`.
    fn to_file(&mut self, verb: Verb) -> Result<Option<String>, Refusal> {
        let mut options = self.options(verb)?;
        Ok(options.take_word(Opt::To))
    }

    // Tables and atoms, with or without commas between them.
    fn all_shown(&mut self) -> Result<Vec<Shown>, Refusal> {
        let mut all = Vec::new(self.alloc);
        for _ in 0..u64::MAX {
            if !self.is_name() {
                break;
            }
            all.push(self.shown()?)?;
            self.take_sign(",");
        }
        Ok(all)
    }

    // A relation by its name, or an atom.
    fn shown(&mut self) -> Result<Shown, Refusal> {
        if self.is_tuple() {
            return Ok(Shown::Rows(Atom::read(self)?));
        }
        Ok(Shown::Table(self.relation()?))
    }

    fn show(&mut self) -> Result<Look, Refusal> {
        let all = self.all_shown()?;
        let mut options = self.options(Verb::Show)?;
        let paging = Paging {
            unknowns: options.has(Opt::Unknowns),
            like: options.take_word(Opt::Like),
            from: options.number(Opt::From),
            limit: options.number(Opt::Limit),
        };
        Ok(Look::Show(all, paging))
    }

    fn ask(&mut self) -> Result<Look, Refusal> {
        let asked = Asked::read(self)?;
        let options = self.options(Verb::Ask)?;
        Ok(Look::Ask {
            asked,
            unknowns: options.has(Opt::Unknowns),
            limit: options.number(Opt::Limit),
        })
    }

    fn why(&mut self) -> Result<Look, Refusal> {
        let what = if self.is_sign("?") {
            Why::Unknown(self.value()?)
        } else {
            Why::Fact(Pattern::read(self)?)
        };
        let options = self.options(Verb::Why)?;
        Ok(Look::Why(what, options.has(Opt::Dot)))
    }

    // The number of an update, if a number stands here.
    fn some_update(&mut self) -> Result<Option<u32>, Refusal> {
        if self.is_number() {
            return Ok(Some(self.update_number()?));
        }
        Ok(None)
    }

    fn questions(&mut self) -> Result<Look, Refusal> {
        let number = self.some_update()?;
        let mut options = self.options(Verb::Questions)?;
        Ok(Look::Questions {
            number,
            like: options.take_word(Opt::Like),
            mine: options.has(Opt::Mine),
            limit: options.number(Opt::Limit),
        })
    }

    fn violations(&mut self) -> Result<Look, Refusal> {
        let mut mapping = None;
        if self.is_name() {
            mapping = Some(self.mapping()?);
        }
        let options = self.options(Verb::Violations)?;
        Ok(Look::Violations {
            mapping,
            limit: options.number(Opt::Limit),
        })
    }

    fn log(&mut self) -> Result<Look, Refusal> {
        let number = self.some_update()?;
        let options = self.options(Verb::Log)?;
        Ok(Look::Log {
            number,
            since: options.number(Opt::Since),
            limit: options.number(Opt::Limit),
        })
    }

    fn export(&mut self) -> Result<Look, Refusal> {
        let mut relation = None;
        if self.is_name() {
            relation = Some(self.relation()?);
        }
        let mut options = self.options(Verb::Export)?;
        Ok(Look::Export(Export {
            relation,
            csv: options.has(Opt::Csv),
            sql: options.has(Opt::Sql),
            json: options.has(Opt::Json),
            sqlite: options.take_word(Opt::Sqlite),
            to: options.take_word(Opt::To),
        }))
    }
}
