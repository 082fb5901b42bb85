//! A session that curators work on, line by line.
ghost use Rattle.std.specs.Prelude.{◌≡◌, ◌≤◌, true, Some, codes, length, map, IfErr, IfOk};
ghost use Rattle.core_engine.specs.Openings.{RefusesOpening};
ghost use Rattle.core_engine.specs.States.{lowest_deliverable_at, lowest_ready_at, updates_at};
ghost use Rattle.def_language.specs.Names.{firsts, same_name};
ghost use Rattle.def_language.specs.Sessions.{labels};
ghost use Rattle.def_language.specs.Validity.{IsSession};
ghost use Rattle.core_queue.specs.Settings.{settings_of};
ghost use Rattle.lang_session.specs.Meanings.{session_of, update_of};
ghost use Rattle.live_replies.specs.Commands.{AskQuestion};
ghost use Rattle.live_replies.specs.Meanings.{IsReply, IsReplyTo, IsTold, command_meant, live_of};
ghost use Rattle.live_replies.specs.Texts.{last_line};
ghost use Rattle.live_replies.specs.Turns.{begun, command_turn, delivery_turn, number_in, number_of, question_turn, step_turn};

use crate::commands::{Command, Said, line_said};
use crate::refusals::{Refusal, refused, words};
use audit_trace::entry_line;
use base_limits::Budget;
use base_types::{Memory, Name, TryCopy};
use core_engine::{Core, OpenRefusal};
use core_queue::Settings;
use lang_report::question_lines;
use lang_schema::Names;
use lang_session::{Session, SessionUpdate};
use std::alloc::Global;

/// A session that curators work on: its core, and the labels of its updates in the order of their numbers. Its meaning is
/// `live_of`.
#[derive(Drop)]
pub struct Conversation<'s> {
    pub(crate) session: &'s Session,
    pub(crate) core: Core<'s>,
    pub(crate) labels: Names,
}

/// The reply to a line, and whether it is the last one.
#[derive(Debug, Drop)]
pub struct Reply {
    /// The lines of the reply, each with its line feed; empty for a blank line.
    pub text: Vec<u8>,
    /// Whether the curator asked to end.
    pub last: bool,
}

// The labels of the updates, each once, in order.
fn labels_of(alloc: Global, updates: &[SessionUpdate]) -> Result<Names, Memory>
    ensures { IfOk result (λ names. names.items ≡
        firsts same_name (labels (map update_of updates.now))) }
{
    let mut names = Names::new(alloc);
    for update in updates {
        let label = update.update.label.copy(alloc)?;
        names.note(label.into_vec())?;
    }
    Ok(names)
}

// The reply to `quit`.
fn bye(alloc: Global) -> Result<Reply, Memory>
    ensures { IfOk result (λ reply. (reply.text.items ≡ codes "bye\n") × (reply.last ≡ true)) }
{
    let text = words(alloc, b"bye\n")?;
    Ok(Reply { text, last: true })
}

impl<'s> Conversation<'s> {
    /// The session before the first line: all its updates are admitted. It is refused if its base violates a mapping.
    pub fn open(
        alloc: Global,
        session: &'s Session,
        settings: Settings,
        budget: Budget,
    ) -> Result<Conversation<'s>, OpenRefusal<'s>>
        requires valid { IsSession (session_of session.now) }
        requires retries { settings.retries ≤ 4 }
        ensures begun { IfOk result (λ c. live_of c ≡ begun budget (settings_of settings)
            (session_of session.now)) }
        ensures refused { IfErr result (RefusesOpening (session_of session.now)) }
    {
        let labels = labels_of(alloc, session.updates.as_slice())?;
        let core = Core::open(alloc, session, settings, budget)?;
        Ok(Conversation {
            session,
            core,
            labels,
        })
    }

    /// The number of updates.
    pub fn count(&self) -> u32
        ensures count { result ≡ length (updates_at self.now.core) }
    {
        self.core.count()
    }

    /// Does what the line says, and gives the reply.
    #[tactic(auto, unfolding(crate::specs::Turns::line_turn))]
    pub fn turn(&mut self, alloc: Global, line: &[u8]) -> Result<Reply, Memory>
        ensures turn { IfOk result (IsReplyTo (live_of self.old) line.now (live_of self.new)) }
    {
        match line_said(alloc, line)? {
            Said::Nothing => Ok(Reply {
                text: Vec::new(alloc),
                last: false,
            }),
            Said::NoForm => Ok(Reply {
                text: refused(alloc, Refusal::Line)?,
                last: false,
            }),
            Said::Asks(command) => self.reply(alloc, command),
        }
    }

    // Does what the command asks for, and gives the reply.
    fn reply(&mut self, alloc: Global, command: Command) -> Result<Reply, Memory>
        ensures { IfOk result (IsReply (command_turn (live_of self.old) (command_meant command))
            (live_of self.new)) }
    {
        let text = match command {
            Command::Update(label, curator, operation) => {
                self.update(alloc, label, curator, operation)?
            }
            Command::Step => self.step(alloc)?,
            Command::Deliver => self.deliver(alloc)?,
            Command::Answer(label, choice) => self.answer(alloc, &label, choice)?,
            Command::Withdraw(label) => self.withdraw(alloc, &label)?,
            Command::Question(label) => self.question(alloc, &label)?,
            Command::Quit => return bye(alloc),
        };
        Ok(Reply { text, last: false })
    }

    // Makes a step of the lowest update that is ready.
    fn step(&mut self, alloc: Global) -> Result<Vec<u8>, Memory>
        ensures { IfOk result (λ text. IsTold (step_turn (live_of self.old)
            (lowest_ready_at self.old.core)) text.items (live_of self.new)) }
    {
        match self.core.lowest_ready() {
            Some(update) => self.step_of(alloc, update),
            None => words(alloc, b"idle\n"),
        }
    }

    // Makes a step of the update.
    #[tactic(auto, using(crate::proofs::Making::event_turn))]
    fn step_of(&mut self, alloc: Global, update: u32) -> Result<Vec<u8>, Memory>
        ensures { IfOk result (λ text. IsTold (step_turn (live_of self.old) (Some update))
            text.items (live_of self.new)) }
    {
        match self.core.step(alloc, update) {
            Ok(_) => self.latest_line(alloc),
            Err(_) => Err(Memory),
        }
    }

    // Delivers an answer to the lowest update that a recorded answer waits for.
    fn deliver(&mut self, alloc: Global) -> Result<Vec<u8>, Memory>
        ensures { IfOk result (λ text. IsTold (delivery_turn (live_of self.old)
            (lowest_deliverable_at self.old.core)) text.items (live_of self.new)) }
    {
        match self.core.lowest_deliverable() {
            Some(update) => self.deliver_to(alloc, update),
            None => words(alloc, b"idle\n"),
        }
    }

    // Delivers a recorded answer to the update.
    #[tactic(auto, using(crate::proofs::Making::event_turn))]
    fn deliver_to(&mut self, alloc: Global, update: u32) -> Result<Vec<u8>, Memory>
        ensures { IfOk result (λ text. IsTold (delivery_turn (live_of self.old) (Some update))
            text.items (live_of self.new)) }
    {
        match self.core.deliver(update) {
            Ok(_) => self.latest_line(alloc),
            Err(_) => Err(Memory),
        }
    }

    // The question of the update with the label.
    fn question(&self, alloc: Global, label: &Name) -> Result<Vec<u8>, Memory>
        ensures { IfOk result (λ text. IsTold
            (command_turn (live_of self.now) (AskQuestion label.now.items)) text.items
            (live_of self.now)) }
    {
        match self.number(label) {
            Some(update) => self.question_of(alloc, update),
            None => refused(alloc, Refusal::Label),
        }
    }

    // The question of the update.
    fn question_of(&self, alloc: Global, update: u32) -> Result<Vec<u8>, Memory>
        ensures { IfOk result (λ text. IsTold (question_turn (live_of self.now) update)
            text.items (live_of self.now)) }
    {
        match self.core.question(update) {
            Some(question) => question_lines(alloc, self.session, question),
            None => words(alloc, b"none\n"),
        }
    }

    /// The number of the update with the label; None if no update has it.
    pub(crate) fn number(&self, label: &Name) -> Option<u32>
        ensures number { result ≡ number_of (live_of self.now) label.now.items }
    {
        match self.labels.find(label) {
            Some(place) => number_at(place, self.core.count()),
            None => None,
        }
    }

    /// The line of the last event.
    #[tactic(auto, using(crate::proofs::Listing::last_told))]
    pub(crate) fn latest_line(&self, alloc: Global) -> Result<Vec<u8>, Memory>
        ensures line { IfOk result (λ text. text.items ≡
            last_line self.now.session.now.schema self.now.core.history) }
    {
        match self.core.history().last() {
            Some(entry) => entry_line(alloc, &self.session.schema, entry),
            None => Ok(Vec::new(alloc)),
        }
    }
}

// The number of the update at the place, if there are `count` updates.
fn number_at(place: usize, count: u32) -> Option<u32>
    ensures { result ≡ number_in count (Some place) }
{
    if place < count as usize {
        return Some(place as u32 + 1);
    }
    None
}
