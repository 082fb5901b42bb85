//! The updates of a session, found by label, with their curators and their answers counted.

ghost use Rattle.std.specs.Prelude.{◌≡◌, ◌<◌, ◌++◌, ◌∷◌, [], Some, None, false, length, map, slice_get, IfSome, IfNone, slice_set, OnOk, OnErr};
ghost use Rattle.base_types.specs.Meanings.{choice_of};
ghost use Rattle.def_language.specs.Names.{is_one_of, place_of, same_name, with_new};
ghost use Rattle.def_language.specs.Sessions.{SessionUpdate as UpdateMeant, answer_count, labels};
ghost use Rattle.def_language.specs.Checks.{curators_full, with_answer};
ghost use Rattle.lang_session.specs.Meanings.{update_of};
ghost use Rattle.lang_checks.specs.Additions.{unanswered};

use base_limits::MOST_CURATORS;
use base_types::{Choice, List, Memory, Name, Update};
use lang_schema::Names;
use lang_session::{SessionUpdate, SessionUpdates};
use std::alloc::Global;
use std::marker::Model;

/// The updates of a session, at most 1,000. Contracts see them as a list.
#[derive(Drop)]
pub(crate) struct Updates {
    updates: Vec<SessionUpdate>,
    label_names: Names,
    curator_names: Names,
    answers: u32,
}

impl Model for Updates {
    ghost use Rattle.std.specs.Prelude.{◌≡◌, ◌≤◌, List, length, map};
    ghost use Rattle.def_language.specs.Sessions.{SessionUpdate as UpdateMeant, answer_count, curators, labels};
    ghost use Rattle.lang_session.specs.Meanings.{update_of};

    ghost Value = { List UpdateMeant };

    ghost view = { λ u. map update_of u.updates.items };

    ghost invariant = { λ u. (u.label_names.items ≡ labels (map update_of u.updates.items))
        × (u.curator_names.items ≡ curators (map update_of u.updates.items)) × (u.answers
        ≡ answer_count (map update_of u.updates.items)) × (length u.updates.items ≤ 1000) };
}

impl Updates {
    /// No update.
    pub(crate) fn new(alloc: Global) -> Updates
        ensures empty { result ≡ [] }
    {
        Updates {
            updates: Vec::new(alloc),
            label_names: Names::new(alloc),
            curator_names: Names::new(alloc),
            answers: 0,
        }
    }

    /// The number of updates.
    pub(crate) fn len(&self) -> u32
        ensures length { result ≡ length self.now }
    {
        self.updates.len() as u32
    }

    /// The place of the update with this label, counted from 0; None exactly if there is none.
    pub(crate) fn find(&self, label: &Name) -> Option<u32>
        ensures place { IfSome result (λ place. place ≡
            place_of (labels self.now) label.now.items) }
        ensures within { IfSome result (λ place. (place < length self.now) × (place < 1000)) }
        ensures absent { IfNone result (slice_get self.now
            (place_of (labels self.now) label.now.items) ≡ None) }
    {
        match self.label_names.find(label) {
            Some(place) => Some(place as u32),
            None => None,
        }
    }

    /// Whether an update has the label.
    pub(crate) fn has(&self, label: &Name) -> bool
        ensures one { result ≡ is_one_of (labels self.now) label.now.items }
    {
        self.label_names.has(label)
    }

    /// Whether this is a further curator and there is no room for one.
    pub(crate) fn curators_full(&self, curator: &Name) -> bool
        ensures full { result ≡ curators_full self.now curator.now.items }
    {
        !self.curator_names.has(curator) && MOST_CURATORS <= self.curator_names.len()
    }

    /// The number of answers of all updates.
    pub(crate) fn answer_count(&self) -> u32
        ensures count { result ≡ answer_count self.now }
    {
        self.answers
    }

    /// Adds an update without answers at the end. If it is refused, nothing changes.
    pub(crate) fn add(&mut self, alloc: Global, update: Update) -> Result<(), Memory>
        requires fresh { is_one_of (labels self.old) update.label.items ≡ false }
        requires room { length self.old < 1000 }
        ensures ok { OnOk result (self.new ≡ self.old ++ unanswered update ∷ []) }
        ensures err { OnErr result (self.new ≡ self.old) }
    {
        if let Err(memory) = self.updates.reserve(1) {
            drop(update);
            return Err(memory.into());
        }
        let names = note(
            alloc,
            &mut self.label_names,
            &mut self.curator_names,
            &update,
        );
        if let Err(memory) = names {
            drop(update);
            return Err(memory);
        }
        self.updates.push(SessionUpdate {
            update,
            answers: List::new(alloc),
        })?;
        Ok(())
    }

    /// Adds an answer to the update at a place. If it is refused, nothing changes.
    pub(crate) fn answer(&mut self, place: u32, choice: Choice) -> Result<(), Memory>
        requires there { place < length self.old }
        requires room { answer_count self.old < 20000 }
        ensures ok { OnOk result ((u : UpdateMeant) → slice_get self.old place ≡ Some u →
            self.new ≡ slice_set self.old place (with_answer u (choice_of choice))) }
        ensures err { OnErr result (self.new ≡ self.old) }
    {
        self.updates[place as usize].answers.push(choice)?;
        self.answers += 1;
        Ok(())
    }

    /// The updates as a list.
    pub(crate) fn into_list(self) -> SessionUpdates
        ensures same { map update_of result.items ≡ self }
    {
        let Updates { updates, .. } = self;
        List::from_vec(updates)
    }
}

// Notes the label and the curator of the update. If it is refused, nothing changes.
fn note(
    alloc: Global,
    labels: &mut Names,
    curators: &mut Names,
    update: &Update,
) -> Result<(), Memory>
    ensures label { OnOk result (labels.new.items ≡
        with_new same_name labels.old.items update.now.label.items) }
    ensures curator { OnOk result (curators.new.items ≡
        with_new same_name curators.old.items update.now.curator.items) }
    ensures no_label { OnErr result (labels.new.items ≡ labels.old.items) }
    ensures no_curator { OnErr result (curators.new.items ≡ curators.old.items) }
{
    labels.reserve()?;
    let label = Vec::from_slice(alloc, update.label.as_slice())?;
    let curator = Vec::from_slice(alloc, update.curator.as_slice())?;
    curators.note(curator)?;
    labels.note(label)?;
    Ok(())
}
