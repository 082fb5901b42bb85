//! The opening of a core on a session.
ghost use Rattle.std.specs.Prelude.{◌≡◌, ◌≤◌, None, length, IfErr, IfOk, OnOk};
ghost use Rattle.core_queue.specs.Settings.{settings_of};
ghost use Rattle.def_language.specs.Validity.{IsSession};
ghost use Rattle.lang_session.specs.Base.{base_violation};
ghost use Rattle.lang_session.specs.Meanings.{session_of};
ghost use Rattle.core_engine.specs.Openings.{RefusesOpening};
ghost use Rattle.core_engine.specs.States.{opened};

use crate::admitting::{admissions, admitted};
use crate::cores::Core;
use crate::known::Known;
use crate::refusals::OpenRefusal;
use base_limits::Budget;
use base_types::{Memory, UpdateList};
use chase_plan::TouchedMappings;
use core_queue::Settings;
use lang_session::Session;
use run_base::base_violation;
use run_serial::{base_of, mappings_of};
use set_facts::IndexedFacts;
use set_versions::Versions;
use std::alloc::Global;

impl<'s> Core<'s> {
    /// The core of a session to which all its updates are admitted, each with its recorded answers. It is refused if the base of
    /// the session violates a mapping.
    pub fn open(
        alloc: Global,
        session: &'s Session,
        settings: Settings,
        budget: Budget,
    ) -> Result<Core<'s>, OpenRefusal<'s>>
        requires valid { IsSession (session_of session.now) }
        requires retries { settings.retries ≤ 4 }
        ensures opened { IfOk result (λ core. core ≡ opened (session_of session.now) budget
            (settings_of settings) (length session.now.updates.items)) }
        ensures met { OnOk result (base_violation (session_of session.now) ≡ None) }
        ensures refused { IfErr result (RefusesOpening (session_of session.now)) }
    {
        let base = base_of(alloc, session)?;
        Core::open_over(alloc, session, base, settings, budget)
    }

    /// The core of a session over its base, which is handed over as a set of tuples (`base_of`). All its updates are admitted,
    /// each with its recorded answers. It is refused if the base violates a mapping.
    pub fn open_over(
        alloc: Global,
        session: &'s Session,
        base: IndexedFacts,
        settings: Settings,
        budget: Budget,
    ) -> Result<Core<'s>, OpenRefusal<'s>>
        requires valid { IsSession (session_of session.now) }
        requires retries { settings.retries ≤ 4 }
        requires base { base ≡ (session_of session.now).base }
        ensures opened { IfOk result (λ core. core ≡ opened (session_of session.now) budget
            (settings_of settings) (length session.now.updates.items)) }
        ensures met { OnOk result (base_violation (session_of session.now) ≡ None) }
        ensures refused { IfErr result (RefusesOpening (session_of session.now)) }
    {
        match base_violation(alloc, session, &base)? {
            Some(violated) => Err(OpenRefusal::Violates(violated)),
            None => Ok(Core::open_met(alloc, session, base, settings, budget)?),
        }
    }

    /// The core of a session over its base, which is handed over as a set of tuples (`base_of`) and known to violate no mapping.
    /// All its updates are admitted, each with its recorded answers.
    pub fn open_met(
        alloc: Global,
        session: &'s Session,
        base: IndexedFacts,
        settings: Settings,
        budget: Budget,
    ) -> Result<Core<'s>, Memory>
        requires valid { IsSession (session_of session.now) }
        requires met { base_violation (session_of session.now) ≡ None }
        requires retries { settings.retries ≤ 4 }
        requires base { base ≡ (session_of session.now).base }
        ensures opened { IfOk result (λ core. core ≡ opened (session_of session.now) budget
            (settings_of settings) (length session.now.updates.items)) }
    {
        budget.is_within();
        let versions = Versions::of(alloc, base)?;
        let updates = session.updates.as_slice();
        let queue = admitted(alloc, updates)?;
        let history = admissions(alloc, updates)?;
        let mappings = TouchedMappings::of(alloc, mappings_of(session))?;
        let later = UpdateList::new(alloc);
        let known = Known::none(alloc)?;
        Ok(Core {
            schema: &session.schema,
            mappings,
            budget,
            settings,
            base: &session.base,
            updates: &session.updates,
            later,
            versions,
            queue,
            history,
            least: 0,
            most: u32::MAX,
            unready: 0,
            known,
        })
    }
}
