//! Which look is made by which crate, and where its text goes.

use crate::commands::Turn;
use crate::leaving::Done;
use crate::sending::{exported, sent};
use crate::sessions::{Speaker, context_of};
use ws_ask::ask;
use ws_command::{Look, Why};
use ws_dump::dump;
use ws_fault::Refusal;
use ws_look::look as looked;
use ws_out::{export, graph, page};
use ws_reply::Reply;
use ws_space::Space;
use ws_why::{why_fact, why_unknown};

impl Speaker {
    /// Does a look; its text goes into the reply, or to a file.
    pub(crate) fn look_once(
        &mut self,
        rt: &HostRuntime,
        turn: &Turn<'_>,
        space: &mut Space,
        look: Look,
    ) -> Result<Done, Refusal> {
        let reply = self.look(rt, turn, space, &look);
        drop(look);
        Ok(Done::Told(reply?))
    }

    fn look(
        &mut self,
        rt: &HostRuntime,
        turn: &Turn<'_>,
        space: &mut Space,
        look: &Look,
    ) -> Result<Reply, Refusal> {
        let alloc = rt.alloc();
        let settings = &self.settings;
        let context = context_of(settings, self.name.as_str(), turn.time, false);
        match look {
            Look::Graph(to) => sent(rt, settings, to, "dot", graph(alloc, space)?),
            Look::Page(to) => sent(rt, settings, to, "page", page(alloc, space, &context)?),
            Look::Dump(to) => sent(rt, settings, to, "session", dump(alloc, space)?),
            Look::Export(asked) => {
                let lines = export(alloc, space, asked)?;
                exported(rt, settings, asked, lines)
            }
            Look::Ask {
                asked,
                unknowns,
                limit,
            } => Ok(ask(alloc, space, &context, asked, *unknowns, *limit)?),
            Look::Why(Why::Fact(pattern), dot) => why_fact(alloc, space, &context, pattern, *dot),
            Look::Why(Why::Unknown(unknown), _) => why_unknown(alloc, space, &context, unknown),
            Look::Show(_, _)
            | Look::Questions { .. }
            | Look::Violations { .. }
            | Look::Log { .. }
            | Look::Status => looked(alloc, space, &mut self.shown, &context, look),
        }
    }
}
