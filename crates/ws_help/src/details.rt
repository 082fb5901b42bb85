//! The details that the help page of a verb has.

use ws_command::Verb;

const RELATION: &str =
    "  1 to 8 columns. A * behind a column says that it belongs to the key: `violations` tells of clashes.
  The first relation makes the file. Columns can change while nothing speaks of the relation.
";

const MAPPING: &str =
    "  A plain name is a variable, a text stands between quotes, and each _ is a variable of its own.
  It comes into force if it has no violation now. Else it is proposed, and nothing changes: see adopt.
";

const ADOPT: &str =
    "  Where a repair has one way only it is made; else it asks, one question for each violation.
  When no violation is left the mapping comes into force; while questions wait, say it again later.
  Or delete what violates it. --steps N gives each repair so many steps.
";

const DROP: &str = "  What it made stays.
";

const INSERT: &str =
    "  A bare ? is a new unknown; ?x is one too, the same wherever it stands in the command.
  --only refuses where anything else would come or go. --steps N gives it so many steps (300).
";

const DELETE: &str =
    "  _ stands for any value: all tuples that fit go. What went is told; `try delete ..` tells it before.
  It is refused if tuples would go along that are not named: they are told, and --cascade lets them go.
  --only refuses where anything else would come or go.
";

const REPLACE: &str =
    "  A value is a number, a text or another unknown. A tuple is changed by inserting the new one first.
  _ in the first tuple is any value, where one tuple alone fits; _ in the second keeps what was there.
  It is refused if other tuples would go along: they are told, and --cascade lets them go.
";

const ANSWER: &str =
    "  Several updates take new, until they are done, or go together: answer 12..40 new.
  CHOICE is the number of a candidate, the candidate itself, or new: none of them.
  Where it asks what goes, several may be named: answer 12 1, 3. go tries again without an answer.
  --at R refuses where the question is another than after record R of the log.
";

const UNDO: &str =
    "  What was said since the last fold can be undone, and redone. The other lines are done again without it; an
  update that cannot be waits, or asks again. --answers keeps the update and takes its answers back.
";

const TRY: &str =
    "  For relation, mapping, adopt, drop, insert, delete, replace, answer, undo, redo and load.
  Any change takes --still R: it is refused if anything was recorded after record R, such as the one a try told.
";

const LOAD: &str =
    "  Its first line names the columns, in any order. Each row is an update with a number of its own.
  --create declares the relation from the first line. --empty new makes an empty cell a new unknown,
  text the empty text, skip passes its row over; else it is a fault. --text COLUMN,.. keeps digits as a text.
  --null WORD,.. makes these words empty cells. --columns NAME,.. takes these columns of the file, in the
  order of the relation's. --unknowns takes ?12.1 as an unknown. --separator CHARACTER, or tab.
  --lines N: the next N lines of the input are the file; as words of a command, - is all of the input.
  All faults are told, and then nothing is loaded.
";

const FOLD: &str =
    "  Unknowns keep their names, and questions go on waiting. What was folded can no longer be undone.
";

const SHOW: &str =
    "  A table, or the rows that fit an atom. --unknowns: rows that have any. --limit N rows, --from K: from the K-th on.
  --like TEXT: rows that have it in a cell; without a name, in all tables.
";

const ASK: &str =
    "  Without a head all variables are told. --unknowns tells rows that have unknowns too.
";

const WHY: &str = "  _ is any value, where one tuple alone fits. --dot prints it as a graph for dot.
";

const QUESTIONS: &str =
    "  The candidates that share most with what is known come first; their numbers are those of all of them.
  --like TEXT shows those that have the text in them; --limit N so many; --mine what I said.
";

const VIOLATIONS: &str = "  What lacks is printed so that `insert` takes it. --limit N of each.
";

const LOG: &str =
    "  --limit N: the last N records. --since R: those after record R, with --limit N the first N of them.
";

const GRAPH: &str = "  --to FILE
";

const PAGE: &str = "  --to FILE
";

const EXPORT: &str =
    "  --csv (of one relation; the default), --sql (for sqlite3 and psql), --json (a row a line). --to FILE
";

const DUMP: &str = "  `youtopia serial --steps 300` makes the same tables of it.
";

/// The further lines of the help page, each with two blanks in front and a line feed at its end.
pub fn details_of(verb: Verb) -> &'static str {
    match verb {
        Verb::Relation => RELATION,
        Verb::Mapping => MAPPING,
        Verb::Adopt => ADOPT,
        Verb::Drop => DROP,
        Verb::Insert => INSERT,
        Verb::Delete => DELETE,
        Verb::Replace => REPLACE,
        Verb::Answer => ANSWER,
        Verb::Undo => UNDO,
        Verb::Try => TRY,
        Verb::Load => LOAD,
        Verb::Fold => FOLD,
        Verb::Show => SHOW,
        Verb::Ask => ASK,
        Verb::Why => WHY,
        Verb::Questions => QUESTIONS,
        Verb::Violations => VIOLATIONS,
        Verb::Log => LOG,
        Verb::Graph => GRAPH,
        Verb::Page => PAGE,
        Verb::Export => EXPORT,
        Verb::Dump => DUMP,
        _ => "",
    }
}
