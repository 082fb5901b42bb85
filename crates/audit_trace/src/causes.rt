// The causes of an entry.
ghost use Rattle.std.specs.Prelude.{◌≡◌, map, IfOk};
ghost use Rattle.core_entries.specs.Meanings.{cause_of};
ghost use Rattle.base_json.specs.Lines.{with_json, with_all};
ghost use Rattle.audit_trace.specs.Traces.{cause_json, causes_json, conflict_json, dependence_json};

use base_json::Line;
use core_entries::Cause;
use def_memory::Memory;

fn with_conflict(line: Line, reader: u32, read: u64, writer: u32) -> Result<Line, Memory>
    ensures { IfOk result (λ l. l ≡ with_json line (conflict_json reader read writer)) }
{
    line.begin_object()?
        .key(b"kind")?
        .string(b"conflict")?
        .key(b"read")?
        .number(read)?
        .key(b"reader")?
        .number(u64::from(reader))?
        .key(b"writer")?
        .number(u64::from(writer))?
        .end_object()
}

fn with_dependence(line: Line, reader: u32, read: u64, on: u32) -> Result<Line, Memory>
    ensures { IfOk result (λ l. l ≡ with_json line (dependence_json reader read on)) }
{
    line.begin_object()?
        .key(b"kind")?
        .string(b"depends")?
        .key(b"on")?
        .number(u64::from(on))?
        .key(b"read")?
        .number(read)?
        .key(b"reader")?
        .number(u64::from(reader))?
        .end_object()
}

fn with_cause(line: Line, cause: &Cause) -> Result<Line, Memory>
    ensures { IfOk result (λ l. l ≡ with_json line (cause_json (cause_of cause.now))) }
{
    match cause {
        Cause::Conflict {
            reader,
            read,
            writer,
            ..
        } => with_conflict(line, *reader, *read, *writer),
        Cause::Depends { reader, read, on } => with_dependence(line, *reader, *read, *on),
    }
}

#[tactic(auto, using(base_json::proofs::Adding::all_more))]
fn with_each_cause(mut line: Line, causes: &[Cause]) -> Result<Line, Memory>
    ensures { IfOk result (λ l. l ≡ with_all line (map cause_json (map cause_of causes.now))) }
{
    for cause in causes {
        line = with_cause(line, cause)?;
    }
    Ok(line)
}

// The list of the causes.
#[tactic(auto, using(base_json::proofs::Adding::listed))]
pub(crate) fn with_causes(line: Line, causes: &[Cause]) -> Result<Line, Memory>
    ensures { IfOk result (λ l. l ≡ with_json line (causes_json (map cause_of causes.now))) }
{
    with_each_cause(line.begin_array()?, causes)?.end_array()
}
