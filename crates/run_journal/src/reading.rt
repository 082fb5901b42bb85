// What the bytes of a journal stand for, read from the front.
ghost use Rattle.std.specs.Prelude.{◌≡◌, ◌+◌, ◌<◌, ◌≤◌, ◌^◌, ◌++◌, ◌∷◌, [], false, true, ℕ, List, map, length, IfOk, IfErr, IfSome, IfNone, OnOk};
ghost use Rattle.std.specs.List.{AllByRecursion};
ghost use Rattle.def_chase.specs.Values.{Fact};
ghost use Rattle.def_chase.specs.Repository.{Change, apply, change};
ghost use Rattle.base_types.specs.Meanings.{change_of, fact_of};
ghost use Rattle.def_language.specs.Lines.{Spells};
ghost use Rattle.def_language.specs.Lone.{IsTuple};
ghost use Rattle.def_language.specs.Printing.{printed, tuple_text};
ghost use Rattle.def_language.specs.Sessions.{RelationSchema, SessionData};
ghost use Rattle.def_language.specs.Validity.{IsSession};
ghost use Rattle.lang_reader.specs.Places.{IsOneLine};
ghost use Rattle.lang_session.specs.Meanings.{session_of};
ghost use Rattle.base_roll.specs.Format.{framed};
ghost use Rattle.run_journal.specs.Format.{IsCommit, IsOpening, IsWrite, commit_text, write_lines, write_text};
ghost use Rattle.run_journal.specs.Journals.{BeginsWith};
ghost use Rattle.run_journal.specs.Damage.{HasNoCommit};
ghost use Rattle.run_journal.specs.Answers.{FaultTold, IsHeld, ReadTold};
ghost use Rattle.run_journal.specs.Taken.{TakesCommit, begins_header};

use crate::printing::commit_line;
use crate::{Journal, RecoverFault, Recovered};
use base_roll::split_frame;
use base_types::{Memory, Tuple, TupleList, Write, WriteList};
use def_language::{
    every_input_has_one_answer, lines_say_tuples, sessions_are_read_again, tuples_are_read_again,
};
use lang_print::print_session;
use lang_reader::{ReadFailure, TupleText, read_session, read_tuple};
use lang_schema::print_tuple;
use lang_session::Session;
use memchr::memchr;
use set_facts::PlainFacts;
use std::alloc::Global;

// The line at the front, and the text after its line feed; None if there is no line feed.
fn first_line(text: &[u8]) -> Option<(&[u8], &[u8])>
    ensures line { IfSome result (λ parts. text.now ≡ parts.0.now ++ (10 ∷ parts.1.now)) }
    ensures one_line { IfSome result (λ parts. IsOneLine parts.0.now) }
    ensures none { IfNone result (IsOneLine text.now) }
{
    match memchr(b'\n', text) {
        Some(place) => Some((&text[..place], &text[place + 1..])),
        None => None,
    }
}

// The text after its head; None if the text does not begin with the head.
fn after<'a>(head: &[u8], text: &'a [u8]) -> Option<&'a [u8]>
    ensures some { IfSome result (λ rest. text.now ≡ head.now ++ rest.now) }
    ensures none { IfNone result ((rest : List ℕ) → text.now ≡ head.now ++ rest → ⊥) }
{
    if text.len() < head.len() {
        return None;
    }
    let (front, rest) = text.split_at(head.len());
    if front == head { Some(rest) } else { None }
}

// The tuple, if the text is its printed form.
fn if_printed(
    alloc: Global,
    session: &Session,
    text: &[u8],
    tuple: Tuple,
) -> Result<Option<Tuple>, Memory>
    ensures some { IfOk result (λ found.
        IfSome found (λ t.
        (fact_of t ≡ fact_of tuple)
        × (text.now ≡ tuple_text session.now.schema false (fact_of tuple)))) }
    ensures none { IfOk result (λ found.
        IfNone found (text.now ≡ tuple_text session.now.schema false (fact_of tuple) → ⊥)) }
{
    let form = print_tuple(alloc, &session.schema, &tuple, false)?;
    if form.as_slice() == text {
        return Ok(Some(tuple));
    }
    Ok(None)
}

// The tuple of the session's relations whose printed form the text is.
fn read_printed(alloc: Global, session: &Session, text: &[u8]) -> Result<Option<Tuple>, Memory>
    requires { IsSession (session_of session.now) }
    ensures some { IfOk result (λ found.
        IfSome found (λ t.
        (text.now ≡ tuple_text session.now.schema false (fact_of t))
        × IsTuple session.now.schema (fact_of t))) }
    ensures none { IfOk result (λ found.
        IfNone found
        ((t : Fact) → IsTuple session.now.schema t
        → text.now ≡ tuple_text session.now.schema false t → ⊥)) }
{
    tuples_are_read_again();
    lines_say_tuples();
    match read_tuple(alloc, &session.schema, text)? {
        TupleText::Malformed => Ok(None),
        TupleText::Unknown => Ok(None),
        TupleText::Tuple(tuple) => if_printed(alloc, session, text, tuple),
    }
}

// The write of the tuple by its sign; None if the byte is no sign.
fn signed(sign: u8, tuple: Tuple) -> Option<Write>
    ensures text { IfSome result (λ w.
        (relations : List RelationSchema)
        → sign ∷ tuple_text relations false (fact_of tuple) ≡ write_text relations (change_of w)) }
    ensures of_tuple { IfSome result (λ w.
        (relations : List RelationSchema) → IsTuple relations (fact_of tuple)
        → IsWrite relations (change_of w)) }
    ensures none { IfNone result
        ((relations : List RelationSchema) (text : List ℕ) (w : Change)
        → sign ∷ text ≡ write_text relations w → ⊥) }
{
    match sign {
        b'+' => Some(Write::Insert(tuple)),
        b'-' => Some(Write::Delete(tuple)),
        _ => None,
    }
}

// The write of the session's relations whose text the line is.
fn read_write(alloc: Global, session: &Session, line: &[u8]) -> Result<Option<Write>, Memory>
    requires { IsSession (session_of session.now) }
    ensures some { IfOk result (λ found.
        IfSome found (λ w.
        (line.now ≡ write_text session.now.schema (change_of w))
        × IsWrite session.now.schema (change_of w))) }
    ensures none { IfOk result (λ found.
        IfNone found
        ((w : Change) → IsWrite session.now.schema w → line.now ≡ write_text session.now.schema w
        → ⊥)) }
{
    let [sign, text @ ..] = line else {
        return Ok(None);
    };
    match read_printed(alloc, session, text)? {
        Some(tuple) => Ok(signed(*sign, tuple)),
        None => Ok(None),
    }
}

// The writes of the session's relations whose lines the text is.
fn read_writes(alloc: Global, session: &Session, text: &[u8]) -> Result<Option<WriteList>, Memory>
    requires { IsSession (session_of session.now) }
    ensures some { IfOk result (λ found.
        IfSome found (λ ws.
        (text.now ≡ write_lines session.now.schema (map change_of ws.items))
        × AllByRecursion (IsWrite session.now.schema) (map change_of ws.items))) }
    ensures none { IfOk result (λ found.
        IfNone found
        ((ws : List Change) → AllByRecursion (IsWrite session.now.schema) ws
        → text.now ≡ write_lines session.now.schema ws → ⊥)) }
{
    tuples_are_read_again();
    let mut writes = WriteList::new(alloc);
    let mut rest = text;
    'lines: while !rest.is_empty() {
        let Some((line, more)) = first_line(rest) else {
            return Ok(None);
        };
        let Some(write) = read_write(alloc, session, line)? else {
            return Ok(None);
        };
        writes.push(write)?;
        rest = more;
    }
    Ok(Some(writes))
}

// The writes of the commit of this number whose text the payload is.
fn read_commit(
    alloc: Global,
    session: &Session,
    number: u32,
    payload: &[u8],
) -> Result<Option<WriteList>, Memory>
    requires { IsSession (session_of session.now) }
    ensures some { IfOk result (λ found.
        IfSome found (λ ws.
        (payload.now ≡ commit_text session.now.schema number (map change_of ws.items))
        × AllByRecursion (IsWrite session.now.schema) (map change_of ws.items))) }
    ensures none { IfOk result (λ found.
        IfNone found
        ((ws : List Change) → AllByRecursion (IsWrite session.now.schema) ws
        → payload.now ≡ commit_text session.now.schema number ws → ⊥)) }
{
    let head = commit_line(alloc, number)?;
    match after(&head, payload) {
        Some(text) => read_writes(alloc, session, text),
        None => Ok(None),
    }
}

// Makes the writes in order.
fn make(facts: &mut PlainFacts, writes: WriteList) -> Result<(), Memory>
    ensures made { OnOk result (facts.new ≡ apply facts.old (map change_of writes.items)) }
{
    for write in writes.into_vec() {
        make_one(facts, write)?;
    }
    Ok(())
}

fn make_one(facts: &mut PlainFacts, write: Write) -> Result<(), Memory>
    ensures made { OnOk result (facts.new ≡ change facts.old (change_of write)) }
{
    match write {
        Write::Insert(tuple) => {
            facts.insert(tuple)?;
        }
        Write::Delete(tuple) => {
            facts.remove(&tuple);
        }
    }
    Ok(())
}

// Takes the commit of this number from the front of the bytes, makes its writes, and returns the bytes after it. None if the
// bytes do not begin with it.
fn take_commit<'a>(
    alloc: Global,
    session: &Session,
    facts: &mut PlainFacts,
    number: u32,
    bytes: &'a [u8],
) -> Result<Option<&'a [u8]>, Memory>
    requires { IsSession (session_of session.now) }
    ensures some { IfOk result (λ found.
        IfSome found (λ rest.
        TakesCommit session.now.schema number bytes.now rest.now facts.old facts.new)) }
    ensures none { IfOk result (λ found.
        IfNone found (HasNoCommit session.now.schema number bytes.now)) }
{
    let Some((payload, rest)) = split_frame(bytes) else {
        return Ok(None);
    };
    let Some(writes) = read_commit(alloc, session, number, payload)? else {
        return Ok(None);
    };
    make(facts, writes)?;
    Ok(Some(rest))
}

// Whether the payload is the printed form of the session, and the session has no updates.
fn is_opening(alloc: Global, session: &Session, payload: &[u8]) -> Result<bool, Memory>
    ensures yes { IfOk result (λ yes. yes ≡ true →
        ((session_of session.now).updates ≡ [])
        × (payload.now ≡ printed (session_of session.now))) }
    ensures no { IfOk result (λ yes. yes ≡ false → (session_of session.now).updates ≡ [] →
        payload.now ≡ printed (session_of session.now) → ⊥) }
{
    if session.updates.len() != 0 {
        return Ok(false);
    }
    let form = print_session(alloc, session)?;
    if form.as_slice() == payload {
        return Ok(true);
    }
    Ok(false)
}

// The session, if the payload is its printed form and it has no updates.
fn if_opening(alloc: Global, session: Session, payload: &[u8]) -> Result<Option<Session>, Memory>
    ensures some { IfOk result (λ found.
        IfSome found (λ s.
        (session_of s ≡ session_of session) × ((session_of session).updates ≡ [])
        × (payload.now ≡ printed (session_of session)))) }
    ensures none { IfOk result (λ found.
        IfNone found
        ((session_of session).updates ≡ [] → payload.now ≡ printed (session_of session) → ⊥)) }
{
    if is_opening(alloc, &session, payload)? {
        Ok(Some(session))
    } else {
        Ok(None)
    }
}

// Whether the payload begins with the first byte of a header.
fn begins_header(payload: &[u8]) -> bool
    ensures { result ≡ begins_header payload.now }
{
    match payload.first() {
        Some(byte) => *byte == b'y',
        None => false,
    }
}

// The session of a journal whose printed form the payload is.
fn read_opening(alloc: Global, payload: &[u8]) -> Result<Option<Session>, Memory>
    requires { length payload.now < 2 ^ 32 }
    ensures some { IfOk result (λ found.
        IfSome found (λ s. (payload.now ≡ printed (session_of s)) × IsOpening (session_of s))) }
    ensures none { IfOk result (λ found.
        IfNone found ((s : SessionData) → IsOpening s → payload.now ≡ printed s → ⊥)) }
{
    sessions_are_read_again();
    every_input_has_one_answer();
    if !begins_header(payload) {
        return Ok(None);
    }
    match read_session(alloc, payload) {
        Ok(session) => if_opening(alloc, session, payload),
        Err(ReadFailure::Fault(_)) => Ok(None),
        Err(ReadFailure::Memory) => Err(Memory),
    }
}

// The `Journal` whose commits the records are, up to the first gate that is not open. The commits are made in `facts`, which is
// the base before.
fn read_commits(
    alloc: Global,
    session: &Session,
    facts: &mut PlainFacts,
    bytes: &[u8],
    records: &[u8],
) -> Result<Journal, RecoverFault>
    requires begins { BeginsWith bytes.now (session_of session.now) [] records.now }
    requires base { facts.old ≡ (session_of session.now).base }
    ensures held { IfOk result (λ journal.
        IsHeld bytes.now (session_of session.now) journal facts.new) }
    ensures fault { IfErr result (λ fault. FaultTold bytes.now fault) }
{
    let mut commits = 0u32;
    let mut rest = records;
    'records: loop {
        let gate = bytes.len() - rest.len();
        let [byte, tail @ ..] = rest else {
            return Err(RecoverFault::Damaged(gate as u64));
        };
        if *byte != 1 {
            return Ok(Journal { gate, commits });
        }
        let Some(number) = commits.checked_add(1) else {
            return Err(RecoverFault::Damaged(gate as u64));
        };
        let Some(more) = take_commit(alloc, session, facts, number, tail)? else {
            return Err(RecoverFault::Damaged(gate as u64));
        };
        commits = number;
        rest = more;
    }
}

// The `Journal`, and the repository that its commits make of the session's base.
fn read_records(
    alloc: Global,
    session: &Session,
    bytes: &[u8],
    records: &[u8],
) -> Result<(Journal, TupleList), RecoverFault>
    requires begins { BeginsWith bytes.now (session_of session.now) [] records.now }
    ensures held { IfOk result (λ found. IsHeld bytes.now (session_of session.now) found.0
        (map fact_of found.1.items)) }
    ensures fault { IfErr result (λ fault. FaultTold bytes.now fault) }
{
    let mut facts = PlainFacts::of_list(alloc, &session.base)?;
    let journal = read_commits(alloc, session, &mut facts, bytes, records)?;
    Ok((journal, facts.into_list(alloc)?))
}

// What the session and the records after it stand for.
fn recovered(
    alloc: Global,
    session: Session,
    bytes: &[u8],
    records: &[u8],
) -> Result<Recovered, RecoverFault>
    requires begins { BeginsWith bytes.now (session_of session) [] records.now }
    ensures told { ReadTold bytes.now result }
{
    let (journal, repository) = read_records(alloc, &session, bytes, records)?;
    Ok(Recovered {
        session,
        commits: journal.commits,
        repository,
        journal,
    })
}

/// What the bytes of a journal stand for, or where they are damaged.
pub(crate) fn read_journal(alloc: Global, bytes: &[u8]) -> Result<Recovered, RecoverFault>
    ensures told { ReadTold bytes.now result }
{
    let Some((payload, records)) = split_frame(bytes) else {
        return Err(RecoverFault::Damaged(0));
    };
    let Some(session) = read_opening(alloc, payload)? else {
        return Err(RecoverFault::Damaged(0));
    };
    recovered(alloc, session, bytes, records)
}
