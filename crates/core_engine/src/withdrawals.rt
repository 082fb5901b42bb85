//! A withdrawal: what it leaves is prepared while nothing is changed, and then put in place, which cannot fail.
ghost use Rattle.std.specs.Prelude.{◌≡◌, ◌<◌, ◌≤◌, suc, true, drop, length, IfOk, OnOk, OnErr};
ghost use Rattle.core_queue.specs.Programs.{IsBetween};
ghost use Rattle.core_queue.specs.Queues.{AreFrom};
ghost use Rattle.core_queue.specs.Renewals.{AllHaveOneMore, AreFresh};
ghost use Rattle.core_queue.specs.Settings.{settings_of};
ghost use Rattle.core_engine.specs.Aftermaths.{AllBetween, ClearedIf};
ghost use Rattle.core_engine.specs.Withdrawals.{WereLost, IsLossPrepared, IsLossPreparedAt, IsRemoved, TellsWithdrawal, WithdrawsTo};

use crate::aftermaths::{Aftermath, settled};
use crate::stepping::{above, put_last};
use base_limits::Mappings;
use base_types::Memory;
use chase_update::Attempt;
use core_cascade::Cascade;
use core_conflict::Sense;
use core_entries::{Cause, CauseList, Entry, EntryList};
use core_queue::{QueuedUpdate, Settings, committed, restart_marked};
use set_versions::Versions;
use std::alloc::Global;

/// Withdraws the update at the place. On an error the history keeps its meaning, and the rest is unchanged.
pub(crate) fn withdraw_at(
    alloc: Global,
    mappings: &Mappings<'_>,
    settings: Settings,
    versions: &mut Versions,
    queue: &mut [QueuedUpdate],
    history: &mut EntryList,
    place: usize,
) -> Result<(), Memory>
    requires place { place < length queue.old }
    requires numbers { AreFrom 1 queue.old }
    requires more { AllHaveOneMore queue.old }
    ensures made { OnOk result (WithdrawsTo mappings.now (settings_of settings) place versions.old
        queue.old history.old.items versions.new queue.new history.new.items) }
    ensures versions { OnErr result (versions.new ≡ versions.old) }
    ensures queue { OnErr result (queue.new ≡ queue.old) }
    ensures history { OnErr result (history.new.items ≡ history.old.items) }
    ensures long { length queue.new ≡ length queue.old }
{
    history.reserve(1)?;
    make_withdrawal(alloc, mappings, settings, versions, queue, history, place)?;
    Ok(())
}

// Withdraws the update at the place. There is room for the entry. On an error nothing is changed.
fn make_withdrawal(
    alloc: Global,
    mappings: &Mappings<'_>,
    settings: Settings,
    versions: &mut Versions,
    queue: &mut [QueuedUpdate],
    history: &mut EntryList,
    place: usize,
) -> Result<(), Memory>
    requires place { place < length queue.old }
    requires numbers { AreFrom 1 queue.old }
    requires more { AllHaveOneMore queue.old }
    requires spare { 1 ≤ history.old.spare }
    ensures made { OnOk result (WithdrawsTo mappings.now (settings_of settings) place versions.old
        queue.old history.old.items versions.new queue.new history.new.items) }
    ensures versions { OnErr result (versions.new ≡ versions.old) }
    ensures queue { OnErr result (queue.new ≡ queue.old) }
    ensures history { OnErr result (history.new ≡ history.old) }
    ensures long { length queue.new ≡ length queue.old }
{
    let left = prepare_loss_at(alloc, mappings, settings, versions, queue, place)?;
    remove(queue, place, left.fresh);
    let entry = withdrawal_entry(queue, place, left.causes);
    put_last(history, entry);
    Ok(())
}

// What the withdrawal of the update at the place leaves. The versions are put in place with it. On an error the versions are
// unchanged.
fn prepare_loss_at(
    alloc: Global,
    mappings: &Mappings<'_>,
    settings: Settings,
    versions: &mut Versions,
    queue: &[QueuedUpdate],
    place: usize,
) -> Result<Aftermath, Memory>
    requires place { place < length queue.now }
    requires numbers { AreFrom 1 queue.now }
    requires more { AllHaveOneMore queue.now }
    ensures left { IfOk result (IsLossPreparedAt mappings.now (settings_of settings) place
        versions.old queue.now versions.new) }
    ensures fresh { IfOk result (λ left. AreFresh (drop (suc place) queue.now) left.fresh.items) }
    ensures err { OnErr result (versions.new ≡ versions.old) }
{
    let committed = committed(queue);
    let item = &queue[place];
    let upper = above(queue, place);
    prepare_loss(alloc, mappings, settings, committed, versions, item, upper)
}

// What the withdrawal of the queued update leaves. `upper` are the updates above it, and `committed` updates are committed. The
// versions after it are made aside, and put in place last. On an error the versions are unchanged.
fn prepare_loss(
    alloc: Global,
    mappings: &Mappings<'_>,
    settings: Settings,
    committed: u32,
    versions: &mut Versions,
    item: &QueuedUpdate,
    upper: &[QueuedUpdate],
) -> Result<Aftermath, Memory>
    requires between { IsBetween item.now.program }
    requires numbers { AreFrom (suc item.now.program.attempt.number) upper.now }
    requires more { AllHaveOneMore upper.now }
    ensures left { IfOk result (IsLossPrepared mappings.now (settings_of settings) committed
        versions.old item.now upper.now versions.new) }
    ensures fresh { IfOk result (λ left. AreFresh upper.now left.fresh.items) }
    ensures err { OnErr result (versions.new ≡ versions.old) }
{
    let found = found_lost(alloc, mappings, settings, committed, versions, item, upper)?;
    let mut after = without(alloc, versions, item)?;
    let left = settled(alloc, &mut after, upper, found)?;
    *versions = after;
    Ok(left)
}

// Why each of the updates above is restarted, if it is, when the update loses its trail.
fn found_lost<'a>(
    alloc: Global,
    mappings: &'a Mappings<'a>,
    settings: Settings,
    committed: u32,
    versions: &'a Versions,
    item: &QueuedUpdate,
    upper: &[QueuedUpdate],
) -> Result<Vec<Option<Cause>>, Memory>
    requires between { IsBetween item.now.program }
    requires numbers { AreFrom (suc item.now.program.attempt.number) upper.now }
    ensures found { IfOk result (λ found. WereLost mappings.now (settings_of settings) committed
        versions.now item.now upper.now found.items) }
    ensures long { IfOk result (λ found. length found.items ≤ length upper.now) }
{
    let walk = Cascade {
        mappings,
        deps: settings.deps,
        committed,
        update: item.number(),
        sense: Sense::Went,
        whole: versions,
    };
    walk.causes_of_loss(alloc, item.trail(), upper, upper.len())
}

// The versions without the trail of the update.
fn without(alloc: Global, versions: &Versions, item: &QueuedUpdate) -> Result<Versions, Memory>
    requires between { IsBetween item.now.program }
    ensures lost { IfOk result (ClearedIf true item.now versions.now) }
{
    let mut after = versions.share()?;
    after.retract(alloc, item.number(), item.trail())?;
    Ok(after)
}

// Withdraws the update at the place, and restarts the updates above for which there is an attempt.
fn remove(queue: &mut [QueuedUpdate], place: usize, fresh: Vec<Option<Attempt>>)
    requires place { place < length queue.old }
    requires numbers { AreFrom 1 queue.old }
    requires fresh { AreFresh (drop (suc place) queue.old) fresh.items }
    ensures removed { IsRemoved place fresh.items queue.old queue.new }
    ensures numbers { AreFrom 1 queue.new }
    ensures long { length queue.new ≡ length queue.old }
{
    queue[place].withdraw();
    restart_marked(queue, place + 1, fresh);
}

// The entry of the withdrawal of the update at the place.
fn withdrawal_entry(queue: &[QueuedUpdate], place: usize, causes: CauseList) -> Entry
    requires place { place < length queue.now }
    requires numbers { AreFrom 1 queue.now }
    ensures told { TellsWithdrawal place causes queue.now result }
{
    let committed = committed(queue);
    let queued = &queue[place];
    let update = queued.number();
    Entry::Withdrawn {
        update,
        causes,
        committed,
    }
}
