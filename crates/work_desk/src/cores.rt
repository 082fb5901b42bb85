//! What a desk asks of the core inside its lock.

use def_memory::Memory;
use std::alloc::Global;

/// A core as a desk uses it: updates that make steps in any order, with the history of all events.
///
/// Members that exist in contracts alone give its meaning: what its history is over, and the entries of that history. A snapshot
/// stands for an update at the state that some entries leave; a plan is the update's step at that state.
pub trait Core {
    ghost use Rattle.std.specs.Prelude.{◌≡◌, ◌<◌, ◌≤◌, ◌^◌, ℕ, List, Option, Some, length, IfOk, IfErr, IfSome, IfNone};
    ghost use Rattle.def_history.specs.Cores.{Ground, IsLegalOver};
    ghost use Rattle.def_history.specs.PlainEntries.{PlainEntry};
    ghost use Rattle.work_desk.specs.Cores.{lowest_idle, lowest_waiting, IsReady, IsPlanOf, HasDelivered, HasStep, HasStayed};

    /// What is needed to plan an update's next step, whatever is done meanwhile.
    type Snapshot;

    /// The next step of an update.
    type Plan;

    /// What the core's history is over.
    ghost over: { Self → Ground };

    /// The entries of the core's history.
    ghost history: { Self → List PlainEntry };

    /// The snapshot stands for the update at the state that these entries leave.
    ghost is_snapshot: { Self.Snapshot → Ground → List PlainEntry → ℕ → Type 0 };

    /// The plan is the step of the update at the state that these entries leave.
    ghost is_plan: { Self.Plan → Ground → List PlainEntry → ℕ → Type 0 };

    /// Drops a snapshot.
    fn drop_snapshot(snapshot: Self::Snapshot);

    /// Drops a plan.
    fn drop_plan(plan: Self::Plan);

    /// The number of the first entry, after a given number of entries, by which the plan is stale.
    ghost stale_since: { Self.Plan → Ground → List PlainEntry → ℕ → Option ℕ };

    /// The number of entries of the history, which is legal.
    fn length(&self) -> u64
        ensures length { result ≡ length (history self.now) }
        ensures few { length (history self.now) < 2 ^ 63 }
        ensures budget { 1 ≤ (over self.now).budget }
        ensures legal { IsLegalOver (over self.now) (history self.now) };

    /// The lowest ready update that is not among those in flight.
    fn lowest_idle(&self, busy: &[u32]) -> Option<u32>
        ensures { result ≡ lowest_idle (over self.now) (history self.now) busy.now };

    /// The lowest update that an answer can be delivered to.
    fn lowest_waiting(&self) -> Option<u32>
        ensures { result ≡ lowest_waiting (over self.now) (history self.now) };

    /// The lowest update that an answer can be delivered to, if that delivery must come before any step.
    fn first_waiting(&self) -> Option<u32>
        ensures lowest { IfSome result (λ u.
            lowest_waiting (over self.now) (history self.now) ≡ Some u) };

    /// Delivers the first of the answers that wait for the update. After an error the history is unchanged.
    fn deliver(&mut self, alloc: Global, update: u32) -> Result<(), Memory>
        requires waiting { lowest_waiting (over self.old) (history self.old) ≡ Some update }
        ensures over { over self.new ≡ over self.old }
        ensures made { IfOk result (λ _. HasDelivered over history self.old self.new update) }
        ensures kept { IfErr result (λ _. history self.new ≡ history self.old) };

    /// What is needed to plan the update's next step.
    fn snapshot(&self, alloc: Global, update: u32) -> Result<Self::Snapshot, Memory>
        requires ready { IsReady (over self.now) (history self.now) update }
        ensures is { IfOk result (λ s. is_snapshot s (over self.now) (history self.now) update) };

    /// The step that the snapshot determines. It needs no core.
    fn plan(alloc: Global, snapshot: &Self::Snapshot) -> Result<Self::Plan, Memory>
        ensures plan { IfOk result (IsPlanOf is_snapshot is_plan snapshot.now) };

    /// The update's next step, without a snapshot. The core may keep what it learned while planning, which does not change its
    /// history.
    fn next_plan(&mut self, alloc: Global, update: u32) -> Result<Self::Plan, Memory>
        requires ready { IsReady (over self.old) (history self.old) update }
        ensures over { over self.new ≡ over self.old }
        ensures history { history self.new ≡ history self.old }
        ensures plan { IfOk result (λ p. is_plan p (over self.old) (history self.old) update) };

    /// The number of the first entry after the first `since` by which the plan is stale. If there is none, a plan made at the
    /// state after those first entries is still the update's step.
    fn stale_by(&self, plan: &Self::Plan, since: u64) -> Option<u64>
        ensures entry { result ≡ stale_since plan.now (over self.now) (history self.now) since }
        ensures stays { IfNone result (HasStayed over history self.now (is_plan plan.now) since) };

    /// Makes the step of the plan. After an error the history is unchanged.
    fn install(&mut self, alloc: Global, plan: Self::Plan) -> Result<(), Memory>
        requires plan { (u : ℕ) × is_plan plan (over self.old) (history self.old) u }
        ensures over { over self.new ≡ over self.old }
        ensures made { IfOk result (λ _. HasStep over history self.old self.new (is_plan plan)) }
        ensures kept { IfErr result (λ _. history self.new ≡ history self.old) };
}
