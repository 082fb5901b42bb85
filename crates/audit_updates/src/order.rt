//! Which of the updates come first.
ghost use Rattle.std.specs.Prelude.{◌≡◌, is_none as is_none_def};
ghost use Rattle.audit_updates.specs.Settings.{settings_of};
ghost use Rattle.audit_updates.specs.Updates.{AreFrom};
ghost use Rattle.audit_updates.specs.Order.{HasCommitted, IsFirstReady, IsFirstDeliverable, IsQuiet};

use crate::settings::Settings;
use crate::updates::AuditedUpdate;

/// The number of committed updates: the length of the longest prefix of updates that are over.
pub fn committed(updates: &[AuditedUpdate]) -> u32
    requires from { AreFrom 1 updates.now }
    ensures committed { HasCommitted updates.now result }
{
    let mut count = 0;
    for audited in updates {
        if !audited.is_over() {
            return count;
        }
        count = audited.number();
    }
    count
}

/// Whether nothing is ready, and nothing is deliverable.
pub fn is_quiet(updates: &[AuditedUpdate], settings: Settings) -> bool
    requires from { AreFrom 1 updates.now }
    ensures quiet { IsQuiet (settings_of settings) updates.now result }
{
    let committed = committed(updates);
    let none_ready = is_none(first_ready(updates, settings, committed));
    let none_deliverable = is_none(first_deliverable(updates, settings, committed));
    none_ready && none_deliverable
}

// The least number of a ready update, given the number of committed updates.
fn first_ready(updates: &[AuditedUpdate], settings: Settings, committed: u32) -> Option<u32>
    requires from { AreFrom 1 updates.now }
    ensures first { IsFirstReady (settings_of settings) committed 1 updates.now result }
{
    for audited in updates {
        let number = audited.number();
        if audited.is_ready(settings, committed, number) {
            return Some(number);
        }
    }
    None
}

// The least number of a deliverable update, given the number of committed updates.
fn first_deliverable(updates: &[AuditedUpdate], settings: Settings, committed: u32) -> Option<u32>
    requires from { AreFrom 1 updates.now }
    ensures first { IsFirstDeliverable (settings_of settings) committed 1 updates.now result }
{
    for audited in updates {
        let number = audited.number();
        if audited.is_deliverable(settings, committed, number) {
            return Some(number);
        }
    }
    None
}

// Whether no update was found.
fn is_none(number: Option<u32>) -> bool
    ensures none { result ≡ is_none_def number }
{
    number.is_none()
}
