//! The summary, line by line.
ghost use Rattle.std.specs.Prelude.{◌≡◌, IfOk};
ghost use Rattle.chase_update.specs.Results.{result_of};
ghost use Rattle.run_drill.specs.SummaryMeanings.{totals_of};
ghost use Rattle.run_drill.specs.Summaries.{committed_line, drill_line, ends_line, repository_line, summary_text, sums_line};

use crate::totals::{Totals, totals_by};
use chase_update::SessionResult;
use def_memory::Memory;
use std::alloc::Global;

fn drill_line(alloc: Global, count: u32, seed: u64) -> Result<Vec<u8>, Memory>
    ensures { IfOk result (λ line. line.items ≡ drill_line count seed) }
{
    let line = format!(in alloc; "drill count {count} seed {seed}\n")?;
    Ok(line.into_bytes())
}

fn committed_line(alloc: Global, ended: usize, count: u32) -> Result<Vec<u8>, Memory>
    ensures { IfOk result (λ line. line.items ≡ committed_line ended count) }
{
    let line = format!(in alloc; "committed {ended} of {count}\n")?;
    Ok(line.into_bytes())
}

fn ends_line(alloc: Global, totals: Totals) -> Result<Vec<u8>, Memory>
    ensures { IfOk result (λ line. line.items ≡ ends_line (totals_of totals)) }
{
    let Totals {
        done,
        spent,
        refused,
        ..
    } = totals;
    let line = format!(in alloc; "done {done} spent {spent} refused {refused}\n")?;
    Ok(line.into_bytes())
}

fn sums_line(alloc: Global, totals: Totals) -> Result<Vec<u8>, Memory>
    ensures { IfOk result (λ line. line.items ≡ sums_line (totals_of totals)) }
{
    let Totals { steps, nulls, .. } = totals;
    let line = format!(in alloc; "steps {steps} nulls {nulls}\n")?;
    Ok(line.into_bytes())
}

fn repository_line(alloc: Global, tuples: usize) -> Result<Vec<u8>, Memory>
    ensures { IfOk result (λ line. line.items ≡ repository_line tuples) }
{
    let line = format!(in alloc; "repository {tuples}\n")?;
    Ok(line.into_bytes())
}

/// The summary of a drill of `count` updates by this seed, whose run had this result: how many updates came to their ends, and
/// how; the steps that they made, the nulls that they drew, and the tuples that they left.
pub fn summary_text(
    alloc: Global,
    count: u32,
    seed: u64,
    told: &SessionResult,
) -> Result<Vec<u8>, Memory>
    ensures text { IfOk result (λ text. text.items ≡ summary_text count seed (result_of told.now)) }
{
    let totals = totals_by(told.finishes.as_slice());
    let mut text = drill_line(alloc, count, seed)?;
    text.extend_from_slice(&committed_line(alloc, told.finishes.len(), count)?)?;
    text.extend_from_slice(&ends_line(alloc, totals)?)?;
    text.extend_from_slice(&sums_line(alloc, totals)?)?;
    text.extend_from_slice(&repository_line(alloc, told.repository.len())?)?;
    Ok(text)
}
