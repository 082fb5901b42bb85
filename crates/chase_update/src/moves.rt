//! The effect of a step.
ghost use Rattle.std.specs.Prelude.{◌≡◌, ◌≤◌, None};
ghost use Rattle.chase_update.specs.PointMeanings.{row_at};

use crate::points::Point;
use base_types::WriteList;

/// The effect of a step: its writes, the point of the attempt after it, and the number of nulls that it draws.
#[derive(Debug, Drop)]
pub(crate) struct Move {
    pub(crate) writes: WriteList,
    pub(crate) point: Point,
    pub(crate) drawn: u32,
    ghost rests: { row_at point ≡ None },
    ghost few: { drawn ≤ 64 },
}
