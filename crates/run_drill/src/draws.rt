//! Draws.
ghost use Rattle.std.specs.Prelude.{◌≡◌, ◌<◌};
ghost use Rattle.run_drill.specs.Draws.{drawn as drawn_def, next as next_def};

const MULTIPLIER: u128 = 6364136223846793005;

const INCREMENT: u128 = 1442695040888963407;

// The state after one draw.
fn next(state: u64) -> u64
    ensures next { result ≡ next_def state }
{
    let moved = u128::from(state) * MULTIPLIER + INCREMENT;
    (moved % 18_446_744_073_709_551_616) as u64
}

/// Draws a number below `most`, and moves the state on.
pub fn draw(state: &mut u64, most: u32) -> u32
    requires some { 0 < most }
    ensures number { result ≡ drawn_def most (next_def state.old) }
    ensures state { state.new ≡ next_def state.old }
{
    *state = next(*state);
    let upper = *state / 8_589_934_592;
    (upper % u64::from(most)) as u32
}
