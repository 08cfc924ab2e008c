//! Books in memory, with counts of what they answered.

ghost use Rattle.std.specs.Prelude.{◌*◌, ◌^◌, ◌≤◌, ◌≤ℤ◌, pos, neg_ℤ};

use svc_checkpoint::Checked;
use svc_core::Core;

/// How many commands may be made: as many as books accept.
pub(crate) const MOST_COMMANDS: u32 = 1_000_000;

/// Books in memory, and what came of the commands that were submitted to them.
#[derive(Drop)]
pub(crate) struct Desk {
    pub(crate) core: Core<Checked>,
    /// How many commands were made.
    pub(crate) made: u32,
    /// How many kept replies were given.
    pub(crate) repeats: u32,
    /// The sum of the nets in the first replies, in cents.
    pub(crate) remitted: i128,
    ghost repeats_few: { repeats ≤ 2 * made },
    ghost remitted_high: { remitted ≤ℤ pos (2 ^ 63 * made) },
    ghost remitted_low: { neg_ℤ (pos (2 ^ 63 * made)) ≤ℤ remitted },
}
