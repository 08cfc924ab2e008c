//! What custody holds for each loan: its position in cents, all positions in the order of numbers, the rows
//! that a command makes of what changed, and the custodial line over all loans, which moves with them.
#![tactic(auto)]

mod booking;
mod cash;
mod custody_line;
mod position;
mod positions;

pub use booking::{Cash, add_all_rows, add_rows};
pub use position::{Position, no_position, position_of};
pub use positions::Positions;
