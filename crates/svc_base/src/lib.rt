//! Money, rates and the calendar of the books: cents, thousandths of a percent, civil days and
//! months, and their texts.
#![tactic(auto)]

mod civil;
mod day;
mod day_fault;
mod money;
mod month;
mod out_of_memory;
mod reading;
mod room;
mod steps;
mod writing;

pub use civil::{add_days, add_months, days360, first_day, last_day, month_of};
pub use day::Day;
pub use day_fault::DayFault;
pub use money::{Cents, Rate, day_interest, month_interest, share_bp};
pub use month::Month;
pub use out_of_memory::OutOfMemory;
pub use reading::{read_amount, read_cents, read_civil_month, read_day, read_month, read_number};
pub use room::make_room;
pub use steps::Steps;
pub use writing::{push_signed, write_day, write_month};
