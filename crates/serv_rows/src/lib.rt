//! CSV files with a header: their rows are read one by one, counted from 1 with the header, and a row that does
//! not fit is told by its number and its first column that does not.
#![tactic(auto)]

mod amount;
mod reading;
mod record;
mod row;
mod text;

pub use amount::read_signed;
pub use reading::read_rows;
pub use record::{field, four_fields};
pub use row::Row;
pub use text::push_bad_row;
