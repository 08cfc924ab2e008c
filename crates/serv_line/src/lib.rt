//! Request lines both ways, and the texts of the replies to them.
#![tactic(auto)]

mod fields;
mod pushing;
mod quick;
mod reading;
mod refusals;
mod replies;
mod values;
mod words;
mod writing;

pub use pushing::{
    push_amount, push_amount_field, push_balance, push_bytes, push_number, push_number_field,
    push_signed_field, push_wide, undone,
};
pub use reading::{LONGEST_LINE, LineFault, read_line};
pub use refusals::{push_refusal, refusal_code, write_refusal};
pub use replies::{
    push_bad, push_found, push_full, push_parts, push_reply, write_bad, write_full, write_reply,
};
pub use values::{push_value, push_values};
pub use words::next_word;
pub use writing::{push_line, write_line};
