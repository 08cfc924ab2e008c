//! The forms of requests: each one's word and its fields, in the order in which a line has them.
//! Request lines, JSON bodies and CSV rows share this table.
#![tactic(auto)]

mod building;
mod field;
mod form;
mod places;
mod spelling;
mod value;
mod values;

pub use building::{command_of, query_of};
pub use field::{Field, FieldKind};
pub use form::{Form, MAX_FIELDS, Question, form_named, question_named};
pub use spelling::{values_of, values_of_query};
pub use value::{Value, read_value};
pub use values::Values;
