//! HTTP requests of a connection, whatever the pieces in which their bytes come, and responses.
#![tactic(auto)]

mod ask;
mod conn;
mod ending;
mod feeding;
mod fields;
mod found;
mod head_step;
mod judging;
mod laws;
mod lines;
mod plan;
mod queries;
mod response;
mod room;
mod route;
mod router;
mod serving;
mod stage;
mod steps;
mod target;
mod window;

pub use ask::{Allow, Ask, Body, Due, Plan};
pub use conn::Conn;
pub use laws::{any_cutting, first_of, one_list, query_paths, route_paths, within_limits};
pub use plan::BODY_LIMIT;
pub use response::respond;
pub use route::{ContentLength, Route};
pub use stage::Stage;
pub use window::{HEAD_LIMIT, LINE_LIMIT};
