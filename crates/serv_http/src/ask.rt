//! What a connection asks for, and what a head asks for before its body is there.

ghost use Rattle.std.specs.Prelude.{◌≡◌};

use std::marker::Model;
use svc_types::Query;

/// The method that a route has, for the `Allow` line of a 405.
#[derive(Clone, Copy, Debug, PartialEq, Eq)]
pub enum Allow {
    Get,
    Post,
}

/// The bytes of a body. Its value in contracts is their list.
#[derive(Debug, Drop)]
pub struct Body {
    bytes: Vec<u8>,
}

impl Model for Body {
    ghost use Rattle.std.specs.Prelude.{ℕ, List};

    ghost Value = { List ℕ };

    ghost view = { λ b. b.bytes.items };
}

impl Body {
    /// The body of these bytes.
    pub fn from_vec(bytes: Vec<u8>) -> Body
        ensures { result ≡ bytes.items }
    {
        Body { bytes }
    }

    /// Its bytes.
    pub fn bytes(&self) -> &[u8]
        ensures { result.now ≡ self.now }
    {
        self.bytes.as_slice()
    }
}

/// A request of a connection, or a fault in its bytes. The `bool` says that the connection ends
/// after the response.
#[derive(Debug, Drop)]
pub enum Ask {
    /// A command: the body, which is not read here.
    Post(Body, bool),
    /// A question.
    Get(Query, bool),
    /// A status of 400 or above, with the route's method where it is 405.
    Fault(u16, bool, Option<Allow>),
}

/// What is answered once a head's body has been passed over.
#[derive(Clone, Copy, Debug)]
pub enum Due {
    /// A question.
    Get(Query, bool),
    /// A status of 400 or above, with the route's method where it is 405.
    Fault(u16, bool, Option<Allow>),
}

/// What a head asks for.
#[derive(Clone, Copy, Debug)]
pub enum Plan {
    /// The answer is due at once.
    Now(Due),
    /// So many bytes are passed over, and then the answer is due.
    Pass(usize, Due),
    /// A command, whose body has so many bytes; whether the connection ends after it.
    Keep(usize, bool),
}
