//! Where connections come from.

ghost use Rattle.std.specs.Prelude.{◌≡◌, ℕ, List, Option, None, Some, IfOk, OnErr, MatchResult, MatchOption};
ghost use Rattle.serv_disk.specs.Faults.{HasCause};
ghost use Rattle.serv_disk.specs.Listening.{IsNext, IsBack};

use crate::failed::Failed;
use crate::link::Link;

/// Where connections come from, one at a time, and are handed back to.
pub trait Doors {
    /// A connection.
    type Conn: Link;

    /// The links that are to come, in order, where the object tells them.
    ghost coming: { Self → Option (List Self.Conn) };

    /// The links that were handed back, in order, each as it was left, where the object tells them.
    ghost backed: { Self → Option (List Self.Conn) };

    /// How many links are out: given and not handed back.
    ghost out: { Self → ℕ };

    /// How many of its calls have failed.
    ghost faults: { Self → ℕ };

    /// The next link. None says that no more will come.
    fn next(&mut self) -> Result<Option<Self::Conn>, Failed>
        requires { out self.old ≡ 0 }
        ensures given { IfOk result (λ link. IsNext (coming self.old) (coming self.new) link) }
        ensures kept { OnErr result (coming self.new ≡ coming self.old) }
        ensures backed { backed self.new ≡ backed self.old }
        ensures out { MatchResult result (λ link. MatchOption link (out self.new ≡ 0) (λ _. out self.new ≡ 1)) (λ _. out self.new ≡ 0) }
        ensures cause { HasCause (faults self.old) (faults self.new) result };

    /// Takes the link back that is out. It takes no memory, and cannot fail.
    fn back(&mut self, conn: Self::Conn)
        requires { out self.old ≡ 1 }
        ensures backed { IsBack (backed self.old) (backed self.new) conn }
        ensures coming { coming self.new ≡ coming self.old }
        ensures out { out self.new ≡ 0 }
        ensures faults { faults self.new ≡ faults self.old };
}
