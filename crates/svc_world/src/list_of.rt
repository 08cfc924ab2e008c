//! Things in order, as an answer holds them.

ghost use Rattle.std.specs.Prelude.{◌≡◌};

use std::marker::Model;

/// Things in order. It stands for their list.
#[derive(Debug, Drop)]
pub struct ListOf<T> {
    items: Vec<T>,
}

impl<T> Model for ListOf<T> {
    ghost use Rattle.std.specs.Prelude.{List};

    ghost Value = { List T };

    ghost view = { λ l. l.items.items };
}

impl<T> ListOf<T> {
    /// A list of these.
    pub fn from_vec(items: Vec<T>) -> ListOf<T>
        ensures { result ≡ items.items }
    {
        ListOf { items }
    }

    /// They, in their order.
    pub fn slice(&self) -> &[T]
        ensures { result.now ≡ self.now }
    {
        &self.items
    }
}
