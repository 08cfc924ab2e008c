//! The rows of a command, as a list.

ghost use Rattle.std.specs.Prelude.{◌≡◌};

use custodial_book::Row;
use std::marker::Model;

/// Custodial rows in order.
#[derive(Debug, Drop)]
pub struct RowList {
    rows: Vec<Row>,
}

impl Model for RowList {
    ghost use Rattle.std.specs.Prelude.{List};
    ghost use Rattle.custodial_book.specs.declared.row.Row.{Row};

    ghost Value = { List Row };

    ghost view = { λ l. l.rows.items };
}

impl RowList {
    /// A list of these rows.
    pub fn from_vec(rows: Vec<Row>) -> RowList
        ensures { result ≡ rows.items }
    {
        RowList { rows }
    }

    /// The rows.
    pub fn slice(&self) -> &[Row]
        ensures { result.now ≡ self.now }
    {
        &self.rows
    }

    /// The rows, to be kept elsewhere.
    pub fn into_vec(self) -> Vec<Row>
        ensures { result.items ≡ self }
    {
        self.rows
    }
}
