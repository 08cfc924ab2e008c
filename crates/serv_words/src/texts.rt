//! Texts that are written over a journal, as words ask for them.

ghost use Rattle.std.specs.Prelude.{◌≡◌};
ghost use Rattle.serv_words.specs.Asked as asked;

use crate::extracts::Extract;
use svc_types::Query;

/// A text that is written over a journal.
#[derive(Clone, Copy, Debug, PartialEq, Eq)]
pub enum Text {
    /// The answer to a query: a month's report, its balances, or the line of the custodial accounts.
    Show(Query),
    /// The reply to a query, as its line has it.
    Ask(Query),
    /// A text that is made of the journal's commands, and of the input where it is about it.
    Make(Extract),
}

impl Text {
    /// Whether the input is read for it.
    pub fn reads_input(&self) -> bool
        ensures { result ≡ asked.reads_input self.now }
    {
        match self {
            Text::Show(_) | Text::Ask(_) => false,
            Text::Make(extract) => extract.is_about_input(),
        }
    }
}
