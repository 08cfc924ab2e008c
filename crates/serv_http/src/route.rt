//! The routes, and how long a head says that its body is.

/// A route: what a path that it matches asks for.
#[derive(Clone, Copy, Debug, PartialEq, Eq)]
pub enum Route {
    /// A command, in the body.
    Commands,
    /// A loan's books at the business day.
    Books,
    /// A loan's books at a day.
    BooksAt,
    /// What pays a loan off on a day.
    Payoff,
    /// What an escrow analysis would find.
    Escrow,
    /// The report of a closed month.
    Report,
    /// The balances of that report.
    Trial,
    /// The custodial accounts.
    Custodial,
    /// The custodial rows of a command.
    Rows,
    /// A loan's terms, escrow lines and changes of remittance type.
    Loan,
    /// What each event did to a loan's books.
    History,
    /// What pays a loan off on a day, also one to come.
    Quote,
    /// What brings a loan current.
    Arrears,
    /// All loans by how late they are.
    Aging,
    /// Where the days, the months and the counts stand.
    Status,
    /// An accepted command and its reply, by its number.
    Command,
    /// An accepted command and its reply, by its key.
    Key,
}

/// What the `Content-Length` lines of a head say.
#[derive(Clone, Copy, Debug, PartialEq, Eq)]
pub enum ContentLength {
    /// There is none.
    Missing,
    /// One, of so many bytes.
    Given(usize),
    /// Two or more, or one that is not 1 to 9 digits.
    Bad,
}
