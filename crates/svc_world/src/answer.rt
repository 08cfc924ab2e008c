//! What is answered to a query.

use crate::custody::Custody;
use crate::desk::{AgingCounts, BooksStatus, LateLoan};
use crate::list_of::ListOf;
use crate::row_list::RowList;
use escrow_analysis::Analysis;
use escrow_lines::Line;
use period_adjust::Report;
use svc_base::{Cents, Day, Month};
use svc_types::{Arrears, Books, Command, Figures, HistoryLine, Key, Reply, Terms, TypeChange};

/// The answer to a query. Amounts are cents.
#[derive(Drop)]
pub enum Answer {
    /// A loan's books, the month of the open installment, where one is open, and the whole of it.
    Books {
        loan: u32,
        books: Books,
        next: Option<Month>,
        pay: Cents,
    },
    /// What pays a loan off on a day.
    Payoff {
        loan: u32,
        day: Day,
        cents: Cents,
    },
    /// What an escrow analysis on the business day would find.
    Escrow {
        loan: u32,
        figures: Figures,
        analysis: Analysis,
    },
    /// The report of a closed month.
    Report(Report),
    /// The report of a closed month, for its balances.
    Trial(Report),
    /// What both custodial accounts hold.
    Custodial(Custody),
    /// The custodial rows of a command.
    Rows {
        number: u32,
        rows: RowList,
    },
    /// A loan's terms, its escrow lines as they stand, and its changes of type as they were accepted.
    Loan {
        loan: u32,
        terms: Terms,
        lines: ListOf<Line>,
        types: ListOf<TypeChange>,
    },
    /// What each event up to the day did to a loan's books; and the entries that were reversed, each with the command
    /// that reversed it.
    History {
        loan: u32,
        day: Day,
        lines: ListOf<HistoryLine>,
        reversed: ListOf<(u32, u32)>,
    },
    /// What pays a loan off on a day, and the interest of a day.
    Quote {
        loan: u32,
        day: Day,
        cents: Cents,
        perday: Cents,
    },
    /// What brings a loan current on the day.
    Arrears {
        loan: u32,
        day: Day,
        arrears: Arrears,
    },
    /// The late loans on the day by rising number, and how many loans are how late.
    Aging {
        day: Day,
        late: ListOf<LateLoan>,
        counts: AgingCounts,
    },
    /// Where the books stand.
    Status(BooksStatus),
    /// An accepted command, and the reply that was given to it.
    Command {
        key: Key,
        command: Command,
        reply: Reply,
    },
}
