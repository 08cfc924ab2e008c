//! The parts that custodial cash is made of.

ghost use Rattle.std.specs.Prelude.{◌≡◌};
ghost use Rattle.custodial_book.specs.Parts as parts;

/// A custodial account.
#[derive(Clone, Copy, Debug, PartialEq, Eq)]
pub enum Account {
    /// Taxes, insurance and unapplied funds.
    T,
    /// Principal and interest.
    P,
}

/// Who pays or is paid.
#[derive(Clone, Copy, Debug, PartialEq, Eq)]
pub enum Party {
    Borrower,
    /// Who bills the borrower's escrow account.
    Payee,
    Servicer,
    Investor,
    Custodial(Account),
}

/// A part of custodial cash. Each loan has a total of each part.
#[derive(Clone, Copy, Debug, PartialEq, Eq)]
pub enum Part {
    /// Payments, curtailments, payoffs and deposits, those that were reversed too.
    Received,
    /// Those of them that were reversed.
    Returned,
    /// Paid out to the borrower, by analyses too.
    Refunded,
    /// Bills paid from escrow.
    Disbursed,
    /// Interest and principal collected.
    Collected,
    /// Servicing fee collected.
    Fee,
    /// Late charges collected.
    Late,
    /// Principal and interest advanced.
    PiAdvance,
    /// Escrow advanced.
    EscrowAdvance,
    /// Remitted to the investor.
    Remitted,
    /// What a settled loan left.
    Residual,
}

impl Part {
    /// The parts in the order of a command's rows.
    pub const ALL: [Part; 11] = [
        Part::Received,
        Part::Returned,
        Part::Refunded,
        Part::Disbursed,
        Part::Collected,
        Part::Fee,
        Part::Late,
        Part::PiAdvance,
        Part::EscrowAdvance,
        Part::Remitted,
        Part::Residual,
    ];

    /// Who pays a row of this part; a negative row goes the other way.
    pub fn paid_from(self) -> Party
        ensures { result ≡ parts.paid_from self }
    {
        match self {
            Part::Received => Party::Borrower,
            Part::Returned => Party::Custodial(Account::T),
            Part::Refunded => Party::Custodial(Account::T),
            Part::Disbursed => Party::Custodial(Account::T),
            Part::Collected => Party::Custodial(Account::T),
            Part::Fee => Party::Custodial(Account::P),
            Part::Late => Party::Custodial(Account::T),
            Part::PiAdvance => Party::Servicer,
            Part::EscrowAdvance => Party::Servicer,
            Part::Remitted => Party::Custodial(Account::P),
            Part::Residual => Party::Custodial(Account::P),
        }
    }

    /// Who is paid by a row of this part; a negative row goes the other way.
    pub fn paid_to(self) -> Party
        ensures { result ≡ parts.paid_to self }
    {
        match self {
            Part::Received => Party::Custodial(Account::T),
            Part::Returned => Party::Borrower,
            Part::Refunded => Party::Borrower,
            Part::Disbursed => Party::Payee,
            Part::Collected => Party::Custodial(Account::P),
            Part::Fee => Party::Servicer,
            Part::Late => Party::Servicer,
            Part::PiAdvance => Party::Custodial(Account::P),
            Part::EscrowAdvance => Party::Custodial(Account::T),
            Part::Remitted => Party::Investor,
            Part::Residual => Party::Servicer,
        }
    }
}

impl Party {
    /// Whether this is that custodial account.
    pub fn is_account(self, account: Account) -> bool
        ensures { result ≡ parts.is_account account self }
    {
        match (account, self) {
            (Account::T, Party::Custodial(Account::T)) => true,
            (Account::P, Party::Custodial(Account::P)) => true,
            _ => false,
        }
    }
}
