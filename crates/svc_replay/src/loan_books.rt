//! What keeps the books of one loan, however it is kept.

ghost use Rattle.std.specs.Prelude.{◌≡◌, ℕ, ◌+◌, ◌-◌, ◌≤◌, ◌<◌, ◌-ℤ◌, length};
ghost use Rattle.std.specs.Prelude.{None, IfSome, IsErrOf, IsOk, MatchOption, OnOk, OnErr, IfOk, IfErr};
ghost use Rattle.svc_base.specs.Calendar.{month_of};
ghost use Rattle.svc_spec.specs.Accounts.{Account, IsAccount, MayBegin, MayPost, begun, posted, reversed_in};
ghost use Rattle.svc_spec.specs.Accounts.{advanced_to, books_of, entry_of, reverser_of};
ghost use Rattle.svc_spec.specs.Books.{AreBooks, total};
ghost use Rattle.svc_spec.specs.Months.{month_facts, AreFacts};
ghost use Rattle.svc_spec.specs.Totals.{received, returned, refunded, disbursed};
ghost use Rattle.svc_replay.specs.Faults.{most_entries, IsPostFault, IsReverseFault};
ghost use Rattle.svc_replay.specs.Kept.{Room, IsLoweredBy, nothing, one_entry, one_reversal, some_months};

use crate::account::LoanAccount;
use crate::fault::BookFault;
use std::alloc::Global;
use std::sync::ledger::Ledger;
use svc_base::{Day, Month, OutOfMemory, Steps};
use svc_types::{Books, Entry, MonthFacts, Terms};

/// The books of one loan. A value stands for the loan's account: its terms, all its entries, their
/// reversals and the business day; and for the room that `reserve` has made. Every answer is that
/// of a refold of the live entries. A refusal changes nothing.
pub trait LoanBooks: Sized + Drop {
    // the account that a value stands for, and for how much more it has room
    ghost account: { Self → Account };

    ghost room: { Self → Room };

    // each implementation's bound on the steps of a call about a month, and of `month`
    ghost cost: { Account → ℕ → ℕ };

    ghost month_cost: { Account → ℕ → ℕ };

    /// The books of a loan at boarding, and the marks up to the business day.
    fn begin<L: Ledger>(
        alloc: Global,
        terms: Terms,
        today: Day,
        steps: &mut Steps<L>,
    ) -> Result<Self, OutOfMemory>
        requires { MayBegin terms today }
        ensures ok { IfOk result (λ books. account books ≡ begun terms today) }
        ensures steps { steps.new ≤ steps.old + cost (begun terms today) (month_of terms.boarded) };

    /// Makes room for one more entry, one more reversal and the months up to a day. Memory is wanted only where the room
    /// is not there.
    fn reserve(&mut self, today: Day) -> Result<(), OutOfMemory>
        ensures kept { account self.new ≡ account self.old }
        ensures entry { OnOk result (1 ≤ (room self.new).entries) }
        ensures reversal { OnOk result (1 ≤ (room self.new).reversals) }
        ensures months { OnOk result
            (month_of today ≤ month_of (account self.new).today + (room self.new).months) }
        ensures room { IsLoweredBy nothing (room self.old) (room self.new) }
        ensures succeeds { 1 ≤ (room self.old).entries → 1 ≤ (room self.old).reversals
            → month_of today ≤ month_of (account self.old).today + (room self.old).months → IsOk result };

    /// Adds an entry, whose number is above all so far. It is Full at 4,096 entries, reversed ones
    /// counted; memory is wanted only where no room for an entry is left.
    fn post<L: Ledger>(&mut self, entry: Entry, steps: &mut Steps<L>) -> Result<(), BookFault>
        requires { MayPost (account self.old) entry }
        ensures ok { OnOk result (account self.new ≡ posted entry (account self.old)) }
        ensures kept { OnErr result (account self.new ≡ account self.old) }
        ensures full { most_entries ≤ length (account self.old).entries
            → IsErrOf result BookFault.Full }
        ensures fault { IfErr result (IsPostFault (account self.old) (room self.old).entries) }
        ensures room { IsLoweredBy one_entry (room self.old) (room self.new) }
        ensures kept_room { OnErr result (IsLoweredBy nothing (room self.old) (room self.new)) }
        ensures steps { steps.new ≤ steps.old + cost (account self.new) (month_of entry.day) };

    /// Reverses an entry, which is as if it had never been. An unknown number is NoSuchEntry, an
    /// entry that was reversed AlreadyReversed; memory is wanted only where no room for a reversal
    /// is left.
    fn reverse<L: Ledger>(
        &mut self,
        number: u32,
        by: u32,
        steps: &mut Steps<L>,
    ) -> Result<(), BookFault>
        ensures ok { OnOk result (account self.new ≡ reversed_in number by (account self.old)) }
        ensures kept { OnErr result (account self.new ≡ account self.old) }
        ensures unknown { entry_of (account self.old) number ≡ None
            → IsErrOf result BookFault.NoSuchEntry }
        ensures again { IfSome (entry_of (account self.old) number)
            (λ entry. IfSome (reverser_of (account self.old) number)
            (λ earlier. IsErrOf result (BookFault.AlreadyReversed earlier))) }
        ensures fault { IfErr result (IsReverseFault (account self.old) number (room self.old).reversals) }
        ensures room { IsLoweredBy one_reversal (room self.old) (room self.new) }
        ensures kept_room { OnErr result (IsLoweredBy nothing (room self.old) (room self.new)) }
        ensures steps { MatchOption (entry_of (account self.old) number) (steps.new ≡ steps.old)
            (λ entry. steps.new ≤ steps.old + cost (account self.new) (month_of entry.day)) };

    /// Moves the business day on; memory is wanted only where no room for its month is left.
    fn advance<L: Ledger>(&mut self, today: Day, steps: &mut Steps<L>) -> Result<(), OutOfMemory>
        requires { (account self.old).today ≤ today }
        ensures ok { OnOk result (account self.new ≡ advanced_to today (account self.old)) }
        ensures kept { OnErr result (account self.new ≡ account self.old) }
        ensures memory { OnErr result
            (month_of (account self.old).today + (room self.old).months < month_of today) }
        ensures room { IsLoweredBy (some_months (month_of today - month_of (account self.old).today))
            (room self.old) (room self.new) }
        ensures kept_room { OnErr result (IsLoweredBy nothing (room self.old) (room self.new)) }
        ensures steps { steps.new ≤ steps.old + cost (account self.new) (month_of (account self.old).today) };

    /// The account that the books are kept of, with its entries and reversals.
    fn kept(&self) -> &LoanAccount
        ensures { result.now.account ≡ account self.now };

    /// The terms of the loan.
    fn terms(&self) -> &Terms
        ensures { result.now ≡ (account self.now).terms };

    /// Each value stands for an account that boarding, entries, reversals and business days can have
    /// made. The call does nothing.
    fn is_account(&self)
        ensures { IsAccount (account self.now) };

    /// The books at the business day. What the loan received, less what was returned, refunded and
    /// disbursed, is what they hold and have collected.
    fn now(&self) -> &Books
        ensures books { result.now ≡ books_of (account self.now) (account self.now).today }
        ensures sound { AreBooks (account self.now).terms result.now }
        ensures conserved { received (account self.now) -ℤ returned (account self.now)
            -ℤ refunded (account self.now) -ℤ disbursed (account self.now) ≡ total result.now };

    /// The entry with that number, reversed or not.
    fn entry(&self, number: u32) -> Option<Entry>
        ensures { result ≡ entry_of (account self.now) number };

    /// What reversed the entry with that number.
    fn reversed_by(&self, number: u32) -> Option<u32>
        ensures { result ≡ reverser_of (account self.now) number };

    /// The books at a day from boarding to the business day.
    fn books_at<L: Ledger>(&self, day: Day, steps: &mut Steps<L>) -> Books
        requires after { (account self.now).terms.boarded ≤ day }
        requires until { day ≤ (account self.now).today }
        ensures books { result ≡ books_of (account self.now) day }
        ensures sound { AreBooks (account self.now).terms result }
        ensures steps { steps.new ≤ steps.old + cost (account self.now) (month_of day) };

    /// The books at a day that is not before the business day, as if nothing else were booked until then. Nothing
    /// that is kept changes.
    fn books_ahead<L: Ledger>(&self, day: Day, steps: &mut Steps<L>) -> Books
        requires { (account self.now).today ≤ day }
        ensures books { result ≡ books_of (advanced_to day (account self.now)) day }
        ensures sound { AreBooks (account self.now).terms result }
        ensures steps { steps.new ≤ steps.old
            + cost (advanced_to day (account self.now)) (month_of (account self.now).today) };

    /// What a month did, from the boarded month to that of the business day; of the latter the
    /// facts so far.
    fn month<L: Ledger>(&self, month: Month, steps: &mut Steps<L>) -> MonthFacts
        requires after { month_of (account self.now).terms.boarded ≤ month }
        requires until { month ≤ month_of (account self.now).today }
        ensures facts { result ≡ month_facts (account self.now) month }
        ensures within { AreFacts (account self.now).terms result }
        ensures steps { steps.new ≤ steps.old + month_cost (account self.now) month };
}
