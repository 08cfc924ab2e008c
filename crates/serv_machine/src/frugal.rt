//! Books whose calls take no more steps than the month that they are about.

ghost use Rattle.std.specs.Prelude.{◌≡◌, ℕ, ◌≤◌};
ghost use Rattle.svc_spec.specs.Accounts.{Account};
ghost use Rattle.svc_spec.specs.Months.{cost_of_month};

use svc_checkpoint::Checked;
use svc_replay::LoanBooks;

/// Books of a loan of which a call about a month takes at most the steps of that month, and `month` takes none.
pub trait Frugal: LoanBooks {
    ghost within: { (a : Account) (m : ℕ) → Self.cost a m ≤ cost_of_month a m };

    ghost free: { (a : Account) (m : ℕ) → Self.month_cost a m ≡ 0 };
}

impl Frugal for Checked {
    ghost use Rattle.std.specs.Prelude.{refl};
    ghost use Rattle.svc_spec.specs.Months.{cost_of_month};
    ghost use Rattle.serv_machine.specs.EngineLaws.{no_more};

    ghost within = { λ a m. no_more (cost_of_month a m) };

    ghost free = { λ a m. refl };
}
