//! Which accepted command was a loan's last payment.

ghost use Rattle.std.specs.Prelude.{◌≡◌};
ghost use Rattle.svc_world.specs.Judging.{nth_accepted};
ghost use Rattle.serv_drill.specs.Payments as payments;

use svc_checkpoint::Checked;
use svc_core::Core;
use svc_types::Command;

/// Whether a command is a payment of the loan.
fn is_payment_of(command: &Command, loan: u32) -> bool
    ensures { result ≡ payments.is_payment_of loan command.now }
{
    match command {
        Command::Pay(of, _, _, _) => *of == loan,
        _ => false,
    }
}

/// Whether the accepted command with a number is a payment of the loan.
fn is_payment_at(core: &Core<Checked>, number: u32, loan: u32) -> bool
    ensures { result ≡ payments.is_payment_at loan (nth_accepted core.now.history number) }
{
    match core.posted(number) {
        Some((_, command)) => is_payment_of(&command, loan),
        None => false,
    }
}

/// The number of the loan's last payment that was accepted, 0 where there is none. It is looked for from
/// the last command on: what is taken back was paid a month ago.
pub(crate) fn last_payment(core: &Core<Checked>, loan: u32) -> u32
    ensures { result ≡ payments.last_payment loan core.now.history }
{
    let mut number = core.count();
    while number > 0 {
        if is_payment_at(core, number, loan) {
            return number;
        }
        number -= 1;
    }
    0
}
