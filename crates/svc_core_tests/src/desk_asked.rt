//! What the desk asks, worked by hand.

use crate::desk::Part::{self, Once};
use crate::desk::over_both;
use crate::first_quarter::{BOARDED, FIRST_PAID};
use std::test::Fail;

/// A loan that falls behind, and a payment that covers one installment of two.
const BEHIND: &str = "
> ? history 1
history 1 2024-02-01 events 1
event 2024-02-01 3 pay 1199.10 interest 1000.00 principal 199.10 escrow 0.00 late 0.00 charges 0.00 suspense 0.00 upb 199800.90 next 2024-03
end
> ? status
status 2024-02-01 loans 1 commands 3 closed - remitted - close 2023-12 remit - pending 0 adjustments 0
> k4 day 2024-04-20
ok 4
> k5 pay 1 2024-04-20 1500.00
ok 5
> ? history 1
history 1 2024-04-20 events 4
event 2024-02-01 3 pay 1199.10 interest 1000.00 principal 199.10 escrow 0.00 late 0.00 charges 0.00 suspense 0.00 upb 199800.90 next 2024-03
event 2024-03-17 - late-charge 0.00 interest 0.00 principal 0.00 escrow 0.00 late 59.96 charges 0.00 suspense 0.00 upb 199800.90 next 2024-03
event 2024-04-17 - late-charge 0.00 interest 0.00 principal 0.00 escrow 0.00 late 59.96 charges 0.00 suspense 0.00 upb 199800.90 next 2024-03
event 2024-04-20 5 pay 1500.00 interest 999.00 principal 200.10 escrow 0.00 late 0.00 charges 0.00 suspense 300.90 upb 199600.80 next 2024-04
end
> ? arrears 1
arrears 1 2024-04-20 installments 1 due 1199.10 suspense 300.90 pay 898.20 late 119.92
> ? aging
aging 2024-04-20 loans 1
late 1 next 2024-04 days 19 installments 1 due 1199.10 suspense 300.90 pay 898.20 late 119.92
total current 0 late1 1 late30 0 late60 0 late90 0 satisfied 0
end
";

/// The payment is taken back and comes again as another one; a curtailment; questions about commands and later days.
const TAKEN_BACK: &str = "
> k6 reverse 1 5
ok 6
> k7 pay 1 2024-04-20 1498.20
ok 7
> k8 curtail 1 2024-04-20 100.00
ok 8
> k9 line 1 1 tax 7 12 500.00
ok 9
> k10 retype 1 2024-03 AA
ok 10
> ? history 1
history 1 2024-04-20 events 5
event 2024-02-01 3 pay 1199.10 interest 1000.00 principal 199.10 escrow 0.00 late 0.00 charges 0.00 suspense 0.00 upb 199800.90 next 2024-03
event 2024-03-17 - late-charge 0.00 interest 0.00 principal 0.00 escrow 0.00 late 59.96 charges 0.00 suspense 0.00 upb 199800.90 next 2024-03
event 2024-04-17 - late-charge 0.00 interest 0.00 principal 0.00 escrow 0.00 late 59.96 charges 0.00 suspense 0.00 upb 199800.90 next 2024-03
event 2024-04-20 7 pay 1498.20 interest 999.00 principal 200.10 escrow 0.00 late 0.00 charges 0.00 suspense 299.10 upb 199600.80 next 2024-04
event 2024-04-20 8 curtail 100.00 interest 0.00 principal 100.00 escrow 0.00 late 0.00 charges 0.00 suspense 0.00 upb 199500.80 next 2024-04
reversed 5 6
end
> ? loan 1
loan 1 boarded 2023-12-15 principal 200000.00 rate 6000 fee 250 pi 1199.10 term 360 first 2024-02 grace 15 late 500 cushion 2 escrow 0.00 type SS
line 1 tax 7 12 500.00
type 2024-03 AA
end
> ? quote 1 2024-06-30
quote 1 2024-06-30 203398.31 perday 33.25
> ? quote 1 2024-02-15
quote 1 2024-02-15 200267.10 perday 33.30
> ? quote 1 2023-12-14
no 10 BeforeBoarding 2023-12-15
> ? quote 2 2024-06-30
no 5 NoSuchLoan
> ? key k8
command 8
line k8 curtail 1 2024-04-20 100.00
reply ok 8
end
> ? command 8
command 8
line k8 curtail 1 2024-04-20 100.00
reply ok 8
end
> ? command 11
no 28 NoSuchCommand
> ? command 0
no 28 NoSuchCommand
> ? key k99
no 28 NoSuchCommand
> k11 close 2023-12
ok 11 lines 1 interest 0.00 principal 0.00
> k12 close 2024-01
ok 12 lines 1 interest 0.00 principal 0.00
> k13 remit 2023-12
ok 13 net 0.00
> ? status
status 2024-04-20 loans 1 commands 13 closed 2024-01 remitted 2023-12 close 2024-02 remit 2024-01 pending 0 adjustments 0
";

const SCHEDULED: [Part; 4] = [
    Once(BOARDED),
    Once(FIRST_PAID),
    Once(BEHIND),
    Once(TAKEN_BACK),
];

#[test]
fn a_loan_falls_behind_and_an_entry_is_taken_back(rt: HostRuntime) -> Result<(), Fail> {
    over_both(&rt, rt.alloc(), &SCHEDULED)
}

/// A loan with escrow: a line that is set again keeps its place; an analysis and its reply.
const ANALYSED: &str = "
> k1 day 2024-06-15
ok 1
> k2 board 2 2024-06-01 200000.00 6000 250 1199.10 360 2024-07 15 500 2 130.00 AA
ok 2
> k3 line 2 1 tax 7 12 500.00
ok 3
> k4 line 2 2 tax 9 12 360.00
ok 4
> k5 line 2 3 tax 12 12 700.00
ok 5
> k6 deposit 2 2024-06-10 1090.00
ok 6
> k7 analyse 2 refund - -
ok 7 base 130.00 cushion 260.00 opening 1040.00 balance 1090.00 surplus 50.00 short 0.00 deficient 0.00 refund 50.00 within30 0.00 pay 130.00
> k8 drop 2 2
ok 8
> k9 line 2 1 tax 8 12 510.00
ok 9
> k10 line 2 2 tax 9 12 360.00
ok 10
> ? loan 2
loan 2 boarded 2024-06-01 principal 200000.00 rate 6000 fee 250 pi 1199.10 term 360 first 2024-07 grace 15 late 500 cushion 2 escrow 130.00 type AA
line 1 tax 8 12 510.00
line 3 tax 12 12 700.00
line 2 tax 9 12 360.00
end
> ? history 2
history 2 2024-06-15 events 2
event 2024-06-10 6 deposit 1090.00 interest 0.00 principal 0.00 escrow 1090.00 late 0.00 charges 0.00 suspense 0.00 upb 200000.00 next 2024-07
event 2024-06-15 7 analyse 50.00 interest 0.00 principal 0.00 escrow -50.00 late 0.00 charges 0.00 suspense 0.00 upb 200000.00 next 2024-07
end
> ? command 7
command 7
line k7 analyse 2 refund - -
reply ok 7 base 130.00 cushion 260.00 opening 1040.00 balance 1090.00 surplus 50.00 short 0.00 deficient 0.00 refund 50.00 within30 0.00 pay 130.00
end
";

/// A designated payment, one that waits for the next month, and a payoff that is more than what is due.
const PAID_OFF: &str = "
> k11 day 2024-07-01
ok 11
> k12 pay 2 2024-07-01 3000.00 principal
ok 12
> k13 day 2024-08-01
ok 13
> k14 pay 2 2024-07-31 700.00
ok 14
> k15 day 2024-09-01
ok 15
> k16 pay 2 2024-09-01 2000.00
ok 16
> ? history 2
history 2 2024-09-01 events 6
event 2024-06-10 6 deposit 1090.00 interest 0.00 principal 0.00 escrow 1090.00 late 0.00 charges 0.00 suspense 0.00 upb 200000.00 next 2024-07
event 2024-06-15 7 analyse 50.00 interest 0.00 principal 0.00 escrow -50.00 late 0.00 charges 0.00 suspense 0.00 upb 200000.00 next 2024-07
event 2024-07-01 12 pay-principal 3000.00 interest 1000.00 principal 1870.00 escrow 130.00 late 0.00 charges 0.00 suspense 0.00 upb 198130.00 next 2024-08
event 2024-07-31 14 pay 700.00 interest 0.00 principal 0.00 escrow 0.00 late 0.00 charges 0.00 suspense 700.00 upb 198130.00 next 2024-08
event 2024-08-17 - late-charge 0.00 interest 0.00 principal 0.00 escrow 0.00 late 59.96 charges 0.00 suspense 0.00 upb 198130.00 next 2024-08
event 2024-09-01 16 pay 2000.00 interest 1980.26 principal 417.94 escrow 260.00 late -41.80 charges 41.80 suspense -700.00 upb 197712.06 next 2024-10
end
> ? arrears 2
arrears 2 2024-09-01 installments 0 due 0.00 suspense 0.00 pay 0.00 late 18.16
> k17 payoff 2 2024-09-01 300000.00
ok 17
> ? history 2
history 2 2024-09-01 events 7
event 2024-06-10 6 deposit 1090.00 interest 0.00 principal 0.00 escrow 1090.00 late 0.00 charges 0.00 suspense 0.00 upb 200000.00 next 2024-07
event 2024-06-15 7 analyse 50.00 interest 0.00 principal 0.00 escrow -50.00 late 0.00 charges 0.00 suspense 0.00 upb 200000.00 next 2024-07
event 2024-07-01 12 pay-principal 3000.00 interest 1000.00 principal 1870.00 escrow 130.00 late 0.00 charges 0.00 suspense 0.00 upb 198130.00 next 2024-08
event 2024-07-31 14 pay 700.00 interest 0.00 principal 0.00 escrow 0.00 late 0.00 charges 0.00 suspense 700.00 upb 198130.00 next 2024-08
event 2024-08-17 - late-charge 0.00 interest 0.00 principal 0.00 escrow 0.00 late 59.96 charges 0.00 suspense 0.00 upb 198130.00 next 2024-08
event 2024-09-01 16 pay 2000.00 interest 1980.26 principal 417.94 escrow 260.00 late -41.80 charges 41.80 suspense -700.00 upb 197712.06 next 2024-10
event 2024-09-01 17 payoff 300000.00 interest 0.00 principal 197712.06 escrow 0.00 late -18.16 charges 18.16 suspense 102269.78 upb 0.00 next -
end
> ? aging
aging 2024-09-01 loans 0
total current 0 late1 0 late30 0 late60 0 late90 0 satisfied 1
end
> ? quote 2 2024-09-15
quote 2 2024-09-15 0.00 perday 0.00
";

const WITH_ESCROW: [Part; 2] = [Once(ANALYSED), Once(PAID_OFF)];

#[test]
fn a_loan_with_escrow_is_analysed_and_paid_off(rt: HostRuntime) -> Result<(), Fail> {
    over_both(&rt, rt.alloc(), &WITH_ESCROW)
}
