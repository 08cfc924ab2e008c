//! How scripts begin that tests of the core and of the program share: lines, each behind `> `, and the replies to them.

/// A Scheduled/Scheduled loan of 200,000.00 at 6 percent over 30 years, taken on on 2023-12-15.
pub const BOARDED: &str = "> k1 day 2024-02-01
ok 1
> k2 board 1 2023-12-15 200000.00 6000 250 1199.10 360 2024-02 15 500 2 0.00 SS
ok 2
";

/// Its first installment is paid on its day.
pub const FIRST_PAID: &str = "> k3 pay 1 2024-02-01 1199.10
ok 3
";

/// Four months of the Scheduled/Scheduled loan are closed and remitted; March's installment was not paid.
pub const SCHEDULED_MONTHS: &str = "> k4 day 2024-04-01
ok 4
> k5 close 2023-12
ok 5 lines 1 interest 0.00 principal 0.00
> k6 close 2024-01
ok 6 lines 1 interest 0.00 principal 0.00
> k7 close 2024-02
ok 7 lines 1 interest 958.33 principal 199.10
> k8 close 2024-03
ok 8 lines 1 interest 957.37 principal 200.10
> k9 remit 2023-12
ok 9 net 0.00
> k10 remit 2024-01
ok 10 net 0.00
> k11 remit 2024-02
ok 11 net 1157.43
> k12 remit 2024-03
ok 12 net 1157.47
";
