//! How scripts begin.

/// The loan that scripts begin with, as an Actual/Actual loan.
pub(crate) const BOARDED_ACTUAL: &str = "
> k1 day 2024-02-01
ok 1
> k2 board 1 2023-12-15 200000.00 6000 250 1199.10 360 2024-02 15 500 2 0.00 AA
ok 2
";

/// Four months of the Actual/Actual loan are closed and remitted; March's installment was not paid.
pub(crate) const ACTUAL_MONTHS: &str = "
> k4 day 2024-04-01
ok 4
> k5 close 2023-12
ok 5 lines 1 interest 0.00 principal 0.00
> k6 close 2024-01
ok 6 lines 1 interest 0.00 principal 0.00
> k7 close 2024-02
ok 7 lines 1 interest 958.33 principal 199.10
> k8 close 2024-03
ok 8 lines 1 interest 0.00 principal 0.00
> k9 remit 2023-12
ok 9 net 0.00
> k10 remit 2024-01
ok 10 net 0.00
> k11 remit 2024-02
ok 11 net 1157.43
> k12 remit 2024-03
ok 12 net 0.00
";

/// After the first installment the loan is paid off on 2024-02-16; a cent less does not do.
pub(crate) const PAID_OFF: &str = "
> k4 day 2024-02-16
ok 4
> ? payoff 1 2024-02-16
payoff 1 2024-02-16 200300.40
> k5 payoff 1 2024-02-16 200300.39
no 12 PayoffShort 200300.40
> k5 payoff 1 2024-02-16 200300.40
ok 5
> ? books 1
books 1 2024-02-16 upb 0.00 next - escrow 0.00 suspense 0.00 late 0.00 interest 1499.50 fee 62.48 principal 200000.00 charges 0.00 pay 0.00
";

/// The month of the payoff is closed and remitted.
pub(crate) const PAYOFF_REMITTED: &str = "
> k6 day 2024-03-01
ok 6
> k7 close 2023-12
ok 7 lines 1 interest 0.00 principal 0.00
> k8 close 2024-01
ok 8 lines 1 interest 0.00 principal 0.00
> k9 close 2024-02
ok 9 lines 1 interest 958.33 principal 200000.00
> k10 remit 2023-12
ok 10 net 0.00
> k11 remit 2024-01
ok 11 net 0.00
> k12 remit 2024-02
ok 12 net 200958.33
> ? rows 12
rows 12 count 2
row 1 Remitted P Investor 200958.33
row 1 Residual P Servicer 478.69
end
";

/// A loan with escrow on 2024-06-15: three bills and a deposit.
pub(crate) const WITH_BILLS: &str = "
> k1 day 2024-06-15
ok 1
> k2 board 2 2024-06-01 200000.00 6000 250 1199.10 360 2024-07 15 500 2 130.00 AA
ok 2
> k3 line 2 1 tax 7 12 500.00
ok 3
> k4 line 2 2 tax 9 12 360.00
ok 4
> k5 line 2 3 tax 12 12 700.00
ok 5
> k6 deposit 2 2024-06-10 1090.00
ok 6
";
