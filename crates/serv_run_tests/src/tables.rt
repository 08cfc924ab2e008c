//! Lines, each behind `> `, and the replies to them.

/// March is paid late, and April is closed; it was not paid.
pub const CLOSED_LATER: &str = "> k13 pay 1 2024-03-10 1199.10
ok 13
> k14 day 2024-05-01
ok 14
> k15 close 2024-04
ok 15 lines 1 interest 956.42 principal 201.10
";

/// A loan with three bills a year.
pub const ESCROWED: &str = "> k1 day 2024-06-15
ok 1
> k2 board 2 2024-06-01 200000.00 6000 250 1199.10 360 2024-07 15 500 2 130.00 AA
ok 2
> k3 line 2 1 tax 7 12 500.00
ok 3
> k4 line 2 2 tax 9 12 360.00
ok 4
> k5 line 2 3 tax 12 12 700.00
ok 5
";

/// A surplus below 50.00, of which 4.16 a month is credited.
pub const CREDITED: &str = "> k6 deposit 2 2024-06-10 1089.99
ok 6
> k7 analyse 2 credit - -
ok 7 base 130.00 cushion 260.00 opening 1040.00 balance 1089.99 surplus 49.99 short 0.00 deficient 0.00 refund 0.00 within30 0.00 pay 125.84
";

/// A shortage of less than a month, paid within 30 days.
pub const SMALL_SHORTAGE: &str = "> k6 deposit 2 2024-06-10 910.01
ok 6
> k7 analyse 2 - within30 -
ok 7 base 130.00 cushion 260.00 opening 1040.00 balance 910.01 surplus 0.00 short 129.99 deficient 0.00 refund 0.00 within30 129.99 pay 130.00
";

/// A shortage of a month, which is spread.
pub const SHORTAGE: &str = "> k6 deposit 2 2024-06-10 910.00
ok 6
> k7 analyse 2 - within30 -
no 18 BadPlan 2 MustSpread Short
> k7 analyse 2 - spread:11 -
no 18 BadPlan 4 TooFewMonths 11
> k7 analyse 2 - spread:61 -
no 18 BadPlan 5 TooManyMonths 61
> k7 analyse 2 - spread:12 -
ok 7 base 130.00 cushion 260.00 opening 1040.00 balance 910.00 surplus 0.00 short 130.00 deficient 0.00 refund 0.00 within30 0.00 pay 140.83
";

/// Neither surplus nor shortage.
pub const NO_SHORTAGE: &str = "> k6 deposit 2 2024-06-10 1040.00
ok 6
> k7 analyse 2 - leave -
no 18 BadPlan 6 NothingToPlan Short
";

/// A bill of 100.03 in the first month alone.
pub const ONE_BILL: &str = "> k1 day 2024-06-15
ok 1
> k2 board 2 2024-06-01 200000.00 6000 250 1199.10 360 2024-07 15 500 2 130.00 AA
ok 2
> k3 line 2 1 tax 7 12 100.03
ok 3
> ? escrow 2
escrow 2 from 2024-07 base 8.33 cushion 16.67 opening 108.37 balance 0.00 surplus 0.00 short 108.37 deficient 0.00 pay 8.33
month 2024-07 paid 100.03 trial -91.70 target 16.67
month 2024-08 paid 0.00 trial -83.37 target 25.00
month 2024-09 paid 0.00 trial -75.04 target 33.33
month 2024-10 paid 0.00 trial -66.71 target 41.66
month 2024-11 paid 0.00 trial -58.38 target 49.99
month 2024-12 paid 0.00 trial -50.05 target 58.32
month 2025-01 paid 0.00 trial -41.72 target 66.65
month 2025-02 paid 0.00 trial -33.39 target 74.98
month 2025-03 paid 0.00 trial -25.06 target 83.31
month 2025-04 paid 0.00 trial -16.73 target 91.64
month 2025-05 paid 0.00 trial -8.40 target 99.97
month 2025-06 paid 0.00 trial -0.07 target 108.30
end
";

/// A month that has not ended.
pub const TOO_EARLY: &str = "> k1 day 2023-12-31
ok 1
> k2 board 1 2023-12-15 200000.00 6000 250 1199.10 360 2024-02 15 500 2 0.00 SS
ok 2
> k3 remit 2023-12
no 23 NotClosed -
> k3 close 2023-12
no 22 NotEnded 2023-12-31
";

/// Lines that are no requests.
pub const NO_REQUESTS: &str = "> k1 pay 1 2024-02-30 5.00
bad 9
> k1 pay 1 2024-02-01
bad 19
> k1 pay 1 2024-02-01 5.0
bad 20
> 
bad 0
";

/// Keys of 32 and of 33 bytes, the greatest number and one above it, days at both ends of the calendar, and
/// each field at its longest.
pub const ENDS: &str = "> k1 day 1989-12-31
bad 7
> k1 day 1990-01-01
no 3 DayNotLater 1990-01-01
> k1 day 2024-02-30
bad 7
> k1 day 2100-01-01
bad 7
> k12345678901234567890123456789012 day 2024-02-01
bad 0
> k1234567890123456789012345678901 day 2024-02-01
ok 1
> k2 board 4294967296 2023-12-15 200000.00 6000 250 1199.10 360 2024-02 15 500 2 0.00 SS
bad 9
> k2 board 4294967295 2023-12-15 200000.00 6000 250 1199.10 360 2024-02 15 500 2 0.00 SS
ok 2
> k3 pay 4294967295 2024-02-01 1199.10
ok 3
> ? books 4294967295
books 4294967295 2024-02-01 upb 199800.90 next 2024-03 escrow 0.00 suspense 0.00 late 0.00 interest 1000.00 fee 41.67 principal 199.10 charges 0.00 pay 1199.10
> ? books 4294967296
bad 8
> ? rows 4294967295
no 13 NoSuchEntry
> ? rows 4294967296
bad 7
> k4 reverse 4294967295 4294967295
no 13 NoSuchEntry
> k4 reverse 4294967295 4294967296
bad 22
> k4 pay 4294967295 1989-12-31 1.00
bad 18
> k4 pay 4294967295 1990-01-01 1.00
no 10 BeforeBoarding 2023-12-15
> k4 pay 4294967295 2024-02-30 1.00
bad 18
> k4 pay 4294967295 2099-12-31 1.00
no 9 FutureDated 2024-02-01
> k4 pay 4294967295 2100-01-01 1.00
bad 18
> k4 close 1989-12
bad 9
> k4 close 1990-01
no 21 WrongPeriod 2023-12
> k4 close 2099-12
no 21 WrongPeriod 2023-12
> k4 close 2100-01
bad 9
> ? at 4294967295 2099-12-31
no 9 FutureDated 2024-02-01
> k123456789012345678901234567890x board 4294967294 2099-12-31 99999999999.99 4294967295 4294967295 99999999999.99 4294967295 2099-12 4294967295 4294967295 4294967295 99999999999.99 AA
no 6 BadTerms 1 Principal
> k123456789012345678901234567890x line 4294967295 4294967295 hazard 4294967295 4294967295 99999999999.99
no 17 BadLine 1 Amount
> k123456789012345678901234567890x disburse 4294967295 2024-02-01 99999999999.99 4294967295
no 8 BadAmount
> k123456789012345678901234567890x pay 4294967295 2024-02-01 99999999999.99 principal
no 8 BadAmount
> k123456789012345678901234567890x refund 4294967295 99999999999.99
no 8 BadAmount
> k123456789012345678901234567890x drop 4294967295 4294967295
no 16 NoSuchLine
> k123456789012345678901234567890x analyse 4294967295 retain spread:4294967295 spread:4294967295
no 18 BadPlan 6 NothingToPlan Surplus
> k123456789012345678901234567890x retype 4294967295 2099-12 SA
ok 4
> k5 day 2099-12-31
ok 5
> k6 day 2099-12-31
no 3 DayNotLater 2099-12-31
> ? books 4294967295
books 4294967295 2099-12-31 upb 199800.90 next 2024-03 escrow 0.00 suspense 0.00 late 21525.64 interest 1000.00 fee 41.67 principal 199.10 charges 0.00 pay 1199.10
";
