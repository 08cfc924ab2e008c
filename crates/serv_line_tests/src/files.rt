//! Files of rows, and what they ask.

use serv_import::{ImportFault, RowRequest, batch};
use serv_line::write_line;
use std::alloc::Global;
use std::test::Fail;
use svc_base::OutOfMemory;
use svc_types::Request;

const HEADER: &str = "key,do,loan,day,amount,line\n";

/// What a file gives.
fn read(alloc: Global, file: &[u8]) -> Result<Vec<RowRequest>, ImportFault> {
    if file.len() > 1 << 26 {
        return Err(ImportFault::OutOfMemory);
    }
    batch(alloc, file)
}

/// What a file of the header and these rows gives.
fn after_header(alloc: Global, rows: &[u8]) -> Result<Vec<RowRequest>, Fail> {
    let mut file = HEADER.as_bytes().to_vec(alloc)?;
    file.extend_from_slice(rows)?;
    Ok(read(alloc, &file)?)
}

/// Whether a row asks for what this line asks.
fn asks(alloc: Global, row: &RowRequest, line: &str) -> Result<bool, OutOfMemory> {
    match row {
        RowRequest::Row(key, command) => {
            let written = write_line(alloc, &Request::Do(*key, *command))?;
            Ok(written.as_slice() == line.as_bytes())
        }
        RowRequest::Bad(_, _) => Ok(false),
    }
}

/// Whether a file of the header and these rows has one row, which asks for what this line asks.
fn has_row(alloc: Global, rows: &str, line: &str) -> Result<bool, Fail> {
    let answers = after_header(alloc, rows.as_bytes())?;
    Ok(answers.len() == 1 && asks(alloc, &answers[0], line)?)
}

/// Rows, with the lines that ask for the same.
const ROWS: [(&str, &str); 14] = [
    (
        "f1,pay,1,2024-02-01,1199.10,\n",
        "f1 pay 1 2024-02-01 1199.10",
    ),
    (
        "f1,pay,1,2024-02-01,1699.10,principal\n",
        "f1 pay 1 2024-02-01 1699.10 principal",
    ),
    (
        "f1,pay,1,2024-02-01,1299.10,escrow\n",
        "f1 pay 1 2024-02-01 1299.10 escrow",
    ),
    (
        "f1,curtail,4294967295,2024-02-01,1000.00,\n",
        "f1 curtail 4294967295 2024-02-01 1000.00",
    ),
    (
        "f1,payoff,1,2024-02-01,200300.40,\n",
        "f1 payoff 1 2024-02-01 200300.40",
    ),
    (
        "f1,deposit,2,2024-02-01,0.05,\n",
        "f1 deposit 2 2024-02-01 0.05",
    ),
    (
        "f1,disburse,2,2024-02-01,2000.00,16\n",
        "f1 disburse 2 2024-02-01 2000.00 16",
    ),
    // Quotes and line ends do not change a row.
    (
        "f1,pay,1,2024-02-01,1199.10,",
        "f1 pay 1 2024-02-01 1199.10",
    ),
    (
        "f1,pay,1,2024-02-01,1199.10,\r\n",
        "f1 pay 1 2024-02-01 1199.10",
    ),
    (
        "f1,pay,1,2024-02-01,1199.10,\r",
        "f1 pay 1 2024-02-01 1199.10",
    ),
    (
        "\n\r\nf1,pay,1,2024-02-01,1199.10,\n\n",
        "f1 pay 1 2024-02-01 1199.10",
    ),
    (
        "\"f1\",\"pay\",\"1\",\"2024-02-01\",\"1199.10\",\"\"\n",
        "f1 pay 1 2024-02-01 1199.10",
    ),
    (
        "\"f\"1,pay,1,2024-02-01,1199.10,\n",
        "f1 pay 1 2024-02-01 1199.10",
    ),
    (
        "\"f1\",pay,1,2024-02-01,1199.10,\n",
        "f1 pay 1 2024-02-01 1199.10",
    ),
];

#[test]
fn each_command_has_its_row(rt: HostRuntime) -> Result<(), Fail> {
    for (rows, line) in ROWS.iter() {
        assert!(rt; has_row(rt.alloc(), rows, line)?, "at {rows}");
    }
    Ok(())
}

/// Whether the rows after the header are these, each bad at a column.
fn are_bad(alloc: Global, rows: &str, want: &[RowRequest]) -> Result<bool, Fail> {
    let answers = after_header(alloc, rows.as_bytes())?;
    Ok(answers.as_slice() == want)
}

/// Rows that ask for nothing, with the column that does not fit.
const BAD_ROWS: [(&str, u32); 26] = [
    ("f1,pay,1,2024-02-01,1.00", 7),
    ("f1,pay,1,2024-02-01,1.00,,", 7),
    ("f!,frob,1,2024-02-01,1.00", 7),
    ("x", 7),
    ("f!,pay,1,2024-02-01,1.00,", 1),
    (" f1,pay,1,2024-02-01,1.00,", 1),
    (",,,,,", 1),
    (
        "123456789012345678901234567890123,pay,1,2024-02-01,1.00,",
        1,
    ),
    ("f1,frob,1,2024-02-01,1.00,", 2),
    ("f1,Pay,1,2024-02-01,1.00,", 2),
    ("f1,retype,1,2024-02,SA,", 2),
    ("f1,refund,1,2024-02-01,1.00,", 2),
    ("f1,pay,01,2024-02-01,1.00,", 3),
    ("f1,pay,4294967296,2024-02-01,1.00,", 3),
    ("f1,pay,x,2024-02-30,1,x", 3),
    ("f1,pay,1,2024-02-30,1.00,", 4),
    ("f1,pay,1,2100-01-01,1.00,", 4),
    ("f1,pay,1,2024-02-01,1.0,", 5),
    ("f1,pay,1,2024-02-01,-1.00,", 5),
    ("f1,pay,1,2024-02-01,1.00,1", 6),
    ("f1,pay,1,2024-02-01,1.00,regular", 6),
    ("f1,disburse,1,2024-02-01,1.00,", 6),
    ("f1,disburse,1,2024-02-01,1.00,principal", 6),
    ("f1,curtail,1,2024-02-01,1.00,principal", 6),
    ("f1,payoff,1,2024-02-01,1.00,escrow", 6),
    ("f1,deposit,1,2024-02-01,1.00,1", 6),
];

#[test]
fn a_row_that_asks_nothing_has_a_column(rt: HostRuntime) -> Result<(), Fail> {
    for (rows, column) in BAD_ROWS.iter() {
        assert!(rt;
            are_bad(rt.alloc(), rows, &[RowRequest::Bad(2, *column)])?,
            "at {rows}"
        );
    }
    Ok(())
}

#[test]
fn rows_are_counted_as_records_are(rt: HostRuntime) -> Result<(), Fail> {
    let alloc = rt.alloc();
    assert!(rt; are_bad(alloc, "", &[])?);
    let two = [RowRequest::Bad(2, 7), RowRequest::Bad(3, 7)];
    assert!(rt; are_bad(alloc, "\n\nx\n\ny\n", &two)?);
    for (rows, column) in [
        ("f\"1,pay,1,2024-02-01,1199.10,\n", 1),
        ("\"f\"\"1\",pay,1,2024-02-01,1199.10,\n", 1),
        ("f1,\"pay,1\",2024-02-01,1199.10,\n", 7),
    ] {
        assert!(rt;
            are_bad(alloc, rows, &[RowRequest::Bad(2, column)])?,
            "at {rows}"
        );
    }
    Ok(())
}

/// Whether a record over two lines is one row, with a payment and a bad row behind it.
fn is_one_row(alloc: Global) -> Result<bool, Fail> {
    let rows = b"\"f\n1\",pay,1,2024-02-01,1199.10,\nf1,pay,1,2024-02-01,1199.10,\nx\n";
    let answers = after_header(alloc, rows)?;
    if answers.len() != 3 {
        return Ok(false);
    }
    let are_bad = answers[0] == RowRequest::Bad(2, 1) && answers[2] == RowRequest::Bad(4, 7);
    Ok(asks(alloc, &answers[1], "f1 pay 1 2024-02-01 1199.10")? && are_bad)
}

#[test]
fn a_record_over_two_lines_is_one_row(rt: HostRuntime) -> Result<(), Fail> {
    assert!(rt; is_one_row(rt.alloc())?);
    Ok(())
}

/// Files of the header alone.
const HEADERS: [&str; 6] = [
    "key,do,loan,day,amount,line",
    "key,do,loan,day,amount,line\r\n",
    "\u{feff}key,do,loan,day,amount,line\n",
    "\u{feff}\n\nkey,do,loan,day,amount,line\n",
    "\"key\",\"do\",\"loan\",\"day\",\"amount\",\"line\"\n",
    "\n\r\nkey,do,loan,day,amount,line\n",
];

/// Files that do not begin with it.
const OTHERS: [&str; 11] = [
    "",
    "\n",
    "\u{feff}",
    "f1,pay,1,2024-02-01,1199.10,\n",
    "f1,pay,1,2024-02-01,1199.10,\nkey,do,loan,day,amount,line\n",
    "key,do,loan,day,amount\n",
    "key,do,loan,day,amount,line,\n",
    "key,do,loan,day,amount,lines\n",
    "Key,do,loan,day,amount,line\n",
    "key, do,loan,day,amount,line\n",
    "do,key,loan,day,amount,line\n",
];

#[test]
fn a_file_begins_with_the_header(rt: HostRuntime) -> Result<(), Fail> {
    for file in HEADERS.iter() {
        let rows = read(rt.alloc(), file.as_bytes()).map(|rows| rows.len());
        assert_eq!(rt; rows, Ok(0), "at {file}");
    }
    for file in OTHERS.iter() {
        let fault = read(rt.alloc(), file.as_bytes()).err();
        assert_eq!(rt; fault, Some(ImportFault::Header), "at {file}");
    }
    Ok(())
}

const MANY: u32 = 10_000;

/// A payment for each of ten thousand loans.
fn many_rows(alloc: Global) -> Result<Vec<u8>, Fail> {
    let mut rows = Vec::new(alloc);
    for loan in 1..=MANY {
        let text = format!(in alloc; "f{loan},pay,{loan},2024-02-01,1199.10,\n")?;
        rows.extend_from_slice(text.as_bytes())?;
    }
    Ok(rows)
}

/// Whether this is the payment for a loan.
fn is_payment_for(alloc: Global, loan: u32, row: &RowRequest) -> Result<bool, Fail> {
    let line = format!(in alloc; "f{loan} pay {loan} 2024-02-01 1199.10")?;
    Ok(asks(alloc, row, &line)?)
}

#[test]
fn ten_thousand_rows_are_read(rt: HostRuntime) -> Result<(), Fail> {
    let answers = after_header(rt.alloc(), &many_rows(rt.alloc())?)?;
    assert_eq!(rt; answers.len(), 10_000);
    for (loan, answer) in (1..=MANY).zip(&answers) {
        assert!(rt; is_payment_for(rt.alloc(), loan, answer)?, "loan {loan}");
    }
    Ok(())
}
