//! What the program says where the words are none that it knows.

/// The program and its version.
pub(crate) const VERSION: &str = "jaqhendulu 0.15.0";

/// The words and what they do, a line each.
pub(crate) const WORDS: &str = "\
usage: jaqhendulu JOURNAL WORDS
  init                      makes an empty journal
  apply                     answers the request lines of standard input, over the journal
  session                   answers request lines over books in memory; no file is touched
  import                    answers the rows of a CSV file of standard input
  report YYYY-MM            writes the report of a month
  trial YYYY-MM             writes the trial balance of a month
  custodial                 writes what both custodial accounts hold
  ask QUERY                 writes the reply to one query: ask books 101
  serve PORT CONNECTIONS    answers HTTP at a port of 127.0.0.1
  transfer FROM TO          writes the lines of the loans of these numbers
  remain FROM TO            writes the lines of all other loans
  statement                 writes a line a loan of what is owed, held and advanced
  confirm                   compares a statement of standard input with the journal
  pmi                       says which mortgage insurance of a CSV file ends
  pmi-drops                 writes the lines that take ended premiums off
  reconcile FIRST LAST      compares a bank's movements with the rows of commands
  drill LOANS NUMBER        makes a year in memory; no file is touched";
