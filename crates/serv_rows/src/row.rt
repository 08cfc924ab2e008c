//! What a file's rows are read as.

ghost use Rattle.std.specs.Prelude.{◌≡◌, ℕ, ◌+◌, ◌<◌, ◌∷◌, ◌++◌, [], List, ◌↔◌, IsTrue, IfErr, OnOk, length};
ghost use Rattle.csv.specs.Records.{fields_of};
ghost use Rattle.serv_rows.specs.Files.{records_of, BeginsWith};

use csv::ByteRecord;

/// A row of a CSV file with a header: each one after the header adds to what the file says, or is why the file
/// says nothing.
pub trait Row {
    /// What the rows of a file say together.
    type Said;

    /// Why a file says nothing.
    type Fault;

    /// The first row of a file, which names the columns.
    ghost header: { List (List ℕ) };

    /// What the rows after the header say, in their order.
    ghost says: { List (List (List ℕ)) → Self.Said → Type 0 };

    /// Why the file of these bytes says nothing.
    ghost faulty: { List ℕ → Self.Fault → Type 0 };

    /// Whether a row is the header.
    fn is_header(row: &ByteRecord) -> bool
        ensures { IsTrue result ↔ (fields_of row.now ≡ header) };

    /// Adds what the row with that number says, counted from 1 with the header. Errs where the file says nothing
    /// because of this row, or where memory is short.
    fn take(said: &mut Self::Said, number: u32, row: &ByteRecord) -> Result<(), Self::Fault>
        requires { 1 < number }
        ensures taken { (before : List (List (List ℕ))) → number ≡ length before + 2 → says before said.old
            → OnOk result (says (before ++ fields_of row.now ∷ []) said.new) }
        ensures fault { IfErr result (λ fault. (bytes : List ℕ) (before after : List (List (List ℕ)))
            → records_of bytes ≡ header ∷ (before ++ fields_of row.now ∷ after)
            → number ≡ length before + 2 → says before said.old → faulty bytes fault) };

    /// The fault of a file whose first row is not the header, or that has no row.
    fn headless() -> Self::Fault
        ensures { (bytes : List ℕ) → (BeginsWith header bytes → ⊥) → faulty bytes result };

    /// The fault where memory is short.
    fn out_of_memory() -> Self::Fault
        ensures { (bytes : List ℕ) → faulty bytes result };
}
