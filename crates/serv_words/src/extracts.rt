//! Texts that are made of a journal's commands, as words ask for them.

ghost use Rattle.std.specs.Prelude.{◌≡◌};
ghost use Rattle.serv_words.specs.Asked as asked;

/// A text that is made of a journal's commands, and of the input where it is about it.
#[derive(Clone, Copy, Debug, PartialEq, Eq)]
pub enum Extract {
    /// The lines of the commands on the loans from one number to another, which are handed over.
    Transfer(u32, u32),
    /// The lines of the commands on all other loans, which stay.
    Remain(u32, u32),
    /// The statement of all loans.
    Statement,
    /// How a statement differs from the books.
    Confirm,
    /// Whether the mortgage insurance of each loan of a file ends, and when.
    Pmi,
    /// The commands that drop the premiums of insurance that ends.
    PmiDrops,
    /// How a bank's movements match the rows of the commands between two numbers.
    Reconcile(u32, u32),
}

impl Extract {
    /// Whether it is about the input.
    pub fn is_about_input(self) -> bool
        ensures { result ≡ asked.is_about_input self }
    {
        match self {
            Extract::Transfer(_, _) | Extract::Remain(_, _) | Extract::Statement => false,
            Extract::Confirm | Extract::Pmi | Extract::PmiDrops | Extract::Reconcile(_, _) => true,
        }
    }
}
