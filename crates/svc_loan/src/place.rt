//! Where a loan stands.

ghost use Rattle.std.specs.Prelude.{◌≡◌};

/// Where the loan with a number stands, in the order of numbers.
#[derive(Clone, Copy)]
pub struct Place {
    pub(crate) id: u32,
    pub(crate) index: usize,
}

impl Place {
    /// The number of the loan.
    #[inline(always)]
    pub fn id(self) -> u32
        ensures { result ≡ self.id }
    {
        self.id
    }

    /// How many loans have lower numbers.
    #[inline(always)]
    pub fn index(self) -> usize
        ensures { result ≡ self.index }
    {
        self.index
    }
}
