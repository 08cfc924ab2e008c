//! What a word that is a month says.

ghost use Rattle.std.specs.Prelude.{◌≡◌, ℕ, List, Some};
ghost use Rattle.svc_base.specs.Text.{IsReadMonth, text_of_month};
ghost use Rattle.serv_words.specs.Words.{month_in};

/// A word is read as a month exactly where it is that month's text. It does nothing.
pub fn months_are_read()
    ensures read { (m : ℕ) → IsReadMonth m → month_in (text_of_month m) ≡ Some m }
    ensures spelled { (text : List ℕ) (m : ℕ) → month_in text ≡ Some m
        → IsReadMonth m × (text ≡ text_of_month m) }
{}
