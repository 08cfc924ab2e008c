//! The words of a line: what is left of it is a text, or none after its last word.

ghost use Rattle.std.specs.Prelude.{◌≡◌, ◌==◌, ◌∷◌};
ghost use Rattle.std.specs.List.{position};
ghost use Rattle.serv_line.specs.Lines.{words_of, words_left};

/// The first word of a text, and what is left after the space that ends it.
#[tactic(auto, using(crate::proofs::WordLemmas::one_word))]
pub fn next_word(text: &[u8]) -> (&[u8], Option<&[u8]>)
    ensures { words_of text.now ≡ result.0.now ∷ words_left result.1 }
{
    match first_space(text) {
        Some(at) => {
            let (word, rest) = text.split_at(at);
            (word, Some(&rest[1..]))
        }
        None => (text, None),
    }
}

/// Where the first space of a text stands, if it has one.
fn first_space(text: &[u8]) -> Option<usize>
    ensures { result ≡ position (λ b. b == 32) text.now }
{
    text.iter().position(|byte| *byte == b' ')
}
