//! Appending bytes, numbers and amounts to a text.

ghost use Rattle.std.specs.Prelude.{◌≡◌, ◌++◌, ◌∷◌, [], OnErr, OnOk, take};
ghost use Rattle.svc_base.specs.Text.{text_of_number, text_of_amount, text_of_signed};
ghost use Rattle.serv_line.specs.Pushed.{Keeps};
ghost use Rattle.serv_line.specs.Replies.{amount_field, number_field, signed_field};

use itoa::Buffer;
use svc_base::{Cents, OutOfMemory, push_signed};

/// Appends bytes.
pub fn push_bytes(out: &mut Vec<u8>, bytes: &[u8]) -> Result<(), OutOfMemory>
    ensures pushed { OnOk result (out.new.items ≡ out.old.items ++ bytes.now) }
    ensures kept { OnErr result (out.new.items ≡ out.old.items) }
{
    out.extend_from_slice(bytes)?;
    Ok(())
}

/// Appends a number.
pub fn push_number(out: &mut Vec<u8>, number: u32) -> Result<(), OutOfMemory>
    ensures pushed { OnOk result (out.new.items ≡ out.old.items ++ text_of_number number) }
    ensures kept { OnErr result (out.new.items ≡ out.old.items) }
{
    let mut buffer = Buffer::new();
    push_bytes(out, buffer.format(number).as_bytes())
}

/// Appends a number of 64 bits.
pub fn push_wide(out: &mut Vec<u8>, number: u64) -> Result<(), OutOfMemory>
    ensures pushed { OnOk result (out.new.items ≡ out.old.items ++ text_of_number number) }
    ensures kept { OnErr result (out.new.items ≡ out.old.items) }
{
    let mut buffer = Buffer::new();
    push_bytes(out, buffer.format(number).as_bytes())
}

/// Appends an amount, which is not below zero.
#[tactic(auto, using(std::proofs::lemmas::Int::ints), unfolding(svc_base::specs::Text::text_of_signed))]
pub fn push_amount(out: &mut Vec<u8>, amount: Cents) -> Result<(), OutOfMemory>
    ensures pushed { OnOk result (out.new.items ≡ out.old.items ++ text_of_amount amount) }
    ensures kept { OnErr result (out.new.items ≡ out.old.items) }
{
    push_signed(out, i128::from(amount.unsigned_abs()))
}

/// Appends an amount that may be below zero.
#[tactic(auto, using(std::proofs::lemmas::Int::ints))]
pub fn push_balance(out: &mut Vec<u8>, amount: Cents) -> Result<(), OutOfMemory>
    ensures pushed { OnOk result (out.new.items ≡ out.old.items ++ text_of_signed amount) }
    ensures kept { OnErr result (out.new.items ≡ out.old.items) }
{
    push_signed(out, i128::from(amount))
}

/// Appends a name with a space on each side.
#[tactic(auto, using(crate::proofs::KeepLemmas::keeps))]
fn push_name(out: &mut Vec<u8>, name: &[u8]) -> Result<(), OutOfMemory>
    ensures pushed { OnOk result (out.new.items ≡ out.old.items ++ ((32 ∷ name.now) ++ (32 ∷ []))) }
    ensures kept { OnErr result (Keeps out.old.items out.new.items) }
{
    push_bytes(out, b" ")?;
    push_bytes(out, name)?;
    push_bytes(out, b" ")
}

/// Appends a name and a number, a space before each.
#[tactic(auto, using(crate::proofs::TextLemmas::field_pushed, crate::proofs::KeepLemmas::keeps), unfolding(crate::specs::Replies::number_field))]
pub fn push_number_field(out: &mut Vec<u8>, name: &[u8], number: u32) -> Result<(), OutOfMemory>
    ensures pushed { OnOk result (out.new.items ≡ out.old.items ++ number_field name.now number) }
    ensures kept { OnErr result (Keeps out.old.items out.new.items) }
{
    push_name(out, name)?;
    push_number(out, number)
}

/// Appends a name and an amount, which is not below zero, a space before each.
#[tactic(auto, using(crate::proofs::TextLemmas::field_pushed, crate::proofs::KeepLemmas::keeps), unfolding(crate::specs::Replies::amount_field))]
pub fn push_amount_field(out: &mut Vec<u8>, name: &[u8], amount: Cents) -> Result<(), OutOfMemory>
    ensures pushed { OnOk result (out.new.items ≡ out.old.items ++ amount_field name.now amount) }
    ensures kept { OnErr result (Keeps out.old.items out.new.items) }
{
    push_name(out, name)?;
    push_amount(out, amount)
}

/// Appends a name and an amount that may be below zero, a space before each.
#[tactic(auto, using(crate::proofs::TextLemmas::field_pushed, crate::proofs::KeepLemmas::keeps), unfolding(crate::specs::Replies::signed_field))]
pub fn push_signed_field(out: &mut Vec<u8>, name: &[u8], amount: Cents) -> Result<(), OutOfMemory>
    ensures pushed { OnOk result (out.new.items ≡ out.old.items ++ signed_field name.now amount) }
    ensures kept { OnErr result (Keeps out.old.items out.new.items) }
{
    push_name(out, name)?;
    push_balance(out, amount)
}

/// Takes away again what was appended from `start` on, where it did not end well.
pub fn undone(
    out: &mut Vec<u8>,
    start: usize,
    pushed: Result<(), OutOfMemory>,
) -> Result<(), OutOfMemory>
    ensures same { result ≡ pushed }
    ensures pushed { OnOk result (out.new.items ≡ out.old.items) }
    ensures undone { OnErr result (out.new.items ≡ take start out.old.items) }
{
    if pushed.is_err() {
        out.truncate(start);
    }
    pushed
}
