//! What a line begins with, its words with a space before each, and the last line of a text.

ghost use Rattle.std.specs.Prelude.{◌≡◌, ◌++◌, ◌≤ℤ◌, pos, OnErr, OnOk};
ghost use Rattle.svc_base.specs.Text.{text_of_amount, text_of_number, text_of_signed};
ghost use Rattle.serv_line.specs.Pushed.{Keeps};
ghost use Rattle.serv_line.specs.Replies.{amount_field, number_field};
ghost use Rattle.serv_report.specs.Texts.{end_line, numbered, spaced};
ghost use Rattle.serv_report.specs.DeskTexts.{field};

use serv_line::{
    push_amount, push_amount_field, push_balance, push_bytes, push_number, push_value, push_wide,
};
use svc_base::{Cents, OutOfMemory};
use svc_forms::Value;

/// Appends a word.
#[tactic(auto, using(serv_line::proofs::KeepLemmas::keeps))]
pub(crate) fn push_word(out: &mut Vec<u8>, word: &[u8]) -> Result<(), OutOfMemory>
    ensures pushed { OnOk result (out.new.items ≡ out.old.items ++ spaced word.now) }
    ensures kept { OnErr result (Keeps out.old.items out.new.items) }
{
    push_bytes(out, b" ")?;
    push_bytes(out, word)
}

/// Appends what a line begins with: its name and a number.
#[tactic(auto, using(serv_line::proofs::KeepLemmas::keeps))]
pub(crate) fn push_numbered(out: &mut Vec<u8>, name: &[u8], number: u32) -> Result<(), OutOfMemory>
    ensures pushed { OnOk result (out.new.items ≡ out.old.items ++ numbered name.now number) }
    ensures kept { OnErr result (Keeps out.old.items out.new.items) }
{
    push_bytes(out, name)?;
    push_number(out, number)
}

/// Appends a number.
#[tactic(auto, using(serv_line::proofs::KeepLemmas::keeps))]
pub(crate) fn push_number_word(out: &mut Vec<u8>, number: u32) -> Result<(), OutOfMemory>
    ensures pushed { OnOk result (out.new.items ≡ out.old.items ++ spaced (text_of_number number)) }
    ensures kept { OnErr result (Keeps out.old.items out.new.items) }
{
    push_bytes(out, b" ")?;
    push_number(out, number)
}

/// Appends an amount, which is not below zero.
#[tactic(auto, using(serv_line::proofs::KeepLemmas::keeps))]
pub(crate) fn push_amount_word(out: &mut Vec<u8>, amount: Cents) -> Result<(), OutOfMemory>
    requires { pos 0 ≤ℤ amount }
    ensures pushed { OnOk result (out.new.items ≡ out.old.items ++ spaced (text_of_amount amount)) }
    ensures kept { OnErr result (Keeps out.old.items out.new.items) }
{
    push_bytes(out, b" ")?;
    push_amount(out, amount)
}

/// Appends a name and an amount, which is not below zero.
pub(crate) fn push_unsigned_field(
    out: &mut Vec<u8>,
    name: &[u8],
    amount: Cents,
) -> Result<(), OutOfMemory>
    requires { pos 0 ≤ℤ amount }
    ensures pushed { OnOk result (out.new.items ≡ out.old.items ++ amount_field name.now amount) }
    ensures kept { OnErr result (Keeps out.old.items out.new.items) }
{
    push_amount_field(out, name, amount)
}

/// Appends an amount that may be below zero.
#[tactic(auto, using(serv_line::proofs::KeepLemmas::keeps))]
pub(crate) fn push_signed_word(out: &mut Vec<u8>, amount: Cents) -> Result<(), OutOfMemory>
    ensures pushed { OnOk result (out.new.items ≡ out.old.items ++ spaced (text_of_signed amount)) }
    ensures kept { OnErr result (Keeps out.old.items out.new.items) }
{
    push_bytes(out, b" ")?;
    push_balance(out, amount)
}

/// Appends a name and a count.
#[tactic(auto, using(serv_line::proofs::KeepLemmas::keeps), unfolding(serv_line::specs::Replies::number_field))]
pub(crate) fn push_count_field(
    out: &mut Vec<u8>,
    name: &[u8],
    count: usize,
) -> Result<(), OutOfMemory>
    ensures pushed { OnOk result (out.new.items ≡ out.old.items ++ number_field name.now count) }
    ensures kept { OnErr result (Keeps out.old.items out.new.items) }
{
    push_word(out, name)?;
    push_bytes(out, b" ")?;
    push_wide(out, count as u64)
}

/// Appends a name and a value.
#[tactic(auto, using(serv_line::proofs::KeepLemmas::keeps))]
pub(crate) fn push_field(out: &mut Vec<u8>, name: &[u8], value: &Value) -> Result<(), OutOfMemory>
    ensures pushed { OnOk result (out.new.items ≡ out.old.items ++ field name.now value.now) }
    ensures kept { OnErr result (Keeps out.old.items out.new.items) }
{
    push_word(out, name)?;
    push_bytes(out, b" ")?;
    push_value(out, value)
}

/// Appends the last line of a text.
pub(crate) fn push_end(out: &mut Vec<u8>) -> Result<(), OutOfMemory>
    ensures pushed { OnOk result (out.new.items ≡ out.old.items ++ end_line) }
    ensures kept { OnErr result (out.new.items ≡ out.old.items) }
{
    push_bytes(out, b"end\n")
}
