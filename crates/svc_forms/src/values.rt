//! The values of a form's fields, together.

ghost use Rattle.std.specs.Prelude.{◌≡◌};

use crate::value::Value;
use std::marker::Model;

/// So many values as some form has.
#[derive(Drop)]
pub(crate) enum Kept {
    Zero,
    One([Value; 1]),
    Two([Value; 2]),
    Three([Value; 3]),
    Four([Value; 4]),
    Six([Value; 6]),
    Thirteen([Value; 13]),
}

/// The values of a form's fields, in their order. They take no memory of the heap.
#[derive(Drop)]
pub struct Values(pub(crate) Kept);

impl Model for Values {
    ghost use Rattle.std.specs.Prelude.{List};
    ghost use Rattle.svc_forms.specs.declared.value.Value.{Value as Item};
    ghost use Rattle.svc_forms.specs.Kept.{values_kept};

    ghost Value = { List Item };

    ghost view = { λ v. values_kept v.0 };
}

impl Values {
    /// The values.
    #[inline(always)]
    pub fn as_slice(&self) -> &[Value]
        ensures { result.now ≡ self.now }
    {
        match &self.0 {
            Kept::Zero => &[],
            Kept::One(values) => values,
            Kept::Two(values) => values,
            Kept::Three(values) => values,
            Kept::Four(values) => values,
            Kept::Six(values) => values,
            Kept::Thirteen(values) => values,
        }
    }
}
