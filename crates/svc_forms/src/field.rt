//! The fields of requests: their names, and what each one's text spells.

ghost use Rattle.std.specs.Prelude.{◌≡◌};
ghost use Rattle.svc_forms.specs.Fields as fields;

/// What a field's text spells.
#[derive(Clone, Copy, Debug, PartialEq, Eq)]
pub enum FieldKind {
    /// A number from 0 to 4,294,967,295.
    Number,
    /// An amount, as `1199.10`.
    Amount,
    /// A day, as `2024-02-01`.
    Day,
    /// A month, as `2024-02`.
    Month,
    /// A remittance type.
    Type,
    /// The kind of a bill.
    Kind,
    /// What is done with a surplus.
    Surplus,
    /// What is done with a shortage or a deficiency.
    Part,
    /// Where what is over of a payment goes.
    Designation,
    /// The key of a command.
    Key,
}

/// A field of a request.
#[derive(Clone, Copy, Debug, PartialEq, Eq)]
pub enum Field {
    Loan,
    Day,
    Principal,
    Rate,
    Fee,
    Pi,
    Term,
    First,
    Grace,
    Late,
    Cushion,
    Escrow,
    Type,
    Amount,
    Line,
    Number,
    Kind,
    Month,
    Every,
    Surplus,
    Short,
    Deficient,
    Period,
    Designation,
    Key,
}

impl Field {
    /// Its name, as a member of a JSON body has it.
    pub fn name(self) -> &'static str
        ensures { result.now ≡ fields.name_of self }
    {
        match self {
            Field::Loan => "loan",
            Field::Day => "day",
            Field::Principal => "principal",
            Field::Rate => "rate",
            Field::Fee => "fee",
            Field::Pi => "pi",
            Field::Term => "term",
            Field::First => "first",
            Field::Grace => "grace",
            Field::Late => "late",
            Field::Cushion => "cushion",
            Field::Escrow => "escrow",
            Field::Type => "type",
            Field::Amount => "amount",
            Field::Line => "line",
            Field::Number => "number",
            Field::Kind => "kind",
            Field::Month => "month",
            Field::Every => "every",
            Field::Surplus => "surplus",
            Field::Short => "short",
            Field::Deficient => "deficient",
            Field::Period => "period",
            Field::Designation => "designation",
            Field::Key => "key",
        }
    }

    /// What its text spells.
    pub fn kind(self) -> FieldKind
        ensures { result ≡ fields.kind_of_field self }
    {
        match self {
            Field::Day => FieldKind::Day,
            Field::Principal | Field::Pi | Field::Escrow | Field::Amount => FieldKind::Amount,
            Field::First | Field::Period => FieldKind::Month,
            Field::Type => FieldKind::Type,
            Field::Kind => FieldKind::Kind,
            Field::Surplus => FieldKind::Surplus,
            Field::Short | Field::Deficient => FieldKind::Part,
            Field::Designation => FieldKind::Designation,
            Field::Key => FieldKind::Key,
            _ => FieldKind::Number,
        }
    }

    /// Whether a request may leave it out: of the last field of a payment alone.
    pub fn is_optional(self) -> bool
        ensures { result ≡ fields.is_optional self }
    {
        matches!(self, Field::Designation)
    }
}
