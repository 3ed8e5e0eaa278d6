//! Sorts, values and the loads of messages.

ghost use Rattle.std.specs.Prelude.{◌≡◌};
ghost use Rattle.chor_base.specs.Sorts.{same_sort};

use crate::names::NameId;

/// What sort of value an expression or a variable has.
#[derive(Clone, Copy, PartialEq, Eq)]
pub enum Sort {
    Int,
    Bool,
    Text,
}

impl Sort {
    /// Whether two sorts are the same.
    pub fn is_same(self, other: Sort) -> bool
        ensures { result ≡ same_sort self other }
    {
        match (self, other) {
            (Sort::Int, Sort::Int) | (Sort::Bool, Sort::Bool) | (Sort::Text, Sort::Text) => true,
            _ => false,
        }
    }
}

/// What a variable has.
#[derive(Clone, Copy, PartialEq, Eq)]
pub enum Value {
    /// A whole number of 64 bits with sign.
    Int(i64),
    /// A truth value.
    Bool(bool),
    /// A literal text, by its number.
    Text(u32),
    /// An endpoint: a role of the session with this number. No text of a program spells one.
    Part(u32, NameId),
}

/// What a message carries.
#[derive(Clone, Copy, PartialEq, Eq)]
pub enum Load {
    /// A value; an endpoint that is handed over is `Value::Part`.
    Value(Value),
    /// The label of a selection.
    Label(NameId),
}
