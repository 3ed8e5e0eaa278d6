//! How strongly operators bind.

ghost use Rattle.std.specs.Prelude.{◌≡◌, MatchOption};
ghost use Rattle.chor_lexer.specs.Turns.{IsOperandOf, strength_at, repeats};

/// What an operand is: an expression whose operators are of this level or stronger.
#[derive(Clone, Copy)]
pub enum Level {
    /// Operands joined by `||`.
    Or,
    /// Operands joined by `&&`.
    And,
    /// A comparison, or an operand of one.
    Cmp,
    /// Operands joined by `+` and `-`.
    Sum,
    /// Operands joined by `*` and `/`.
    Prod,
    /// An operand without an operator of two operands outside parentheses.
    Un,
}

impl Level {
    // The level of the operands of operators of two operands.
    pub fn operand(self) -> Option<Level>
        ensures { MatchOption result (self ≡ Level.Un) (IsOperandOf self) }
    {
        match self {
            Level::Or => Some(Level::And),
            Level::And => Some(Level::Cmp),
            Level::Cmp => Some(Level::Sum),
            Level::Sum => Some(Level::Prod),
            Level::Prod => Some(Level::Un),
            Level::Un => None,
        }
    }

    // The strength of the operators of this level.
    pub fn strength(self) -> u8
        ensures { result ≡ strength_at self }
    {
        match self {
            Level::Or => 1,
            Level::And => 2,
            Level::Cmp => 3,
            Level::Sum => 4,
            Level::Prod => 5,
            Level::Un => 6,
        }
    }

    // Whether more operators of this level may follow one.
    pub fn repeats(self) -> bool
        ensures { result ≡ repeats self }
    {
        match self {
            Level::Or | Level::And | Level::Sum | Level::Prod => true,
            Level::Cmp | Level::Un => false,
        }
    }
}
