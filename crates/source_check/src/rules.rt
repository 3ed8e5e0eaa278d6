//! Classes of rules.

/// A class of rules that judges files.
#[derive(Clone, Copy, PartialEq, Eq)]
pub enum Class {
    /// The rules of names, N1 to N3.
    Names,
    /// The rules of protocols, G1 to G3.
    Protocols,
    /// The rules of the views of roles, V1 to V3.
    Views,
    /// The rules of types, T1 to T9.
    Types,
    /// The rules of guarded procedures and linear channels, U1 and U2.
    Linearity,
    /// The rules of branches and starts that are merged, M1 and M2.
    Merging,
}

/// Which rules a source is judged by, beside those of tokens and of the grammar.
#[derive(Clone, Copy, PartialEq, Eq)]
pub enum Rules {
    /// No others.
    Grammar,
    /// Those of names, protocols and views.
    Views,
    /// Those of all classes.
    All,
}
