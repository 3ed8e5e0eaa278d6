//! Marks.

ghost use Rattle.std.specs.Prelude.{◌≡◌, ◌≢◌, ◌∷◌, [], MatchOption};
ghost use Rattle.chor_lexer.specs.Mark.{spelling};

/// A token that is neither a word nor a number nor a text.
#[derive(Clone, Copy, PartialEq, Eq)]
pub enum Mark {
    /// `{`
    OpenBrace,
    /// `}`
    CloseBrace,
    /// `(`
    OpenParen,
    /// `)`
    CloseParen,
    /// `[`
    OpenBracket,
    /// `]`
    CloseBracket,
    /// `,`
    Comma,
    /// `;`
    Semicolon,
    /// `:`
    Colon,
    /// `.`
    Dot,
    /// `=`
    Assign,
    /// `:=`
    Becomes,
    /// `->`
    Arrow,
    /// `|`
    Bar,
    /// `@`
    At,
    /// `+`
    Plus,
    /// `-`
    Minus,
    /// `*`
    Star,
    /// `/`
    Slash,
    /// `==`
    Equal,
    /// `!=`
    NotEqual,
    /// `<`
    Less,
    /// `<=`
    LessEqual,
    /// `&&`
    And,
    /// `||`
    Or,
    /// `!`
    Not,
}

impl Mark {
    /// How the mark is written.
    pub fn spelling(self) -> &'static [u8]
        ensures { result.now ≡ spelling self }
    {
        match self {
            Mark::OpenBrace => b"{",
            Mark::CloseBrace => b"}",
            Mark::OpenParen => b"(",
            Mark::CloseParen => b")",
            Mark::OpenBracket => b"[",
            Mark::CloseBracket => b"]",
            Mark::Comma => b",",
            Mark::Semicolon => b";",
            Mark::Colon => b":",
            Mark::Dot => b".",
            Mark::Assign => b"=",
            Mark::Becomes => b":=",
            Mark::Arrow => b"->",
            Mark::Bar => b"|",
            Mark::At => b"@",
            Mark::Plus => b"+",
            Mark::Minus => b"-",
            Mark::Star => b"*",
            Mark::Slash => b"/",
            Mark::Equal => b"==",
            Mark::NotEqual => b"!=",
            Mark::Less => b"<",
            Mark::LessEqual => b"<=",
            Mark::And => b"&&",
            Mark::Or => b"||",
            Mark::Not => b"!",
        }
    }
}

// The mark of two bytes.
pub fn double_mark(first: u8, second: u8) -> Option<Mark>
    ensures { MatchOption result ((m : Mark) → spelling m ≢ first ∷ second ∷ []) (λ m. spelling m ≡ first ∷ second ∷ []) }
{
    match (first, second) {
        (b':', b'=') => Some(Mark::Becomes),
        (b'-', b'>') => Some(Mark::Arrow),
        (b'=', b'=') => Some(Mark::Equal),
        (b'!', b'=') => Some(Mark::NotEqual),
        (b'<', b'=') => Some(Mark::LessEqual),
        (b'&', b'&') => Some(Mark::And),
        (b'|', b'|') => Some(Mark::Or),
        _ => None,
    }
}

// The mark of one byte.
pub fn single_mark(byte: u8) -> Option<Mark>
    ensures { MatchOption result ((m : Mark) → spelling m ≢ byte ∷ []) (λ m. spelling m ≡ byte ∷ []) }
{
    match byte {
        b'{' => Some(Mark::OpenBrace),
        b'}' => Some(Mark::CloseBrace),
        b'(' => Some(Mark::OpenParen),
        b')' => Some(Mark::CloseParen),
        b'[' => Some(Mark::OpenBracket),
        b']' => Some(Mark::CloseBracket),
        b',' => Some(Mark::Comma),
        b';' => Some(Mark::Semicolon),
        b':' => Some(Mark::Colon),
        b'.' => Some(Mark::Dot),
        b'=' => Some(Mark::Assign),
        b'|' => Some(Mark::Bar),
        b'@' => Some(Mark::At),
        b'+' => Some(Mark::Plus),
        b'-' => Some(Mark::Minus),
        b'*' => Some(Mark::Star),
        b'/' => Some(Mark::Slash),
        b'<' => Some(Mark::Less),
        b'!' => Some(Mark::Not),
        _ => None,
    }
}
