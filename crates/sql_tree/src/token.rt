// What a text is split into.
use cell_base::Text;

/// A sign, by what it is read as.
#[derive(Clone, Copy, Debug, PartialEq, Eq)]
pub enum Sign {
    Plus,
    Minus,
    Star,
    Slash,
    Percent,
    Eq,
    /// `<>`, also written `!=`.
    Ne,
    Lt,
    Le,
    Gt,
    Ge,
    Open,
    Close,
    Comma,
    Semi,
    Dot,
    /// `::`.
    Cast,
    /// `||`.
    Join,
}

/// What a token is.
#[derive(Debug, Drop)]
pub enum TokenKind {
    /// An unquoted word, its ASCII capitals folded to small letters.
    Word(Text),
    /// The content of a quoted name.
    Quoted(Text),
    Number(i64),
    /// The content of a string.
    Str(Text),
    /// A parameter, as `$1`.
    Param(u32),
    Sign(Sign),
}

/// A token, and where its spelling stands in the text: its first byte's place, and the place after its last byte.
#[derive(Debug, Drop)]
pub struct Token {
    pub kind: TokenKind,
    pub start: u32,
    pub end: u32,
}
