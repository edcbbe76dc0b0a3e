//! What a token is.

/// The kind of a token. Its text is the slice of the source from its first byte to its last.
#[derive(Clone, Copy, Debug, PartialEq, Eq)]
pub enum TokenKind {
    /// A word that isn't reserved.
    Name,
    /// A number up to 2^63.
    Number(u64),
    /// A reserved word, by its place in the table of reserved words.
    Reserved(u8),
    /// A symbol, by its place in the table of symbols; those that begin with a word follow the others.
    Symbol(u8),
}

/// A token: its kind, its bytes `from..to` in the text, and its line.
#[derive(Clone, Copy, Debug, PartialEq, Eq)]
pub struct Token {
    pub kind: TokenKind,
    pub from: u32,
    pub to: u32,
    pub line: u32,
}
