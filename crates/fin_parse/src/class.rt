//! The part that a token plays in the grammar.
ghost use Rattle.std.specs.Prelude.{◌≡◌, slice_index_or};
ghost use Rattle.fin_parse.specs.Classes.{class_of as class};

use fin_lex::TokenKind;

/// A class of tokens that the grammar does not tell apart.
#[derive(Clone, Copy, Debug, PartialEq, Eq)]
pub enum Class {
    /// `in`
    In,
    /// `out` or `tmp`
    OutOrTmp,
    /// `fill`
    Fill,
    /// `shape`
    Shape,
    /// `for` or `par`
    Loop,
    /// `if`
    If,
    /// `let`
    Let,
    /// `freeze` or `thaw`
    Turn,
    /// `walk`, `gallop` or `follow`
    Protocol,
    /// `min`, `max`, `and`, `or` or `xor`
    Call,
    /// A level or a decoration.
    Store,
    /// `element`
    Element,
    OpenBracket,
    CloseBracket,
    OpenParenthesis,
    CloseParenthesis,
    OpenBrace,
    CloseBrace,
    Comma,
    Tilde,
    Plus,
    Minus,
    Star,
    /// `<`, `<=`, `>`, `>=`, `==` or `!=`
    Comparison,
    /// `=`
    Equals,
    /// `+=`, `*=`, `min=`, `max=`, `and=`, `or=` or `xor=`
    Reducing,
    /// `.=`
    Declares,
    /// `..`
    Dots,
    /// A name.
    Name,
    /// A number below 2^63.
    Number,
    /// The number 2^63.
    Widest,
    /// No token of any text.
    Unknown,
    /// The end of the text.
    End,
}

/// The classes of the reserved words, by their places.
pub const RESERVED_CLASSES: [Class; 28] = [
    Class::In,
    Class::OutOrTmp,
    Class::OutOrTmp,
    Class::Fill,
    Class::Shape,
    Class::Loop,
    Class::Loop,
    Class::If,
    Class::Let,
    Class::Turn,
    Class::Turn,
    Class::Protocol,
    Class::Protocol,
    Class::Protocol,
    Class::Call,
    Class::Call,
    Class::Call,
    Class::Call,
    Class::Call,
    Class::Store,
    Class::Store,
    Class::Store,
    Class::Store,
    Class::Store,
    Class::Element,
    Class::Store,
    Class::Store,
    Class::Store,
];

/// The classes of the symbols, by their places.
pub const SYMBOL_CLASSES: [Class; 27] = [
    Class::OpenBracket,
    Class::CloseBracket,
    Class::OpenParenthesis,
    Class::CloseParenthesis,
    Class::OpenBrace,
    Class::CloseBrace,
    Class::Comma,
    Class::Tilde,
    Class::Plus,
    Class::Minus,
    Class::Star,
    Class::Comparison,
    Class::Comparison,
    Class::Comparison,
    Class::Comparison,
    Class::Comparison,
    Class::Comparison,
    Class::Equals,
    Class::Reducing,
    Class::Reducing,
    Class::Declares,
    Class::Dots,
    Class::Reducing,
    Class::Reducing,
    Class::Reducing,
    Class::Reducing,
    Class::Reducing,
];

/// The class of a kind of tokens.
pub fn class_of(kind: TokenKind) -> Class
    ensures value { result ≡ class kind }
{
    match kind {
        TokenKind::Name => Class::Name,
        TokenKind::Number(value) => {
            if value < 1 << 63 {
                Class::Number
            } else if value == 1 << 63 {
                Class::Widest
            } else {
                Class::Unknown
            }
        }
        TokenKind::Reserved(place) => at(&RESERVED_CLASSES, place),
        TokenKind::Symbol(place) => at(&SYMBOL_CLASSES, place),
    }
}

fn at(table: &[Class], place: u8) -> Class
    ensures value { result ≡ slice_index_or table.now place Class.Unknown }
{
    if (place as usize) < table.len() {
        table[place as usize]
    } else {
        Class::Unknown
    }
}
