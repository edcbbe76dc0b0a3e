//! The tokens of a program's text, each the longest that fits, with its bytes and its line; or the line of the first
//! bytes that begin no token.
#![tactic(auto)]

mod laws;
mod piece;
mod tables;
mod token;
mod tokens;

pub use laws::{
    never_both, one_line_of_breach, one_list_of_tokens, tables_are_the_words, tokens_or_breach,
};
pub use tables::{RESERVED, SYMBOLS, WORD_SYMBOLS};
pub use token::{Token, TokenKind};
pub use tokens::lex;
