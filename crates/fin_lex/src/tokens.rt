//! The tokens of a whole text.
ghost use Rattle.std.specs.Prelude.{◌≡◌, ◌≤◌, ◌^◌, ◌++◌, ◌∷◌, [], length, IfOk, OnOk};
ghost use Rattle.fin_lex.specs.Tokens.{Outcome};

use crate::piece::{Piece, cut, newlines};
use crate::token::Token;
use fin_base::{Fail, Refusal, Rule};
use std::alloc::{AllocError, Global};

/// The tokens of a text whose first line has the number `first_line`, in order, no more than it has bytes. Blanks and
/// comments stand between them.
///
/// # Errors
/// `S1` at the line of the first bytes outside comments that begin no token, or of the first word or number that
/// breaks its limit or form; and want of memory.
pub fn lex(alloc: Global, text: &[u8], first_line: u32) -> Result<Vec<Token>, Fail>
    requires length { length text.now ≤ 16777216 }
    requires line { first_line ≤ 2 ^ 31 }
    ensures tokens { Outcome text.now first_line result }
    ensures few { IfOk result (λ ts. length ts.items ≤ length text.now) }
{
    let mut tokens: Vec<Token> = Vec::new(alloc);
    let mut at: usize = 0;
    let mut line = first_line;
    loop {
        match cut(&text[at..]) {
            Piece::End => return Ok(tokens),
            Piece::Blank(n) => {
                line += newlines(&text[at..at + n]) as u32;
                at += n;
            }
            Piece::Token(kind, n) => {
                let token = Token {
                    kind,
                    from: at as u32,
                    to: (at + n) as u32,
                    line,
                };
                append(&mut tokens, token)?;
                line += newlines(&text[at..at + n]) as u32;
                at += n;
            }
            Piece::Bad => {
                return Err(Fail::Refused(Refusal {
                    rule: Rule::S1,
                    line,
                }));
            }
        }
    }
}

fn append(tokens: &mut Vec<Token>, token: Token) -> Result<(), AllocError>
    ensures ok { OnOk result (tokens.new.items ≡ tokens.old.items ++ token ∷ []) }
{
    tokens.push(token)?;
    Ok(())
}
