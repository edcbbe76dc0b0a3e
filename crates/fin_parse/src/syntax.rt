//! The trees of a text, or the first token that breaks the grammar or its limits.
ghost use Rattle.std.specs.Prelude.{◌≡◌, ◌≤◌, ◌++◌, length, take, List};
ghost use Rattle.fin_lex.specs.declared.token.Token.{Token as TokenValue};
ghost use Rattle.fin_parse.specs.Breaches.{SyntaxRead, last_line as line_of_last, next_line as line_of_next};

use crate::cursor::Cursor;
use crate::text::read_text;
use crate::tree::{Room, Stop};
use crate::trees::Text;
use fin_base::{Fail, Refusal, Rule};
use fin_lex::Token;
use std::alloc::Global;

/// The trees of the tokens of a text. `last` is the line behind the text.
///
/// # Errors
/// `S2` at the first token such that no text of the grammar begins with the tokens up to it; the end counts as a token
/// on the line `last`. `S3` at a token that opens a level or a loop too many, or that begins a header too many.
pub fn read_syntax(alloc: Global, tokens: &[Token], last: u32) -> Result<Text, Fail>
    ensures syntax { SyntaxRead tokens.now last result }
{
    let room = Room {
        headers: 64,
        levels: 64,
        loops: 16,
    };
    let mut cursor = Cursor::new(tokens);
    match read_text(alloc, &mut cursor, room) {
        Ok(text) => Ok(text),
        Err(Stop::Unexpected) => Err(Fail::Refused(Refusal {
            rule: Rule::S2,
            line: cursor.line(last),
        })),
        Err(Stop::Deep) => Err(Fail::Refused(Refusal {
            rule: Rule::S3,
            line: last_line(tokens, &cursor),
        })),
        Err(Stop::Crowded) => Err(Fail::Refused(Refusal {
            rule: Rule::S3,
            line: cursor.line(last),
        })),
        Err(Stop::Memory(e)) => Err(Fail::Memory(e)),
    }
}

/// The line of the last token that was taken.
fn last_line(tokens: &[Token], cursor: &Cursor) -> u32
    ensures value { (before : List TokenValue) → tokens.now ≡ before ++ cursor.now → result ≡ line_of_last before }
{
    let left = cursor.len();
    let taken = tokens.len().saturating_sub(left);
    if taken == 0 {
        return 0;
    }
    tokens[taken - 1].line
}
