//! The verdict on a program's text.
ghost use Rattle.fin_parse.specs.Verdict.{Verdict};

use crate::syntax::read_syntax;
use crate::text_forms::check_forms;
use crate::text_names::check_names;
use crate::trees::Text;
use fin_base::Fail;
use fin_lex::Token;
use std::alloc::Global;

/// The trees of a text that keeps the rules of the language. `last` is the line behind the text.
///
/// # Errors
/// `S2` and `S3`, then `N1` to `N3`, then `F1` and `F2`: the first of these steps with a breach, and its first breach in
/// the order of the text.
pub fn read_trees(alloc: Global, text: &[u8], tokens: &[Token], last: u32) -> Result<Text, Fail>
    ensures verdict { Verdict text.now tokens.now last result }
{
    let trees = read_syntax(alloc, tokens, last)?;
    check_names(alloc, text, &trees)?;
    check_forms(alloc, text, &trees)?;
    Ok(trees)
}
