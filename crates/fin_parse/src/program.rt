//! The program that a text stands for.
ghost use Rattle.std.specs.Prelude.{◌≡◌, ◌≤◌, IfOk, [], length, map};
ghost use Rattle.fin_parse.specs.HeaderNames.{tensors_of as tensors};
ghost use Rattle.fin_parse.specs.HeaderTrees.{IsAcceptedText};
ghost use Rattle.fin_parse.specs.Leaves.{header_of};
ghost use Rattle.fin_parse.specs.Program.{IsProgram, OnlyProgram, Parsed};
ghost use Rattle.fin_parse.specs.Verdict.{IsAccepted};

use crate::counts::Names;
use crate::header_trees::headers;
use crate::headers::check_headers;
use crate::scope::Tensor;
use crate::statements::statements_of;
use crate::trees::Text;
use crate::verdict::read_trees;
use fin_ast::Program;
use fin_base::Fail;
use fin_lex::Token;
use std::alloc::{AllocError, Global};

/// The program that the tokens of a text stand for; they stand for no other one. `last` is the line behind the text, and
/// there are less than 2^32 tokens.
///
/// # Errors
/// `S2` and `S3`, then `N1` to `N3`, then `F1` and `F2`: the first of these steps with a breach, and its first breach in
/// the order of the text (`docs/LANGUAGE.md`).
pub fn parse(alloc: Global, text: &[u8], tokens: &[Token], last: u32) -> Result<Program, Fail>
    requires few { length tokens.now ≤ 4294967295 }
    ensures parsed { Parsed text.now tokens.now last result }
    ensures only { IfOk result (λ p. OnlyProgram text.now tokens.now last p) }
{
    let trees = read_trees(alloc, text, tokens, last)?;
    Ok(program_of(alloc, text, tokens, &trees, last)?)
}

fn program_of(
    alloc: Global,
    text: &[u8],
    tokens: &[Token],
    trees: &Text,
    last: u32,
) -> Result<Program, AllocError>
    requires few { length tokens.now ≤ 4294967295 }
    requires accepted { IsAccepted text.now tokens.now trees.now }
    ensures program { IfOk result (λ p. IsProgram text.now trees.now last p) }
{
    let headers = headers(alloc, text, trees)?;
    let tensors = tensors_of(alloc, text, trees)?;
    let names = Names {
        text,
        tensors: tensors.as_slice(),
    };
    let body = statements_of(alloc, &names, trees.body.as_slice())?;
    Ok(Program {
        headers,
        body,
        last,
    })
}

/// The tensors that the headers of a text name, in order.
fn tensors_of(alloc: Global, text: &[u8], trees: &Text) -> Result<Vec<Tensor>, AllocError>
    requires accepted { IsAcceptedText text.now trees.now }
    ensures value { IfOk result (λ ts. ts.items ≡ tensors [] (map header_of trees.now.headers)) }
{
    let mut tensors = Vec::new(alloc);
    check_headers(alloc, text, trees.headers.as_slice(), &mut tensors)?;
    Ok(tensors)
}
