//! The tokens of headers, part by part.
ghost use Rattle.std.specs.Prelude.{◌≡◌, ◌++◌, IfOk, OnOk, map};
ghost use Rattle.fin_parse.specs.Leaves as spec;

use crate::tree::Tree;
use fin_lex::Token;
use std::alloc::{AllocError, Global};

/// The tokens of a header: its kind, its name, its format, its fill and its shape.
#[derive(Drop)]
pub struct Head {
    pub kind: Vec<Token>,
    pub name: Vec<Token>,
    pub format: Vec<Token>,
    pub fill: Vec<Token>,
    pub shape: Vec<Token>,
}

/// Appends the tokens of a tree.
#[cycle(collects)]
fn collect(tree: &Tree, tokens: &mut Vec<Token>) -> Result<(), AllocError>
    ensures ok { OnOk result (tokens.new.items ≡ tokens.old.items ++ spec.tokens_of tree.now) }
{
    match tree {
        Tree::Leaf(token) => {
            tokens.push(*token)?;
            Ok(())
        }
        Tree::Group(parts) => collect_all(parts.as_slice(), tokens),
        Tree::Node(_, parts) => collect_all(parts.as_slice(), tokens),
    }
}

#[cycle(collects)]
fn collect_all(parts: &[Tree], tokens: &mut Vec<Token>) -> Result<(), AllocError>
    ensures ok { OnOk result (tokens.new.items ≡ tokens.old.items ++ spec.all_of (map spec.leaves_of parts.now)) }
{
    for part in parts {
        collect(part, tokens)?;
    }
    Ok(())
}

/// The tokens of a part of a tree, or none where there is no such part.
pub(crate) fn tokens_at(
    alloc: Global,
    parts: &[Tree],
    place: usize,
) -> Result<Vec<Token>, AllocError>
    ensures value { IfOk result (λ ts. ts.items ≡ (spec.leaves_at (map spec.leaves_of parts.now) place).all) }
{
    let mut tokens = Vec::new(alloc);
    match parts.get(place) {
        Some(part) => {
            collect(part, &mut tokens)?;
            Ok(tokens)
        }
        None => Ok(tokens),
    }
}

/// The parts of a header.
pub(crate) fn head_of(alloc: Global, tree: &Tree) -> Result<Head, AllocError>
    ensures value { IfOk result (λ h. spec.head_parts h ≡ (spec.leaves_of tree.now).head) }
{
    match tree {
        Tree::Leaf(_) => Ok(no_head(alloc)),
        Tree::Group(_) => Ok(no_head(alloc)),
        Tree::Node(_, parts) => head_from(alloc, parts.as_slice()),
    }
}

fn head_from(alloc: Global, parts: &[Tree]) -> Result<Head, AllocError>
    ensures value { IfOk result (λ h. spec.head_parts h ≡ spec.head_at (map spec.leaves_of parts.now)) }
{
    let kind = tokens_at(alloc, parts, 0)?;
    let name = tokens_at(alloc, parts, 1)?;
    let format = tokens_at(alloc, parts, 2)?;
    let fill = tokens_at(alloc, parts, 3)?;
    let shape = tokens_at(alloc, parts, 4)?;
    Ok(Head {
        kind,
        name,
        format,
        fill,
        shape,
    })
}

fn no_head(alloc: Global) -> Head
    ensures value { spec.head_parts result ≡ spec.no_head }
{
    Head {
        kind: Vec::new(alloc),
        name: Vec::new(alloc),
        format: Vec::new(alloc),
        fill: Vec::new(alloc),
        shape: Vec::new(alloc),
    }
}
