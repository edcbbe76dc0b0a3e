//! The first breach of the rules on names in trees, in the order of the text.
ghost use Rattle.std.specs.Prelude.{◌≡◌, ◌++◌, ◌∷◌, [], IfOk, IfSome, None, Some, List, map};
ghost use Rattle.fin_parse.specs.declared.scope.Tensor.{Tensor};
ghost use Rattle.fin_parse.specs.Names as spec;

use crate::counts::Names;
use crate::names::{
    binding, bound_named, breach, is_same, loop_use, tensor_named, tensor_use, variable_use,
};
use crate::roles::{Role, inner_from, name_place, role_of};
use crate::scope::{Bound, Place};
use crate::tree::Tree;
use fin_base::{Refusal, Rule};
use fin_lex::Token;
use std::alloc::{AllocError, Global};

/// The first breach in a tree.
#[cycle(checks)]
pub(crate) fn check(
    alloc: Global,
    names: &Names,
    place: &Place,
    tree: &Tree,
) -> Result<Option<Refusal>, AllocError>
    ensures first { IfOk result (λ r. r ≡ spec.first_of ((spec.facts_of names.now.text.now tree.now).breaches (spec.scope_of names.now.tensors.now place.now))) }
{
    match tree {
        Tree::Leaf(_) => Ok(None),
        Tree::Group(parts) => check_parts(alloc, names, place, place, 0, parts.as_slice()),
        Tree::Node(form, parts) => check_role(
            alloc,
            names,
            place,
            role_of(*form),
            parts.as_slice(),
        ),
    }
}

#[cycle(checks)]
fn check_role(
    alloc: Global,
    names: &Names,
    place: &Place,
    role: Role,
    parts: &[Tree],
) -> Result<Option<Refusal>, AllocError>
    ensures first { IfOk result (λ r. r ≡ spec.first_of (spec.role_breaches names.now.text.now role (map (spec.facts_of names.now.text.now) parts.now) (spec.scope_of names.now.tensors.now place.now))) }
{
    let name = names.token_at(parts, name_place(role));
    let own = named_breach(names, place, role, name, names.count_at(parts, 1));
    if own.is_some() {
        return Ok(own);
    }
    match within(alloc, place, role, name)? {
        Some(inner) => check_parts(alloc, names, place, &inner, inner_from(role), parts),
        None => check_parts(alloc, names, place, place, inner_from(role), parts),
    }
}

/// The first breach in parts, of which those before a place stand in the outer scope and the others in the inner one.
#[cycle(checks)]
pub(crate) fn check_parts(
    alloc: Global,
    names: &Names,
    outer: &Place,
    inner: &Place,
    from: usize,
    parts: &[Tree],
) -> Result<Option<Refusal>, AllocError>
    ensures first { IfOk result (λ r. r ≡ spec.first_of (spec.part_breaches from (map (spec.facts_of names.now.text.now) parts.now) (spec.scope_of names.now.tensors.now outer.now) (spec.scope_of names.now.tensors.now inner.now))) }
{
    let mut left = from;
    for part in parts {
        let found = if left > 0 {
            check(alloc, names, outer, part)?
        } else {
            check(alloc, names, inner, part)?
        };
        if found.is_some() {
            return Ok(found);
        }
        left = left.saturating_sub(1);
    }
    Ok(None)
}

/// The place within a form, where it is another one.
fn within(
    alloc: Global,
    place: &Place,
    role: Role,
    name: Option<Token>,
) -> Result<Option<Place>, AllocError>
    ensures some { (tensors : List Tensor) → IfOk result (λ o. IfSome o (λ p. spec.scope_of tensors p ≡ spec.scope_within role name (spec.scope_of tensors place.now))) }
    ensures none { (tensors : List Tensor) → IfOk result (λ o. o ≡ None → spec.scope_of tensors place.now ≡ spec.scope_within role name (spec.scope_of tensors place.now)) }
{
    let Some(name) = name else {
        return Ok(None);
    };
    match role {
        Role::LoopName => {
            let inner = bound_within(
                alloc,
                place,
                Bound {
                    name,
                    is_loop: true,
                },
            )?;
            Ok(Some(inner))
        }
        Role::LetName => {
            let inner = bound_within(
                alloc,
                place,
                Bound {
                    name,
                    is_loop: false,
                },
            )?;
            Ok(Some(inner))
        }
        Role::LooseName => {
            let inner = begun_within(alloc, place, name)?;
            Ok(Some(inner))
        }
        Role::Changed => Ok(None),
        Role::Turned => Ok(None),
        Role::Operand => Ok(None),
        Role::IndexName => Ok(None),
        Role::AddedName => Ok(None),
        Role::Other => Ok(None),
    }
}

/// The place within a loop or let.
fn bound_within(alloc: Global, place: &Place, variable: Bound) -> Result<Place, AllocError>
    ensures within { IfOk result (λ p. (p.bound.items ≡ place.now.bound.items ++ variable ∷ []) × (p.begun ≡ place.now.begun)) }
{
    let mut bound = Vec::from_slice(alloc, place.bound.as_slice())?;
    bound.push(variable)?;
    Ok(Place {
        bound,
        begun: place.begun,
    })
}

/// The place behind the first variable of a `~` index.
fn begun_within(alloc: Global, place: &Place, name: Token) -> Result<Place, AllocError>
    ensures within { IfOk result (λ p. (p.bound.items ≡ place.now.bound.items) × (p.begun ≡ Some name)) }
{
    let bound = Vec::from_slice(alloc, place.bound.as_slice())?;
    Ok(Place {
        bound,
        begun: Some(name),
    })
}

fn named_breach(
    names: &Names,
    place: &Place,
    role: Role,
    name: Option<Token>,
    count: Option<u64>,
) -> Option<Refusal>
    ensures value { result ≡ spec.first_of (spec.named_breaches names.now.text.now role name count (spec.scope_of names.now.tensors.now place.now)) }
{
    match name {
        Some(name) => own_breach(names, place, role, name, count),
        None => None,
    }
}

fn own_breach(
    names: &Names,
    place: &Place,
    role: Role,
    name: Token,
    count: Option<u64>,
) -> Option<Refusal>
    ensures value { result ≡ spec.first_of (spec.own_breaches names.now.text.now role name count (spec.scope_of names.now.tensors.now place.now)) }
{
    let tensor = tensor_named(names.text, names.tensors, name);
    let variable = bound_named(names.text, place.bound.as_slice(), name);
    match role {
        Role::LoopName => binding(name, tensor.is_some() || variable.is_some()),
        Role::LetName => binding(name, tensor.is_some() || variable.is_some()),
        Role::Changed => tensor_use(name, count, tensor),
        Role::Turned => tensor_use(name, None, tensor),
        Role::Operand => match count {
            Some(count) => tensor_use(name, Some(count), tensor),
            None => variable_use(name, variable),
        },
        Role::IndexName => loop_use(name, variable),
        Role::LooseName => loop_use(name, variable),
        Role::AddedName => {
            if is_begun(names.text, place.begun, name) {
                breach(Rule::N1, name)
            } else {
                loop_use(name, variable)
            }
        }
        Role::Other => None,
    }
}

fn is_begun(text: &[u8], begun: Option<Token>, name: Token) -> bool
    ensures value { result ≡ spec.is_begun text.now begun name }
{
    match begun {
        Some(first) => is_same(text, first, name),
        None => false,
    }
}
