//! The code of expressions.
ghost use Rattle.std.specs.Prelude.{◌≡◌, ◌+◌, ◌≤◌, ◌<◌, ◌^◌, ◌++◌, IfOk, OnOk, length, map};
ghost use Rattle.fin_tensor.specs.Levels.{AreSmall};
ghost use Rattle.fin_ir.specs.declared.expression.IExpr.TheVariants as made;
ghost use Rattle.fin_tensor.specs.Building as building;
ghost use Rattle.fin_ast.specs.Spine.{expr_of};
ghost use Rattle.fin_read.specs.Steps.{Appends};
ghost use Rattle.fin_read.specs.Values as spec;

use crate::parts::{Place, neg, two};
use crate::reads::{push_first, push_last, push_levels};
use fin_ast::{Expr, Head, Header, Index};
use fin_base::Op;
use fin_ir::{Code, IExpr};
use fin_tensor::{Duplicate, Format, Nums, Seq, Wrap};
use sqlite_items::Items;
use std::alloc::{AllocError, Global};
use std::marker::Model;

/// The headers of a program, and the shape of each tensor. No extent is over 2^40.
#[derive(Drop)]
pub struct Heads<'a> {
    pub headers: &'a [Header],
    pub shapes: &'a [Nums],
}

impl<'a> Model for Heads<'a> {
    ghost use Rattle.fin_read.specs.Values.{Heads as Seen, AreShapes};

    ghost Value = { Seen };

    ghost use Rattle.std.specs.Coded.{codes};
    ghost use Rattle.fin_ast.specs.contracts.header.Header as header;

    ghost coded = { Prim.hlevel (codes, header.the_row.coded) };

    ghost view = { λ h. record { headers = h.headers.now; shapes = h.shapes.now } };

    ghost invariant = { λ h. AreShapes h.shapes.now };
}

/// How many nodes of an expression of loop code stand one in another along its left side, at most.
const MOST_DEEP: u32 = 64;

/// An expression over what its accesses leave, how deep it goes along its left side, and the first local that is free
/// behind it.
#[derive(Drop)]
pub struct Value {
    pub expr: IExpr,
    pub depth: u32,
    pub next: u32,
}

/// Appends the code of the accesses of an expression, and gives the expression over what they leave. A sum may have
/// millions of terms, and groups to the left: it is gone along in a loop, and its code goes over locals.
#[cycle(valued)]
pub fn push_value(
    alloc: Global,
    into: &mut Items<Code>,
    heads: &Heads<'_>,
    e: &Expr,
    next: u32,
) -> Result<Value, AllocError>
    ensures value { IfOk result (λ v. v.expr ≡ (spec.value_code heads.now e.now next).value) }
    ensures depth { IfOk result (λ v. v.depth ≡ (spec.value_code heads.now e.now next).depth) }
    ensures next { IfOk result (λ v. v.next ≡ (spec.value_code heads.now e.now next).next) }
    ensures shallow { IfOk result (λ v. v.depth ≤ spec.most_deep) }
    ensures code { OnOk result (into.new ≡ into.old ++ spec.prelude (spec.value_code heads.now e.now next)) }
{
    let spine = e.spine(alloc)?;
    let mut value = push_head(alloc, into, heads, spine.head, next)?;
    let mut sides = spine.sides;
    while let Some((op, right)) = sides.pop() {
        let left = rested(into, value)?;
        let right = push_value(alloc, into, heads, right, left.next)?;
        let expr = two(alloc, op, left.expr, right.expr)?;
        value = valued(expr, left.depth + 1, right.next);
    }
    Ok(value)
}

#[cycle(valued)]
fn push_head(
    alloc: Global,
    into: &mut Items<Code>,
    heads: &Heads<'_>,
    head: Head<'_>,
    next: u32,
) -> Result<Value, AllocError>
    ensures value { IfOk result (λ v. v.expr ≡ (spec.value_code heads.now (expr_of head.entry) next).value) }
    ensures depth { IfOk result (λ v. v.depth ≡ (spec.value_code heads.now (expr_of head.entry) next).depth) }
    ensures next { IfOk result (λ v. v.next ≡ (spec.value_code heads.now (expr_of head.entry) next).next) }
    ensures shallow { IfOk result (λ v. v.depth ≤ spec.most_deep) }
    ensures code { let v = spec.value_code heads.now (expr_of head.entry) next in
        OnOk result (into.new ≡ into.old ++ spec.prelude v) }
{
    match head {
        Head::Num(value) => Ok(valued(IExpr::Num(value), 0, next)),
        Head::Var { var, line: _ } => Ok(valued(IExpr::Local(var), 0, next)),
        Head::Read {
            tensor,
            at,
            line: _,
        } => push_access(alloc, into, heads, tensor, at.as_slice(), next),
        Head::Neg(inner) => {
            let value = push_value(alloc, into, heads, inner, next)?;
            let inner = rested(into, value)?;
            let expr = neg(alloc, inner.expr)?;
            Ok(valued(expr, inner.depth + 1, inner.next))
        }
    }
}

// The expression, or the local in which it is set down where it is deep.
fn rested(into: &mut Items<Code>, v: Value) -> Result<Value, AllocError>
    ensures value { IfOk result (λ r. r.expr ≡ spec.rest_value (spec.is_shallow v.depth) v.expr v.next) }
    ensures depth { IfOk result (λ r. r.depth ≡ spec.rest_depth (spec.is_shallow v.depth) v.depth) }
    ensures next { IfOk result (λ r. r.next ≡ spec.rest_next (spec.is_shallow v.depth) v.next) }
    ensures shallow { IfOk result (λ r. r.depth < spec.most_deep) }
    ensures code { let steps = spec.rest_steps (spec.is_shallow v.depth) v.expr v.next in
        OnOk result (Appends into.old into.new steps) }
{
    if v.depth < MOST_DEEP {
        return Ok(v);
    }
    if v.next == u32::MAX {
        return Err(AllocError);
    }
    let local = v.next;
    into.push(Code::Assign {
        local,
        value: v.expr,
    })?;
    Ok(valued(IExpr::Local(local), 0, local + 1))
}

fn valued(expr: IExpr, depth: u32, next: u32) -> Value
    ensures expr { result.expr ≡ expr }
    ensures depth { result.depth ≡ depth }
    ensures next { result.next ≡ next }
{
    Value { expr, depth, next }
}

// Appends the code of an access, which leaves its value in the local `next`. There is no memory for as many locals as a
// `u32` can't count.
fn push_access(
    alloc: Global,
    into: &mut Items<Code>,
    heads: &Heads<'_>,
    tensor: u8,
    at: &[Index],
    next: u32,
) -> Result<Value, AllocError>
    ensures value { IfOk result (λ v. v.expr ≡ made.Local next) }
    ensures depth { IfOk result (λ v. v.depth ≡ 0) }
    ensures next { IfOk result (λ v. v.next ≡ next + 1) }
    ensures code { OnOk result (Appends into.old into.new (spec.access_steps heads.now tensor at.now next)) }
{
    if next == u32::MAX {
        return Err(AllocError);
    }
    let format = format_of(alloc, heads, tensor)?;
    let shape = shape_of(heads, tensor);
    let xs = index_codes(alloc, at)?;
    let place = Place {
        tensor,
        level: 0,
        at: next,
    };
    push_first(alloc, into, shape, xs.as_slice(), next)?;
    push_levels(
        alloc,
        into,
        place,
        format.levels.as_slice(),
        shape,
        xs.as_slice(),
    )?;
    push_last(alloc, into, tensor, format.fill, next)?;
    Ok(valued(IExpr::Local(next), 0, next + 1))
}

/// The code of each index.
pub fn index_codes(alloc: Global, at: &[Index]) -> Result<Seq<IExpr>, AllocError>
    ensures { IfOk result (λ xs. xs ≡ map spec.index_code at.now) }
{
    let mut xs = Seq::new(alloc);
    for index in at {
        let x = index_code(alloc, *index)?;
        xs.push(x)?;
    }
    Ok(xs)
}

fn index_code(alloc: Global, index: Index) -> Result<IExpr, AllocError>
    ensures { IfOk result (λ e. e ≡ spec.index_code index) }
{
    let sum = vars_code(alloc, index.first, index.second)?;
    if index.offset == 0 {
        return Ok(sum);
    }
    two(alloc, Op::Add, sum, IExpr::Num(index.offset))
}

fn vars_code(alloc: Global, first: Option<u32>, second: Option<u32>) -> Result<IExpr, AllocError>
    ensures { IfOk result (λ e. e ≡ spec.vars_code first second) }
{
    match (first, second) {
        (None, None) => Ok(IExpr::Num(0)),
        (None, Some(var)) => Ok(IExpr::Local(var)),
        (Some(var), None) => Ok(IExpr::Local(var)),
        (Some(first), Some(second)) => two(
            alloc,
            Op::Add,
            IExpr::Local(first),
            IExpr::Local(second),
        ),
    }
}

/// A copy of a tensor's format.
pub fn format_of(alloc: Global, heads: &Heads<'_>, tensor: u8) -> Result<Format, AllocError>
    ensures format { IfOk result (λ f. f ≡ spec.format_of heads.now tensor) }
    ensures few { IfOk result (λ f. length f.levels ≤ 8) }
{
    match heads.headers.get(tensor as usize) {
        Some(header) => header.format.copy(alloc),
        None => Ok(no_format(alloc)),
    }
}

fn no_format(alloc: Global) -> Format
    ensures { result ≡ building.no_format }
{
    Format {
        levels: Seq::new(alloc),
        wrap: Wrap::Bare,
        fill: 0,
    }
}

/// The shape of a tensor.
pub fn shape_of<'a>(heads: &Heads<'a>, tensor: u8) -> &'a [u64]
    ensures shape { result.now ≡ spec.shape_of heads.now tensor }
    ensures small { AreSmall result.now }
{
    match heads.shapes.get(tensor as usize) {
        Some(shape) => shape.as_slice(),
        None => &[],
    }
}
