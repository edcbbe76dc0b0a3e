//! The code of statements without bodies.
ghost use Rattle.std.specs.Prelude.{◌≡◌, ◌+◌, ◌≤◌, ◌^◌, ◌++◌, [], ◌∷◌, IfOk, OnOk};
ghost use Rattle.fin_tensor.specs.Extents.{dense_size};
ghost use Rattle.fin_stage.specs.Stages as stage;
ghost use Rattle.fin_perform.specs.Built.{AreBuilt};
ghost use Rattle.fin_read.specs.Values as values;
ghost use Rattle.fin_perform.specs.Codes as spec;

use fin_ast::{Expr, Index};
use fin_base::Reduce;
use fin_ir::{Code, IExpr};
use fin_read::{Heads, Value, count_expr, format_of, in_box, index_codes, push_value, shape_of};
use fin_tensor::Level;
use sqlite_items::{Boxed, Items};
use std::alloc::{AllocError, Global};

/// Appends a charge of 1.
pub fn push_charge(into: &mut Items<Code>) -> Result<(), AllocError>
    ensures { OnOk result (into.new ≡ into.old ++ spec.charge_of 1 ∷ []) }
{
    into.push(Code::Charge(IExpr::Num(1)))
}

/// The code of a declaration.
pub fn declare_code(alloc: Global, heads: &Heads<'_>, tensor: u8) -> Result<Code, AllocError>
    requires built { AreBuilt heads.now }
    ensures { IfOk result (λ c. c ≡ spec.declare_code heads.now tensor) }
{
    let format = format_of(alloc, heads, tensor)?;
    let front = dense_front(format.levels.as_slice(), shape_of(heads, tensor));
    let mut declared = Items::new(alloc);
    declared.push(Code::Declare { tensor })?;
    declared.push(Code::Charge(IExpr::Num((1 + front) as i64)))?;
    Ok(Code::Seq(declared))
}

// The product of the dense extents before the first other level.
#[tactic(auto, using(crate::proofs::Fronts::fronts))]
fn dense_front(levels: &[Level], shape: &[u64]) -> u64
    requires small { dense_size levels.now shape.now ≤ 2 ^ 24 }
    ensures front { result ≡ stage.dense_front levels.now shape.now }
    ensures within { result ≤ dense_size levels.now shape.now }
{
    if levels.is_empty() || shape.is_empty() {
        return 1;
    }
    if levels[0] != Level::Dense {
        return 1;
    }
    shape[0] * dense_front(&levels[1..], &shape[1..])
}

/// The code of a freeze.
pub fn freeze_code(alloc: Global, heads: &Heads<'_>, tensor: u8) -> Result<Code, AllocError>
    ensures { IfOk result (λ c. c ≡ spec.freeze_code heads.now tensor) }
{
    let count = count_of(alloc, heads, tensor)?;
    let mut frozen = Items::new(alloc);
    frozen.push(Code::Freeze { tensor })?;
    push_charge(&mut frozen)?;
    frozen.push(Code::Charge(count))?;
    Ok(Code::Seq(frozen))
}

/// The code of a thaw.
pub fn thaw_code(alloc: Global, heads: &Heads<'_>, tensor: u8) -> Result<Code, AllocError>
    ensures { IfOk result (λ c. c ≡ spec.thaw_code heads.now tensor) }
{
    let count = count_of(alloc, heads, tensor)?;
    let mut thawed = Items::new(alloc);
    push_charge(&mut thawed)?;
    thawed.push(Code::Charge(count))?;
    thawed.push(Code::Thaw { tensor })?;
    Ok(Code::Seq(thawed))
}

fn count_of(alloc: Global, heads: &Heads<'_>, tensor: u8) -> Result<IExpr, AllocError>
    ensures { IfOk result (λ e. e ≡ spec.count_of heads.now tensor) }
{
    let format = format_of(alloc, heads, tensor)?;
    count_expr(
        alloc,
        format.levels.as_slice(),
        shape_of(heads, tensor),
        tensor,
    )
}

/// An update of a tensor at a coordinate by a value.
#[derive(Drop)]
pub struct Update<'a> {
    pub tensor: u8,
    pub at: &'a [Index],
    pub by: Reduce,
    pub value: &'a Expr,
}

/// Appends the code of an update behind that of its value.
pub fn push_update(
    alloc: Global,
    into: &mut Items<Code>,
    heads: &Heads<'_>,
    update: &Update<'_>,
    value: IExpr,
) -> Result<(), AllocError>
    ensures { let codes = spec.update_after heads.now update.now.tensor update.now.at.now update.now.by value in
        OnOk result (into.new ≡ into.old ++ codes) }
{
    let put = put_code(alloc, heads, update, value)?;
    into.push(put)?;
    push_charge(into)
}

/// The code of an update in the box, without its work.
pub fn put_code(
    alloc: Global,
    heads: &Heads<'_>,
    update: &Update<'_>,
    value: IExpr,
) -> Result<Code, AllocError>
    ensures { IfOk result (λ c. c ≡ spec.put_code heads.now update.now.tensor update.now.at.now update.now.by value) }
{
    let at = index_codes(alloc, update.at)?;
    let test = in_box(alloc, shape_of(heads, update.tensor), at.as_slice())?;
    let body = Boxed::new(
        alloc,
        Code::Update {
            tensor: update.tensor,
            at,
            by: update.by,
            value,
        },
    )?;
    Ok(Code::When { test, body })
}

/// The code of a statement, and how many locals it needs.
#[derive(Drop)]
pub struct Placed {
    pub code: Code,
    pub need: u32,
}

/// The code of an update, with the steps of its value from a first free local on.
pub fn update_code(
    alloc: Global,
    heads: &Heads<'_>,
    update: &Update<'_>,
    next: u32,
) -> Result<Placed, AllocError>
    ensures code { let value = values.value_code heads.now update.now.value.now next in
        let at = update.now.at.now in
        IfOk result (λ p. p.code ≡ spec.update_code heads.now update.now.tensor at update.now.by value) }
    ensures need { IfOk result (λ p. p.need ≡ spec.end_of (values.value_code heads.now update.now.value.now next)) }
{
    let mut updated = Items::new(alloc);
    let Value {
        expr,
        depth: _,
        next: after,
    } = push_value(alloc, &mut updated, heads, update.value, next)?;
    let need = next_local(after)?;
    push_update(alloc, &mut updated, heads, update, expr)?;
    Ok(Placed {
        code: Code::Seq(updated),
        need,
    })
}

/// The local behind that one; there is no memory for as many as a `u32` can't count.
pub fn next_local(next: u32) -> Result<u32, AllocError>
    ensures { IfOk result (λ after. after ≡ next + 1) }
{
    if next == 4294967295 {
        return Err(AllocError);
    }
    Ok(next + 1)
}
