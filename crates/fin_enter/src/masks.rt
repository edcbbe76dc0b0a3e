//! The masks of a loop: which of the tests that remain of its body compare its variable with a bound.
ghost use Rattle.std.specs.Prelude.{◌≡◌, ◌&&◌, IfOk, IsTrue, OnOk, IfSome};
ghost use Rattle.fin_ast.specs.declared.tree.Expr.{out-Expr};
ghost use Rattle.fin_ast.specs.Spine.{expr_of};
ghost use Rattle.fin_read.specs.Steps.{Appends};
ghost use Rattle.fin_read.specs.Values.{value_code};
ghost use Rattle.fin_simp.specs.Work as work;
ghost use Rattle.fin_unfurl.specs.Masks.{is_comparison};
ghost use Rattle.fin_enter.specs.Masked.{tested_by};
ghost use Rattle.fin_enter.specs.MaskCodes as spec;

use fin_ast::{Expr, Head};
use fin_base::Op;
use fin_drive::tested;
use fin_ir::Code;
use fin_nest::Numbered;
use fin_read::{Heads, push_value};
use sqlite_items::Items;
use std::alloc::{AllocError, Global};

/// A test that compares a loop's variable with a bound, the variable first or second.
#[derive(Clone, Copy)]
pub struct MaskTest<'a> {
    pub test: u32,
    pub op: Op,
    pub bare_first: bool,
    pub bound: &'a Expr,
}

fn compares(op: Op) -> bool
    ensures told { result ≡ work.is_comparison op }
    ensures shown { result ≡ is_comparison op }
{
    match op {
        Op::Lt | Op::Le | Op::Gt | Op::Ge | Op::Eq | Op::Ne => true,
        _ => false,
    }
}

fn is_var(var: u32, e: &Expr) -> bool
    ensures { result ≡ work.is_var var e.now }
{
    match e {
        Expr::Var { var: own, line: _ } => *own == var,
        _ => false,
    }
}

/// Whether an expression has neither reads nor names that a loop over a variable or its body binds. A sum may have
/// millions of terms, and groups to the left: a loop and no recursion there.
#[cycle(bounds)]
pub fn is_bound(alloc: Global, var: u32, e: &Expr) -> Result<bool, AllocError>
    ensures { IfOk result (λ b. b ≡ work.is_bound_of var e.now) }
{
    let spine = e.spine(alloc)?;
    let mut bound = head_is_bound(alloc, var, spine.head)?;
    let mut sides = spine.sides;
    while let Some((op, right)) = sides.pop() {
        let right = is_bound(alloc, var, right)?;
        bound = bound && right;
    }
    Ok(bound)
}

#[cycle(bounds)]
fn head_is_bound(alloc: Global, var: u32, head: Head<'_>) -> Result<bool, AllocError>
    ensures { IfOk result (λ b. b ≡ work.is_bound_of var (expr_of head.entry)) }
{
    match head {
        Head::Num(_) => Ok(true),
        Head::Var { var: own, line: _ } => Ok(own < var),
        Head::Read {
            tensor: _,
            at: _,
            line: _,
        } => Ok(false),
        Head::Neg(inner) => is_bound(alloc, var, inner),
    }
}

// Whether these are the bare variable and a bound.
fn is_bare(alloc: Global, var: u32, bare: &Expr, bound: &Expr) -> Result<bool, AllocError>
    ensures { IfOk result (λ b. b ≡ (work.is_var var bare.now && work.is_bound_of var bound.now)) }
{
    if !is_var(var, bare) {
        return Ok(false);
    }
    is_bound(alloc, var, bound)
}

/// The mask that a test with this number is, if it is one.
pub fn mask_test(
    alloc: Global,
    var: u32,
    test: u32,
    e: &Expr,
) -> Result<Option<MaskTest<'_>>, AllocError>
    ensures is { IfOk result (λ m. spec.as_tested m ≡ tested_by var test (out-Expr e.now)) }
    ensures compares { IfOk result (λ m. IfSome m (λ t. IsTrue (is_comparison t.op))) }
{
    match e {
        Expr::Two { op, left, right } => {
            if !compares(*op) {
                return Ok(None);
            }
            if is_bare(alloc, var, left.get(), right.get())? {
                return Ok(Some(masking(test, *op, true, right.get())));
            }
            if is_bare(alloc, var, right.get(), left.get())? {
                return Ok(Some(masking(test, *op, false, left.get())));
            }
            Ok(None)
        }
        _ => Ok(None),
    }
}

fn masking(test: u32, op: Op, bare_first: bool, bound: &Expr) -> MaskTest<'_>
    ensures test { result.test ≡ test }
    ensures op { result.op ≡ op }
    ensures bare_first { result.bare_first ≡ bare_first }
    ensures bound { result.bound.now ≡ bound.now }
{
    MaskTest {
        test,
        op,
        bare_first,
        bound,
    }
}

/// Appends the code of a mask's bound, and gives the looplet and the first local that is free behind it.
pub fn push_mask(
    alloc: Global,
    into: &mut Items<Code>,
    heads: &Heads<'_>,
    mask: MaskTest<'_>,
    next: u32,
) -> Result<(Numbered, u32), AllocError>
    requires { IsTrue (is_comparison mask.op) }
    ensures mask { IfOk result (λ m. m.0 ≡ spec.numbered_mask heads.now (spec.as_tested_one mask.entry) next) }
    ensures next { IfOk result (λ m. m.1 ≡ (value_code heads.now mask.entry.bound.now next).next) }
    ensures code { OnOk result (Appends into.old into.new (value_code heads.now mask.entry.bound.now next).steps) }
{
    let bound = push_value(alloc, into, heads, mask.bound, next)?;
    let looplet = tested(alloc, mask.op, mask.bare_first, bound.expr)?;
    let number = mask.test;
    Ok((Numbered { number, looplet }, bound.next))
}
