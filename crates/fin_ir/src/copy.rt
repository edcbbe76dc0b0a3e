//! Equal copies.
ghost use Rattle.std.specs.Prelude.{◌≡◌, IfOk};

use crate::code::Code;
use crate::expression::IExpr;
use crate::layout::{Layout, Plan};
use fin_base::{Reduce, Updated};
use fin_tensor::{Duplicate, Seq};
use sqlite_items::{Boxed, Items};
use std::alloc::{AllocError, Global};

impl Duplicate for IExpr {
    fn copy(&self, alloc: Global) -> Result<IExpr, AllocError> {
        IExpr::copy(self, alloc)
    }
}

impl IExpr {
    /// An equal expression.
    #[cycle(copied_expression)]
    pub fn copy(&self, alloc: Global) -> Result<IExpr, AllocError>
        ensures { IfOk result (λ e. e ≡ self.now) }
    {
        match self {
            IExpr::Num(value) => Ok(IExpr::Num(*value)),
            IExpr::Local(local) => Ok(IExpr::Local(*local)),
            IExpr::Neg(inner) => {
                let inner = copy_part(alloc, inner.get())?;
                Ok(IExpr::Neg(inner))
            }
            IExpr::Two { op, left, right } => {
                let left = copy_part(alloc, left.get())?;
                let right = copy_part(alloc, right.get())?;
                Ok(IExpr::Two {
                    op: *op,
                    left,
                    right,
                })
            }
            IExpr::Pick { test, yes, no } => {
                let test = copy_part(alloc, test.get())?;
                let yes = copy_part(alloc, yes.get())?;
                let no = copy_part(alloc, no.get())?;
                Ok(IExpr::Pick { test, yes, no })
            }
            IExpr::Times { by, value, count } => {
                let value = copy_part(alloc, value.get())?;
                let count = copy_part(alloc, count.get())?;
                Ok(IExpr::Times {
                    by: *by,
                    value,
                    count,
                })
            }
            IExpr::Cell {
                tensor,
                level,
                table,
                at,
            } => {
                let at = copy_part(alloc, at.get())?;
                Ok(IExpr::Cell {
                    tensor: *tensor,
                    level: *level,
                    table: *table,
                    at,
                })
            }
            IExpr::Seek {
                tensor,
                level,
                from,
                to,
                key,
            } => {
                let from = copy_part(alloc, from.get())?;
                let to = copy_part(alloc, to.get())?;
                let key = copy_part(alloc, key.get())?;
                Ok(IExpr::Seek {
                    tensor: *tensor,
                    level: *level,
                    from,
                    to,
                    key,
                })
            }
            IExpr::Val { tensor, pos } => {
                let pos = copy_part(alloc, pos.get())?;
                Ok(IExpr::Val {
                    tensor: *tensor,
                    pos,
                })
            }
        }
    }
}

#[cycle(copied_expression)]
fn copy_part(alloc: Global, e: &IExpr) -> Result<Boxed<IExpr>, AllocError>
    ensures { IfOk result (λ b. b ≡ e.now) }
{
    let e = e.copy(alloc)?;
    let e = Boxed::new(alloc, e)?;
    Ok(e)
}

impl Code {
    /// Equal code.
    #[cycle(copied_code)]
    pub fn copy(&self, alloc: Global) -> Result<Code, AllocError>
        ensures { IfOk result (λ c. c ≡ self.now) }
    {
        match self {
            Code::Skip => Ok(Code::Skip),
            Code::Seq(all) => {
                let all = copy_all(alloc, all.as_slice())?;
                Ok(Code::Seq(all))
            }
            Code::Assign { local, value } => {
                let value = value.copy(alloc)?;
                Ok(Code::Assign {
                    local: *local,
                    value,
                })
            }
            Code::When { test, body } => {
                let test = test.copy(alloc)?;
                let body = copy_body(alloc, body.get())?;
                Ok(Code::When { test, body })
            }
            Code::StepLoop {
                var,
                until,
                lo,
                hi,
                stop,
                body,
            } => copy_step_loop(alloc, body.get(), *var, *until, lo, hi, stop),
            Code::ForLoop { var, lo, hi, body } => copy_for_loop(alloc, body.get(), *var, lo, hi),
            Code::ParLoop {
                from,
                to,
                lo,
                hi,
                ways,
                body,
            } => copy_par_loop(alloc, body.get(), *from, *to, *lo, *hi, ways.as_slice()),
            Code::Update {
                tensor,
                at,
                by,
                value,
            } => copy_update(alloc, *tensor, at, *by, value),
            Code::Declare { tensor } => Ok(Code::Declare { tensor: *tensor }),
            Code::Freeze { tensor } => Ok(Code::Freeze { tensor: *tensor }),
            Code::Thaw { tensor } => Ok(Code::Thaw { tensor: *tensor }),
            Code::Charge(value) => {
                let value = value.copy(alloc)?;
                Ok(Code::Charge(value))
            }
        }
    }
}

#[cycle(copied_code)]
fn copy_all(alloc: Global, all: &[Code]) -> Result<Items<Code>, AllocError>
    ensures { IfOk result (λ copies. copies ≡ all.now) }
{
    let mut copies = Items::new(alloc);
    for code in all {
        let code = code.copy(alloc)?;
        copies.push(code)?;
    }
    Ok(copies)
}

#[cycle(copied_code)]
fn copy_body(alloc: Global, body: &Code) -> Result<Boxed<Code>, AllocError>
    ensures { IfOk result (λ b. b ≡ body.now) }
{
    let body = body.copy(alloc)?;
    let body = Boxed::new(alloc, body)?;
    Ok(body)
}

#[cycle(copied_code)]
fn copy_step_loop(
    alloc: Global,
    body: &Code,
    var: u32,
    until: u32,
    lo: &IExpr,
    hi: &IExpr,
    stop: &IExpr,
) -> Result<Code, AllocError>
    ensures { IfOk result (λ c. c ≡ Code.StepLoop var until lo.now hi.now stop.now body.now) }
{
    let body = copy_body(alloc, body)?;
    let (lo, hi) = copy_ends(alloc, lo, hi)?;
    let stop = stop.copy(alloc)?;
    Ok(Code::StepLoop {
        var,
        until,
        lo,
        hi,
        stop,
        body,
    })
}

#[cycle(copied_code)]
fn copy_for_loop(
    alloc: Global,
    body: &Code,
    var: u32,
    lo: &IExpr,
    hi: &IExpr,
) -> Result<Code, AllocError>
    ensures { IfOk result (λ c. c ≡ Code.ForLoop var lo.now hi.now body.now) }
{
    let body = copy_body(alloc, body)?;
    let (lo, hi) = copy_ends(alloc, lo, hi)?;
    Ok(Code::ForLoop { var, lo, hi, body })
}

#[cycle(copied_code)]
fn copy_par_loop(
    alloc: Global,
    body: &Code,
    from: u32,
    to: u32,
    lo: u64,
    hi: u64,
    ways: &[Updated],
) -> Result<Code, AllocError>
    ensures { IfOk result (λ c. c ≡ Code.ParLoop from to lo hi ways.now body.now) }
{
    let body = copy_body(alloc, body)?;
    let ways = copy_ways(alloc, ways)?;
    Ok(Code::ParLoop {
        from,
        to,
        lo,
        hi,
        ways,
        body,
    })
}

fn copy_update(
    alloc: Global,
    tensor: u8,
    at: &Seq<IExpr>,
    by: Reduce,
    value: &IExpr,
) -> Result<Code, AllocError>
    ensures { IfOk result (λ c. c ≡ Code.Update tensor at.now by value.now) }
{
    let at = at.copy(alloc)?;
    let value = value.copy(alloc)?;
    Ok(Code::Update {
        tensor,
        at,
        by,
        value,
    })
}

fn copy_ends(alloc: Global, lo: &IExpr, hi: &IExpr) -> Result<(IExpr, IExpr), AllocError>
    ensures { IfOk result (λ ends. (ends.0 ≡ lo.now) × (ends.1 ≡ hi.now)) }
{
    let lo = lo.copy(alloc)?;
    let hi = hi.copy(alloc)?;
    Ok((lo, hi))
}

fn copy_ways(alloc: Global, ways: &[Updated]) -> Result<Seq<Updated>, AllocError>
    ensures { IfOk result (λ copies. copies ≡ ways.now) }
{
    let mut copies = Seq::new(alloc);
    for updated in ways {
        copies.push(*updated)?;
    }
    Ok(copies)
}

impl Layout {
    /// An equal layout.
    pub fn copy(&self, alloc: Global) -> Result<Layout, AllocError>
        ensures { IfOk result (λ l. l ≡ self.now) }
    {
        let formats = self.formats.copy(alloc)?;
        let shapes = self.shapes.copy(alloc)?;
        let kinds = self.kinds.copy(alloc)?;
        Ok(Layout {
            formats,
            shapes,
            kinds,
            locals: self.locals,
        })
    }
}

impl Plan {
    /// An equal plan.
    pub fn copy(&self, alloc: Global) -> Result<Plan, AllocError>
        ensures { IfOk result (λ p. p ≡ self.now) }
    {
        let code = self.code.copy(alloc)?;
        let layout = self.layout.copy(alloc)?;
        Ok(Plan { code, layout })
    }
}
