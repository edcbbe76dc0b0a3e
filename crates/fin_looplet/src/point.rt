//! Expressions that are written alike, and regions of one coordinate.
ghost use Rattle.std.specs.Prelude.{◌≡◌, nat_eq, pos};
ghost use Rattle.std.specs.Bool.{Decides};
ghost use Rattle.std.specs.List.{list_all};
ghost use Rattle.fin_looplet.specs.Same.{same};
ghost use Rattle.fin_looplet.specs.Weight.{is_run, is_point, weight_of, RunsAtPoint};

use crate::looplet::Looplet;
use fin_base::Op;
use fin_ir::IExpr;

/// Whether two expressions are written alike.
pub fn is_same(a: &IExpr, b: &IExpr) -> bool
    ensures { result ≡ same a.now b.now }
{
    match a {
        IExpr::Num(n) => match b {
            IExpr::Num(m) => n == m,
            _ => false,
        },
        IExpr::Local(x) => match b {
            IExpr::Local(y) => x == y,
            _ => false,
        },
        IExpr::Neg(e) => match b {
            IExpr::Neg(f) => is_same(e.get(), f.get()),
            _ => false,
        },
        IExpr::Two { op, left, right } => match b {
            IExpr::Two {
                op: o,
                left: l,
                right: r,
            } => (op == o) & is_same(left.get(), l.get()) & is_same(right.get(), r.get()),
            _ => false,
        },
        IExpr::Pick { test, yes, no } => match b {
            IExpr::Pick {
                test: t,
                yes: y,
                no: n,
            } => {
                is_same(test.get(), t.get())
                    & is_same(yes.get(), y.get())
                    & is_same(no.get(), n.get())
            }
            _ => false,
        },
        IExpr::Times { by, value, count } => match b {
            IExpr::Times {
                by: y,
                value: v,
                count: n,
            } => (by == y) & is_same(value.get(), v.get()) & is_same(count.get(), n.get()),
            _ => false,
        },
        IExpr::Cell {
            tensor,
            level,
            table,
            at,
        } => match b {
            IExpr::Cell {
                tensor: t,
                level: l,
                table: k,
                at: i,
            } => (tensor == t) & (level == l) & (table == k) & is_same(at.get(), i.get()),
            _ => false,
        },
        IExpr::Seek {
            tensor,
            level,
            from,
            to,
            key,
        } => match b {
            IExpr::Seek {
                tensor: t,
                level: l,
                from: f,
                to: e,
                key: k,
            } => {
                (tensor == t)
                    & (level == l)
                    & is_same(from.get(), f.get())
                    & is_same(to.get(), e.get())
                    & is_same(key.get(), k.get())
            }
            _ => false,
        },
        IExpr::Val { tensor, pos } => match b {
            IExpr::Val { tensor: t, pos: p } => (tensor == t) & is_same(pos.get(), p.get()),
            _ => false,
        },
    }
}

impl Looplet {
    /// Whether it is a run.
    pub fn is_run(&self) -> bool
        ensures { result ≡ is_run self.now }
    {
        match self {
            Looplet::Run(_) => true,
            _ => false,
        }
    }
}

/// Whether the end of a region is written as its beginning plus 1.
pub fn is_point(lo: &IExpr, hi: &IExpr) -> bool
    ensures { result ≡ is_point lo.now hi.now }
{
    match hi {
        IExpr::Two { op, left, right } => {
            (*op == Op::Add) & is_same(left.get(), lo) & is_one(right.get())
        }
        _ => false,
    }
}

fn is_one(e: &IExpr) -> bool
    ensures { result ≡ same e.now (IExpr.Num (pos 1)) }
{
    match e {
        IExpr::Num(n) => *n == 1,
        _ => false,
    }
}

fn are_runs(looplets: &[Looplet]) -> bool
    ensures { result ≡ list_all is_run looplets.now }
{
    for looplet in looplets {
        if !looplet.is_run() {
            return false;
        }
    }
    true
}

/// Whether the looplets of a region and its two ends weigh nothing: a step of no style is left to be taken.
pub fn weighs_nothing(looplets: &[Looplet], lo: &IExpr, hi: &IExpr) -> bool
    ensures weightless { result ≡ nat_eq (weight_of looplets.now lo.now hi.now) 0 }
    ensures exactly { Decides result (RunsAtPoint looplets.now lo.now hi.now) }
{
    is_point(lo, hi) && are_runs(looplets)
}
