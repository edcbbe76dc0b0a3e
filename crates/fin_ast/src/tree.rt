//! Expressions and statements.
ghost use Rattle.std.specs.Prelude.{◌||◌, IsTrue, is_none};

use fin_base::{Op, Proto, Reduce};
use fin_tensor::Seq;
use sqlite_items::{Boxed, Items};

/// An index of an access: the sum of up to two variables of loops and a number. One that may not leave its extent names one
/// variable at most.
#[derive(Clone, Copy, Debug, PartialEq, Eq)]
pub struct Index {
    pub proto: Proto,
    /// Whether it may leave its extent, where the access gives the fill.
    pub loose: bool,
    pub first: Option<u32>,
    pub second: Option<u32>,
    pub offset: i64,
    pub ghost single: { IsTrue (loose || is_none second) },
}

/// An expression.
#[derive(Debug)]
pub enum Expr {
    Num(i64),
    Var {
        var: u32,
        line: u32,
    },
    Read {
        tensor: u8,
        at: Seq<Index>,
        line: u32,
    },
    Neg(Boxed<Expr>),
    Two {
        op: Op,
        left: Boxed<Expr>,
        right: Boxed<Expr>,
    },
}

// A sum may have millions of terms, and groups to the left: a loop and no recursion there.
impl Drop for Expr {
    fn drop(mut self) {
        loop {
            match self {
                Expr::Num(_) => return,
                Expr::Var { var: _, line: _ } => return,
                Expr::Read {
                    tensor: _,
                    at: _at,
                    line: _,
                } => return,
                Expr::Neg(inner) => self = inner.into_inner(),
                Expr::Two { op: _, left, right } => {
                    let _right = right.into_inner();
                    self = left.into_inner();
                }
            }
        }
    }
}

/// A statement. Its line is that where it begins; `last` is the line of its closing brace.
#[derive(Debug, Drop)]
pub enum Stmt {
    Block {
        body: Items<Stmt>,
        line: u32,
        last: u32,
    },
    Loop {
        var: u32,
        range: Option<(u64, u64)>,
        par: bool,
        body: Items<Stmt>,
        line: u32,
        last: u32,
    },
    Cond {
        test: Expr,
        body: Items<Stmt>,
        line: u32,
        last: u32,
    },
    Bind {
        var: u32,
        value: Expr,
        body: Items<Stmt>,
        line: u32,
        last: u32,
    },
    Declare {
        tensor: u8,
        value: i64,
        line: u32,
    },
    Freeze {
        tensor: u8,
        line: u32,
    },
    Thaw {
        tensor: u8,
        line: u32,
    },
    Update {
        tensor: u8,
        at: Seq<Index>,
        by: Reduce,
        value: Expr,
        line: u32,
    },
}
