//! Expressions along their left sides.
ghost use Rattle.std.specs.Prelude.{◌≡◌, ◌≤◌, IfOk};
ghost use Rattle.fin_ast.specs.Spine.{AreSmaller, expr_of, nodes_of, sides_of, wound};

use crate::tree::{Expr, Index};
use fin_base::Op;
use fin_tensor::Seq;
use std::alloc::{AllocError, Global};

/// What stands at the beginning of a chain of operators.
#[derive(Clone, Copy)]
pub enum Head<'a> {
    Num(i64),
    Var {
        var: u32,
        line: u32,
    },
    Read {
        tensor: u8,
        at: &'a Seq<Index>,
        line: u32,
    },
    Neg(&'a Expr),
}

/// An expression along its left side: its head, and the operators behind it with their right sides, the last one first.
#[derive(Drop)]
pub struct Spine<'a> {
    pub head: Head<'a>,
    pub sides: Vec<(Op, &'a Expr)>,
}

impl Expr {
    /// The expression along its left side. A sum may have millions of terms, and groups to the left: a walk goes down
    /// by this loop, and up again by taking one side after another.
    pub fn spine(&self, alloc: Global) -> Result<Spine<'_>, AllocError>
        ensures whole { IfOk result (λ s. wound (sides_of s.sides.items) (expr_of s.head) ≡ self.now) }
        ensures sides { IfOk result (λ s. AreSmaller (nodes_of self.now) (sides_of s.sides.items)) }
        ensures head { IfOk result (λ s. nodes_of (expr_of s.head) ≤ nodes_of self.now) }
    {
        let mut sides = Vec::new(alloc);
        let mut at = self;
        loop {
            match at {
                Expr::Num(n) => return Ok(Spine {
                    head: Head::Num(*n),
                    sides,
                }),
                Expr::Var { var, line } => return Ok(Spine {
                    head: Head::Var {
                        var: *var,
                        line: *line,
                    },
                    sides,
                }),
                Expr::Read { tensor, at, line } => return Ok(Spine {
                    head: Head::Read {
                        tensor: *tensor,
                        at,
                        line: *line,
                    },
                    sides,
                }),
                Expr::Neg(inner) => return Ok(Spine {
                    head: Head::Neg(inner.get()),
                    sides,
                }),
                Expr::Two { op, left, right } => {
                    sides.push((*op, right.get()))?;
                    at = left.get();
                }
            }
        }
    }
}
