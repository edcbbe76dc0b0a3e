//! Equal copies of trees.
ghost use Rattle.std.specs.Prelude.{◌≡◌, IfOk};
ghost use Rattle.fin_ast.specs.declared.tree.Expr.TheVariants.{Two};
ghost use Rattle.fin_ast.specs.Spine.{expr_of};

use crate::spine::Head;
use crate::tree::{Expr, Index, Stmt};
use fin_base::Op;
use fin_tensor::Duplicate;
use sqlite_items::{Boxed, Items};
use std::alloc::{AllocError, Global};

impl Duplicate for Index {
    fn copy(&self, _alloc: Global) -> Result<Index, AllocError> {
        Ok(*self)
    }
}

impl Expr {
    /// An equal expression.
    #[cycle(copies)]
    pub fn copy(&self, alloc: Global) -> Result<Expr, AllocError>
        ensures { IfOk result (λ e. e ≡ self.now) }
    {
        let spine = self.spine(alloc)?;
        let mut sides = spine.sides;
        let mut whole = copy_head(alloc, spine.head)?;
        while let Some((op, right)) = sides.pop() {
            let right = right.copy(alloc)?;
            whole = two(alloc, op, whole, right)?;
        }
        Ok(whole)
    }
}

#[cycle(copies)]
fn copy_head(alloc: Global, head: Head<'_>) -> Result<Expr, AllocError>
    ensures { IfOk result (λ e. e ≡ expr_of head.entry) }
{
    match head {
        Head::Num(value) => Ok(Expr::Num(value)),
        Head::Var { var, line } => Ok(Expr::Var { var, line }),
        Head::Read { tensor, at, line } => {
            let at = at.copy(alloc)?;
            Ok(Expr::Read { tensor, at, line })
        }
        Head::Neg(inner) => {
            let inner = inner.copy(alloc)?;
            let inner = Boxed::new(alloc, inner)?;
            Ok(Expr::Neg(inner))
        }
    }
}

/// Two sides under an operator.
fn two(alloc: Global, op: Op, left: Expr, right: Expr) -> Result<Expr, AllocError>
    ensures { IfOk result (λ e. e ≡ Two op left right) }
{
    let left = Boxed::new(alloc, left)?;
    let right = Boxed::new(alloc, right)?;
    Ok(Expr::Two { op, left, right })
}

impl Stmt {
    /// An equal statement.
    #[cycle(copied)]
    pub fn copy(&self, alloc: Global) -> Result<Stmt, AllocError>
        ensures { IfOk result (λ s. s ≡ self.now) }
    {
        match self {
            Stmt::Block { body, line, last } => {
                let body = copy_all(alloc, body.as_slice())?;
                Ok(Stmt::Block {
                    body,
                    line: *line,
                    last: *last,
                })
            }
            Stmt::Loop {
                var,
                range,
                par,
                body,
                line,
                last,
            } => {
                let body = copy_all(alloc, body.as_slice())?;
                Ok(Stmt::Loop {
                    var: *var,
                    range: *range,
                    par: *par,
                    body,
                    line: *line,
                    last: *last,
                })
            }
            Stmt::Cond {
                test,
                body,
                line,
                last,
            } => {
                let test = test.copy(alloc)?;
                let body = copy_all(alloc, body.as_slice())?;
                Ok(Stmt::Cond {
                    test,
                    body,
                    line: *line,
                    last: *last,
                })
            }
            Stmt::Bind {
                var,
                value,
                body,
                line,
                last,
            } => {
                let value = value.copy(alloc)?;
                let body = copy_all(alloc, body.as_slice())?;
                Ok(Stmt::Bind {
                    var: *var,
                    value,
                    body,
                    line: *line,
                    last: *last,
                })
            }
            Stmt::Declare {
                tensor,
                value,
                line,
            } => Ok(Stmt::Declare {
                tensor: *tensor,
                value: *value,
                line: *line,
            }),
            Stmt::Freeze { tensor, line } => Ok(Stmt::Freeze {
                tensor: *tensor,
                line: *line,
            }),
            Stmt::Thaw { tensor, line } => Ok(Stmt::Thaw {
                tensor: *tensor,
                line: *line,
            }),
            Stmt::Update {
                tensor,
                at,
                by,
                value,
                line,
            } => {
                let at = at.copy(alloc)?;
                let value = value.copy(alloc)?;
                Ok(Stmt::Update {
                    tensor: *tensor,
                    at,
                    by: *by,
                    value,
                    line: *line,
                })
            }
        }
    }
}

/// Equal statements.
#[cycle(copied)]
pub fn copy_all(alloc: Global, body: &[Stmt]) -> Result<Items<Stmt>, AllocError>
    ensures { IfOk result (λ copies. copies ≡ body.now) }
{
    let mut copies = Items::new(alloc);
    for s in body {
        let s = s.copy(alloc)?;
        copies.push(s)?;
    }
    Ok(copies)
}
