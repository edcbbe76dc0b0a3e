//! Copies of syntax trees.
use fin_ast::{Expr, Stmt};
use fin_base::Op;
use sqlite_items::{Boxed, Items};
use std::alloc::{AllocError, Global};
use std::test::Fail;

/// `if 7 - 2 { }`
fn condition(alloc: Global) -> Result<Stmt, AllocError> {
    let left = Boxed::new(alloc, Expr::Num(7))?;
    let right = Boxed::new(alloc, Expr::Num(2))?;
    let test = Expr::Two {
        op: Op::Sub,
        left,
        right,
    };
    Ok(Stmt::Cond {
        test,
        body: Items::new(alloc),
        line: 1,
        last: 2,
    })
}

#[test]
fn copies_are_made(rt: HostRuntime) -> Result<(), Fail> {
    let copy = condition(rt.alloc())?.copy(rt.alloc())?;
    let last_line = match &copy {
        Stmt::Cond {
            test: _,
            body: _,
            line: _,
            last,
        } => *last,
        _ => 0,
    };
    assert_eq!(rt; last_line, 2);
    Ok(())
}
