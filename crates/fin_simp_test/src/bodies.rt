//! Bodies of loops that were simplified by hand.
use fin_ast::{Expr, Index, Stmt};
use fin_base::{Op, Proto, Reduce};
use fin_simp::{Gap, simplify};
use fin_tensor::Seq;
use sqlite_items::Boxed;
use std::alloc::{AllocError, Global};
use std::test::Fail;

/// What is left of an update.
#[derive(Clone, Copy, Debug, PartialEq, Eq)]
enum Outcome {
    Nothing,
    ByLiteral(i64),
    Other,
}

/// An update of the tensor 0 by the product of the tensors 1 and 2, or by the tensor 1 alone, at the variable 0.
#[derive(Clone, Copy, Debug)]
enum Value {
    Product,
    Alone,
}

fn read(alloc: Global, tensor: u8) -> Result<Expr, AllocError> {
    let mut at = Seq::new(alloc);
    at.push(Index {
        proto: Proto::Walk,
        loose: false,
        first: Some(0),
        second: None,
        offset: 0,
    })?;
    Ok(Expr::Read {
        tensor,
        at,
        line: 1,
    })
}

fn update(alloc: Global, by: Reduce, value: Value) -> Result<Stmt, AllocError> {
    let first = read(alloc, 1)?;
    let value = match value {
        Value::Alone => first,
        Value::Product => {
            let second = read(alloc, 2)?;
            let left = Boxed::new(alloc, first)?;
            let right = Boxed::new(alloc, second)?;
            Expr::Two {
                op: Op::Mul,
                left,
                right,
            }
        }
    };
    Ok(Stmt::Update {
        tensor: 0,
        at: Seq::new(alloc),
        by,
        value,
        line: 1,
    })
}

fn what_is_left(left: &Option<Stmt>) -> Outcome {
    match left {
        None => Outcome::Nothing,
        Some(
            Stmt::Update {
                tensor: _,
                at: _,
                by: _,
                value: Expr::Num(n),
                line: _,
            },
        ) => Outcome::ByLiteral(*n),
        Some(_) => Outcome::Other,
    }
}

#[test]
fn gaps_leave_what_was_worked_out(rt: HostRuntime) -> Result<(), Fail> {
    let rows = [
        (Reduce::Add, Value::Product, 0, Outcome::Nothing),
        (Reduce::Min, Value::Alone, 0, Outcome::ByLiteral(0)),
        (Reduce::Min, Value::Alone, i64::MAX, Outcome::Nothing),
        (Reduce::Put, Value::Alone, 0, Outcome::ByLiteral(0)),
        (Reduce::Add, Value::Product, 1, Outcome::Other),
    ];
    for (by, value, fill, expected) in rows {
        let body = update(rt.alloc(), by, value)?;
        let left = simplify(rt.alloc(), body, &[Gap { read: 0, fill }], &[])?;
        assert_eq!(rt; what_is_left(&left), expected);
    }
    Ok(())
}
