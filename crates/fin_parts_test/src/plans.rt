//! Copies of loop code.
use fin_base::Op;
use fin_ir::{Code, IExpr, Layout, Plan};
use fin_tensor::{Nums, Seq};
use sqlite_items::Boxed;
use std::alloc::{AllocError, Global};
use std::test::Fail;

/// A charge of `7 - 2`, over no tensor.
fn plan(alloc: Global) -> Result<Plan, AllocError> {
    let left = Boxed::new(alloc, IExpr::Num(7))?;
    let right = Boxed::new(alloc, IExpr::Num(2))?;
    let difference = IExpr::Two {
        op: Op::Sub,
        left,
        right,
    };
    Ok(Plan {
        code: Code::Charge(difference),
        layout: Layout {
            formats: Seq::new(alloc),
            shapes: Seq::<Nums>::new(alloc),
            kinds: Seq::new(alloc),
            locals: 3,
        },
    })
}

#[test]
fn copies_are_made(rt: HostRuntime) -> Result<(), Fail> {
    let copy = plan(rt.alloc())?.copy(rt.alloc())?;
    let is_subtraction = match &copy.code {
        Code::Charge(
            IExpr::Two {
                op,
                left: _,
                right: _,
            },
        ) => *op == Op::Sub,
        _ => false,
    };
    assert!(rt; is_subtraction);
    assert_eq!(rt; copy.layout.locals, 3);
    Ok(())
}
