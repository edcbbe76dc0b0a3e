//! What no clause says: that runs end with memory to spare, on codes whose outcome was worked out by hand.
ghost use Rattle.std.specs.Prelude.{◌≡◌, ◌<◌, ◌≤◌, ◌^◌};
ghost use Rattle.fin_ir.specs.Meaning.{meaning};
ghost use Rattle.fin_run.specs.States.{machine};
ghost use Rattle.fin_run.specs.Ends.{IsRegular};

use crate::regularity::is_regular;
use fin_base::{Op, Reduce, Steps};
use fin_build::Builder;
use fin_freeze::freeze;
use fin_grid::is_in_box;
use fin_ir::{Code, IExpr, Layout, RunError, Table};
use fin_run::{Held, State, run_code};
use fin_tensor::{
    Duplicate, Format, Level, Seq, Storage, Wrap, has_small_dense_size, is_shape, keeps_placement,
};
use sqlite_items::{Boxed, Items};
use std::alloc::{AllocError, Global};
use std::marker::Brand;
use std::process::Abort;
use std::sync::ledger::{Blank, Ledger};
use std::test::Fail;

const AMPLE: u64 = 1_099_511_627_776;

fn list<T: Duplicate + Drop>(alloc: Global, items: &[T]) -> Result<Seq<T>, AllocError> {
    let mut list = Seq::new(alloc);
    for item in items {
        list.push(item.copy(alloc)?)?;
    }
    Ok(list)
}

fn format(alloc: Global, levels: &[Level]) -> Result<Format, AllocError> {
    Ok(Format {
        levels: list(alloc, levels)?,
        wrap: Wrap::Bare,
        fill: 0,
    })
}

// The tensor with these values at these coordinates.
fn built(
    rt: &impl Abort,
    alloc: Global,
    levels: &[Level],
    shape: &[u64],
    at: &[&[u64]],
    values: &[i64],
) -> Result<Builder, Fail> {
    let format = format(alloc, levels)?;
    let shape = list(alloc, shape)?;
    assert!(rt; keeps_placement(&format));
    assert!(rt; is_shape(format.levels.as_slice(), shape.as_slice()));
    assert!(rt; has_small_dense_size(format.levels.as_slice(), shape.as_slice()));
    let mut builder = Builder::new(alloc, &format, &shape)?;
    for (coords, value) in at.iter().zip(values.iter()) {
        assert!(rt; is_in_box(builder.shape().as_slice(), coords));
        assert!(rt; builder.follows(coords));
        builder.update(coords, Reduce::Put, *value)?;
    }
    Ok(builder)
}

// An input and a local tensor without levels.
fn layout(alloc: Global) -> Result<Layout, AllocError> {
    let mut formats = Seq::new(alloc);
    formats.push(format(alloc, &[Level::Dense, Level::List])?)?;
    formats.push(format(alloc, &[])?)?;
    let mut shapes = Seq::new(alloc);
    shapes.push(list(alloc, &[2, 3])?)?;
    shapes.push(Seq::new(alloc))?;
    Ok(Layout {
        formats,
        shapes,
        kinds: list(alloc, &[0, 2])?,
        locals: 4,
    })
}

fn counted<L: Ledger>(
    blank: Blank,
    alloc: Global,
    code: &Code,
    layout: &Layout,
    inputs: &[Storage],
    state: &mut State,
    budget: u64,
) -> Result<(), RunError>
    requires name { blank.name ≡ L.name }
    requires parts { blank.parts ≡ L.parts }
    requires some { 0 < blank.parts }
    requires budget { budget ≤ 2 ^ 40 }
    requires work { state.old.work ≡ 0 }
    requires regular { IsRegular (meaning layout.now code.now) (machine inputs.now state.old 0) }
{
    let mut steps = Steps::<L>::new(blank);
    run_code(alloc, code, layout, inputs, state, budget, &mut steps)
}

fn uncounted(
    alloc: Global,
    code: &Code,
    layout: &Layout,
    inputs: &[Storage],
    state: &mut State,
    budget: u64,
) -> Result<(), RunError>
    requires budget { budget ≤ 2 ^ 40 }
    requires work { state.old.work ≡ 0 }
    requires regular { IsRegular (meaning layout.now code.now) (machine inputs.now state.old 0) }
{
    counted::<Brand>(Blank::new(1), alloc, code, layout, inputs, state, budget)
}

fn ran(
    rt: &impl Abort,
    alloc: Global,
    code: &Code,
    layout: &Layout,
    inputs: &[Storage],
    state: &mut State,
    budget: u64,
) -> Result<Result<(), RunError>, Fail> {
    assert!(rt; is_regular(layout, inputs, state, code));
    assert!(rt; budget <= AMPLE);
    assert!(rt; state.work == 0);
    Ok(uncounted(alloc, code, layout, inputs, state, budget))
}

// Runs code that asks nothing of tensors, from the beginning. The first local, and the work.
fn outcome(rt: &impl Abort, alloc: Global, code: Code, budget: u64) -> Result<(i64, u64), Fail> {
    let layout = layout(alloc)?;
    let at = [[0, 0].as_slice(), [0, 2].as_slice(), [1, 1].as_slice()];
    let input = built(
        rt,
        alloc,
        &[Level::Dense, Level::List],
        &[2, 3],
        &at,
        &[5, 7, 9],
    )?;
    let mut inputs = Vec::new(alloc);
    inputs.push(freeze(alloc, input)?)?;
    assert!(rt; layout.kinds.len() <= 256);
    assert!(rt; layout.kinds.len() == layout.formats.len());
    assert!(rt; layout.shapes.len() == layout.formats.len());
    let mut state = State::new(alloc, &layout)?;
    ran(
        rt,
        alloc,
        &code,
        &layout,
        inputs.as_slice(),
        &mut state,
        budget,
    )??;
    assert!(rt; state.locals.len() == 4);
    Ok((*state.locals.get(0), state.work))
}

fn boxed(alloc: Global, e: IExpr) -> Result<Boxed<IExpr>, AllocError> {
    let e = Boxed::new(alloc, e)?;
    Ok(e)
}

fn number(alloc: Global, n: i64) -> Result<Boxed<IExpr>, AllocError> {
    boxed(alloc, IExpr::Num(n))
}

fn cell(alloc: Global, level: u8, table: Table, at: i64) -> Result<IExpr, AllocError> {
    Ok(IExpr::Cell {
        tensor: 0,
        level,
        table,
        at: number(alloc, at)?,
    })
}

fn seek(alloc: Global, level: u8, from: i64, to: i64, key: i64) -> Result<IExpr, AllocError> {
    let from = number(alloc, from)?;
    let to = number(alloc, to)?;
    let key = number(alloc, key)?;
    Ok(IExpr::Seek {
        tensor: 0,
        level,
        from,
        to,
        key,
    })
}

fn times(alloc: Global, by: Reduce, value: i64, count: i64) -> Result<IExpr, AllocError> {
    let value = number(alloc, value)?;
    let count = number(alloc, count)?;
    Ok(IExpr::Times { by, value, count })
}

fn pick(alloc: Global, test: i64) -> Result<IExpr, AllocError> {
    let test = number(alloc, test)?;
    let yes = number(alloc, 1)?;
    let no = number(alloc, 2)?;
    Ok(IExpr::Pick { test, yes, no })
}

// The value of an expression over an input with the rows 5 _ 7 and _ 9 _.
fn value_of(rt: &impl Abort, alloc: Global, e: IExpr) -> Result<i64, Fail> {
    let code = Code::Assign { local: 0, value: e };
    let (value, _) = outcome(rt, alloc, code, AMPLE)?;
    Ok(value)
}

#[test]
fn expressions(rt: HostRuntime) -> Result<(), Fail> {
    let alloc = rt.alloc();
    assert_eq!(rt; value_of(&rt, alloc, IExpr::Local(3))?, 0);
    assert_eq!(rt; value_of(&rt, alloc, IExpr::Local(9))?, 0);
    assert_eq!(rt; value_of(&rt, alloc, IExpr::Neg(number(alloc, 4)?))?, -4);
    for (test, expected) in [(0, 2), (-3, 1)] {
        assert_eq!(rt; value_of(&rt, alloc, pick(alloc, test)?)?, expected);
    }
    for (count, expected) in [(3, 6), (0, 2), (-5, 2)] {
        assert_eq!(rt;
            value_of(&rt, alloc, times(alloc, Reduce::Add, 2, count)?)?,
            expected
        );
    }
    // Level 1 has ptr 0 2 3 and idx 0 2 1.
    let cells = [
        (1, Table::Ptr, 1, 2),
        (1, Table::Idx, 1, 2),
        (1, Table::Idx, 3, 0),
        (1, Table::Idx, -1, 0),
        (1, Table::Stop, 0, 0),
        (0, Table::Ptr, 0, 0),
        (7, Table::Ptr, 0, 0),
    ];
    for (level, table, at, expected) in cells {
        assert_eq!(rt;
            value_of(&rt, alloc, cell(alloc, level, table, at)?)?,
            expected
        );
    }
    // From, to, key and the place; the last three lie in no fibre.
    let seeks = [
        (1, 0, 2, 1, 1),
        (1, 0, 2, 3, 2),
        (1, 0, 2, -1, 0),
        (1, 2, 3, 0, 2),
        (1, 0, 3, 2, 0),
        (1, 2, 9, 5, 2),
        (0, 1, 2, 1, 1),
    ];
    for (level, from, to, key, expected) in seeks {
        assert_eq!(rt;
            value_of(&rt, alloc, seek(alloc, level, from, to, key)?)?,
            expected
        );
    }
    for (pos, expected) in [(0, 5), (2, 9), (3, 0), (-1, 0)] {
        let e = IExpr::Val {
            tensor: 0,
            pos: number(alloc, pos)?,
        };
        assert_eq!(rt; value_of(&rt, alloc, e)?, expected);
    }
    let unmade = IExpr::Val {
        tensor: 1,
        pos: number(alloc, 0)?,
    };
    assert_eq!(rt; value_of(&rt, alloc, unmade)?, 0);
    Ok(())
}

fn then(mut all: Items<Code>, code: Code) -> Result<Items<Code>, AllocError> {
    all.push(code)?;
    Ok(all)
}

fn difference(alloc: Global, left: u32, right: u32) -> Result<IExpr, AllocError> {
    let left = boxed(alloc, IExpr::Local(left))?;
    let right = boxed(alloc, IExpr::Local(right))?;
    Ok(IExpr::Two {
        op: Op::Sub,
        left,
        right,
    })
}

// Steps from 0 to 5 that charge how far they go, or 1.
fn steps(alloc: Global, stop: i64, far: bool) -> Result<Code, AllocError> {
    let charge = if far {
        difference(alloc, 2, 1)?
    } else {
        IExpr::Num(1)
    };
    Ok(Code::StepLoop {
        var: 1,
        until: 2,
        lo: IExpr::Num(0),
        hi: IExpr::Num(5),
        stop: IExpr::Num(stop),
        body: Boxed::new(alloc, Code::Charge(charge))?,
    })
}

fn each(alloc: Global, lo: i64, hi: i64) -> Result<Code, AllocError> {
    Ok(Code::ForLoop {
        var: 1,
        lo: IExpr::Num(lo),
        hi: IExpr::Num(hi),
        body: Boxed::new(alloc, Code::Charge(IExpr::Local(1)))?,
    })
}

fn chunk_body(alloc: Global) -> Result<Items<Code>, AllocError> {
    let length = difference(alloc, 2, 1)?;
    let all = then(Items::new(alloc), Code::Charge(length))?;
    let all = then(all, Code::Charge(IExpr::Local(3)))?;
    let all = then(
        all,
        Code::Assign {
            local: 3,
            value: IExpr::Num(1),
        },
    )?;
    Ok(all)
}

// Chunks that charge how long they are, and what the local 3 is, which they set.
fn chunks(alloc: Global, lo: u64, hi: u64) -> Result<Code, AllocError> {
    let body = Boxed::new(alloc, Code::Seq(chunk_body(alloc)?))?;
    Ok(Code::ParLoop {
        from: 1,
        to: 2,
        lo,
        hi,
        ways: Seq::new(alloc),
        body,
    })
}

fn when(alloc: Global, test: i64, charge: i64) -> Result<Code, AllocError> {
    Ok(Code::When {
        test: IExpr::Num(test),
        body: Boxed::new(alloc, Code::Charge(IExpr::Num(charge)))?,
    })
}

#[test]
fn loops(rt: HostRuntime) -> Result<(), Fail> {
    let alloc = rt.alloc();
    // A stop that goes backwards makes turns of one step, and one past the end a single turn.
    for (stop, far, work) in [
        (-3, false, 5),
        (9, false, 1),
        (-3, true, 5),
        (9, true, 5),
        (3, false, 3),
    ] {
        assert_eq!(rt;
            outcome(&rt, alloc, steps(alloc, stop, far)?, AMPLE)?.1,
            work
        );
    }
    for (lo, hi, work) in [(2, 5, 9), (-3, 1, 0), (5, 2, 0)] {
        assert_eq!(rt; outcome(&rt, alloc, each(alloc, lo, hi)?, AMPLE)?.1, work);
    }
    for (lo, hi, work) in [(10, 267, 257), (0, 3, 3), (4, 4, 0)] {
        assert_eq!(rt; outcome(&rt, alloc, chunks(alloc, lo, hi)?, AMPLE)?.1, work);
    }
    for (test, charge, work) in [(0, 7, 0), (-2, 7, 7), (1, -7, 0)] {
        assert_eq!(rt;
            outcome(&rt, alloc, when(alloc, test, charge)?, AMPLE)?.1,
            work
        );
    }
    Ok(())
}

// The local tensor without levels goes through this statement.
fn one(
    rt: &impl Abort,
    alloc: Global,
    layout: &Layout,
    state: &mut State,
    code: &Code,
) -> Result<(), Fail> {
    ran(rt, alloc, code, layout, &[], state, AMPLE)??;
    Ok(())
}

fn update(alloc: Global, value: i64) -> Code {
    Code::Update {
        tensor: 1,
        at: Seq::new(alloc),
        by: Reduce::Add,
        value: IExpr::Num(value),
    }
}

fn frozen_value(state: &State) -> i64 {
    match state.tensors.as_slice().get(1) {
        Some(Held::Frozen(storage)) if storage.val.len() == 1 => *storage.val.get(0),
        _ => -1,
    }
}

#[test]
fn tensors(rt: HostRuntime) -> Result<(), Fail> {
    let alloc = rt.alloc();
    let layout = layout(alloc)?;
    assert!(rt; layout.kinds.len() <= 256);
    assert!(rt; layout.kinds.len() == layout.formats.len());
    assert!(rt; layout.shapes.len() == layout.formats.len());
    let mut state = State::new(alloc, &layout)?;
    one(
        &rt,
        alloc,
        &layout,
        &mut state,
        &Code::Declare { tensor: 1 },
    )?;
    one(&rt, alloc, &layout, &mut state, &update(alloc, 5))?;
    one(&rt, alloc, &layout, &mut state, &Code::Freeze { tensor: 1 })?;
    assert_eq!(rt; frozen_value(&state), 5);
    one(&rt, alloc, &layout, &mut state, &Code::Thaw { tensor: 1 })?;
    one(&rt, alloc, &layout, &mut state, &update(alloc, 2))?;
    one(&rt, alloc, &layout, &mut state, &Code::Freeze { tensor: 1 })?;
    assert_eq!(rt; frozen_value(&state), 7);

    // Two blocks of 2^40 values and of one are too many.
    let at = [
        [0, 0].as_slice(),
        [0, AMPLE - 1].as_slice(),
        [1, 0].as_slice(),
    ];
    let levels = [Level::Dense, Level::Band];
    let large = built(&rt, alloc, &levels, &[2, AMPLE], &at, &[1, 1, 1])?;
    let mut tensors = Vec::new(alloc);
    tensors.push(Held::Building(large))?;
    state.tensors = tensors;
    let freeze = Code::Freeze { tensor: 0 };
    let cut = ran(&rt, alloc, &freeze, &layout, &[], &mut state, AMPLE)?;
    assert!(rt; matches!(cut, Err(RunError::Spent)));

    // A budget is kept to the last charge.
    let charge = Code::Charge(IExpr::Num(5));
    for (budget, spent) in [(5, false), (4, true)] {
        state.work = 0;
        let end = ran(&rt, alloc, &charge, &layout, &[], &mut state, budget)?;
        assert_eq!(rt; matches!(end, Err(RunError::Spent)), spent);
    }
    Ok(())
}
