//! What a looplet shows at a coordinate, by its meaning, over the lists of one level.
use fin_base::{Op, negate, operate};
use fin_ir::{IExpr, Table};
use fin_looplet::{Case, Leaf, Looplet, Phase, Walker};

/// The lists of the one level of a tensor, and its values.
#[derive(Clone, Copy)]
pub struct Lists<'a> {
    pub ptr: &'a [i64],
    pub idx: &'a [i64],
    pub stop: &'a [i64],
    pub start: &'a [i64],
    pub val: &'a [i64],
}

/// A coordinate and where its region ends, with the locals 0 and 1: a walker's cursor, and its or a lookup's coordinate.
#[derive(Clone, Copy)]
pub struct Spot {
    pub at: i64,
    pub end: i64,
    pub cursor: i64,
    pub coordinate: i64,
}

fn local(spot: Spot, x: u32) -> i64 {
    match x {
        0 => spot.cursor,
        1 => spot.coordinate,
        _ => 0,
    }
}

fn word(xs: &[i64], at: i64) -> i64 {
    if at < 0 || at as u64 >= xs.len() as u64 {
        return 0;
    }
    xs[at as usize]
}

// The first place from `from` to `to` whose coordinate is the key or more, or whose stop is over it.
fn seek(lists: &Lists, from: i64, to: i64, key: i64) -> i64 {
    if from < 0 {
        return from;
    }
    for at in from..to {
        let reached = if lists.stop.is_empty() {
            word(lists.idx, at) >= key
        } else {
            word(lists.stop, at) > key
        };
        if reached {
            return at;
        }
    }
    from.max(to)
}

fn cell(lists: &Lists, table: Table, at: i64) -> i64 {
    match table {
        Table::Ptr => word(lists.ptr, at),
        Table::Idx => word(lists.idx, at),
        Table::Stop => word(lists.stop, at),
        Table::Start => word(lists.start, at),
    }
}

// A number, so that the functions of the recursion hand on no bare one.
#[derive(Clone, Copy)]
struct Number {
    word: i64,
}

fn value(lists: &Lists, spot: Spot, e: &IExpr) -> i64 {
    evaluated(lists, spot, e).word
}

fn evaluated(lists: &Lists, spot: Spot, e: &IExpr) -> Number {
    match e {
        IExpr::Num(n) => Number { word: *n },
        IExpr::Local(x) => Number {
            word: local(spot, *x),
        },
        IExpr::Neg(inner) => negated(evaluated(lists, spot, inner.get())),
        IExpr::Two { op, left, right } => {
            let left = evaluated(lists, spot, left.get());
            let right = evaluated(lists, spot, right.get());
            operated(*op, left, right)
        }
        IExpr::Pick { test, yes, no } => {
            let test = evaluated(lists, spot, test.get());
            let yes = evaluated(lists, spot, yes.get());
            let no = evaluated(lists, spot, no.get());
            chosen(test, yes, no)
        }
        IExpr::Times {
            by: _,
            value: inner,
            count: _,
        } => evaluated(lists, spot, inner.get()),
        IExpr::Cell {
            tensor: _,
            level: _,
            table,
            at,
        } => in_cell(lists, *table, evaluated(lists, spot, at.get())),
        IExpr::Seek {
            tensor: _,
            level: _,
            from,
            to,
            key,
        } => {
            let from = evaluated(lists, spot, from.get());
            let to = evaluated(lists, spot, to.get());
            let key = evaluated(lists, spot, key.get());
            sought(lists, from, to, key)
        }
        IExpr::Val { tensor: _, pos } => in_values(lists, evaluated(lists, spot, pos.get())),
    }
}

fn negated(inner: Number) -> Number {
    Number {
        word: negate(inner.word),
    }
}

fn in_cell(lists: &Lists, table: Table, at: Number) -> Number {
    Number {
        word: cell(lists, table, at.word),
    }
}

fn in_values(lists: &Lists, pos: Number) -> Number {
    Number {
        word: word(lists.val, pos.word),
    }
}

fn operated(op: Op, left: Number, right: Number) -> Number {
    Number {
        word: operate(op, left.word, right.word),
    }
}

fn chosen(test: Number, yes: Number, no: Number) -> Number {
    if test.word != 0 { yes } else { no }
}

fn sought(lists: &Lists, from: Number, to: Number, key: Number) -> Number {
    Number {
        word: seek(lists, from.word, to.word, key.word),
    }
}

fn leaf_value(lists: &Lists, spot: Spot, leaf: &Leaf) -> i64 {
    match leaf {
        Leaf::Fill(fill) => *fill,
        Leaf::Value(e) => value(lists, spot, e),
        Leaf::Sub {
            tensor: _,
            level: _,
            pos,
            there: _,
        } => value(lists, spot, pos),
    }
}

/// What stands at the coordinate.
#[cycle(look)]
pub fn look(lists: &Lists, spot: Spot, l: &Looplet) -> i64 {
    match l {
        Looplet::Run(leaf) => leaf_value(lists, spot, leaf),
        Looplet::Spike { body, tail } => {
            if spot.at.wrapping_add(1) < spot.end {
                leaf_value(lists, spot, body)
            } else {
                leaf_value(lists, spot, tail)
            }
        }
        Looplet::Lookup { coord: _, leaf } => leaf_value(lists, here(spot), leaf),
        Looplet::Sequence(phases) => look_phases(lists, spot, phases.as_slice()),
        Looplet::Stepper(walker) => look_walker(lists, spot, walker.get()),
        Looplet::Jumper(walker) => look_walker(lists, spot, walker.get()),
        Looplet::Switch(cases) => look_cases(lists, spot, cases.as_slice()),
        Looplet::Shift { by, child } => look(lists, moved(lists, spot, by), child.get()),
    }
}

// With the coordinate in its local.
fn here(spot: Spot) -> Spot {
    Spot {
        coordinate: spot.at,
        ..spot
    }
}

fn moved(lists: &Lists, spot: Spot, by: &IExpr) -> Spot {
    let by = value(lists, spot, by);
    Spot {
        at: spot.at.wrapping_sub(by),
        end: spot.end.wrapping_sub(by),
        ..spot
    }
}

// In the region that ends at a stop.
fn until(lists: &Lists, spot: Spot, stop: &IExpr) -> Spot {
    Spot {
        end: value(lists, spot, stop),
        ..spot
    }
}

// At the place that a walker seeks.
fn stepped(lists: &Lists, spot: Spot, walker: &Walker) -> Spot {
    let there = Spot {
        cursor: value(lists, here(spot), &walker.seek),
        ..here(spot)
    };
    until(lists, there, &walker.stop)
}

#[cycle(look)]
fn look_phases(lists: &Lists, spot: Spot, phases: &[Phase]) -> i64 {
    for phase in phases {
        let within = until(lists, spot, &phase.stop);
        if within.at < within.end {
            return look(lists, within, &phase.child);
        }
    }
    0
}

#[cycle(look)]
fn look_walker(lists: &Lists, spot: Spot, walker: &Walker) -> i64 {
    look(lists, stepped(lists, spot, walker), &walker.child)
}

#[cycle(look)]
fn look_cases(lists: &Lists, spot: Spot, cases: &[Case]) -> i64 {
    for case in cases {
        if value(lists, spot, &case.test) != 0 {
            return look(lists, spot, &case.child);
        }
    }
    0
}
