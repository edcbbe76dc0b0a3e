//! Expressions of loop code.
use fin_base::{Op, Reduce};
use sqlite_items::Boxed;

/// A list of a level of a storage.
#[derive(Clone, Copy, Debug, PartialEq, Eq)]
pub enum Table {
    /// Where each fibre begins.
    Ptr,
    /// The coordinates that are stored.
    Idx,
    /// Where each run ends.
    Stop,
    /// The first coordinate of each block.
    Start,
}

/// An expression: a word, from locals and from tensors that are storages.
#[derive(Debug, Drop)]
pub enum IExpr {
    Num(i64),
    /// The local of that number; 0 where there is none.
    Local(u32),
    /// The word with the other sign.
    Neg(Boxed<IExpr>),
    Two {
        op: Op,
        left: Boxed<IExpr>,
        right: Boxed<IExpr>,
    },
    /// `yes` where the test isn't 0, else `no`.
    Pick {
        test: Boxed<IExpr>,
        yes: Boxed<IExpr>,
        no: Boxed<IExpr>,
    },
    /// The one value that does what `count` times the value do; the value itself where the count is below 1.
    Times {
        by: Reduce,
        value: Boxed<IExpr>,
        count: Boxed<IExpr>,
    },
    /// A number of a level's list; 0 out of range.
    Cell {
        tensor: u8,
        level: u8,
        table: Table,
        at: Boxed<IExpr>,
    },
    /// The first place from `from` to `to` in a fibre of the level whose coordinate is the key or more, or whose stop is
    /// over the key, or `to`. It is `from` where the two lie in no fibre with such numbers, or the key is negative.
    Seek {
        tensor: u8,
        level: u8,
        from: Boxed<IExpr>,
        to: Boxed<IExpr>,
        key: Boxed<IExpr>,
    },
    /// The value at a position; 0 out of range.
    Val {
        tensor: u8,
        pos: Boxed<IExpr>,
    },
}
