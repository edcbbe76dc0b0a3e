//! Statements of loop code.
use crate::expression::IExpr;
use fin_base::{Reduce, Updated};
use fin_tensor::Seq;
use sqlite_items::{Boxed, Items};

/// Loop code. Every loop ends by its form: its ends are taken once, at its entry, and no assignment changes its course.
#[derive(Debug, Drop)]
pub enum Code {
    Skip,
    /// One after another.
    Seq(Items<Code>),
    Assign {
        local: u32,
        value: IExpr,
    },
    /// The body, where the test isn't 0.
    When {
        test: IExpr,
        body: Boxed<Code>,
    },
    /// From `lo` to `hi` by steps: a turn has the local `var` at a number and `until` at the stop, brought into
    /// `var + 1` to `hi`; the next turn begins there.
    StepLoop {
        var: u32,
        until: u32,
        lo: IExpr,
        hi: IExpr,
        stop: IExpr,
        body: Boxed<Code>,
    },
    /// Each number from `lo` to below `hi`, in the local `var`.
    ForLoop {
        var: u32,
        lo: IExpr,
        hi: IExpr,
        body: Boxed<Code>,
    },
    /// The chunks of `lo` to `hi`, each from the locals of the loop's entry with the chunk's two ends in `from` and `to`.
    /// What the body declares is each chunk's own.
    ParLoop {
        from: u32,
        to: u32,
        lo: u64,
        hi: u64,
        ways: Seq<Updated>,
        body: Boxed<Code>,
    },
    /// The value is joined to that at the coordinates.
    Update {
        tensor: u8,
        at: Seq<IExpr>,
        by: Reduce,
        value: IExpr,
    },
    /// The tensor is built from the fill on.
    Declare {
        tensor: u8,
    },
    /// The tensor becomes its canonical storage.
    Freeze {
        tensor: u8,
    },
    /// The tensor is built from its storage on.
    Thaw {
        tensor: u8,
    },
    /// The charges rise by the value, where it is over 0.
    Charge(IExpr),
}
