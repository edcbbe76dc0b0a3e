//! Leaves and looplets.
use fin_ir::IExpr;
use sqlite_items::{Boxed, Items};

/// What a read sees at a coordinate.
#[derive(Debug, Drop)]
pub enum Leaf {
    /// The fill of its tensor: nothing is stored there.
    Fill(i64),
    /// A word.
    Value(IExpr),
    /// The position `pos` in a level of a tensor, whose indices are still to come; no position where `there` is 0.
    Sub {
        tensor: u8,
        level: u8,
        pos: IExpr,
        there: IExpr,
    },
}

/// What a read sees along the coordinates of a region.
#[cycle(looplet)]
#[derive(Debug, Drop)]
pub enum Looplet {
    /// One leaf.
    Run(Leaf),
    /// `tail` at the last coordinate of the region, `body` before it.
    Spike { body: Leaf, tail: Leaf },
    /// The leaf with the coordinate in the local `coord`.
    Lookup { coord: u32, leaf: Leaf },
    /// The first phase whose stop is over the coordinate.
    Sequence(Items<Phase>),
    /// One child after another.
    Stepper(Boxed<Walker>),
    /// One child after another, of which those may be passed over that nothing is asked of.
    Jumper(Boxed<Walker>),
    /// The first case whose test isn't 0.
    Switch(Items<Case>),
    /// The child, moved up by `by`.
    Shift { by: IExpr, child: Boxed<Looplet> },
}

/// A part that ends at a stop.
#[cycle(looplet)]
#[derive(Debug, Drop)]
pub struct Phase {
    pub stop: IExpr,
    pub child: Looplet,
}

/// Parts whose stop and child depend on a cursor. `seek` is the cursor of the coordinate in the local `cursor + 1`.
#[cycle(looplet)]
#[derive(Debug, Drop)]
pub struct Walker {
    pub cursor: u32,
    pub seek: IExpr,
    pub stop: IExpr,
    pub child: Looplet,
}

/// A choice at run time.
#[cycle(looplet)]
#[derive(Debug, Drop)]
pub struct Case {
    pub test: IExpr,
    pub child: Looplet,
}
