//! A read, as its loop drives it.
use fin_ast::Index;
use fin_ir::IExpr;

/// A read that a loop drives, as the loop is entered.
#[derive(Clone, Copy)]
pub struct Reading {
    /// The loop's variable.
    pub var: u32,
    /// The index that the loop completes.
    pub index: Index,
    pub tensor: u8,
    /// The level of that index, and its extent.
    pub level: u8,
    pub extent: u64,
    /// Whether the tensor stands before the body is run, which neither declares, updates, freezes nor thaws it.
    pub settled: bool,
    /// A local of the looplet's own; the one above it is so too.
    pub cursor: u32,
}

/// Where the fibre of a read stands, in locals.
#[derive(Drop)]
pub struct Spot {
    /// The position of the level, which is absent where `there` is 0.
    pub place: IExpr,
    pub there: IExpr,
    /// How far the coordinates of the loop lie behind those of the level.
    pub by: IExpr,
}
