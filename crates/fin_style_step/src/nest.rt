//! Nests and their parts.
use fin_ast::Stmt;
use fin_ir::{Code, IExpr};
use fin_nest::Numbered;
use sqlite_items::Items;

/// The loop from `lo` on and before `hi` over the body, with the variable in the local `var`. `next` is above each
/// local that it names.
#[derive(Debug, Drop)]
pub struct Nest {
    pub body: Stmt,
    pub var: u32,
    pub lo: IExpr,
    pub hi: IExpr,
    pub next: u32,
    pub reads: Items<Numbered>,
    pub masks: Items<Numbered>,
}

/// A code in which the k-th `Skip` in order stands for the k-th nest.
pub type Frame = Code;

/// What a step leaves to be done, and the code around it.
#[derive(Debug, Drop)]
pub struct Parts {
    pub frame: Frame,
    pub nests: Items<Nest>,
}

/// The walkers that a loop steps together.
#[derive(Clone, Copy, Debug, PartialEq, Eq)]
pub enum Kind {
    Stepper,
    Jumper,
}
