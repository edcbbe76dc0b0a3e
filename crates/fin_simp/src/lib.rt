//! Simplification, and the work of a program by the pieces of its loops.
//!
//! `simplify` gives what is left of a statement where some of its reads and tests are known, or nothing; `is_nothing`
//! tells whether anything is left, `reads_of` which reads remain, `rest_of` what else does, and they make no tree. Where
//! each read that is known has its value, and each test that is known holds or fails as it is said, a body and what is
//! left of it make the same by dense evaluation; a body of which nothing is left makes nothing; and nothing is left of
//! it where more is known. Over the run by stages that holds where each statement is asked for what it can do.
//! `written_of_all` gathers the same of statements as they are written, where nothing is known.
//!
//! `specs/Work.antt` defines the work beside the run by stages: a piece's cost is shared out to its coordinates.
//! Where no piece ends after a coordinate, the same is known at the next one, so that the shares of a piece's
//! coordinates make its cost.
#![tactic(auto)]

mod expr_rest;
mod facts;
mod laws;
mod nothing;
mod reads;
mod remainder;
mod rest;
mod rewrite;
mod spine;
mod written;

pub use expr_rest::{Access, ExprRest, ExprRestWalk, rest_of_expr};
pub use facts::{Bound, Facts, Gap, Known, next_number, with_bound};
pub use laws::{
    accepted_stay, gaps_have_fill, known_lasts, loop_costs, loops_are_enterable, loops_by_pieces,
    masks_compare, nothing_is_left, nothing_makes_nothing, nothing_stages_nothing,
    nothing_stays_nothing, pieces_cost, reads_are_found, reads_remain, simplified_means_the_same,
    simplified_stages_the_same,
};
pub use nothing::{Seen, are_nothing, is_nothing};
pub use reads::{ExprReads, ExprWalk, StmtReads, StmtWalk, reads_of, reads_of_all, reads_of_expr};
pub use remainder::{Left, Remainder, simplify_expr};
pub use rest::{Kind, Rest, RestWalk, Test, rest_of, rest_of_all};
pub use rewrite::{Rewritten, simplify, simplify_all, simplify_stmt};
pub use spine::{Found, literal};
pub use written::written_of_all;
