//! What drives a loop, as looplets: a loop of a program as a nest.
//!
//! `specs/Turns.antt` says what a loop does at a coordinate by what its looplets see there. The laws say that a nest
//! with that body, whose looplets show what the definition of work (`fin_simp`) knows, folds to the loop's run by pieces,
//! a nest for each chunk of a parallel loop; and that the body keeps what the steps of nests ask of one, for the
//! statements of any program. It stands on no style.
//!
//! `specs/Looplets.antt` says which looplet a driven read has, and which a mask. The laws say that it shows what the
//! definition of work knows, wherever the read stands as that has it. `driven` and `tested` make these looplets.
#![tactic(auto)]

mod laws;
mod masks;
mod reading;
mod reads;

pub use laws::{
    bodies_are_flagless, bodies_are_nothing, bodies_at_points, bodies_go_on, bodies_jump,
    chunks_are_nests, distances_mean, looplets_show, loops_are_nests, loops_fall_apart,
    made_keep_apart, made_nests_are_loops, made_nests_run, masks_show, reads_show,
    statements_go_on, statements_update_once, stops_add,
};
pub use masks::tested;
pub use reading::{Reading, Spot};
pub use reads::{distance, driven};
