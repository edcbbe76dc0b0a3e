//! Nests: what the code of a loop whose reads are looplets does to what a machine stands for.
//!
//! `specs/Related.antt` says when a machine of loop code does what a run by stages does, over what both begin with,
//! a `Start`: a layout, a setting and a first machine. Either the machine has what the run has, tensor by tensor,
//! with its work as charges, or it was cut, and its charges are over every budget and at most the run's work.
//!
//! A nest (`specs/Nests.antt`) is a loop over looplets with a body; its fold goes from coordinate to coordinate by
//! what the looplets show there. A sense says when a machine stands for a state. Code means a nest in a sense where
//! it leads from each machine that fits and stands for a state to one that stands for the nest's fold of that
//! state, if the body is nothing wherever a jumper may pass over a coordinate: behind which a looplet that holds one
//! doesn't stop, while the region goes on (`specs/Jumping.antt`). There are two senses (`specs/Senses.antt`): in values and charges, where the machine does what a run does
//! that may have left out updates that change nothing; and in turns, where besides it has counted at most as many
//! turns as charges and stops allow.
//!
//! The laws say what code of loops may rest on, in both senses (`specs/Both.antt`). The senses keep assignments,
//! counted turns and charges. A region may be cut where a part begins, and its fold is a loop of the run by stages
//! where the body is that loop's. A machine that was cut stands for the whole fold of a body that goes on. Codes
//! that perform statements (`specs/Performs.antt`) do so one after another, under a condition, as a nest that code
//! means, and as a nest's body; what performs a statement for machines that do what a run does performs it in both
//! senses; and updates that change nothing may be left out.
//!
//! What the styles' steps share is here too: the looplets of reads and masks under their numbers (`Numbered`), frames,
//! which are codes with a `Skip` for each part (`specs/Frames.antt`), and `fill`, which puts the parts' codes there.
#![tactic(auto)]

mod entries;
mod frames;
mod laws;
mod terms;

pub use entries::Numbered;
pub use frames::fill;
pub use laws::{
    bodies_mean, charges_are_work, cut_machines_stand, cut_statements_stand, folds_are_loops,
    nothing_is_passed_over, regions_fall_apart, senses_are_lawful, skipped_updates_stand,
    statements_compose, statements_lift, turns_are_free,
};
pub use terms::{copy_ends, two, when};
