//! From nests to code: steps of their styles, down to bodies.
//!
//! A descent goes by weight. Of each nest it first asks whether the body is nothing there, or has code at once
//! (`Known`); a nest that weighs nothing (`weighs_nothing`) has the code of its body; and any other is stepped by its
//! style (`step`), its parts are descended, and their codes fill the step's frame. Each part weighs less.
//!
//! Where the bodies of a loop hold loops again, the descent is one cycle with what makes their codes, and no call
//! through a trait can stand in it. So it is written where they are, out of the functions here, and
//! `proofs/Cycle.antt` has what each of its functions is proved by. `descend` is such a descent, for bodies whose
//! codes are made by something else (`Bodies`): it shows that the lemmas are enough.
//!
//! Where they are made by something that would call back into the descent, it goes in two steps instead (`flatten`):
//! first to a frame with a `Skip` for each leaf, which asks only what needs no code (`Asks`), and then the caller makes
//! the codes of the leaves, one after another, and fills the frame with them (`specs/Flat.antt`).
//!
//! The caller chooses what may stand behind the nests (`specs/Promises.antt`): what the loop does in the runs of a
//! program. The code then means the nest in values and charges, in each layout with the locals that the code needs.
//! It does so where the body is nothing at the coordinates that jumpers may pass over (`Jumps` of `fin_nest`): who runs
//! the loop owes that of the whole nest. Of a loop whose nests hold no jumpers (`specs/Jumpless.antt`) it owes nothing,
//! and the laws say that the parts hold none either.
//!
//! What the code of a nest leaves as it is in any machine, also where a run isn't regular, is seen from the code
//! (`specs/Sparing.antt`): its frames assign only the looplets' own locals and those from the nest's first free one on.
//! They name only locals and tensors of a layout in which the nest is named and which has the locals that the steps take
//! (`specs/Naming.antt`).
#![tactic(auto)]

mod bodies;
mod descending;
mod flattening;
mod laws;
mod lowered;
mod stepping;
mod weights;

pub use bodies::Bodies;
pub use descending::descend;
pub use fin_style_point::Nest;
pub use flattening::{Asks, Flat, Leaf, Told, flatten};
pub use laws::{
    LeafProperty, fills_are_named, fills_spare, flat_are_runs, frames_compose, jumpless_dont_jump,
    more_is_named, numbers_last, parts_are_named, parts_are_of_loop, parts_come_later,
    parts_keep_leaves, runs_keep_leaves, sparing_is_monotone, steps_have_holes, steps_spare,
    words_last,
};
pub use lowered::{Known, Lowered, filled, greater, nothing};
pub use stepping::{Split, step, take_first};
pub use weights::weighs_nothing;
