//! The entry of a loop, as loop code: what stands before its nest.
//!
//! A loop's looplets ask where its driven reads stand. `specs/Positions.antt` has the steps that find the position to
//! which the indices that are bound lead, level by level, and leave it in a local; `specs/Indices.antt` says that the
//! codes of these indices have their values, and `specs/Together.antt` has the steps of all driven reads, one after
//! another. `specs/Charges.antt` has the charge of the entry: what is known where the code is made, and the stored
//! lengths of the fibres at these positions, whose code `stored_length` makes. `specs/Bounds.antt` says that the bounds
//! of masks need no tensor. `specs/Stores.antt` has the tensors of a machine as a run has them, `specs/Sites.antt` what
//! a driven read's looplet asks of them and of these locals, and `specs/Entrances.antt` the nest behind them.
//!
//! `enter` makes all of it: the code, and the looplets of the nest under their numbers. `specs/LoopEntry.antt` has them
//! as functions of the loop's variable and what remains of its body. `specs/Entering.antt` says that behind the steps
//! that nest is an entrance of the loop, `specs/EntryCodes.antt` what a machine has done behind the code.
//! `specs/Naming.antt` says in which layouts the code and the looplets are named, which a machine asks of what it runs.
#![tactic(auto)]

mod body;
mod driving;
mod entrance;
mod entry;
mod laws;
mod lengths;
mod looplets;
mod mask_codes;
mod masks;
mod placing;

pub use body::{LoopBody, is_in, next_cursor, next_local, next_place, settled_index};
pub use driving::{driven_count, driven_index, drives};
pub use entrance::{Entrance, LoopHead, enter};
pub use entry::push_charges;
pub use laws::{
    all_bounds_mean, all_positions_are_found, bounds_are_free, bounds_mean, entrances_are_made,
    entries_are_entrances, entries_are_known, entries_are_named, entries_are_paid, entries_last,
    entry_codes_enter, footed_reads_stand, indices_are_bound, lengths_mean, masks_are_tests,
    positions_are_found, stored_reads_are_found, tensors_are_stored, tensors_have_formats,
};
pub use lengths::{entry_lengths, stored_length};
pub use looplets::{read_looplet, read_looplets};
pub use mask_codes::{Masks, push_masks};
pub use masks::{MaskTest, is_bound, mask_test, push_mask};
pub use placing::{push_position, push_positions};
