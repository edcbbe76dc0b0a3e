//! Loops of a program as loop code: what their nests' codes mean.
//!
//! A loop goes by steps from one nest to many, down to points, and its code has to mean the loop in each run of the
//! program, with whatever numbers are bound around it. So `specs/Loops.antt` says what stands behind its nests in a run,
//! and that is the family over which a descent (`fin_descend`) is made. A nest of the family asks of locals the numbers of
//! the variables in scope and nothing else, so that a place of the loop's body can be found wherever the nest is met.
//!
//! The laws are clauses of empty functions. `points_mean` is of nests that have come to one coordinate and to runs:
//! what is seen there is known where the code is made (`specs/Points.antt`), and codes of the body under it make code
//! of the nest. `nests_told` is of those before a step, `fixed_means` of those along which one update is left that is
//! the same at each coordinate (`specs/Fixed.antt`), `once_means` of those whose update names nothing of the loop, which is
//! done at once (`specs/AtOnce.antt`, `specs/Only.antt`), and `loops_go_on` has what all of the family keep. By `loops_mean`
//! the codes of an entry behind which the nest is made for the loop, with the code of the nest, mean the loop
//! (`specs/Entering.antt`), and by `parallel_loops_mean` they do for a parallel loop chunk by chunk
//! (`specs/Parallel.antt`, `specs/Chunks.antt`). `nests_are_separate` and `codes_spare` say what these ask of nests and
//! codes in words that are seen where the code is made (`specs/Keeping.antt`, `specs/Sparing.antt`). The nest that an entry
//! makes meets them (`tops_keep_out`, `tops_are_separate`, `tops_hold_no_jumpers`: `specs/Tops.antt`), and the codes of the
//! entry enter the loop wherever it stands, at once or chunk by chunk (`entries_enter`, `chunks_enter`:
//! `specs/Sourced.antt`, `specs/Chunked.antt`). Both name what is in the program's layout (`tops_are_named`:
//! `specs/Naming.antt`).
#![tactic(auto)]

mod laws;

pub use laws::{
    chunks_enter, codes_spare, empty_loops_mean, entries_enter, entries_spare, fixed_means,
    loops_go_on, loops_in_chunks, loops_mean, nests_are_separate, nests_told, nothing_is_told,
    once_means, only_compose, opened_stand, parallel_loops_mean, parts_are_known, points_are_told,
    points_mean, programs_are_sources, sources_hand_down, sources_of_loops, tops_are_named,
    tops_are_separate, tops_hold_no_jumpers, tops_keep_out, words_are_told,
};
