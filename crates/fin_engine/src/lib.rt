//! From the bytes of a job to its verdict, and to its outputs.
//!
//! `check` gives the job of exactly the texts that break no rule, and refuses any other by its first breach, with its
//! line: no line is `%%` (`J2`); bytes of the program begin no token (`S1`); its tokens are no text of the grammar,
//! or nest too deep (`S2`, `S3`); a name or its indices (`N1` to `N3`); a format or a fill (`F1`, `F2`); the text of
//! tensors (`X1` to `X5`), and these against the headers (`X6`); then, of the program after insertion of freeze and
//! thaw, the life of tensors (`L1` to `L7`), extents (`M4` and `M5`, `M1`, `M2`, `M3`, `B1`, `B3`), the order of
//! updates (`U1`, `U2`), and parallel loops (`C1` to `C5`). A text has one verdict, and an accepted one is that of one job, whose program meets the
//! checks, and whose inputs fit that program.
//!
//! `run_job_one` runs such a job by its loop code. Its outputs are the canonical storages of what dense evaluation
//! gives, and its work is the program's, by the pieces of its loops; where that exceeds the budget it refuses the job
//! (`W1`).
#![tactic(auto)]

mod cut;
mod inputs;
mod job;
mod laws;
mod numbers;
mod run;
mod verdict;

pub use job::Job;
pub use laws::{cut_or_endless, lexed_or_breach, one_verdict};
pub use run::{Done, run_job_one};
pub use verdict::check;
