//! What the words ask for.

/// What is to be done.
#[derive(Clone, Copy, Debug, PartialEq, Eq)]
pub enum Mode {
    /// Runs a job.
    Run,
    /// Checks a job.
    Check,
    /// Runs a job by dense evaluation.
    Plain,
    /// Makes a job.
    Gen,
}

/// The mode, and the value of each option.
#[derive(Clone, Copy, Debug, PartialEq, Eq)]
pub struct Asked {
    /// What is to be done.
    pub mode: Mode,
    /// The number of workers, 1 to 64.
    pub workers: u64,
    /// The most work of a run, 1 to 2^40.
    pub budget: u64,
    /// Whether a run tells its work.
    pub stats: bool,
    /// Where the generator of jobs begins, 0 to 2^63 - 1.
    pub seed: u64,
    /// The size of a generated job, 3 to 16: its vectors have 2^size values.
    pub size: u64,
}
