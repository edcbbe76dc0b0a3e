//! A job that breaks no rule.
ghost use Rattle.std.specs.Prelude.{IsTrue};
ghost use Rattle.fin_engine.specs.Worded.{are_worded};

use fin_ast::Checked;
use fin_tensor::{Seq, Storage};

/// A job: its program after insertion of freeze and thaw, with its extents and ways, and the storages of its inputs in
/// the order of their headers. The fills and values of these are words.
#[derive(Debug, Drop)]
pub struct Job {
    pub checked: Checked,
    pub inputs: Seq<Storage>,
    pub ghost worded: { IsTrue (are_worded inputs) },
}
