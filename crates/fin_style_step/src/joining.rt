//! The code of a nest from the codes of its parts.
ghost use Rattle.std.specs.Prelude.{◌≡◌, IfOk, map, length};
ghost use Rattle.fin_nest.specs.Frames.{fill};
ghost use Rattle.fin_nest.specs.Joins.{Joins};
ghost use Rattle.fin_style_step.specs.Parts.{course_of};

use crate::nest::Parts;
use fin_ir::Code;
use fin_nest::fill;
use sqlite_items::Items;
use std::alloc::{AllocError, Global};

/// The frame with the codes for its parts. It means each nest that the parts split, where the codes mean theirs.
pub fn join(alloc: Global, parts: Parts, codes: Items<Code>) -> Result<Code, AllocError>
    requires one_each { length codes ≡ length parts.nests }
    ensures fills { IfOk result (λ c. c ≡ fill parts.frame codes) }
    ensures means { IfOk result (λ c. Joins parts.frame (map course_of parts.nests) codes c) }
{
    fill(alloc, &parts.frame, codes)
}
