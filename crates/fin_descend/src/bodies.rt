//! What the descent leaves to its caller.
ghost use Rattle.std.specs.Prelude.{◌≡◌, ◌<◌, IfOk};
ghost use Rattle.std.specs.List.{All};
ghost use Rattle.fin_ir.specs.declared.layout.Layout.{Layout};
ghost use Rattle.fin_stage.specs.Staged.{Run};
ghost use Rattle.fin_looplet.specs.Weight.{RunsAtPoint};
ghost use Rattle.fin_nest.specs.Courses.{Behind};
ghost use Rattle.fin_nest.specs.Related.{Start};
ghost use Rattle.fin_style_point.specs.declared.nest.Nest.{Nest};
ghost use Rattle.fin_style_point.specs.Parts.{all_looplets};
ghost use Rattle.fin_descend.specs.Parts.{weight_in, parts_of};
ghost use Rattle.fin_descend.specs.Promises.{MeansIn, Tells};

use crate::lowered::{Known, Lowered};
use fin_style_point::Nest;
use std::alloc::{AllocError, Global};

/// The bodies of one loop's nests.
pub trait Bodies {
    /// Which nests may come: the loop's own, and the parts of each that may.
    ghost comes: { Self → Nest → Type 0 };

    /// What may stand behind them, by what a run begins with and the layout of the code.
    ghost stands: { Self → Start → Layout → Behind Run → Type 0 };

    /// Whether the body is nothing along the nest, or is done at once, or neither.
    fn ask(&self, alloc: Global, nest: &Nest) -> Result<Known, AllocError>
        requires { comes self.now nest.now }
        ensures { IfOk result (λ known. Tells (stands self.now) nest.now known) };

    /// The code of the body at the one coordinate of a nest of runs.
    fn at_point(&self, alloc: Global, nest: &Nest) -> Result<Lowered, AllocError>
        requires comes { comes self.now nest.now }
        requires point { RunsAtPoint (all_looplets nest.now) nest.now.lo nest.now.hi }
        ensures { IfOk result (λ lowered. MeansIn (stands self.now) lowered nest.now) };

    /// What may come is kept by each step.
    ghost parts_come: { (self : Self) (n : Nest) → 0 < weight_in n → comes self n → All (comes self) (parts_of n) };
}
