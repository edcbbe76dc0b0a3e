//! Classes before any tie.
ghost use Rattle.std.specs.Prelude.{◌≡◌, ◌≤◌, ◌+◌, ◌*◌, [], ◌∷◌, ◌++◌, None, length, replicate, IfOk, OnOk};
ghost use Rattle.fin_ast.specs.Ties.{known};
ghost use Rattle.fin_dims.specs.Classes.{AreSettled, IsReady};
ghost use Rattle.fin_dims.specs.Start.{HasDimensions};

use crate::classes::Classes;
use fin_tensor::Nums;
use std::alloc::{AllocError, Global};

/// The dimensions up to `most`, each in a class of its own, with the numbers that are known, and `loops` loops.
pub fn start(
    alloc: Global,
    shapes: &[Option<Nums>],
    most: usize,
    loops: usize,
) -> Result<Classes, AllocError>
    requires { 8 * length shapes.now ≤ most }
    ensures ready { IfOk result IsReady }
    ensures dimensions { IfOk result (λ c. length c.labels.items ≡ most + 1) }
    ensures variables { IfOk result (λ c. length c.anchors.items ≡ loops) }
    ensures settled { IfOk result (λ c. AreSettled shapes.now [] c) }
{
    let mut classes = Classes {
        anchors: no_anchors(alloc, loops)?,
        labels: Vec::new(alloc),
        numbers: Vec::new(alloc),
    };
    for dimension in 0..most {
        classes.add_dimension(shapes, dimension)?;
    }
    classes.add_dimension(shapes, most)?;
    Ok(classes)
}

fn no_anchors(alloc: Global, loops: usize) -> Result<Vec<Option<usize>>, AllocError>
    ensures { IfOk result (λ anchors. anchors.items ≡ replicate loops None) }
{
    let mut anchors = Vec::new(alloc);
    for var in 0..loops {
        anchors.push(None)?;
    }
    Ok(anchors)
}

impl Classes {
    /// The next dimension, in a class of its own.
    fn add_dimension(&mut self, shapes: &[Option<Nums>], dimension: usize) -> Result<(), AllocError>
        ensures anchors { self.new.anchors.items ≡ self.old.anchors.items }
        ensures labels { OnOk result (self.new.labels.items ≡ self.old.labels.items ++ dimension ∷ []) }
        ensures numbers { let number = known shapes.now dimension in
            OnOk result (self.new.numbers.items ≡ self.old.numbers.items ++ number ∷ []) }
    {
        self.labels.push(dimension)?;
        self.numbers.push(known_number(shapes, dimension))?;
        Ok(())
    }
}

fn known_number(shapes: &[Option<Nums>], dimension: usize) -> Option<u64>
    ensures { result ≡ known shapes.now dimension }
{
    match shapes.get(dimension / 8) {
        Some(Some(shape)) => shape.as_slice().get(dimension % 8).copied(),
        _ => None,
    }
}
