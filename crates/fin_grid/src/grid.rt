//! The ordered map.
ghost use Rattle.std.specs.Prelude.{◌≡◌, IfOk, OnOk, OnErr, IsTrue};
ghost use Rattle.std.specs.FinMap.{entries};
ghost use Rattle.fin_base.specs.Words.{apply as applied};
ghost use Rattle.fin_tensor.specs.TensorFunction.{is_in_box, IsTensor, value_at, filled, with_value, changed};

use fin_base::{Reduce, apply};
use fin_tensor::{Coords, Nums};
use std::alloc::{AllocError, Global};
use std::collections::BTreeMap;
use std::marker::Model;

/// A tensor function: a shape, a fill, and the values other than the fill.
#[derive(Drop)]
pub struct Grid {
    shape: Nums,
    fill: i64,
    cells: BTreeMap<Coords, i64>,
}

impl Model for Grid {
    ghost use Rattle.fin_tensor.specs.TensorFunction.{TensorFunction, function_code, IsTensor};
    ghost use Rattle.std.specs.FinMap.{from_entries};

    ghost Value = { TensorFunction };

    ghost coded = { function_code };

    ghost view = { λ a. record { shape = a.shape; fill = a.fill; cells = from_entries a.cells.entries } };

    ghost invariant = { λ a. IsTensor (record { shape = a.shape; fill = a.fill; cells = from_entries a.cells.entries }) };
}

impl Grid {
    /// The fill everywhere.
    pub fn new(alloc: Global, shape: Nums, fill: i64) -> Grid
        ensures { result ≡ filled shape fill }
    {
        Grid {
            shape,
            fill,
            cells: BTreeMap::new(alloc),
        }
    }

    /// The extents.
    pub fn shape(&self) -> &[u64]
        ensures { result.now ≡ self.now.shape }
    {
        self.shape.as_slice()
    }

    /// The extents, as a list.
    pub fn extents(&self) -> &Nums
        ensures { result.now ≡ self.now.shape }
    {
        &self.shape
    }

    /// The value where there is no entry.
    pub fn fill(&self) -> i64
        ensures { result ≡ self.now.fill }
    {
        self.fill
    }

    /// Each entry lies in the box and has a word other than the fill.
    pub fn is_tensor(&self)
        ensures { IsTensor self.now }
    {
        let _ = &self.fill;
    }

    /// The value at a coordinate list; the fill outside the box. Takes no memory.
    pub fn value(&self, at: &Coords) -> i64
        ensures { result ≡ value_at self.now at.now }
    {
        match self.cells.get(at) {
            Some(value) => *value,
            None => self.fill,
        }
    }

    /// Gives a value at one place. After want of memory the function is as before.
    pub fn put(&mut self, alloc: Global, at: &Coords, value: i64) -> Result<(), AllocError>
        requires inside { IsTrue (is_in_box self.old.shape at.now) }
        ensures ok { OnOk result (self.new ≡ with_value self.old at.now value) }
        ensures err { OnErr result (self.new ≡ self.old) }
    {
        if value == self.fill {
            self.cells.remove(at);
        } else {
            let key = at.copy(alloc)?;
            self.cells.insert(key, value)?;
        }
        Ok(())
    }

    /// Joins a value to that at one place. After want of memory the function is as before.
    pub fn update(
        &mut self,
        alloc: Global,
        at: &Coords,
        by: Reduce,
        value: i64,
    ) -> Result<(), AllocError>
        requires inside { IsTrue (is_in_box self.old.shape at.now) }
        ensures ok { OnOk result (self.new ≡ changed self.old at.now (λ old. applied by old value)) }
        ensures err { OnErr result (self.new ≡ self.old) }
    {
        let value = apply(by, self.value(at), value);
        self.put(alloc, at, value)
    }

    /// The entries: all coordinates whose value isn't the fill, in rising order.
    pub fn entries(&self, alloc: Global) -> Result<Vec<(Coords, i64)>, AllocError>
        ensures { IfOk result (λ es. es.items ≡ entries self.now.cells) }
    {
        let mut entries = Vec::new(alloc);
        for (coords, value) in self.cells.iter() {
            let coords = coords.copy(alloc)?;
            entries.push((coords, *value))?;
        }
        Ok(entries)
    }
}
