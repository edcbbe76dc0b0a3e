//! The builder.
ghost use Rattle.std.specs.Prelude.{◌≡◌, ◌<◌, ◌≤◌, nat_eq, if◌then◌else◌, Some, None, length, IfOk, OnOk, OnErr, IsTrue};
ghost use Rattle.std.specs.FinMap as finite;
ghost use Rattle.std.specs.List.{list_all};
ghost use Rattle.fin_base.specs.Words.{apply as applied, identity};
ghost use Rattle.fin_tensor.specs.TensorFunction.{is_in_box, value_at};
ghost use Rattle.fin_tensor.specs.Building.{Building, CanBuild, started, follows as follows_of, updated};
ghost use Rattle.fin_tensor.specs.Placement.{IsPlaced, is_dense_or_dict};
ghost use Rattle.fin_tensor.specs.Lines.{IsShape};
ghost use Rattle.fin_build.specs.Builders.{IsBuilding, holds};
ghost use Rattle.fin_build.specs.Entries.{AreEntriesOf, AllInside};
ghost use Rattle.fin_build.specs.Merging.{joined, IsMerged, IsPartlyJoined};
ghost use Rattle.fin_build.specs.Parts.{AreRows, part_of, IsPartFor, replaced};

use crate::places::{comes_before, last_of, point};
use crate::rows::{last_after, rows_of, with_rows};
use fin_base::Reduce;
use fin_grid::Grid;
use fin_tensor::{Coords, Format, Nums, ordered_levels};
use std::alloc::{AllocError, Global};
use std::marker::Model;

/// A tensor that is updated.
#[derive(Drop)]
pub struct Builder {
    alloc: Global,
    format: Format,
    function: Grid,
    last: Option<Coords>,
}

impl Model for Builder {
    ghost use Rattle.std.specs.Coded.{codes};
    ghost use Rattle.fin_tensor.specs.TensorFunction.{function_code};
    ghost use Rattle.fin_tensor.specs.Building.{Building};
    ghost use Rattle.fin_build.specs.Builders.{IsBuilding};

    ghost Value = { Building };

    ghost coded = { Prim.hlevel (codes, function_code) };

    ghost view = { λ a. record { format = a.format; function = a.function; last = a.last } };

    ghost invariant = { λ a. IsBuilding (record { format = a.format; function = a.function; last = a.last }) };
}

impl Builder {
    /// Every coordinate holds the fill, and nothing was updated.
    pub fn new(alloc: Global, format: &Format, shape: &Nums) -> Result<Builder, AllocError>
        requires { CanBuild format.now shape.now }
        ensures { IfOk result (λ b. b ≡ started format.now shape.now) }
    {
        let format = format.copy(alloc)?;
        let shape = shape.copy(alloc)?;
        let function = Grid::new(alloc, shape, format.fill);
        Ok(Builder {
            alloc,
            format,
            function,
            last: None,
        })
    }

    /// A builder that holds the function, in which nothing was updated.
    pub fn holding(alloc: Global, format: Format, function: Grid) -> Builder
        requires placed { IsPlaced format.levels format.wrap }
        requires shape { IsShape format.levels function.shape }
        requires fill { function.fill ≡ format.fill }
        ensures { result ≡ holds format function }
    {
        function.is_tensor();
        let _ = format.fill;
        Builder {
            alloc,
            format,
            function,
            last: None,
        }
    }

    /// Its format is placed and its function is one of the format's shapes, with the format's fill.
    pub fn is_building(&self)
        ensures { IsBuilding self.now }
    {
        let _ = &self.format;
    }

    /// The format.
    pub fn format(&self) -> &Format
        ensures { result.now ≡ self.now.format }
    {
        &self.format
    }

    /// The extents.
    pub fn shape(&self) -> &Nums
        ensures { result.now ≡ self.now.function.shape }
    {
        self.function.extents()
    }

    /// Whether an update there keeps the order: no level is filled in order, or nothing was updated, or the coordinates
    /// down to the deepest such level don't come before those of the last update. Takes no memory.
    pub fn follows(&self, coords: &[u64]) -> bool
        ensures { result ≡ follows_of self.now coords.now }
    {
        let depth = ordered_levels(self.format.levels.as_slice());
        match &self.last {
            Some(last) => !comes_before(depth, coords, last.as_slice()),
            None => true,
        }
    }

    /// Joins a value to that at the coordinates. After want of memory the builder is as before.
    pub fn update(&mut self, coords: &[u64], by: Reduce, v: i64) -> Result<(), AllocError>
        requires inside { IsTrue (is_in_box self.old.function.shape coords.now) }
        requires follows { IsTrue (follows_of self.old coords.now) }
        ensures ok { OnOk result (self.new ≡ updated self.old coords.now (λ old. applied by old v)) }
        ensures err { OnErr result (self.new ≡ self.old) }
    {
        let at = point(self.alloc, coords);
        self.function.update(self.alloc, &at, by, v)?;
        self.last = last_of(ordered_levels(self.format.levels.as_slice()), at);
        Ok(())
    }

    /// The value at the coordinates. Takes no memory.
    pub fn value(&self, coords: &[u64]) -> i64
        requires { IsTrue (is_in_box self.now.function.shape coords.now) }
        ensures { result ≡ value_at self.now.function coords.now }
    {
        self.function.value(&point(self.alloc, coords))
    }

    /// All coordinates whose values differ from the fill, in rising order.
    pub fn entries(&self, alloc: Global) -> Result<Vec<(Coords, i64)>, AllocError>
        ensures map { IfOk result (λ es. es.items ≡ finite.entries self.now.function.cells) }
        ensures entries { IfOk result (λ es. AreEntriesOf self.now.function es.items) }
    {
        self.function.entries(alloc)
    }

    /// Joins all entries of another builder. After want of memory some first of its entries are joined.
    pub fn merge(&mut self, other: &Builder, by: Reduce) -> Result<(), AllocError>
        requires shape { self.old.function.shape ≡ other.now.function.shape }
        requires levels { IsTrue (list_all is_dense_or_dict self.old.format.levels) }
        requires identity { identity by ≡ Some other.now.function.fill }
        ensures ok { OnOk result (self.new ≡ joined by (finite.entries other.now.function.cells) self.old) }
        ensures merged { OnOk result (IsMerged by self.old.function other.now.function self.new.function) }
        ensures err { OnErr result (IsPartlyJoined by (finite.entries other.now.function.cells) self.old self.new) }
    {
        other.is_building();
        let entries = other.entries(self.alloc)?;
        self.join(entries.as_slice(), by)
    }

    fn join(&mut self, entries: &[(Coords, i64)], by: Reduce) -> Result<(), AllocError>
        requires inside { AllInside self.old.function.shape entries.now }
        requires levels { IsTrue (list_all is_dense_or_dict self.old.format.levels) }
        ensures ok { OnOk result (self.new ≡ joined by entries.now self.old) }
        ensures err { OnErr result (IsPartlyJoined by entries.now self.old self.new) }
    {
        for entry in entries {
            self.update(entry.0.as_slice(), by, entry.1)?;
        }
        Ok(())
    }

    /// The rows lo to hi - 1, which are first coordinates, as a builder whose first extent is hi - lo. Nothing was updated
    /// in it.
    pub fn part(&self, alloc: Global, lo: u64, hi: u64) -> Result<Builder, AllocError>
        requires { AreRows lo hi self.now }
        ensures value { IfOk result (λ p. p ≡ part_of lo hi self.now) }
        ensures fits { IfOk result (λ p. IsPartFor lo hi self.now p) }
    {
        let function = rows_of(alloc, &self.function, lo, hi)?;
        let format = self.format.copy(alloc)?;
        Ok(Builder {
            alloc,
            format,
            function,
            last: None,
        })
    }

    /// Puts a part's rows in the place of the rows lo to hi - 1. The last update is the part's, where it has one. After
    /// want of memory the builder is only dropped.
    pub fn replace(&mut self, lo: u64, hi: u64, part: Builder) -> Result<(), AllocError>
        requires rows { AreRows lo hi self.old }
        requires part { IsPartFor lo hi self.old part }
        ensures { OnOk result (self.new ≡ replaced lo hi self.old part) }
    {
        part.is_building();
        self.function = with_rows(self.alloc, &self.function, &part.function, lo, hi)?;
        self.last = last_after(self.alloc, lo, &part.last, self.last.take());
        Ok(())
    }
}
