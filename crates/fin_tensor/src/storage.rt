//! The storage of a tensor.
ghost use Rattle.std.specs.Prelude.{◌≡◌, ◌<◌, ◌+◌, ◌-◌};
ghost use Rattle.fin_tensor.specs.Levels.{IsStored, IsAt, IsFibre, AreSmall, wanted, child_in, fibre_from, fibre_to, numbers_of, first_from};
ghost use Rattle.fin_tensor.specs.Placement.{IsPlaced, IsBare};
ghost use Rattle.fin_tensor.specs.OneProof.{IsPlaced-prop, IsBare-prop, IsStored-prop};

use crate::duplicate::Duplicate;
use crate::format::Format;
use crate::part::Part;
use crate::places::{Fibre, fibre_of, find_in_block, find_key, search_in};
use crate::seq::{Nums, Seq, Vals};
use std::alloc::{AllocError, Global};

/// The lists of a tensor in its format, which is bare and keeps the placement. They are valid.
#[derive(Debug, Drop)]
pub struct Storage {
    pub format: Format,
    pub shape: Nums,
    pub parts: Seq<Part>,
    pub val: Vals,
    pub ghost placed: { IsPlaced format.levels format.wrap } by { IsPlaced-prop format.levels format.wrap },
    pub ghost bare: { IsBare format.wrap } by { IsBare-prop format.wrap },
    pub ghost valid: { IsStored 1 format.levels shape parts val } by { IsStored-prop 1 format.levels shape parts val },
}

impl Storage {
    ghost use Rattle.std.specs.Prelude.{◌≡◌, ◌<◌, ◌≤◌, ◌+◌, ◌-◌, ℕ, length, slice_index, slice_index_or, IsTrue, IfSome, IfOk};
    ghost use Rattle.fin_tensor.specs.TensorFunction.{is_in_box, value_at};
    ghost use Rattle.fin_tensor.specs.Levels.{fibres, child_in, value_from, first_from, numbers_of, fibre_from, fibre_to, LiesInFibre, wanted};
    ghost use Rattle.fin_tensor.specs.Stands.{stands};

    /// The value at a coordinate list: that of the tensor function that the storage stands for.
    pub fn at(&self, coords: &[u64]) -> i64
        requires { IsTrue (is_in_box self.now.shape coords.now) }
        ensures value { result ≡ value_at (stands self.now) coords.now }
        ensures levels { result ≡ value_from self.now.shape self.now.parts self.now.val self.now.format.fill 0 coords.now }
    {
        self.value(coords)
    }

    fn value(&self, coords: &[u64]) -> i64
        requires { IsTrue (is_in_box self.now.shape coords.now) }
        ensures { result ≡ value_from self.now.shape self.now.parts self.now.val self.now.format.fill 0 coords.now }
    {
        let mut pos = 0;
        for level in 0..coords.len() {
            match self.child_at(level, pos, coords[level]) {
                Some(below) => pos = below,
                None => return self.format.fill,
            }
        }
        *self.val.get(pos as usize)
    }

    /// The position below a position of a level, where the level stores the coordinate.
    pub fn child(&self, level: u8, pos: u64, i: u64) -> Option<u64>
        requires level { level < length self.now.parts }
        requires pos { pos < fibres self.now.shape self.now.parts 1 level }
        requires within { i < slice_index self.now.shape level }
        ensures child { result ≡ child_in (slice_index self.now.shape level) (slice_index_or self.now.parts level Part.Dense) pos i }
        ensures within { IfSome result (λ q. q < fibres self.now.shape self.now.parts 1 (level + 1)) }
    {
        self.child_at(level as usize, pos, i)
    }

    fn child_at(&self, level: usize, pos: u64, i: u64) -> Option<u64>
        requires level { level < length self.now.parts }
        requires pos { pos < fibres self.now.shape self.now.parts 1 level }
        requires within { i < slice_index self.now.shape level }
        ensures child { result ≡ child_in (slice_index self.now.shape level) (slice_index_or self.now.parts level Part.Dense) pos i }
        ensures within { IfSome result (λ q. q < fibres self.now.shape self.now.parts 1 (level + 1)) }
    {
        let extent = *self.shape.get(level);
        child_of(self.parts.get(level), extent, pos, i)
    }

    /// The places of the fibre at a position of a level.
    pub fn fibre(&self, level: u8, pos: u64) -> Fibre
        requires level { level < length self.now.parts }
        requires pos { pos < fibres self.now.shape self.now.parts 1 level }
        ensures from { result.from ≡ fibre_from (slice_index self.now.shape level) (slice_index_or self.now.parts level Part.Dense) pos }
        ensures to { result.to ≡ fibre_to (slice_index self.now.shape level) (slice_index_or self.now.parts level Part.Dense) pos }
    {
        let extent = *self.shape.get(level as usize);
        fibre_in(self.parts.get(level as usize), extent, pos)
    }

    /// The first place in a part of a fibre whose coordinate is the key or more, or whose stop is over the key; the
    /// part's end where there is none.
    pub fn search(&self, level: u8, from: u64, to: u64, key: u64) -> u64
        requires level { level < length self.now.parts }
        requires lies { LiesInFibre (slice_index self.now.shape level) (fibres self.now.shape self.now.parts 1 level) (slice_index_or self.now.parts level Part.Dense) from to }
        ensures { result ≡ first_from (numbers_of (slice_index_or self.now.parts level Part.Dense)) (wanted (slice_index_or self.now.parts level Part.Dense) key) from (to - from) }
    {
        search_of(self.parts.get(level as usize), from, to, key)
    }

    /// An equal storage.
    pub fn copy(&self, alloc: Global) -> Result<Storage, AllocError>
        ensures { IfOk result (λ c. c ≡ self.now) }
    {
        let format = self.format.copy(alloc)?;
        let shape = self.shape.copy(alloc)?;
        let parts = self.parts.copy(alloc)?;
        let val = self.val.copy(alloc)?;
        Ok(Storage {
            format,
            shape,
            parts,
            val,
        })
    }
}

impl Duplicate for Storage {
    fn copy(&self, alloc: Global) -> Result<Storage, AllocError> {
        Storage::copy(self, alloc)
    }
}

fn fibre_in(part: &Part, extent: u64, pos: u64) -> Fibre
    requires { IsAt extent part.now pos }
    ensures from { result.from ≡ fibre_from extent part.now pos }
    ensures to { result.to ≡ fibre_to extent part.now pos }
{
    match part {
        Part::Dense => Fibre {
            from: pos * extent,
            to: pos * extent + extent,
        },
        Part::Keys { ptr, idx: _ } => fibre_of(ptr.as_slice(), pos),
        Part::Runs { ptr, stop: _ } => fibre_of(ptr.as_slice(), pos),
        Part::Band { ptr, start: _ } => fibre_of(ptr.as_slice(), pos),
    }
}

fn search_of(part: &Part, from: u64, to: u64, key: u64) -> u64
    requires fibre { IsFibre (numbers_of part.now) from to }
    requires small { AreSmall (numbers_of part.now) }
    ensures { result ≡ first_from (numbers_of part.now) (wanted part.now key) from (to - from) }
{
    match part {
        Part::Keys { ptr: _, idx } => search_in(idx.as_slice(), from, to, key),
        Part::Runs { ptr: _, stop } => first_over(stop.as_slice(), from, to, key),
        _ => search_in(&[], from, to, key),
    }
}

// The first stop over the key. No stop is over 2^40.
fn first_over(stop: &[u64], from: u64, to: u64, key: u64) -> u64
    requires fibre { IsFibre stop.now from to }
    requires small { AreSmall stop.now }
    ensures { result ≡ first_from stop.now (key + 1) from (to - from) }
{
    if key >= 1_099_511_627_776 {
        return to;
    }
    search_in(stop, from, to, key + 1)
}

fn child_of(part: &Part, extent: u64, pos: u64, i: u64) -> Option<u64>
    requires at { IsAt extent part.now pos }
    requires within { i < extent }
    ensures { result ≡ child_in extent part.now pos i }
{
    match part {
        Part::Dense => Some(pos * extent + i),
        Part::Keys { ptr, idx } => {
            let fibre = fibre_of(ptr.as_slice(), pos);
            find_key(idx.as_slice(), fibre.from, fibre.to, i)
        }
        Part::Runs { ptr, stop } => {
            let fibre = fibre_of(ptr.as_slice(), pos);
            Some(search_in(stop.as_slice(), fibre.from, fibre.to, i + 1))
        }
        Part::Band { ptr, start } => {
            let fibre = fibre_of(ptr.as_slice(), pos);
            find_in_block(fibre.from, fibre.to, *start.get(pos as usize), i)
        }
    }
}
