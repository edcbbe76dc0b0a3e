//! A storage whose lines come one by one.
ghost use Rattle.std.specs.Prelude.{◌≡◌, ◌↔◌, ◌-◌, ◌^◌, min, IsTrue};
ghost use Rattle.fin_tensor.specs.Placement.{IsPlaced, IsBare};
ghost use Rattle.fin_tensor.specs.Lines.{IsShape, AreLevels, AreFew, due};
ghost use Rattle.fin_tensor.specs.OneProof.{IsPlaced-prop, IsBare-prop, IsShape-prop, AreLevels-prop, TellsFew-prop};

use crate::format::Format;
use crate::lines;
use crate::part::Part;
use crate::seq::{Nums, Seq, Vals};
use crate::storage::Storage;
use std::alloc::{AllocError, Global};

/// The lines of a storage up to a level, each tested and valid.
#[derive(Debug, Drop)]
pub struct Draft {
    pub format: Format,
    pub shape: Nums,
    pub parts: Seq<Part>,
    // The number of fibres of the level that is due; the greatest number where there are more.
    count: u64,
    // Whether no level so far has more than 2^40 fibres.
    few: bool,
    pub ghost placed: { IsPlaced format.levels format.wrap } by { IsPlaced-prop format.levels format.wrap },
    pub ghost bare: { IsBare format.wrap } by { IsBare-prop format.wrap },
    pub ghost shaped: { IsShape format.levels shape } by { IsShape-prop format.levels shape },
    pub ghost levels: { AreLevels format.levels shape parts } by { AreLevels-prop format.levels shape parts },
    ghost counted: { count ≡ min (due shape parts) (2 ^ 64 - 1) },
    ghost few_is: { IsTrue few ↔ AreFew shape parts } by { TellsFew-prop few shape parts },
}

impl Draft {
    ghost use Rattle.std.specs.Prelude.{◌≡◌, ◌↔◌, ◌<◌, ◌∷◌, [], ◌++◌, length, slice_index, slice_index_or, IsTrue, IfOk};
    ghost use Rattle.fin_tensor.specs.declared.format.Level.TheVariants as level;
    ghost use Rattle.fin_tensor.specs.Levels.{IsLevel, IsPtr, IsIdx, IsStop, IsStart};
    ghost use Rattle.fin_tensor.specs.Lines.{IsVal};

    /// Begins with a valid line `shape`, as `is_shape` tests it.
    pub fn new(alloc: Global, format: Format, shape: Nums) -> Draft
        requires placed { IsPlaced format.levels format.wrap }
        requires bare { IsBare format.wrap }
        requires shape { IsShape format.levels shape }
        ensures format { result.format ≡ format }
        ensures shape { result.shape ≡ shape }
        ensures parts { result.parts ≡ [] }
    {
        Draft {
            format,
            shape,
            parts: Seq::new(alloc),
            count: 1,
            few: true,
        }
    }

    /// The line `ptr` of the level that is due.
    pub fn is_ptr(&self, ptr: &[u64]) -> bool
        ensures { IsTrue result ↔ IsPtr (due self.now.shape self.now.parts) ptr.now }
    {
        lines::is_ptr(self.count, ptr)
    }

    /// The line `idx` of the level that is due, below its line `ptr`.
    pub fn is_idx(&self, ptr: &[u64], idx: &[u64]) -> bool
        requires level { length self.now.parts < length self.now.format.levels }
        requires ptr { IsPtr (due self.now.shape self.now.parts) ptr.now }
        ensures { IsTrue result ↔ IsIdx (slice_index self.now.shape (length self.now.parts)) (due self.now.shape self.now.parts) ptr.now idx.now }
    {
        lines::is_idx(self.extent(), self.count, ptr, idx)
    }

    /// The line `stop` of the level that is due, below its line `ptr`.
    pub fn is_stop(&self, ptr: &[u64], stop: &[u64]) -> bool
        requires level { length self.now.parts < length self.now.format.levels }
        requires ptr { IsPtr (due self.now.shape self.now.parts) ptr.now }
        ensures { IsTrue result ↔ IsStop (slice_index self.now.shape (length self.now.parts)) (due self.now.shape self.now.parts) ptr.now stop.now }
    {
        lines::is_stop(self.extent(), self.count, ptr, stop)
    }

    /// The line `start` of the level that is due, below its line `ptr`.
    pub fn is_start(&self, ptr: &[u64], start: &[u64]) -> bool
        requires level { length self.now.parts < length self.now.format.levels }
        requires ptr { IsPtr (due self.now.shape self.now.parts) ptr.now }
        ensures { IsTrue result ↔ IsStart (slice_index self.now.shape (length self.now.parts)) (due self.now.shape self.now.parts) ptr.now start.now }
    {
        lines::is_start(self.extent(), self.count, ptr, start)
    }

    /// The line `val`, after the lines of all levels.
    pub fn is_val(&self, val: &[i64]) -> bool
        ensures { IsTrue result ↔ IsVal self.now.shape self.now.parts val.now }
    {
        self.few && val.len() as u64 == self.count
    }

    /// Takes the lines of the level that is due.
    pub fn with(self, part: Part) -> Result<Draft, AllocError>
        requires level { length self.parts < length self.format.levels }
        requires valid { IsLevel (slice_index_or self.format.levels (length self.parts) level.Dense) (slice_index self.shape (length self.parts)) (due self.shape self.parts) part }
        ensures { IfOk result (λ d. (d.format ≡ self.format) × (d.shape ≡ self.shape) × (d.parts ≡ self.parts ++ part ∷ [])) }
    {
        let count = lines::next_count(self.count, self.extent(), &part);
        let few = lines::stays_few(self.few, count);
        let Draft {
            format,
            shape,
            mut parts,
            count: _,
            few: _,
        } = self;
        parts.push(part)?;
        Ok(Draft {
            format,
            shape,
            parts,
            count,
            few,
        })
    }

    /// The storage, with a valid line `val`.
    pub fn finish(self, val: Vals) -> Storage
        requires all { length self.parts ≡ length self.format.levels }
        requires val { IsVal self.shape self.parts val }
        ensures format { result.format ≡ self.format }
        ensures shape { result.shape ≡ self.shape }
        ensures parts { result.parts ≡ self.parts }
        ensures val { result.val ≡ val }
    {
        let Draft {
            format,
            shape,
            parts,
            count: _,
            few: _,
        } = self;
        Storage {
            format,
            shape,
            parts,
            val,
        }
    }

    // The extent of the level that is due.
    fn extent(&self) -> u64
        requires { length self.now.parts < length self.now.format.levels }
        ensures { result ≡ slice_index self.now.shape (length self.now.parts) }
    {
        *self.shape.get(self.parts.len())
    }
}
