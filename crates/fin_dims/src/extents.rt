//! What the classes give: extents, shapes and ranges, and the rules on them.
ghost use Rattle.std.specs.Prelude.{◌≡◌, ◌<◌, ◌*◌, ◌+◌, ◌≤◌, ◌^◌, ◌-◌, [], ◌++◌};
ghost use Rattle.std.specs.Prelude.{IfOk, OnOk, None, length, negsuc, pos, slice_index_or};
ghost use Rattle.std.specs.List.{cons_option};
ghost use Rattle.fin_ast.specs.Ties.{Dimension, OfLoop};
ghost use Rattle.fin_ast.specs.Sizes.{number_of, first_of, first_from, shape_from, shapes_from, ranges_of};
ghost use Rattle.fin_ast.specs.Sizes.{dims_of};
ghost use Rattle.fin_ast.specs.Sizes as sizes;
ghost use Rattle.fin_dims.specs.Settled.{extent_of};

use crate::breach::broken;
use crate::classes::Classes;
use fin_ast::{Dims, Header, Place};
use fin_base::{Refusal, Rule};
use fin_tensor::{Level, Nums, Seq, has_small_dense_size};
use std::alloc::{AllocError, Global};

impl Classes {
    fn of_dimension(&self, dimension: usize) -> Option<u64>
        ensures { result ≡ extent_of self.now (Dimension dimension) }
    {
        match self.labels.get(dimension) {
            Some(label) => self.number_at(*label),
            None => None,
        }
    }

    fn of_loop(&self, var: u32) -> Option<u64>
        ensures { result ≡ extent_of self.now (OfLoop var) }
    {
        match self.anchors.get(var as usize) {
            Some(Some(dimension)) => self.of_dimension(*dimension),
            _ => None,
        }
    }

    fn number_at(&self, label: usize) -> Option<u64>
        ensures { result ≡ slice_index_or self.now.numbers.items label None }
    {
        match self.numbers.get(label) {
            Some(number) => *number,
            None => None,
        }
    }

    fn number_of_dimension(&self, dimension: usize) -> u64
        ensures { result ≡ number_of (extent_of self.now) (Dimension dimension) }
    {
        self.of_dimension(dimension).unwrap_or(0)
    }

    /// The first tensor with a dimension without extent, or loop without one.
    pub fn first_unknown(&self, headers: &[Header], places: &[Place]) -> Option<Refusal>
        ensures { result ≡ sizes.first_unknown (extent_of self.now) headers.now places.now }
    {
        self.unknown_in_headers(headers)
            .or(self.unknown_in_places(places))
    }

    fn unknown_in_headers(&self, headers: &[Header]) -> Option<Refusal>
        ensures { result ≡ first_from (sizes.unknown_in_header (extent_of self.now)) 0 headers.now }
    {
        for tensor in 0..headers.len() {
            if let Some(refusal) = self.unknown_in_header(tensor, &headers[tensor]) {
                return Some(refusal);
            }
        }
        None
    }

    fn unknown_in_header(&self, tensor: usize, header: &Header) -> Option<Refusal>
        requires { tensor < 2 ^ 58 }
        ensures { result ≡ sizes.unknown_in_header (extent_of self.now) tensor header.now }
    {
        let lacks = self.lacks_extent(8 * tensor, header.format.levels.as_slice());
        broken(lacks, Rule::M2, header.line)
    }

    fn lacks_extent(&self, dimension: usize, levels: &[Level]) -> bool
        requires { dimension < 2 ^ 61 }
        ensures { result ≡ sizes.lacks_extent (extent_of self.now) dimension levels.now }
    {
        let mut at = dimension;
        for _level in levels {
            if self.of_dimension(at).is_none() {
                return true;
            }
            at += 1;
        }
        false
    }

    fn unknown_in_places(&self, places: &[Place]) -> Option<Refusal>
        ensures { result ≡ first_of (sizes.unknown_in_place (extent_of self.now)) places.now }
    {
        for place in places {
            if let Some(refusal) = self.unknown_in_place(place) {
                return Some(refusal);
            }
        }
        None
    }

    fn unknown_in_place(&self, place: &Place) -> Option<Refusal>
        ensures { result ≡ sizes.unknown_in_place (extent_of self.now) place.now }
    {
        match place {
            Place::Loop {
                var,
                range: None,
                line,
            } => broken(self.of_loop(*var).is_none(), Rule::M2, *line),
            _ => None,
        }
    }

    /// The shapes and the ranges.
    pub fn dims(
        &self,
        alloc: Global,
        headers: &[Header],
        places: &[Place],
    ) -> Result<Dims, AllocError>
        ensures { IfOk result (λ d. d ≡ dims_of (extent_of self.now) headers.now places.now) }
    {
        let shapes = self.shapes(alloc, headers)?;
        let ranges = self.ranges(alloc, places)?;
        Ok(Dims { shapes, ranges })
    }

    fn shapes(&self, alloc: Global, headers: &[Header]) -> Result<Seq<Nums>, AllocError>
        ensures { IfOk result (λ shapes. shapes ≡ shapes_from (extent_of self.now) 0 headers.now []) }
    {
        let mut shapes = Seq::new(alloc);
        for tensor in 0..headers.len() {
            let shape = self.shape(alloc, 8 * tensor, headers[tensor].format.levels.as_slice())?;
            shapes.push(shape)?;
        }
        Ok(shapes)
    }

    fn shape(&self, alloc: Global, dimension: usize, levels: &[Level]) -> Result<Nums, AllocError>
        requires { dimension < 2 ^ 61 }
        ensures { IfOk result (λ shape. shape ≡ shape_from (extent_of self.now) dimension levels.now []) }
    {
        let mut shape = Seq::new(alloc);
        let mut at = dimension;
        for _level in levels {
            shape.push(self.number_of_dimension(at))?;
            at += 1;
        }
        Ok(shape)
    }

    fn ranges(&self, alloc: Global, places: &[Place]) -> Result<Seq<(u64, u64)>, AllocError>
        ensures { IfOk result (λ ranges. ranges ≡ ranges_of (extent_of self.now) places.now) }
    {
        let mut ranges = Seq::new(alloc);
        for place in places {
            push_range(&mut ranges, self.range_of(place))?;
        }
        Ok(ranges)
    }

    fn range_of(&self, place: &Place) -> Option<(u64, u64)>
        ensures { result ≡ sizes.range_of (extent_of self.now) place.now }
    {
        match place {
            Place::Loop {
                var,
                range: None,
                line: _,
            } => Some((0, self.of_loop(*var).unwrap_or(0))),
            Place::Loop {
                var: _,
                range: Some(range),
                line: _,
            } => Some(*range),
            Place::Let => Some((0, 0)),
            Place::Use {
                dimension: _,
                index: _,
                line: _,
            } => None,
        }
    }

    /// The first index that leaves its extent.
    pub fn first_outside(&self, ranges: &[(u64, u64)], places: &[Place]) -> Option<Refusal>
        ensures { result ≡ first_of (sizes.outside (extent_of self.now) ranges.now) places.now }
    {
        for place in places {
            if let Some(refusal) = self.outside(ranges, place) {
                return Some(refusal);
            }
        }
        None
    }

    fn outside(&self, ranges: &[(u64, u64)], place: &Place) -> Option<Refusal>
        ensures { result ≡ sizes.outside (extent_of self.now) ranges.now place.now }
    {
        match place {
            Place::Use {
                dimension,
                index,
                line,
            } => {
                let extent = self.number_of_dimension(*dimension);
                let range = range_at(ranges, index.first);
                let is_outside = !index.loose && leaves(index.offset, range, extent);
                broken(is_outside, Rule::M3, *line)
            }
            _ => None,
        }
    }
}

fn push_range(ranges: &mut Seq<(u64, u64)>, range: Option<(u64, u64)>) -> Result<(), AllocError>
    ensures { OnOk result (ranges.new ≡ ranges.old ++ cons_option range []) }
{
    if let Some(range) = range {
        ranges.push(range)?;
    }
    Ok(())
}

/// The first tensor whose dense extents are too large.
pub fn first_dense(headers: &[Header], shapes: &[Nums]) -> Option<Refusal>
    ensures { result ≡ sizes.first_dense headers.now shapes.now }
{
    for tensor in 0..headers.len().min(shapes.len()) {
        if let Some(refusal) = too_dense(&headers[tensor], &shapes[tensor]) {
            return Some(refusal);
        }
    }
    None
}

fn too_dense(header: &Header, shape: &Nums) -> Option<Refusal>
    ensures { result ≡ sizes.too_dense header.now shape.now }
{
    let is_small = has_small_dense_size(header.format.levels.as_slice(), shape.as_slice());
    broken(!is_small, Rule::B1, header.line)
}

fn range_at(ranges: &[(u64, u64)], first: Option<u32>) -> (u64, u64)
    ensures { result ≡ sizes.range_at ranges.now first }
{
    match first {
        None => (0, 1),
        Some(var) => match ranges.get(var as usize) {
            Some(range) => *range,
            None => (0, 0),
        },
    }
}

fn leaves(offset: i64, range: (u64, u64), extent: u64) -> bool
    ensures { result ≡ sizes.leaves offset range extent }
{
    let n = offset.unsigned_abs();
    if offset >= 0 {
        leaves_above(n, range, extent)
    } else {
        leaves_below(n, range, extent)
    }
}

fn leaves_above(n: u64, range: (u64, u64), extent: u64) -> bool
    ensures { result ≡ sizes.leaves (pos n) range extent }
{
    range.0 < range.1 && (extent < n || extent - n < range.1)
}

fn leaves_below(n: u64, range: (u64, u64), extent: u64) -> bool
    requires { 0 < n }
    ensures { result ≡ sizes.leaves (negsuc (n - 1)) range extent }
{
    range.0 < range.1 && (range.0 < n || extent < range.1 - n)
}
