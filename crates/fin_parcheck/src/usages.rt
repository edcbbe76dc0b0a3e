//! How a parallel loop updates each tensor that is declared outside it.
ghost use Rattle.std.specs.Prelude.{◌≡◌, ◌≤◌, IfOk, OnOk, ◌++◌, length};
ghost use Rattle.std.specs.List.{cons_option, list_all};
ghost use Rattle.std.specs.Prelude.{[], filter_map};
ghost use Rattle.fin_ast.specs.Ties.{bare as bare_of};
ghost use Rattle.fin_parcheck.specs.Ways as spec;

use crate::deeds::{Deed, ParallelLoop};
use fin_ast::{Header, Index};
use fin_base::{Reduce, Updated, Way};
use fin_tensor::{Level, Seq, Wrap};
use std::alloc::{AllocError, Global};

/// How a parallel loop updates a tensor: its way, where there is one, and the reduction of the first update.
#[derive(Clone, Copy, Debug)]
pub struct Usage {
    pub way: Option<Way>,
    pub by: Reduce,
}

/// How a parallel loop updates each tensor, by header, where it does.
pub fn usages(
    alloc: Global,
    headers: &[Header],
    parallel: &ParallelLoop,
) -> Result<Seq<Option<Usage>>, AllocError>
    requires { length headers.now ≤ 64 }
    ensures value { IfOk result (λ us. us ≡ spec.usages_of headers.now parallel.now) }
    ensures count { IfOk result (λ us. length us ≡ length headers.now) }
{
    let mut usages = Seq::new(alloc);
    for tensor in 0..headers.len() {
        let usage = usage_by(parallel, tensor as u8, &headers[tensor]);
        usages.push(usage)?;
    }
    Ok(usages)
}

/// The entries of a parallel loop: the tensors that it updates in some way.
pub fn updated(alloc: Global, usages: &[Option<Usage>]) -> Result<Seq<Updated>, AllocError>
    requires { length usages.now ≤ 64 }
    ensures { IfOk result (λ of. of ≡ spec.updated_from 0 usages.now []) }
{
    let mut of = Seq::new(alloc);
    for tensor in 0..usages.len() {
        push_entry(&mut of, entry(tensor as u8, usages[tensor]))?;
    }
    Ok(of)
}

fn push_entry(of: &mut Seq<Updated>, entry: Option<Updated>) -> Result<(), AllocError>
    ensures { OnOk result (of.new ≡ of.old ++ cons_option entry []) }
{
    if let Some(entry) = entry {
        of.push(entry)?;
    }
    Ok(())
}

fn entry(tensor: u8, usage: Option<Usage>) -> Option<Updated>
    ensures { result ≡ spec.entry_of tensor usage }
{
    match usage {
        Some(Usage { way: Some(way), by }) => Some(Updated { tensor, way, by }),
        _ => None,
    }
}

fn usage_by(parallel: &ParallelLoop, tensor: u8, header: &Header) -> Option<Usage>
    ensures { result ≡ spec.usage_of parallel.now tensor header.now }
{
    match first_by(tensor, parallel.deeds.as_slice()) {
        Some(by) => Some(Usage {
            way: way_by(parallel, tensor, header),
            by,
        }),
        None => None,
    }
}

fn way_by(parallel: &ParallelLoop, tensor: u8, header: &Header) -> Option<Way>
    ensures { result ≡ spec.way_of parallel.now tensor header.now }
{
    let has_rows = starts_dense(header.format.levels.as_slice());
    if has_rows && keeps_rows(parallel.var, tensor, parallel.deeds.as_slice()) {
        Some(Way::Rows)
    } else {
        decorated(header.format.wrap)
    }
}

fn starts_dense(levels: &[Level]) -> bool
    ensures { result ≡ spec.starts_dense levels.now }
{
    match levels {
        [] => false,
        [first, ..] => *first == Level::Dense,
    }
}

fn decorated(wrap: Wrap) -> Option<Way>
    ensures { result ≡ spec.decorated wrap }
{
    match wrap {
        Wrap::Bare => None,
        Wrap::Atomic => Some(Way::Word),
        Wrap::Mutex(_) => Some(Way::Turn),
        Wrap::Shard => Some(Way::Shard),
    }
}

/// Whether each update of a tensor is at the row of the loop's variable.
fn keeps_rows(var: u32, tensor: u8, deeds: &[Deed]) -> bool
    ensures { result ≡ list_all (spec.keeps_row var tensor) deeds.now }
{
    for deed in deeds {
        if !keeps_row(var, tensor, *deed) {
            return false;
        }
    }
    true
}

fn keeps_row(var: u32, tensor: u8, deed: Deed) -> bool
    ensures { result ≡ spec.keeps_row var tensor deed }
{
    match deed {
        Deed::Update {
            tensor: updated,
            first,
            by: _,
            line: _,
        } => updated != tensor || is_row(var, first),
        Deed::Turn { line: _ } => true,
        Deed::Nested { line: _ } => true,
    }
}

fn is_row(var: u32, first: Option<Index>) -> bool
    ensures { result ≡ spec.is_row var first }
{
    match first {
        Some(index) => bare(index) == Some(var),
        None => false,
    }
}

/// The variable, where the index is no more than one that stays in the extent.
fn bare(index: Index) -> Option<u32>
    ensures { result ≡ bare_of index }
{
    match (index.loose, index.first, index.second) {
        (false, Some(var), None) if index.offset == 0 => Some(var),
        _ => None,
    }
}

/// The reduction of the first update of a tensor.
fn first_by(tensor: u8, deeds: &[Deed]) -> Option<Reduce>
    ensures { result ≡ spec.first_by tensor deeds.now }
{
    for deed in deeds {
        if let Some(by) = by_of(tensor, *deed) {
            return Some(by);
        }
    }
    None
}

fn by_of(tensor: u8, deed: Deed) -> Option<Reduce>
    ensures { result ≡ spec.by_of tensor deed }
{
    match deed {
        Deed::Update {
            tensor: updated,
            first: _,
            by,
            line: _,
        } => { if updated == tensor { Some(by) } else { None } }
        Deed::Turn { line: _ } => None,
        Deed::Nested { line: _ } => None,
    }
}
