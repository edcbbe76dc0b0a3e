//! The value of an expression.
ghost use Rattle.std.specs.Prelude.{◌≡◌, slice_index_or, pos};
ghost use Rattle.fin_ir.specs.Value.{value_of, times as times_of, extents_in, parts_in, words_in};
ghost use Rattle.fin_ir.specs.Loads.{table_in, part_at, number_at, word_at, seek_in};
ghost use Rattle.fin_run.specs.States.{reads};
ghost use Rattle.fin_run.specs.Ends.{evaluated};

use crate::loads::{cell, seek, word};
use crate::state::{Held, State};
use crate::storages::storage_at;
use fin_base::{Reduce, negate, operate, repeat};
use fin_ir::{IExpr, Table};
use fin_tensor::Storage;

/// The value of an expression in a state.
pub fn evaluate(inputs: &[Storage], state: &State, e: &IExpr) -> i64
    ensures { result ≡ evaluated inputs.now state.now e.now }
{
    value(inputs, state.tensors.as_slice(), state.locals.as_slice(), e)
}

// The value over the input storages, what is held of the tensors, and the locals.
fn value(inputs: &[Storage], tensors: &[Held], locals: &[i64], e: &IExpr) -> i64
    ensures { result ≡ value_of e.now (reads inputs.now tensors.now) locals.now }
{
    match e {
        IExpr::Num(n) => *n,
        IExpr::Local(local) => local_at(locals, *local),
        IExpr::Neg(inner) => negate(value(inputs, tensors, locals, inner.get())),
        IExpr::Two { op, left, right } => {
            let left = value(inputs, tensors, locals, left.get());
            let right = value(inputs, tensors, locals, right.get());
            operate(*op, left, right)
        }
        IExpr::Pick { test, yes, no } => {
            let test = value(inputs, tensors, locals, test.get());
            if test == 0 {
                value(inputs, tensors, locals, no.get())
            } else {
                value(inputs, tensors, locals, yes.get())
            }
        }
        IExpr::Times {
            by,
            value: once,
            count,
        } => {
            let once = value(inputs, tensors, locals, once.get());
            let count = value(inputs, tensors, locals, count.get());
            times(*by, once, count)
        }
        IExpr::Cell {
            tensor,
            level,
            table,
            at,
        } => {
            let at = value(inputs, tensors, locals, at.get());
            cell_at(inputs, tensors, *tensor, *level, *table, at)
        }
        IExpr::Seek {
            tensor,
            level,
            from,
            to,
            key,
        } => {
            let from = value(inputs, tensors, locals, from.get());
            let to = value(inputs, tensors, locals, to.get());
            let key = value(inputs, tensors, locals, key.get());
            seek_at(inputs, tensors, *tensor, *level, from, to, key)
        }
        IExpr::Val { tensor, pos } => {
            let pos = value(inputs, tensors, locals, pos.get());
            word_at(inputs, tensors, *tensor, pos)
        }
    }
}

fn local_at(locals: &[i64], local: u32) -> i64
    ensures { result ≡ slice_index_or locals.now local (pos 0) }
{
    match locals.get(local as usize) {
        Some(v) => *v,
        None => 0,
    }
}

fn times(by: Reduce, v: i64, count: i64) -> i64
    ensures { result ≡ times_of by v count }
{
    if count < 1 {
        v
    } else {
        repeat(by, v, count as u64)
    }
}

fn cell_at(
    inputs: &[Storage],
    tensors: &[Held],
    tensor: u8,
    level: u8,
    table: Table,
    at: i64,
) -> i64
    ensures { result ≡ number_at (table_in table (part_at (parts_in (reads inputs.now tensors.now tensor)) level)) at }
{
    match storage_at(inputs, tensors, tensor) {
        Some(storage) => cell(storage, level, table, at),
        None => 0,
    }
}

fn seek_at(
    inputs: &[Storage],
    tensors: &[Held],
    tensor: u8,
    level: u8,
    from: i64,
    to: i64,
    key: i64,
) -> i64
    ensures { result ≡ seek_in (extents_in (reads inputs.now tensors.now tensor)) (parts_in (reads inputs.now tensors.now tensor)) level from to key }
{
    match storage_at(inputs, tensors, tensor) {
        Some(storage) => seek(storage, level, from, to, key),
        None => from,
    }
}

fn word_at(inputs: &[Storage], tensors: &[Held], tensor: u8, at: i64) -> i64
    ensures { result ≡ word_at (words_in (reads inputs.now tensors.now tensor)) at }
{
    match storage_at(inputs, tensors, tensor) {
        Some(storage) => word(storage, at),
        None => 0,
    }
}
