//! The chunks of a parallel loop.
ghost use Rattle.std.specs.Prelude.{◌≡◌, ℕ, ◌+◌, ◌-◌, ◌≤◌, ◌^◌, ◌<◌, min, nat_lt, true, List, if◌then◌else◌, slice_set, slice_index_or, OnOk, length};
ghost use Rattle.fin_tensor.specs.declared.storage.Storage.{Storage};
ghost use Rattle.fin_ir.specs.Declares.{declares as declares_of};
ghost use Rattle.fin_ir.specs.Meaning.{MOST_CHUNKS as most, chunk_begin, chunk_locals, opened};
ghost use Rattle.fin_run.specs.Ends.{Did};
ghost use Rattle.fin_run.specs.Chunks.{IsCut, forget_held, kept_held};

use crate::declared::declares;
use crate::state::{Held, State};
use crate::statements::set_local;
use fin_ir::Code;
use fin_tensor::Vals;
use std::alloc::{AllocError, Global};

/// The most chunks of a loop.
const MOST_CHUNKS: u64 = 256;

/// The chunks of lo..lo+len, of which `next` is the next one.
#[derive(Drop)]
pub struct Chunks {
    pub lo: u64,
    pub len: u64,
    pub count: u64,
    pub next: u64,
}

/// The chunks of lo..hi.
pub fn cut(lo: u64, hi: u64) -> Chunks
    requires order { lo ≤ hi }
    requires small { hi ≤ 2 ^ 40 }
    ensures cut { IsCut lo hi result }
    ensures next { result.next ≡ 0 }
{
    let len = hi - lo;
    Chunks {
        lo,
        len,
        count: len.min(MOST_CHUNKS),
        next: 0,
    }
}

/// Whether a chunk is left.
pub fn is_left(chunks: &Chunks) -> bool
    ensures { result ≡ nat_lt chunks.now.next chunks.now.count }
{
    chunks.next < chunks.count
}

/// One chunk is done.
pub fn pass(chunks: &mut Chunks)
    requires { chunks.old.next < chunks.old.count }
    ensures next { chunks.new.next ≡ chunks.old.next + 1 }
    ensures lo { chunks.new.lo ≡ chunks.old.lo }
    ensures len { chunks.new.len ≡ chunks.old.len }
    ensures count { chunks.new.count ≡ chunks.old.count }
{
    chunks.next += 1;
}

// Where the chunk of that number begins.
fn begin(chunks: &Chunks, k: u64) -> u64
    requires cut { (lo hi : ℕ) × (lo ≤ hi) × (hi ≤ 2 ^ 40) × IsCut lo hi chunks.now }
    requires some { 0 < chunks.now.count }
    requires within { k ≤ chunks.now.count }
    ensures begin { result ≡ chunk_begin chunks.now.lo chunks.now.len chunks.now.count k }
    ensures small { result ≤ 2 ^ 41 }
{
    chunks.lo + k * chunks.len / chunks.count
}

/// The next chunk begins: from the locals of the loop's entry with its two ends, and without the tensors that the body
/// declares.
pub fn open(
    alloc: Global,
    body: &Code,
    from: u32,
    to: u32,
    entry: &Vals,
    chunks: &Chunks,
    state: &mut State,
) -> Result<(), AllocError>
    requires cut { (lo hi : ℕ) × (lo ≤ hi) × (hi ≤ 2 ^ 40) × IsCut lo hi chunks.now }
    requires left { chunks.now.next < chunks.now.count }
    ensures did { OnOk result ((inputs : List Storage) → Did (opened (declares_of body.now) (chunk_locals from to entry.now (chunk_begin chunks.now.lo chunks.now.len chunks.now.count chunks.now.next, chunk_begin chunks.now.lo chunks.now.len chunks.now.count (chunks.now.next + 1)))) inputs state.old state.new) }
    ensures work { OnOk result (state.new.work ≡ state.old.work) }
{
    let mut locals = entry.copy(alloc)?;
    set_local(&mut locals, from, begin(chunks, chunks.next) as i64);
    set_local(&mut locals, to, begin(chunks, chunks.next + 1) as i64);
    close(body, locals, state);
    Ok(())
}

/// The locals are these, and the tensors that the body declares are nothing.
pub fn close(body: &Code, locals: Vals, state: &mut State)
    ensures did { (inputs : List Storage) → Did (opened (declares_of body.now) locals) inputs state.old state.new }
    ensures work { state.new.work ≡ state.old.work }
{
    state.locals = locals;
    forget(body, &mut state.tensors);
}

fn forget(body: &Code, tensors: &mut Vec<Held>)
    ensures { tensors.new.items ≡ forget_held (declares_of body.now) 0 tensors.old.items }
{
    for t in 0..tensors.len() {
        forget_at(body, tensors, t);
    }
}

fn forget_at(body: &Code, tensors: &mut Vec<Held>, t: usize)
    requires { t < length tensors.old.items }
    ensures { tensors.new.items ≡ slice_set tensors.old.items t (kept_held (declares_of body.now) t (slice_index_or tensors.old.items t Held.Nothing)) }
{
    if declares(body, t) {
        tensors[t] = Held::Nothing;
    }
}
