//! A loop by its variable and what its body changes: which of its reads it drives, and the locals that these take.
ghost use Rattle.std.specs.Prelude.{◌≡◌, ◌+◌, IfOk};
ghost use Rattle.fin_simp.specs.Work as work;
ghost use Rattle.fin_enter.specs.Pushed as spec;

use crate::driving::driven_index;
use fin_ast::Index;
use fin_read::Heads;
use fin_simp::Access;
use std::alloc::AllocError;

/// A loop's variable, beside the headers of its program and the tensors that what remains of its body changes.
#[derive(Clone, Copy)]
pub struct LoopBody<'a> {
    pub heads: &'a Heads<'a>,
    pub var: u32,
    pub changed: &'a [u8],
}

/// Whether the tensor is among these.
pub fn is_in(tensors: &[u8], tensor: u8) -> bool
    ensures { result ≡ work.is_in tensors.now tensor }
{
    for one in tensors {
        if tensor == *one {
            return true;
        }
    }
    false
}

/// The driven index of a read that stands before the body is run.
pub fn settled_index(body: LoopBody<'_>, access: &Access) -> Option<(usize, Index)>
    ensures { result ≡ spec.settled_in body.entry access.now }
{
    if is_in(body.changed, access.tensor) {
        return None;
    }
    driven_index(body.var, access.at.as_slice())
}

/// The local behind that of a read's position. There is no memory for as many locals as a `u32` can't count.
pub fn next_place(body: LoopBody<'_>, access: &Access, at: u32) -> Result<u32, AllocError>
    ensures { IfOk result (λ n. n ≡ spec.behind_in body.entry access.now at) }
{
    match settled_index(body, access) {
        None => Ok(at),
        Some(_) => next_local(at),
    }
}

/// The local behind those that a read's looplet owns.
pub fn next_cursor(body: LoopBody<'_>, access: &Access, cursor: u32) -> Result<u32, AllocError>
    ensures { IfOk result (λ n. n ≡ spec.behind_own body.entry access.now cursor) }
{
    match driven_index(body.var, access.at.as_slice()) {
        None => Ok(cursor),
        Some(_) => next_local(next_local(cursor)?),
    }
}

/// The local behind one.
pub fn next_local(local: u32) -> Result<u32, AllocError>
    ensures { IfOk result (λ n. n ≡ local + 1) }
{
    if local == u32::MAX {
        return Err(AllocError);
    }
    Ok(local + 1)
}
