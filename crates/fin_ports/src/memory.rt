//! A source and a sink in memory, whose calls fail as they are told.
ghost use Rattle.std.specs.Prelude.{◌≡◌, ◌≢◌, ℕ, ◌+◌, ◌-◌, ◌<◌, ◌≤◌, ◌⊎◌, List, [], length, drop, Some, IfOk, vec_capacity, false};
ghost use Rattle.std.proofs.Common.{refl, inl, inr};
ghost use Rattle.fin_ports.specs.Moments.{at_most_itself, fills_again, stays_again};

use crate::{Failed, Sink, Source};
use std::alloc::{AllocError, Global};

/// A source in memory: the bytes of a list, at most so many a call.
#[derive(Drop)]
pub struct MemSource {
    pub(crate) bytes: Vec<u8>,
    pub(crate) at: usize,
    pub(crate) most: usize,
    pub(crate) fails: Vec<u64>,
    pub(crate) calls: u64,
    pub(crate) faults: u64,
    ghost within: { at ≤ length bytes.items },
    ghost some: { 0 < most },
}

impl MemSource {
    /// Gives `bytes`, at most `most` a call. The calls whose numbers, from 0, stand in `fails` fail.
    pub fn new(bytes: Vec<u8>, most: usize, fails: Vec<u64>) -> MemSource
        requires { 0 < most }
        ensures left { ⟦<MemSource as Source>⟧.left result ≡ Some bytes.items }
        ensures start { (result.fails ≡ fails) × (result.faults ≡ 0) }
    {
        MemSource {
            bytes,
            at: 0,
            most,
            fails,
            calls: 0,
            faults: 0,
        }
    }
}

impl Source for MemSource {
    ghost left = { λ s. Some (drop s.at s.bytes.items) };

    ghost faults = { λ s. s.faults };

    ghost Later = { λ a b. (b.fails ≡ a.fails) × (a.fails.items ≡ [] → b.faults ≡ a.faults) };

    ghost later_refl = { λ s. (refl, λ _. refl) };

    ghost later_trans = { λ a b c h k. stays_again (λ f. f.items) _ _ _ _ _ _ h k };

    fn read(&mut self, into: &mut [u8]) -> Result<usize, Failed> {
        let call = self.calls;
        self.calls = self.calls.saturating_add(1);
        if is_among(&self.fails, call) {
            self.faults = self.faults.saturating_add(1);
            return Err(Failed);
        }
        let count = into.len().min(self.most).min(self.bytes.len() - self.at);
        into[..count].copy_from_slice(&self.bytes[self.at..self.at + count]);
        self.at += count;
        Ok(count)
    }
}

// The call's number is one of those that fail.
fn is_among(fails: &Vec<u64>, call: u64) -> bool
    ensures { fails.now.items ≡ [] → result ≡ false }
{
    fails.contains(&call)
}

/// A sink in memory, with room for so many bytes. It takes at most so many a call.
#[derive(Drop)]
pub struct MemSink {
    pub(crate) taken: Vec<u8>,
    pub(crate) room: usize,
    pub(crate) most: usize,
    pub(crate) fails: Vec<u64>,
    pub(crate) calls: u64,
    pub(crate) faults: u64,
    ghost within: { length taken.items ≤ room },
    ghost reserved: { room ≤ vec_capacity taken },
    ghost some: { 0 < most },
}

impl MemSink {
    /// Room for `room` bytes is taken at once, so only this call can want memory. Each put takes at most `most`
    /// bytes. The calls whose numbers, from 0, stand in `fails` fail, and so does a put of some bytes without room.
    pub fn new(
        alloc: Global,
        room: usize,
        most: usize,
        fails: Vec<u64>,
    ) -> Result<MemSink, AllocError>
        requires { 0 < most }
        ensures taken { IfOk result (λ s. ⟦<MemSink as Sink>⟧.taken s ≡ Some []) }
        ensures start { IfOk result (λ s. (s.fails ≡ fails) × (s.faults ≡ 0) × (s.room ≡ room)) }
    {
        Ok(MemSink {
            taken: Vec::with_capacity(alloc, room)?,
            room,
            most,
            fails,
            calls: 0,
            faults: 0,
        })
    }

    /// The bytes that it took.
    pub fn taken(&self) -> &[u8]
        ensures { ⟦<MemSink as Sink>⟧.taken self.now ≡ Some result.now }
    {
        &self.taken
    }
}

impl Sink for MemSink {
    ghost taken = { λ s. Some s.taken.items };

    ghost faults = { λ s. s.faults };

    ghost Later = { λ a b. (b.fails ≡ a.fails) × (b.room ≡ a.room)
        × (length a.taken.items ≤ length b.taken.items)
        × (a.fails.items ≡ [] → (b.faults ≡ a.faults) ⊎ (a.room ≤ length b.taken.items)) };

    ghost later_refl = { λ s. (refl, refl, at_most_itself (length s.taken.items), λ _. inl refl) };

    ghost later_trans = { λ a b c h k. fills_again (λ f. f.items) _ _ _ _ _ _ _ _ _ _ _ _ h k };

    fn put(&mut self, bytes: &[u8]) -> Result<usize, Failed> {
        let call = self.calls;
        self.calls = self.calls.saturating_add(1);
        if is_among(&self.fails, call) {
            self.faults = self.faults.saturating_add(1);
            return Err(Failed);
        }
        let count = bytes.len().min(self.most).min(self.room - self.taken.len());
        if count == 0 && !bytes.is_empty() {
            self.faults = self.faults.saturating_add(1);
            return Err(Failed);
        }
        let Ok(()) = self.taken.extend_from_slice(&bytes[..count]) else {
            unreachable!()
        };
        Ok(count)
    }
}
