//! What is carried along for the order of updates.
ghost use Rattle.std.specs.Prelude.{◌≡◌, drop, length, option_map};
ghost use Rattle.fin_ast.specs.Order.{is_as_first as is_as_first_of};
ghost use Rattle.fin_life.specs.Loops.{loops_in};
ghost use Rattle.fin_life.specs.Tracks.{tracks_in, entered_in, firsts_in, with_number, with_first, declared, updated};
ghost use Rattle.fin_life.specs.Trails.{no_tracks};

use crate::loops::{Loops, are_same};

/// For each tensor the number of loops around its last declaration, and the loops around its first update since then.
#[derive(Debug, Drop)]
pub struct Tracks {
    pub entered: [usize; 256],
    pub firsts: [Option<Loops>; 256],
}

impl Tracks {
    /// At the start of a program.
    pub fn none() -> Tracks
        ensures { tracks_in result ≡ no_tracks }
    {
        Tracks {
            entered: [0; 256],
            firsts: [None; 256],
        }
    }

    /// A declaration in these loops.
    pub fn declare(&mut self, tensor: u8, loops: &Loops)
        ensures { tracks_in self.new ≡ declared tensor (length (loops_in loops.now)) (tracks_in self.old) }
    {
        self.enter(tensor, loops.len());
        self.put(tensor, None);
    }

    /// An update in these loops.
    pub fn update(&mut self, tensor: u8, loops: &Loops)
        ensures { tracks_in self.new ≡ updated tensor (loops_in loops.now) (tracks_in self.old) }
    {
        let first = match self.firsts[usize::from(tensor)] {
            Some(first) => first,
            None => *loops,
        };
        self.put(tensor, Some(first));
    }

    fn enter(&mut self, tensor: u8, count: usize)
        ensures entered { entered_in self.new ≡ with_number (entered_in self.old) tensor count }
        ensures firsts { self.new.firsts ≡ self.old.firsts }
    {
        self.entered[usize::from(tensor)] = count;
    }

    fn put(&mut self, tensor: u8, first: Option<Loops>)
        ensures firsts { firsts_in self.new ≡ with_first (firsts_in self.old) tensor (option_map loops_in first) }
        ensures entered { self.new.entered ≡ self.old.entered }
    {
        self.firsts[usize::from(tensor)] = first;
    }

    /// The number of loops around the last declaration of a tensor.
    pub fn outer(&self, tensor: u8) -> usize
        ensures { result ≡ (tracks_in self.now).entered tensor }
    {
        self.entered[usize::from(tensor)]
    }

    /// Whether the first d loops are those of the tensor's first update.
    pub fn is_as_first(&self, tensor: u8, d: usize, outer: usize, loops: &[u32]) -> bool
        ensures { result ≡ is_as_first_of d loops.now (option_map (drop outer) ((tracks_in self.now).firsts tensor)) }
    {
        match &self.firsts[usize::from(tensor)] {
            Some(first) => are_same(d, first.without(outer), loops),
            None => true,
        }
    }
}
