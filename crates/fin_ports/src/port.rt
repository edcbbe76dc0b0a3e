//! A source of bytes and a sink for them.
ghost use Rattle.std.specs.Prelude.{◌≡◌, ℕ, ◌<◌, ◌≤◌, List, length, IfOk};
ghost use Rattle.std.specs.declared.option.Option.{Option};
ghost use Rattle.std.specs.Io.{ReadsAtMost, WritesAtMost};
ghost use Rattle.std.specs.Io.KnownBytes.{ReadConsumes, WriteAppends};
ghost use Rattle.fin_ports.specs.Causes.{HasCause};

/// A call of a port failed. Its count of faults rose.
#[derive(Clone, Copy, Debug, PartialEq, Eq)]
pub struct Failed;

/// Gives bytes, to its end.
pub trait Source {
    /// The bytes that are left, where the source tells them.
    ghost left: { Self → Option (List ℕ) };

    /// How often a read has failed. It never falls.
    ghost faults: { Self → ℕ };

    /// What may lie between two moments of this source.
    ghost Later: { Self → Self → Type 0 };

    /// Puts the first bytes that are left into the front of `into`. With room, no byte is the end.
    fn read(&mut self, into: &mut [u8]) -> Result<usize, Failed>
        ensures bound { ReadsAtMost result into.new }
        ensures bytes { ReadConsumes (left self.old) (left self.new) result into.new }
        ensures cause { HasCause (faults self.old) (faults self.new) result }
        ensures later { Later self.old self.new };

    ghost later_refl: { (s : Self) → Later s s };

    ghost later_trans: { (a b c : Self) → Later a b → Later b c → Later a c };
}

/// Takes bytes.
pub trait Sink {
    /// The bytes that were taken, where the sink tells them.
    ghost taken: { Self → Option (List ℕ) };

    /// How often a put has failed. It never falls.
    ghost faults: { Self → ℕ };

    /// What may lie between two moments of this sink.
    ghost Later: { Self → Self → Type 0 };

    /// Takes the first bytes, at least one of a piece that has one.
    fn put(&mut self, bytes: &[u8]) -> Result<usize, Failed>
        ensures bound { WritesAtMost result bytes.now }
        ensures some { 0 < length bytes.now → IfOk result (λ n. 0 < n) }
        ensures bytes { WriteAppends (taken self.old) (taken self.new) result bytes.now }
        ensures cause { HasCause (faults self.old) (faults self.new) result }
        ensures later { Later self.old self.new };

    ghost later_refl: { (s : Self) → Later s s };

    ghost later_trans: { (a b c : Self) → Later a b → Later b c → Later a c };
}
