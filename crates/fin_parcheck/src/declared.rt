//! Which tensors are declared at a place.
ghost use Rattle.std.specs.Prelude.{◌≡◌, false};
ghost use Rattle.fin_parcheck.specs.Walk.{declared_in, with_declared};

/// Whether each tensor, by its number, is declared.
#[derive(Clone, Copy, Debug)]
pub struct Declared {
    of: [bool; 256],
}

impl Declared {
    /// None is.
    pub fn nothing() -> Declared
        ensures { declared_in result ≡ (λ t. false) }
    {
        Declared { of: [false; 256] }
    }

    /// Whether that tensor is.
    pub fn has(&self, tensor: u8) -> bool
        ensures { result ≡ declared_in self.now tensor }
    {
        self.of[usize::from(tensor)]
    }

    /// That tensor is, from here on.
    pub fn declare(&mut self, tensor: u8)
        ensures { declared_in self.new ≡ with_declared tensor (declared_in self.old) }
    {
        self.of[usize::from(tensor)] = true;
    }
}
