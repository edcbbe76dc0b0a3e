//! Effects.
ghost use Rattle.fin_base.specs.Words.{IsWord};

use fin_base::Reduce;
use fin_tensor::Coords;

/// An update that a chunk makes outside itself.
#[derive(Drop)]
pub struct Effect {
    pub tensor: u8,
    pub at: Coords,
    pub by: Reduce,
    pub value: i64,
    ghost word: { IsWord value },
}
