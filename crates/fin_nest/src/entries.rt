//! The looplets of a loop's reads and masks.
use fin_looplet::Looplet;

/// What a read sees, by its number in the order of the text; or a mask, by the number of its `if`.
#[derive(Debug, Drop)]
pub struct Numbered {
    pub number: u32,
    pub looplet: Looplet,
}
