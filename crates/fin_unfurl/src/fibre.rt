//! The fibre that is unfurled.

/// One fibre of a level, at a position that an expression gives.
#[derive(Clone, Copy)]
pub struct Fibre {
    pub tensor: u8,
    pub level: u8,
    /// The next level; none where the values are next.
    pub below: Option<u8>,
    pub extent: u64,
    pub fill: i64,
    /// The local of the walker; the one above it has the coordinate.
    pub cursor: u32,
}
