//! The trees of a text.
use crate::tree::Tree;
use sqlite_items::Items;

/// The trees of a text.
#[derive(Drop)]
pub struct Text {
    pub headers: Items<Tree>,
    pub body: Items<Tree>,
}
