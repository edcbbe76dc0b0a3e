//! Trees of the grammar, and why there is none.
ghost use Rattle.std.specs.Prelude.{◌≡◌};
ghost use Rattle.fin_parse.specs.declared.tree.Stop.TheVariants.{Memory};

use crate::grammar::Form;
use fin_lex::Token;
use sqlite_items::Items;
use std::alloc::AllocError;

/// What a symbol of a form stands for.
#[derive(Drop)]
pub enum Tree {
    /// A token.
    Leaf(Token),
    /// A phrase: its form, and a tree for each symbol of it.
    Node(Form, Items<Tree>),
    /// The phrases of a repetition, or of an option.
    Group(Items<Tree>),
}

/// How many headers a text may have, and how many levels and loops may still be opened.
#[derive(Clone, Copy, Debug, PartialEq, Eq)]
pub struct Room {
    pub headers: u8,
    pub levels: u8,
    pub loops: u8,
}

/// Why reading stops.
#[derive(Drop)]
pub enum Stop {
    /// The next token goes on with no phrase.
    Unexpected,
    /// The last token opens a level or a loop too many.
    Deep,
    /// The next token begins a header too many.
    Crowded,
    /// Memory ran out.
    Memory(AllocError),
}

impl From<AllocError> for Stop {
    ghost from_gives = { λ e s. s ≡ Memory e };

    fn from(e: AllocError) -> Stop {
        Stop::Memory(e)
    }
}
