//! Reads tokens by the table of the grammar.
ghost use Rattle.std.specs.Prelude.{◌≡◌, false, true, IfOk, ◌∷◌, []};
ghost use Rattle.fin_parse.specs.Grammar.{row_of as row};
ghost use Rattle.fin_parse.specs.Choices.{may_open as opens, goes_on, continues, row_continues, is_sound};
ghost use Rattle.fin_parse.specs.Reading.{Outcome, Trees, Rows, Groups};

use crate::choice::form_at;
use crate::class::Class;
use crate::cursor::Cursor;
use crate::grammar::{Form, Phrase, Symbol, row_of};
use crate::tree::{Room, Stop, Tree};
use sqlite_items::Items;
use std::alloc::{AllocError, Global};

/// Reads a phrase.
#[cycle(read)]
pub fn read_phrase(
    alloc: Global,
    cursor: &mut Cursor,
    phrase: Phrase,
    room: Room,
) -> Result<Tree, Stop>
    ensures outcome { Outcome (Trees (Symbol.One phrase)) room (goes_on phrase) cursor.old cursor.new result }
{
    match form_at(phrase, cursor.class()) {
        Some(form) => {
            let parts = read_row(alloc, cursor, form, room)?;
            Ok(Tree::Node(form, parts))
        }
        None => Err(Stop::Unexpected),
    }
}

#[cycle(read)]
fn read_row(alloc: Global, cursor: &mut Cursor, form: Form, room: Room) -> Result<Items<Tree>, Stop>
    ensures outcome { Outcome (Rows (row form)) room (row_continues (row form)) cursor.old cursor.new result }
{
    let mut parts = Items::new(alloc);
    let symbols = row_of(form);
    for symbol in symbols {
        let part = read_symbol(alloc, cursor, *symbol, room)?;
        parts.push(part)?;
    }
    Ok(parts)
}

#[cycle(read)]
fn read_symbol(alloc: Global, cursor: &mut Cursor, symbol: Symbol, room: Room) -> Result<Tree, Stop>
    requires sound { (c : Class) → is_sound symbol c ≡ true }
    ensures outcome { Outcome (Trees symbol) room (continues symbol) cursor.old cursor.new result }
{
    match symbol {
        Symbol::Word(class) => match cursor.take(class) {
            Some(token) => Ok(Tree::Leaf(token)),
            None => Err(Stop::Unexpected),
        },
        Symbol::One(phrase) => read_phrase(alloc, cursor, phrase, room),
        Symbol::Many(phrase) => {
            let parts = read_many(alloc, cursor, phrase, room)?;
            Ok(Tree::Group(parts))
        }
        Symbol::Maybe(phrase) => read_maybe(alloc, cursor, phrase, room),
        Symbol::Deeper(phrase) => read_deeper(alloc, cursor, phrase, room),
        Symbol::InLoop(phrase) => read_in_loop(alloc, cursor, phrase, room),
    }
}

#[cycle(read)]
pub fn read_many(
    alloc: Global,
    cursor: &mut Cursor,
    phrase: Phrase,
    room: Room,
) -> Result<Items<Tree>, Stop>
    requires sound { (c : Class) → is_sound (Symbol.Many phrase) c ≡ true }
    ensures outcome { Outcome (Groups phrase) room (continues (Symbol.Many phrase)) cursor.old cursor.new result }
{
    let mut parts = Items::new(alloc);
    'each: while form_at(phrase, cursor.class()).is_some() {
        let part = read_phrase(alloc, cursor, phrase, room)?;
        parts.push(part)?;
    }
    Ok(parts)
}

#[cycle(read)]
fn read_maybe(alloc: Global, cursor: &mut Cursor, phrase: Phrase, room: Room) -> Result<Tree, Stop>
    requires sound { (c : Class) → is_sound (Symbol.Maybe phrase) c ≡ true }
    ensures outcome { Outcome (Trees (Symbol.Maybe phrase)) room (continues (Symbol.Maybe phrase)) cursor.old cursor.new result }
{
    if form_at(phrase, cursor.class()).is_none() {
        return Ok(Tree::Group(Items::new(alloc)));
    }
    let part = read_phrase(alloc, cursor, phrase, room)?;
    let parts = single(alloc, part)?;
    Ok(Tree::Group(parts))
}

fn single(alloc: Global, part: Tree) -> Result<Items<Tree>, AllocError>
    ensures value { IfOk result (λ parts. parts ≡ part ∷ []) }
{
    let mut parts = Items::new(alloc);
    parts.push(part)?;
    Ok(parts)
}

#[cycle(read)]
fn read_deeper(alloc: Global, cursor: &mut Cursor, phrase: Phrase, room: Room) -> Result<Tree, Stop>
    ensures outcome { Outcome (Trees (Symbol.Deeper phrase)) room (goes_on phrase) cursor.old cursor.new result }
{
    if room.levels > 0 {
        let room = Room {
            headers: room.headers,
            levels: room.levels - 1,
            loops: room.loops,
        };
        read_phrase(alloc, cursor, phrase, room)
    } else if may_open(phrase, cursor.class()) {
        Err(Stop::Deep)
    } else {
        Err(Stop::Unexpected)
    }
}

#[cycle(read)]
fn read_in_loop(
    alloc: Global,
    cursor: &mut Cursor,
    phrase: Phrase,
    room: Room,
) -> Result<Tree, Stop>
    ensures outcome { Outcome (Trees (Symbol.InLoop phrase)) room (goes_on phrase) cursor.old cursor.new result }
{
    if room.loops > 0 {
        let room = Room {
            headers: room.headers,
            levels: room.levels,
            loops: room.loops - 1,
        };
        read_phrase(alloc, cursor, phrase, room)
    } else if may_open(phrase, cursor.class()) {
        Err(Stop::Deep)
    } else {
        Err(Stop::Unexpected)
    }
}

/// Whether a phrase that is too deep may begin so. A number behind a minus is its literal, and opens nothing.
fn may_open(phrase: Phrase, class: Class) -> bool
    ensures value { result ≡ opens phrase class }
{
    match phrase {
        Phrase::Operand => class != Class::Number && class != Class::Widest,
        _ => true,
    }
}
