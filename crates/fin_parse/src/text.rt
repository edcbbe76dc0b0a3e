//! Reads a whole text.
ghost use Rattle.fin_parse.specs.Text.{HeadersRead, TextRead};

use crate::choice::form_at;
use crate::class::Class;
use crate::cursor::Cursor;
use crate::grammar::Phrase;
use crate::reader::{read_many, read_phrase};
use crate::tree::{Room, Stop, Tree};
use crate::trees::Text;
use sqlite_items::Items;
use std::alloc::Global;

/// Reads headers and statements up to the end.
pub fn read_text(alloc: Global, cursor: &mut Cursor, room: Room) -> Result<Text, Stop>
    ensures outcome { TextRead room cursor.old cursor.new result }
{
    let headers = read_headers(alloc, cursor, room)?;
    if form_at(Phrase::Header, cursor.class()).is_some() {
        return Err(Stop::Crowded);
    }
    let body = read_many(alloc, cursor, Phrase::Stmt, room)?;
    if cursor.class() != Class::End {
        return Err(Stop::Unexpected);
    }
    Ok(Text { headers, body })
}

fn read_headers(alloc: Global, cursor: &mut Cursor, room: Room) -> Result<Items<Tree>, Stop>
    ensures outcome { HeadersRead room cursor.old cursor.new result }
{
    let mut headers = Items::new(alloc);
    'each: while headers.len() < room.headers as usize
        && form_at(Phrase::Header, cursor.class()).is_some()
    {
        let header = read_phrase(alloc, cursor, Phrase::Header, room)?;
        headers.push(header)?;
    }
    Ok(headers)
}
