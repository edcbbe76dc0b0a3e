//! Reads the text of tensors, line by line.
ghost use Rattle.std.specs.Prelude.{◌≡◌, ◌≢◌, ◌↔◌, ◌++◌, ◌∷◌, [], ◌≤◌, ◌^◌, ℕ, List, All, Contains, IsTrue, MatchOption, MatchResult, OnOk, length};
ghost use Rattle.indexmap.specs.IndexMap.{keys};
ghost use Rattle.fin_text.specs.DueLines.{TakesLine, due_word, known_words};
ghost use Rattle.fin_text.specs.Names.{IsName};
ghost use Rattle.fin_text.specs.Reading.{IsNew, IsRead, IsSkipped, IsBetween, ReadsLine, ReadsRest, RefusesText, fail_at, names_of};
ghost use Rattle.fin_text.specs.declared.due.Due.TheVariants.{Tensor};

use crate::due::{Due, LineFail};
use crate::forms::has_bytes;
use crate::names::{is_listed, is_name, name_from};
use crate::take::take_line;
use crate::words::split_word;
use fin_base::{Fail, Refusal, Rule};
use fin_tensor::{Name, Storage};
use indexmap::IndexMap;
use std::alloc::{AllocError, Global};

// The words that lines begin with.
const KNOWN: [&[u8]; 10] = [
    b"tensor", b"format", b"fill", b"shape", b"ptr", b"idx", b"stop", b"start", b"val", b"end",
];

/// A tensor that was read.
#[derive(Debug, Drop)]
pub struct Given {
    /// What it stands for, and how it is stored.
    pub storage: Storage,
    /// Its first line.
    pub line: u32,
}

// The tensors so far, the first line of the one that is being read, and which line is due.
#[derive(Drop)]
pub(crate) struct Reader {
    pub(crate) given: IndexMap<Name, Given>,
    pub(crate) since: u32,
    pub(crate) due: Due,
}

/// The tensors of a text by their names, in its order; its first line has that number.
///
/// # Errors
///
/// The first line that breaks a rule: `X1` where its first word is unknown or the line misformed, `X2` where a number
/// is misspelled or out of its range, `X3` where another line is due or the text ends, `X4` where the storage isn't
/// valid, `X5` where the name was given before. Or memory ran out.
pub fn read_tensors(
    alloc: Global,
    text: &[u8],
    first_line: u32,
) -> Result<IndexMap<Name, Given>, Fail>
    requires short { length text.now ≤ 2 ^ 24 }
    requires first_line { first_line ≤ 2 ^ 31 }
    ensures { MatchResult result (λ tensors. IsRead text.now first_line tensors.entries) (RefusesText text.now first_line) }
{
    let mut reader = Reader {
        given: IndexMap::new(alloc),
        since: 0,
        due: Due::Tensor,
    };
    let mut line = first_line;
    let mut rest = text;
    while let Some((bytes, behind)) = split_line(rest) {
        reader = match reader.take(alloc, line, bytes) {
            Ok(next) => next,
            Err(fail) => return Err(fail_at(fail, line)),
        };
        line += 1;
        rest = behind;
    }
    if !reader.skips(rest) {
        return Err(fail_at(LineFail::Broken(Rule::X3), line));
    }
    Ok(reader.given)
}

fn fail_at(fail: LineFail, line: u32) -> Fail
    ensures { result ≡ fail_at fail line }
{
    match fail {
        LineFail::Broken(rule) => Fail::Refused(Refusal { rule, line }),
        LineFail::Memory(refused) => Fail::Memory(refused),
    }
}

impl Reader {
    // Takes a line, without its newline.
    fn take(self, alloc: Global, line: u32, bytes: &[u8]) -> Result<Reader, LineFail>
        requires { IsNew (names_of self) self.due }
        ensures { ReadsLine self line bytes.now result }
    {
        if self.skips(bytes) {
            return Ok(self);
        }
        let (word, after) = split_word(bytes);
        if !is_known(word) {
            return Err(LineFail::Broken(Rule::X1));
        }
        if !self.due.begins_with(word) {
            return Err(LineFail::Broken(Rule::X3));
        }
        self.take_rest(alloc, line, after)
    }

    // Takes what follows the due word.
    fn take_rest(self, alloc: Global, line: u32, after: &[u8]) -> Result<Reader, LineFail>
        requires { IsNew (names_of self) self.due }
        ensures { ReadsRest self line after.now result }
    {
        let Reader { given, since, due } = self;
        match due {
            Due::Tensor => {
                let due = take_tensor(alloc, &given, after)?;
                Ok(Reader {
                    given,
                    since: line,
                    due,
                })
            }
            Due::End { name, storage } => {
                if has_bytes(after) {
                    return Err(LineFail::Broken(Rule::X1));
                }
                let tensor = Given {
                    storage,
                    line: since,
                };
                let mut given = given;
                put_last(&mut given, name, tensor)?;
                Ok(Reader {
                    given,
                    since,
                    due: Due::Tensor,
                })
            }
            inside => {
                match take_line(alloc, inside, after) {
                    Ok(due) => Ok(Reader { given, since, due }),
                    Err(fail) => Err(fail),
                }
            }
        }
    }

    // Whether a line isn't looked at.
    fn skips(&self, bytes: &[u8]) -> bool
        ensures { IsTrue result ↔ (IsBetween self.now.due × IsSkipped bytes.now) }
    {
        self.due.is_between() && is_skipped(bytes)
    }
}

fn take_tensor(alloc: Global, given: &IndexMap<Name, Given>, after: &[u8]) -> Result<Due, LineFail>
    ensures { TakesLine (keys given.now) Tensor after.now result }
{
    let Some(word) = name_word(after) else {
        return Err(LineFail::Broken(Rule::X1));
    };
    let name = name_from(alloc, word)?;
    if is_given(given, &name) {
        return Err(LineFail::Broken(Rule::X5));
    }
    Ok(Due::Format { name })
}

fn name_word(after: &[u8]) -> Option<&[u8]>
    ensures { MatchOption result
        ((name : List ℕ) → IsName name → after.now ≢ 32 ∷ name)
        (λ w. (after.now ≡ 32 ∷ w.now) × IsName w.now) }
{
    let (first, word) = after.split_first()?;
    if *first == b' ' && is_name(word) {
        Some(word)
    } else {
        None
    }
}

fn is_given(given: &IndexMap<Name, Given>, name: &Name) -> bool
    ensures { IsTrue result ↔ Contains (keys given.now) name.now }
{
    given.contains_key(name)
}

// A new name goes last.
fn put_last(given: &mut IndexMap<Name, Given>, name: Name, tensor: Given) -> Result<(), AllocError>
    requires { Contains (keys given.old) name → ⊥ }
    ensures { OnOk result (given.new.entries ≡ given.old.entries ++ (name, tensor) ∷ []) }
{
    given.insert(name, tensor)?;
    Ok(())
}

fn is_known(word: &[u8]) -> bool
    ensures { IsTrue result ↔ Contains known_words word.now }
{
    is_listed(word, &KNOWN)
}

// Empty, or a comment.
fn is_skipped(line: &[u8]) -> bool
    ensures { IsTrue result ↔ IsSkipped line.now }
{
    match line.first() {
        None => true,
        Some(byte) => *byte == b'#',
    }
}

// A line up to its newline, and what follows that.
fn split_line(text: &[u8]) -> Option<(&[u8], &[u8])>
    ensures { MatchOption result
        (All (λ b. b ≢ 10) text.now)
        (λ parts. (text.now ≡ parts.0.now ++ 10 ∷ parts.1.now) × All (λ b. b ≢ 10) parts.0.now) }
{
    let end = text.iter().position(|b| *b == b'\n')?;
    Some((&text[..end], &text[end + 1..]))
}
