//! The lines of a tensor behind their first words: each is taken, or refused by the first rule that it breaks.
ghost use Rattle.std.specs.Prelude.{◌≡◌, ◌++◌, [], ◌∷◌, ◌<◌, ◌≤◌, length, codes, slice_index_or, false, ℕ, List, MatchOption, IfOk, IsTrue, Contains, ◌↔◌, map};
ghost use Rattle.fin_tensor.specs.declared.format.Level.{Level as TheLevel};
ghost use Rattle.fin_tensor.specs.declared.format.Level.TheVariants as level;
ghost use Rattle.fin_tensor.specs.Placement.{is_dense};
ghost use Rattle.fin_text.specs.DueLines.{IsAfter, TakesLine, HasNext, HasNoEmptyWord, part_with};
ghost use Rattle.fin_text.specs.Numbers.{words};
ghost use Rattle.fin_text.specs.Tensors.{level_word};
ghost use Rattle.fin_text.specs.declared.due.Due.TheVariants.{Format as FormatDue, Fill, Shape, Ptr, Second, Val};

use crate::due::{AtLevel, AtValues, BelowPtr, Due, Head, LineFail};
use crate::forms::{has_bytes, has_no_empty_word, one_word, read_part, tells_other};
use crate::numbers::read_value;
use crate::words::{read_levels, read_sizes, read_values};
use fin_base::Rule;
use fin_tensor::{Draft, Format, Level, Levels, Name, Nums, Part, Wrap, is_shape, keeps_placement};
use std::alloc::{AllocError, Global};

/// Takes a line inside a tensor, behind its first word, which is the due one.
pub(crate) fn take_line(alloc: Global, due: Due, after: &[u8]) -> Result<Due, LineFail>
    requires { HasNext due }
    ensures { TakesLine [] due after.now result }
{
    match due {
        Due::Format { name } => take_format(alloc, name, after),
        Due::Fill { head } => take_fill(head, after),
        Due::Shape { head } => take_shape(alloc, head, after),
        Due::Ptr { at } => take_ptr(alloc, at, after),
        Due::Second { below } => take_second(alloc, below, after),
        Due::Val { at } => take_val(alloc, at, after),
        Due::Tensor
        | Due::End {
            name: _,
            storage: _,
        } => Err(LineFail::Broken(Rule::X1)),
    }
}

fn take_format(alloc: Global, name: Name, after: &[u8]) -> Result<Due, LineFail>
    ensures { TakesLine [] (FormatDue name) after.now result }
{
    let Some(levels) = read_format(alloc, after)? else {
        return Err(LineFail::Broken(Rule::X1));
    };
    let format = Format {
        levels,
        wrap: Wrap::Bare,
        fill: 0,
    };
    if !keeps_placement(&format) {
        return Err(LineFail::Broken(Rule::X1));
    }
    Ok(Due::Fill {
        head: Head { name, format },
    })
}

fn take_fill(head: Head, after: &[u8]) -> Result<Due, LineFail>
    ensures { TakesLine [] (Fill head) after.now result }
{
    let Some(word) = one_word(after) else {
        return Err(LineFail::Broken(Rule::X1));
    };
    let Some(fill) = read_value(word) else {
        return Err(LineFail::Broken(Rule::X2));
    };
    let Head { name, format } = head;
    let Format {
        levels,
        wrap,
        fill: _,
    } = format;
    Ok(Due::Shape {
        head: Head {
            name,
            format: Format { levels, wrap, fill },
        },
    })
}

fn take_shape(alloc: Global, head: Head, after: &[u8]) -> Result<Due, LineFail>
    ensures { TakesLine [] (Shape head) after.now result }
{
    if !has_no_empty_word(after) {
        return Err(LineFail::Broken(Rule::X1));
    }
    let Some(shape) = read_sizes(alloc, after)? else {
        return Err(LineFail::Broken(Rule::X2));
    };
    if !is_shape(head.format.levels.as_slice(), shape.as_slice()) {
        return Err(LineFail::Broken(Rule::X4));
    }
    let Head { name, format } = head;
    Ok(skip_dense(name, Draft::new(alloc, format, shape))?)
}

fn take_ptr(alloc: Global, at: AtLevel, after: &[u8]) -> Result<Due, LineFail>
    ensures { TakesLine [] (Ptr at) after.now result }
{
    let number = at.draft.parts.len() as u64;
    if tells_other(number, after) {
        return Err(LineFail::Broken(Rule::X3));
    }
    if !has_words(after) {
        return Err(LineFail::Broken(Rule::X1));
    }
    let Some(ptr) = read_part(alloc, number, after)? else {
        return Err(LineFail::Broken(Rule::X2));
    };
    if !at.draft.is_ptr(ptr.as_slice()) {
        return Err(LineFail::Broken(Rule::X4));
    }
    let AtLevel { name, draft } = at;
    Ok(Due::Second {
        below: BelowPtr { name, draft, ptr },
    })
}

fn take_val(alloc: Global, at: AtValues, after: &[u8]) -> Result<Due, LineFail>
    ensures { TakesLine [] (Val at) after.now result }
{
    if !has_no_empty_word(after) {
        return Err(LineFail::Broken(Rule::X1));
    }
    let Some(val) = read_values(alloc, after)? else {
        return Err(LineFail::Broken(Rule::X2));
    };
    if !at.draft.is_val(val.as_slice()) {
        return Err(LineFail::Broken(Rule::X4));
    }
    let AtValues { name, draft } = at;
    let storage = draft.finish(val);
    Ok(Due::End { name, storage })
}

fn take_second(alloc: Global, below: BelowPtr, after: &[u8]) -> Result<Due, LineFail>
    ensures { TakesLine [] (Second below) after.now result }
{
    let number = below.draft.parts.len() as u64;
    if tells_other(number, after) {
        return Err(LineFail::Broken(Rule::X3));
    }
    if !has_words(after) {
        return Err(LineFail::Broken(Rule::X1));
    }
    let Some(numbers) = read_part(alloc, number, after)? else {
        return Err(LineFail::Broken(Rule::X2));
    };
    if !below.is_second(numbers.as_slice()) {
        return Err(LineFail::Broken(Rule::X4));
    }
    let kind = below.level();
    let BelowPtr { name, draft, ptr } = below;
    let part = part_of(kind, ptr, numbers);
    Ok(skip_dense(name, draft.with(part)?)?)
}

fn part_of(kind: Level, ptr: Nums, numbers: Nums) -> Part
    ensures { result ≡ part_with kind ptr numbers }
{
    match kind {
        Level::Dense => Part::Dense,
        Level::List | Level::Dict => Part::Keys { ptr, idx: numbers },
        Level::Runs => Part::Runs { ptr, stop: numbers },
        Level::Band => Part::Band {
            ptr,
            start: numbers,
        },
    }
}

// A word behind each space, and one at least.
fn has_words(after: &[u8]) -> bool
    ensures { IsTrue result ↔ ((0 < length after.now) × HasNoEmptyWord after.now) }
{
    has_bytes(after) && has_no_empty_word(after)
}

// The levels, and the word behind them.
fn read_format(alloc: Global, after: &[u8]) -> Result<Option<Levels>, AllocError>
    ensures { IfOk result (λ read. MatchOption read
        ((ls : List TheLevel) → ¬ (after.now ≡ words level_word ls ++ codes " element"))
        (λ ls. (after.now ≡ words level_word ls ++ codes " element") × ((ms : List TheLevel) → after.now ≡ words level_word ms ++ codes " element" → ms ≡ ls))) }
{
    match after.strip_suffix(b" element") {
        None => Ok(None),
        Some(front) => read_levels(alloc, front),
    }
}

// Goes on behind dense levels, which have no lines.
fn skip_dense(name: Name, draft: Draft) -> Result<Due, AllocError>
    requires { length draft.parts ≤ length draft.format.levels }
    ensures { IfOk result (λ next. IsAfter name draft.format draft.shape draft.parts next) }
{
    let mut draft = draft;
    while is_dense_due(&draft) {
        draft = draft.with(Part::Dense)?;
    }
    if draft.parts.len() < draft.format.levels.len() {
        Ok(Due::Ptr {
            at: AtLevel { name, draft },
        })
    } else {
        Ok(Due::Val {
            at: AtValues { name, draft },
        })
    }
}

fn is_dense_due(draft: &Draft) -> bool
    ensures { IsTrue result ↔ ((length draft.now.parts < length draft.now.format.levels) × IsTrue (is_dense (slice_index_or draft.now.format.levels (length draft.now.parts) level.Dense))) }
{
    draft.parts.len() < draft.format.levels.len()
        && *draft.format.levels.get(draft.parts.len()) == Level::Dense
}
