//! The lines of a tensor, each with the numbers that end it.
ghost use Rattle.std.specs.Prelude.{◌≡◌, ◌++◌, ◌∷◌, [], map, IfOk, OnOk, codes};
ghost use Rattle.std.specs.Fmt.{decimal};
ghost use Rattle.fin_tensor.specs.declared.part.Part.TheVariants as part;
ghost use Rattle.fin_text.specs.Numbers.{words};
ghost use Rattle.fin_text.specs.Pieces.{line_text, numbers_text};
ghost use Rattle.fin_text.specs.Tensors.{level_word, name_line, format_line, fill_line, first_lines, part_line, part_lines, tensor_lines};

use fin_tensor::{Level, Name, Part, Storage};
use itoa::Buffer;
use std::alloc::{AllocError, Global};

/// A line without its newline.
#[derive(Drop)]
pub(crate) struct Line<'a> {
    /// What precedes the numbers.
    pub(crate) head: Vec<u8>,
    pub(crate) numbers: Numbers<'a>,
}

/// The numbers that end a line, each behind a space.
#[derive(Drop)]
pub(crate) enum Numbers<'a> {
    Nothing,
    Sizes(&'a [u64]),
    Values(&'a [i64]),
}

/// The lines of a tensor.
pub(crate) fn lines_of<'a>(
    alloc: Global,
    name: &Name,
    storage: &'a Storage,
) -> Result<Vec<Line<'a>>, AllocError>
    ensures { IfOk result (λ lines. map line_text lines.items ≡ tensor_lines name.now storage.now) }
{
    let mut lines = first_lines(alloc, name, storage)?;
    let mut level = 0;
    for part in storage.parts.as_slice() {
        push_part(alloc, &mut lines, level, part)?;
        level += 1;
    }
    push_line(
        alloc,
        &mut lines,
        b"val",
        Numbers::Values(storage.val.as_slice()),
    )?;
    push_line(alloc, &mut lines, b"end", Numbers::Nothing)?;
    Ok(lines)
}

fn first_lines<'a>(
    alloc: Global,
    name: &Name,
    storage: &'a Storage,
) -> Result<Vec<Line<'a>>, AllocError>
    ensures { IfOk result (λ lines. map line_text lines.items ≡ first_lines name.now storage.now) }
{
    let mut lines = Vec::new(alloc);
    lines.push(Line {
        head: name_head(alloc, name)?,
        numbers: Numbers::Nothing,
    })?;
    let levels = storage.format.levels.as_slice();
    lines.push(Line {
        head: format_head(alloc, levels)?,
        numbers: Numbers::Nothing,
    })?;
    lines.push(Line {
        head: fill_head(alloc, storage.format.fill)?,
        numbers: Numbers::Nothing,
    })?;
    push_line(
        alloc,
        &mut lines,
        b"shape",
        Numbers::Sizes(storage.shape.as_slice()),
    )?;
    Ok(lines)
}

fn push_line<'a>(
    alloc: Global,
    lines: &mut Vec<Line<'a>>,
    word: &[u8],
    numbers: Numbers<'a>,
) -> Result<(), AllocError>
    ensures { OnOk result (map line_text lines.new.items ≡ map line_text lines.old.items ++ (word.now ++ numbers_text numbers.entry) ∷ []) }
{
    let head = Vec::from_slice(alloc, word)?;
    lines.push(Line { head, numbers })?;
    Ok(())
}

// The lines of a level.
fn push_part<'a>(
    alloc: Global,
    lines: &mut Vec<Line<'a>>,
    level: u64,
    part: &'a Part,
) -> Result<(), AllocError>
    ensures { OnOk result (map line_text lines.new.items ≡ map line_text lines.old.items ++ part_lines level part.now) }
{
    match part {
        Part::Dense => {}
        Part::Keys { ptr, idx } => {
            push_numbers(alloc, lines, b"ptr", level, ptr.as_slice())?;
            push_numbers(alloc, lines, b"idx", level, idx.as_slice())?;
        }
        Part::Runs { ptr, stop } => {
            push_numbers(alloc, lines, b"ptr", level, ptr.as_slice())?;
            push_numbers(alloc, lines, b"stop", level, stop.as_slice())?;
        }
        Part::Band { ptr, start } => {
            push_numbers(alloc, lines, b"ptr", level, ptr.as_slice())?;
            push_numbers(alloc, lines, b"start", level, start.as_slice())?;
        }
    }
    Ok(())
}

fn push_numbers<'a>(
    alloc: Global,
    lines: &mut Vec<Line<'a>>,
    word: &[u8],
    level: u64,
    numbers: &'a [u64],
) -> Result<(), AllocError>
    ensures { OnOk result (map line_text lines.new.items ≡ map line_text lines.old.items ++ part_line word.now level numbers.now ∷ []) }
{
    let mut digits = Buffer::new();
    let mut head = Vec::from_slice(alloc, word)?;
    head.push(b' ')?;
    head.extend_from_slice(digits.format(level).as_bytes())?;
    lines.push(Line {
        head,
        numbers: Numbers::Sizes(numbers),
    })?;
    Ok(())
}

fn name_head(alloc: Global, name: &Name) -> Result<Vec<u8>, AllocError>
    ensures { IfOk result (λ head. head.items ≡ name_line name.now) }
{
    let mut head = Vec::from_slice(alloc, b"tensor ")?;
    head.extend_from_slice(name.as_slice())?;
    Ok(head)
}

fn format_head(alloc: Global, levels: &[Level]) -> Result<Vec<u8>, AllocError>
    ensures { IfOk result (λ head. head.items ≡ format_line levels.now) }
{
    let mut head = Vec::from_slice(alloc, b"format")?;
    for level in levels {
        head.push(b' ')?;
        head.extend_from_slice(word_of(*level))?;
    }
    head.extend_from_slice(b" element")?;
    Ok(head)
}

fn fill_head(alloc: Global, fill: i64) -> Result<Vec<u8>, AllocError>
    ensures { IfOk result (λ head. head.items ≡ fill_line fill) }
{
    let mut digits = Buffer::new();
    let mut head = Vec::from_slice(alloc, b"fill ")?;
    head.extend_from_slice(digits.format(fill).as_bytes())?;
    Ok(head)
}

/// The word for a level.
pub(crate) fn word_of(level: Level) -> &'static [u8]
    ensures { result.now ≡ level_word level }
{
    match level {
        Level::Dense => b"dense",
        Level::List => b"list",
        Level::Runs => b"runs",
        Level::Band => b"band",
        Level::Dict => b"dict",
    }
}
