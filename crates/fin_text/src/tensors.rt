//! The text of tensors in each format.
ghost use Rattle.std.specs.Prelude.{◌≡◌, ◌++◌, ◌∷◌, [], ◌≤◌, map, IfErr, OnOk};
ghost use Rattle.std.specs.Fmt.{decimal};
ghost use Rattle.fin_ports.specs.Bytes.{PutsAll};
ghost use Rattle.fin_ports.specs.Causes.{Rose};
ghost use Rattle.fin_text.specs.Numbers.{spaced, spaced_sizes};
ghost use Rattle.fin_text.specs.Pieces.{line_text, numbers_text};
ghost use Rattle.fin_text.specs.Putting.{PutsOrWaits};
ghost use Rattle.fin_text.specs.Tensors.{tensor_text};
ghost use Rattle.fin_text.specs.Text.{text_of_lines};
ghost use Rattle.fin_text.specs.declared.write.WriteFail.TheVariants.{Fault};

use crate::pieces::{Line, Numbers, lines_of};
use crate::write::{WriteFail, put_piece, put_values};
use fin_ports::{Sink, put_all};
use fin_tensor::{Name, Storage};
use itoa::Buffer;
use std::alloc::{AllocError, Global};

/// Puts the text of a tensor, or less than all of it where a put fails or memory runs out.
pub fn write_tensor<K: Sink>(
    alloc: Global,
    sink: &mut K,
    name: &Name,
    storage: &Storage,
) -> Result<(), WriteFail>
    ensures bytes { PutsAll (K.taken sink.old) (K.taken sink.new) result (tensor_text name.now storage.now) }
    ensures cause { IfErr result (λ e. e ≡ Fault → Rose (K.faults sink.old) (K.faults sink.new)) }
    ensures counted { K.faults sink.old ≤ K.faults sink.new }
    ensures later { K.Later sink.old sink.new }
{
    let lines = lines_of(alloc, name, storage)?;
    let mut waiting = Vec::new(alloc);
    put_lines(sink, &mut waiting, &lines)?;
    put_all(sink, &waiting)?;
    Ok(())
}

// Puts lines behind what waits, and leaves less than a piece waiting.
fn put_lines<K: Sink>(sink: &mut K, waiting: &mut Vec<u8>, lines: &[Line]) -> Result<(), WriteFail>
    ensures bytes { PutsOrWaits (K.taken sink.old) (K.taken sink.new) result (waiting.old.items ++ text_of_lines (map line_text lines.now)) waiting.new.items }
    ensures cause { IfErr result (λ e. e ≡ Fault → Rose (K.faults sink.old) (K.faults sink.new)) }
    ensures counted { K.faults sink.old ≤ K.faults sink.new }
    ensures later { K.Later sink.old sink.new }
{
    for line in lines {
        waiting.extend_from_slice(&line.head)?;
        put_numbers(sink, waiting, &line.numbers)?;
        waiting.extend_from_slice(b"\n")?;
    }
    Ok(())
}

fn put_numbers<K: Sink>(
    sink: &mut K,
    waiting: &mut Vec<u8>,
    numbers: &Numbers,
) -> Result<(), WriteFail>
    ensures bytes { PutsOrWaits (K.taken sink.old) (K.taken sink.new) result (waiting.old.items ++ numbers_text numbers.now) waiting.new.items }
    ensures cause { IfErr result (λ e. e ≡ Fault → Rose (K.faults sink.old) (K.faults sink.new)) }
    ensures counted { K.faults sink.old ≤ K.faults sink.new }
    ensures later { K.Later sink.old sink.new }
{
    match numbers {
        Numbers::Nothing => Ok(()),
        Numbers::Sizes(sizes) => put_sizes(sink, waiting, *sizes),
        Numbers::Values(values) => put_values(sink, waiting, *values),
    }
}

fn put_sizes<K: Sink>(sink: &mut K, waiting: &mut Vec<u8>, sizes: &[u64]) -> Result<(), WriteFail>
    ensures bytes { PutsOrWaits (K.taken sink.old) (K.taken sink.new) result (waiting.old.items ++ spaced_sizes sizes.now) waiting.new.items }
    ensures cause { IfErr result (λ e. e ≡ Fault → Rose (K.faults sink.old) (K.faults sink.new)) }
    ensures counted { K.faults sink.old ≤ K.faults sink.new }
    ensures later { K.Later sink.old sink.new }
{
    for size in sizes {
        push_size(waiting, *size)?;
        put_piece(sink, waiting)?;
    }
    Ok(())
}

fn push_size(text: &mut Vec<u8>, size: u64) -> Result<(), AllocError>
    ensures { OnOk result (text.new.items ≡ text.old.items ++ 32 ∷ decimal size) }
{
    let mut digits = Buffer::new();
    text.push(b' ')?;
    text.extend_from_slice(digits.format(size).as_bytes())?;
    Ok(())
}
