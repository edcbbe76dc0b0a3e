//! Texts that go to a sink through a buffer, piece by piece.
ghost use Rattle.std.specs.Prelude.{◌≡◌, ◌++◌, ◌∷◌, ◌≤◌, IfErr, IfOk, OnOk};
ghost use Rattle.fin_ports.specs.Bytes.{PutsAll};
ghost use Rattle.fin_ports.specs.Causes.{Rose};
ghost use Rattle.fin_text.specs.Numbers.{spaced, spelled};
ghost use Rattle.fin_text.specs.Putting.{PutsOrWaits};
ghost use Rattle.fin_text.specs.declared.write.WriteFail.TheVariants.{Fault, Memory};

use fin_ports::{Failed, Sink, put_all};
use itoa::Buffer;
use std::alloc::AllocError;

// So many bytes are put at once.
const PIECE: usize = 65_536;

/// Why a text was not written whole.
#[derive(Debug, Drop)]
pub enum WriteFail {
    /// A put of the sink failed.
    Fault,
    /// Memory ran out.
    Memory(AllocError),
}

impl From<Failed> for WriteFail {
    ghost from_gives = { λ _ e. e ≡ Fault };

    fn from(_failed: Failed) -> WriteFail {
        WriteFail::Fault
    }
}

impl From<AllocError> for WriteFail {
    ghost from_gives = { λ refused e. e ≡ Memory refused };

    fn from(refused: AllocError) -> WriteFail {
        WriteFail::Memory(refused)
    }
}

// Puts the values behind what waits, and leaves less than a piece waiting.
pub(crate) fn put_values<K: Sink>(
    sink: &mut K,
    waiting: &mut Vec<u8>,
    values: &[i64],
) -> Result<(), WriteFail>
    ensures bytes { PutsOrWaits (K.taken sink.old) (K.taken sink.new) result (waiting.old.items ++ spaced values.now) waiting.new.items }
    ensures cause { IfErr result (λ e. e ≡ Fault → Rose (K.faults sink.old) (K.faults sink.new)) }
    ensures counted { K.faults sink.old ≤ K.faults sink.new }
    ensures later { K.Later sink.old sink.new }
{
    for value in values {
        push_value(waiting, *value)?;
        put_piece(sink, waiting)?;
    }
    Ok(())
}

fn push_value(text: &mut Vec<u8>, value: i64) -> Result<(), AllocError>
    ensures { OnOk result (text.new.items ≡ text.old.items ++ 32 ∷ spelled value) }
{
    let mut digits = Buffer::new();
    text.push(b' ')?;
    text.extend_from_slice(digits.format(value).as_bytes())?;
    Ok(())
}

// Puts what waits, once it is a whole piece.
pub(crate) fn put_piece<K: Sink>(sink: &mut K, waiting: &mut Vec<u8>) -> Result<(), WriteFail>
    ensures bytes { PutsOrWaits (K.taken sink.old) (K.taken sink.new) result waiting.old.items waiting.new.items }
    ensures cause { IfErr result (λ e. e ≡ Fault → Rose (K.faults sink.old) (K.faults sink.new)) }
    ensures counted { K.faults sink.old ≤ K.faults sink.new }
    ensures later { K.Later sink.old sink.new }
{
    if waiting.len() < PIECE {
        return Ok(());
    }
    put_all(sink, waiting)?;
    waiting.clear();
    Ok(())
}
