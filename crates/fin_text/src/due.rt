//! Which line of a tensor is due, with what the lines before it told.
ghost use Rattle.std.specs.Prelude.{◌≡◌, ◌<◌, length, slice_index_or, false};
ghost use Rattle.fin_tensor.specs.declared.format.Level.TheVariants as level;
ghost use Rattle.fin_tensor.specs.Levels.{IsPtr};
ghost use Rattle.fin_tensor.specs.Lines.{due};
ghost use Rattle.fin_tensor.specs.OneProof.{IsPlaced-prop, IsBare-prop};
ghost use Rattle.fin_tensor.specs.Placement.{IsPlaced, IsBare, is_dense};
ghost use Rattle.fin_text.specs.OneProof.{IsPtr-prop};

use fin_base::Rule;
use fin_tensor::{Draft, Format, Level, Name, Nums, Storage};
use std::alloc::AllocError;

/// Which line is due.
#[derive(Drop)]
pub(crate) enum Due {
    /// `tensor`, or a line between tensors.
    Tensor,
    /// `format`.
    Format { name: Name },
    /// `fill`.
    Fill { head: Head },
    /// `shape`.
    Shape { head: Head },
    /// `ptr` of a level.
    Ptr { at: AtLevel },
    /// The line below `ptr`.
    Second { below: BelowPtr },
    /// `val`.
    Val { at: AtValues },
    /// `end`.
    End { name: Name, storage: Storage },
}

/// A name and a format, whose fill is 0 until it is told.
#[derive(Drop)]
pub(crate) struct Head {
    pub(crate) name: Name,
    pub(crate) format: Format,
    pub(crate) ghost placed: { IsPlaced format.levels format.wrap } by { IsPlaced-prop format.levels format.wrap },
    pub(crate) ghost bare: { IsBare format.wrap } by { IsBare-prop format.wrap },
}

/// A level that has lines is due.
#[derive(Drop)]
pub(crate) struct AtLevel {
    pub(crate) name: Name,
    pub(crate) draft: Draft,
    pub(crate) ghost within: { length draft.parts < length draft.format.levels },
    pub(crate) ghost lined: { is_dense (slice_index_or draft.format.levels (length draft.parts) level.Dense) ≡ false },
}

/// Such a level, with its line `ptr`.
#[derive(Drop)]
pub(crate) struct BelowPtr {
    pub(crate) name: Name,
    pub(crate) draft: Draft,
    pub(crate) ptr: Nums,
    pub(crate) ghost within: { length draft.parts < length draft.format.levels },
    pub(crate) ghost lined: { is_dense (slice_index_or draft.format.levels (length draft.parts) level.Dense) ≡ false },
    pub(crate) ghost valid: { IsPtr (due draft.shape draft.parts) ptr } by { IsPtr-prop (due draft.shape draft.parts) ptr },
}

/// All levels are told.
#[derive(Drop)]
pub(crate) struct AtValues {
    pub(crate) name: Name,
    pub(crate) draft: Draft,
    pub(crate) ghost all: { length draft.parts ≡ length draft.format.levels },
}

/// Why a line isn't taken.
#[derive(Debug, Drop)]
pub(crate) enum LineFail {
    /// It breaks a rule.
    Broken(Rule),
    /// Memory ran out.
    Memory(AllocError),
}

impl From<AllocError> for LineFail {
    ghost use Rattle.fin_text.specs.declared.due.LineFail.TheVariants.{Memory};

    ghost from_gives = { λ refused e. e ≡ Memory refused };

    fn from(refused: AllocError) -> LineFail {
        LineFail::Memory(refused)
    }
}

impl Due {
    ghost use Rattle.std.specs.Prelude.{◌≡◌, ◌↔◌, IsTrue};
    ghost use Rattle.fin_text.specs.DueLines.{due_word};
    ghost use Rattle.fin_text.specs.Reading.{IsBetween};

    /// Whether the line begins with this word.
    pub(crate) fn begins_with(&self, word: &[u8]) -> bool
        ensures { IsTrue result ↔ (word.now ≡ due_word self.now) }
    {
        word == self.word()
    }

    /// Whether the line stands between tensors.
    pub(crate) fn is_between(&self) -> bool
        ensures { IsTrue result ↔ IsBetween self.now }
    {
        matches!(self, Due::Tensor)
    }

    fn word(&self) -> &'static [u8]
        ensures { result.now ≡ due_word self.now }
    {
        match self {
            Due::Tensor => b"tensor",
            Due::Format { name: _ } => b"format",
            Due::Fill { head: _ } => b"fill",
            Due::Shape { head: _ } => b"shape",
            Due::Ptr { at: _ } => b"ptr",
            Due::Second { below } => below.word(),
            Due::Val { at: _ } => b"val",
            Due::End {
                name: _,
                storage: _,
            } => b"end",
        }
    }
}

impl BelowPtr {
    ghost use Rattle.std.specs.Prelude.{◌≡◌, ◌↔◌, IsTrue, slice_index, slice_index_or};
    ghost use Rattle.fin_text.specs.DueLines.{second_word, IsSecond};

    /// The level that is due.
    pub(crate) fn level(&self) -> Level
        ensures { result ≡ slice_index_or self.now.draft.format.levels (length self.now.draft.parts) level.Dense }
    {
        *self.draft.format.levels.get(self.draft.parts.len())
    }

    fn word(&self) -> &'static [u8]
        ensures { result.now ≡ second_word (slice_index_or self.now.draft.format.levels (length self.now.draft.parts) level.Dense) }
    {
        match self.level() {
            Level::Dense => b"",
            Level::List | Level::Dict => b"idx",
            Level::Runs => b"stop",
            Level::Band => b"start",
        }
    }

    /// Whether the line below `ptr` is valid.
    pub(crate) fn is_second(&self, numbers: &[u64]) -> bool
        ensures { IsTrue result ↔ IsSecond (slice_index_or self.now.draft.format.levels (length self.now.draft.parts) level.Dense) (slice_index self.now.draft.shape (length self.now.draft.parts)) (due self.now.draft.shape self.now.draft.parts) self.now.ptr numbers.now }
    {
        let ptr = self.ptr.as_slice();
        match self.level() {
            Level::Dense => false,
            Level::List | Level::Dict => self.draft.is_idx(ptr, numbers),
            Level::Runs => self.draft.is_stop(ptr, numbers),
            Level::Band => self.draft.is_start(ptr, numbers),
        }
    }
}
