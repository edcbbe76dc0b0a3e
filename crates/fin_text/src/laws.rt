//! What is true of the texts of tensors.
ghost use Rattle.fin_text.specs.Laws.{IsPrefixFree, ReadsOrBreaks, ReadsBack, ReadsEverySequence, ReadsOn, ReadsSequences};

/// Reading the text of a tensor gives that tensor, and nothing else.
pub fn reads_back()
    ensures { ReadsBack }
{}

/// It does so too where more follows: the tensor is the first that is read, and a line behind its text alone can be
/// refused.
pub fn reads_on()
    ensures { ReadsOn }
{}

/// No text of a tensor begins with the text of another one.
pub fn no_text_is_a_prefix()
    ensures { IsPrefixFree }
{}

/// What is read is a sequence of texts of tensors, with nothing but empty lines and comments between them.
pub fn reads_sequences()
    ensures { ReadsSequences }
{}

/// Each such sequence is read, as those tensors.
pub fn reads_every_sequence()
    ensures { ReadsEverySequence }
{}

/// Each text is read as some tensors, or breaks a rule at a line.
pub fn reads_or_breaks()
    ensures { ReadsOrBreaks }
{}
