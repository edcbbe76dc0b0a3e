//! Laws of the words of the language, and of the programs that tokens stand for.
ghost use Rattle.fin_parse.specs.Totality.{ProgramOrBreach};
ghost use Rattle.fin_parse.specs.Vocabulary.{WordsStandFor};

/// Each reserved word and each symbol is read as what it stands for: classes of the grammar, operators, comparisons,
/// reductions, protocols, levels, decorations, and the words that differ inside one class.
pub fn words_stand_for()
    ensures law { WordsStandFor }
{}

/// Each list of tokens stands for a program, or breaks one of `S2`, `S3`, `N1` to `N3`, `F1` and `F2` on a line.
pub fn program_or_breach()
    ensures { ProgramOrBreach }
{}
