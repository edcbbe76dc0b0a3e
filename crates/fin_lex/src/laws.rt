//! Laws of the definition of tokens.
ghost use Rattle.fin_lex.specs.Laws.{OneList, OneLine, NeverBoth, TokensOrBreach};
ghost use Rattle.fin_lex.specs.Vocabulary.{TablesAreTheWords};

/// A text has at most one list of tokens.
pub fn one_list_of_tokens()
    ensures law { OneList }
{}

/// A text breaks at one line at most.
pub fn one_line_of_breach()
    ensures law { OneLine }
{}

/// A text that has tokens doesn't break.
pub fn never_both()
    ensures law { NeverBoth }
{}

/// Each text has tokens or breaks at a line.
pub fn tokens_or_breach()
    ensures law { TokensOrBreach }
{}

/// The tables of reserved words and symbols are those of the language, letter by letter.
pub fn tables_are_the_words()
    ensures law { TablesAreTheWords }
{}
