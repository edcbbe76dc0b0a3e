//! The grammar as a table: kinds of phrases, their forms, and the row of symbols of each form.
ghost use Rattle.std.specs.Prelude.{◌≡◌};
ghost use Rattle.fin_parse.specs.Grammar.{row_of as row};

use crate::class::Class;
use crate::grammar::Symbol::{Deeper, InLoop, Many, Maybe, One, Word};

/// A kind of phrase.
#[derive(Clone, Copy, Debug, PartialEq, Eq)]
pub enum Phrase {
    /// The header of a tensor.
    Header,
    /// Levels and decorations, and `element`.
    Format,
    /// A level or a decoration.
    StoreWord,
    /// The fill of a header.
    Fill,
    /// The shape of a header.
    Shape,
    /// A number of a shape.
    Extent,
    /// A number with or without a minus.
    Int,
    /// What stands behind the minus of a number.
    Magnitude,
    /// A statement.
    Stmt,
    /// What stands behind `for` or `par`.
    Turns,
    /// The range of a loop.
    Range,
    /// Statements in braces.
    Body,
    /// Any number of statements.
    Stmts,
    /// What stands behind the name of a tensor at the beginning of a statement.
    Change,
    /// The symbol of an update.
    Assigning,
    /// Indices of an update, or none.
    Plains,
    /// Indices of an update.
    PlainList,
    /// A further index of an update.
    NextPlain,
    /// A number, or a variable with or without an offset.
    Plain,
    /// A number that is added or taken away.
    Offset,
    /// An expression.
    Expr,
    /// A comparison and its right side.
    Compared,
    /// A sum.
    Sum,
    /// A further term of a sum.
    NextTerm,
    /// A product.
    Term,
    /// A further factor of a product.
    NextUnary,
    /// A factor.
    Unary,
    /// A factor that begins with no number.
    Operand,
    /// What stands behind a minus.
    Negated,
    /// Two expressions.
    Pair,
    /// The indices of a read, in brackets.
    Access,
    /// Indices of a read, or none.
    Indices,
    /// Indices of a read.
    IndexList,
    /// A further index of a read.
    NextIndex,
    /// An index of a read.
    Index,
    /// An index without its protocol.
    Core,
    /// The inside of a `~` index.
    Loose,
    /// What is added to the variable of a `~` index.
    LooseRest,
    /// What stands behind the plus of a `~` index.
    Added,
}

/// A form of a kind of phrase.
#[derive(Clone, Copy, Debug, PartialEq, Eq)]
pub enum Form {
    InputHeader,
    OtherHeader,
    Format,
    StoreWord,
    Fill,
    Shape,
    Extent,
    PlusInt,
    MinusInt,
    Magnitude,
    WidestMagnitude,
    Loop,
    If,
    Let,
    Block,
    Turn,
    Named,
    Turns,
    Range,
    Body,
    Stmts,
    Declaration,
    Update,
    Reducing,
    Putting,
    Plains,
    PlainList,
    NextPlain,
    Constant,
    Shifted,
    PlusOffset,
    MinusOffset,
    Expr,
    Compared,
    Sum,
    PlusTerm,
    MinusTerm,
    Term,
    NextUnary,
    NumberUnary,
    OtherUnary,
    Negation,
    NamedOperand,
    Parentheses,
    Call,
    NegatedNumber,
    NegatedWidest,
    NegatedOperand,
    Pair,
    Access,
    Indices,
    IndexList,
    NextIndex,
    BareIndex,
    ProtocolIndex,
    PlainCore,
    LooseCore,
    LooseConstant,
    LooseNamed,
    PlusRest,
    MinusRest,
    AddedNumber,
    AddedName,
}

/// A part of a form.
#[derive(Clone, Copy, Debug, PartialEq, Eq)]
pub enum Symbol {
    /// A token.
    Word(Class),
    /// A phrase.
    One(Phrase),
    /// Any number of phrases.
    Many(Phrase),
    /// A phrase, or nothing.
    Maybe(Phrase),
    /// A phrase that is nested one level deeper. The token before it opens the level.
    Deeper(Phrase),
    /// A phrase in one more loop. The token before it begins the loop.
    InLoop(Phrase),
}

/// The symbols of a form, in order.
pub fn row_of(form: Form) -> &'static [Symbol]
    ensures value { result.now ≡ row form }
{
    match form {
        Form::InputHeader => &[
            Word(Class::In),
            Word(Class::Name),
            One(Phrase::Format),
            Maybe(Phrase::Fill),
        ],
        Form::OtherHeader => &[
            Word(Class::OutOrTmp),
            Word(Class::Name),
            One(Phrase::Format),
            Maybe(Phrase::Fill),
            Maybe(Phrase::Shape),
        ],
        Form::Format => &[Many(Phrase::StoreWord), Word(Class::Element)],
        Form::StoreWord => &[Word(Class::Store)],
        Form::Fill => &[Word(Class::Fill), One(Phrase::Int)],
        Form::Shape => &[Word(Class::Shape), Many(Phrase::Extent)],
        Form::Extent => &[Word(Class::Number)],
        Form::PlusInt => &[Word(Class::Number)],
        Form::MinusInt => &[Word(Class::Minus), One(Phrase::Magnitude)],
        Form::Magnitude => &[Word(Class::Number)],
        Form::WidestMagnitude => &[Word(Class::Widest)],
        Form::Loop => &[Word(Class::Loop), InLoop(Phrase::Turns)],
        Form::If => &[Word(Class::If), One(Phrase::Expr), One(Phrase::Body)],
        Form::Let => &[
            Word(Class::Let),
            Word(Class::Name),
            Word(Class::Equals),
            One(Phrase::Expr),
            One(Phrase::Body),
        ],
        Form::Block => &[One(Phrase::Body)],
        Form::Turn => &[Word(Class::Turn), Word(Class::Name)],
        Form::Named => &[Word(Class::Name), One(Phrase::Change)],
        Form::Turns => &[Word(Class::Name), Maybe(Phrase::Range), One(Phrase::Body)],
        Form::Range => &[
            Word(Class::In),
            Word(Class::Number),
            Word(Class::Dots),
            Word(Class::Number),
        ],
        Form::Body => &[
            Word(Class::OpenBrace),
            Deeper(Phrase::Stmts),
            Word(Class::CloseBrace),
        ],
        Form::Stmts => &[Many(Phrase::Stmt)],
        Form::Declaration => &[Word(Class::Declares), One(Phrase::Int)],
        Form::Update => &[
            Word(Class::OpenBracket),
            Deeper(Phrase::Plains),
            Word(Class::CloseBracket),
            One(Phrase::Assigning),
            One(Phrase::Expr),
        ],
        Form::Reducing => &[Word(Class::Reducing)],
        Form::Putting => &[Word(Class::Equals)],
        Form::Plains => &[Maybe(Phrase::PlainList)],
        Form::PlainList => &[One(Phrase::Plain), Many(Phrase::NextPlain)],
        Form::NextPlain => &[Word(Class::Comma), One(Phrase::Plain)],
        Form::Constant => &[Word(Class::Number)],
        Form::Shifted => &[Word(Class::Name), Maybe(Phrase::Offset)],
        Form::PlusOffset => &[Word(Class::Plus), Word(Class::Number)],
        Form::MinusOffset => &[Word(Class::Minus), Word(Class::Number)],
        Form::Expr => &[One(Phrase::Sum), Maybe(Phrase::Compared)],
        Form::Compared => &[Word(Class::Comparison), One(Phrase::Sum)],
        Form::Sum => &[One(Phrase::Term), Many(Phrase::NextTerm)],
        Form::PlusTerm => &[Word(Class::Plus), One(Phrase::Term)],
        Form::MinusTerm => &[Word(Class::Minus), One(Phrase::Term)],
        Form::Term => &[One(Phrase::Unary), Many(Phrase::NextUnary)],
        Form::NextUnary => &[Word(Class::Star), One(Phrase::Unary)],
        Form::NumberUnary => &[Word(Class::Number)],
        Form::OtherUnary => &[One(Phrase::Operand)],
        Form::Negation => &[Word(Class::Minus), One(Phrase::Negated)],
        Form::NamedOperand => &[Word(Class::Name), Maybe(Phrase::Access)],
        Form::Parentheses => &[
            Word(Class::OpenParenthesis),
            Deeper(Phrase::Expr),
            Word(Class::CloseParenthesis),
        ],
        Form::Call => &[
            Word(Class::Call),
            Word(Class::OpenParenthesis),
            Deeper(Phrase::Pair),
            Word(Class::CloseParenthesis),
        ],
        Form::NegatedNumber => &[Word(Class::Number)],
        Form::NegatedWidest => &[Word(Class::Widest)],
        Form::NegatedOperand => &[Deeper(Phrase::Operand)],
        Form::Pair => &[One(Phrase::Expr), Word(Class::Comma), One(Phrase::Expr)],
        Form::Access => &[
            Word(Class::OpenBracket),
            Deeper(Phrase::Indices),
            Word(Class::CloseBracket),
        ],
        Form::Indices => &[Maybe(Phrase::IndexList)],
        Form::IndexList => &[One(Phrase::Index), Many(Phrase::NextIndex)],
        Form::NextIndex => &[Word(Class::Comma), One(Phrase::Index)],
        Form::BareIndex => &[One(Phrase::Core)],
        Form::ProtocolIndex => &[
            Word(Class::Protocol),
            Word(Class::OpenParenthesis),
            Deeper(Phrase::Core),
            Word(Class::CloseParenthesis),
        ],
        Form::PlainCore => &[One(Phrase::Plain)],
        Form::LooseCore => &[
            Word(Class::Tilde),
            Word(Class::OpenParenthesis),
            Deeper(Phrase::Loose),
            Word(Class::CloseParenthesis),
        ],
        Form::LooseConstant => &[Word(Class::Number)],
        Form::LooseNamed => &[Word(Class::Name), Maybe(Phrase::LooseRest)],
        Form::PlusRest => &[Word(Class::Plus), One(Phrase::Added)],
        Form::MinusRest => &[Word(Class::Minus), Word(Class::Number)],
        Form::AddedNumber => &[Word(Class::Number)],
        Form::AddedName => &[Word(Class::Name), Maybe(Phrase::Offset)],
    }
}
