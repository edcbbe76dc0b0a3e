//! Which form a phrase has, by the token that it begins with.
ghost use Rattle.std.specs.Prelude.{◌≡◌};
ghost use Rattle.fin_parse.specs.Grammar.{form_at as chosen};

use crate::class::Class;
use crate::grammar::{Form, Phrase};

/// The form that a phrase has, if it can begin with a token of that class.
pub fn form_at(phrase: Phrase, class: Class) -> Option<Form>
    ensures value { result ≡ chosen phrase class }
{
    match phrase {
        Phrase::Header => match class {
            Class::In => Some(Form::InputHeader),
            Class::OutOrTmp => Some(Form::OtherHeader),
            _ => None,
        },
        Phrase::Format => match class {
            Class::Store => Some(Form::Format),
            Class::Element => Some(Form::Format),
            _ => None,
        },
        Phrase::StoreWord => match class {
            Class::Store => Some(Form::StoreWord),
            _ => None,
        },
        Phrase::Fill => match class {
            Class::Fill => Some(Form::Fill),
            _ => None,
        },
        Phrase::Shape => match class {
            Class::Shape => Some(Form::Shape),
            _ => None,
        },
        Phrase::Extent => match class {
            Class::Number => Some(Form::Extent),
            _ => None,
        },
        Phrase::Int => match class {
            Class::Minus => Some(Form::MinusInt),
            Class::Number => Some(Form::PlusInt),
            _ => None,
        },
        Phrase::Magnitude => match class {
            Class::Number => Some(Form::Magnitude),
            Class::Widest => Some(Form::WidestMagnitude),
            _ => None,
        },
        Phrase::Stmt => match class {
            Class::Loop => Some(Form::Loop),
            Class::If => Some(Form::If),
            Class::Let => Some(Form::Let),
            Class::Turn => Some(Form::Turn),
            Class::OpenBrace => Some(Form::Block),
            Class::Name => Some(Form::Named),
            _ => None,
        },
        Phrase::Turns => match class {
            Class::Name => Some(Form::Turns),
            _ => None,
        },
        Phrase::Range => match class {
            Class::In => Some(Form::Range),
            _ => None,
        },
        Phrase::Body => match class {
            Class::OpenBrace => Some(Form::Body),
            _ => None,
        },
        Phrase::Stmts => Some(Form::Stmts),
        Phrase::Change => match class {
            Class::OpenBracket => Some(Form::Update),
            Class::Declares => Some(Form::Declaration),
            _ => None,
        },
        Phrase::Assigning => match class {
            Class::Equals => Some(Form::Putting),
            Class::Reducing => Some(Form::Reducing),
            _ => None,
        },
        Phrase::Plains => Some(Form::Plains),
        Phrase::PlainList => match class {
            Class::Name => Some(Form::PlainList),
            Class::Number => Some(Form::PlainList),
            _ => None,
        },
        Phrase::NextPlain => match class {
            Class::Comma => Some(Form::NextPlain),
            _ => None,
        },
        Phrase::Plain => match class {
            Class::Name => Some(Form::Shifted),
            Class::Number => Some(Form::Constant),
            _ => None,
        },
        Phrase::Offset => match class {
            Class::Plus => Some(Form::PlusOffset),
            Class::Minus => Some(Form::MinusOffset),
            _ => None,
        },
        Phrase::Expr => match class {
            Class::Call => Some(Form::Expr),
            Class::OpenParenthesis => Some(Form::Expr),
            Class::Minus => Some(Form::Expr),
            Class::Name => Some(Form::Expr),
            Class::Number => Some(Form::Expr),
            _ => None,
        },
        Phrase::Compared => match class {
            Class::Comparison => Some(Form::Compared),
            _ => None,
        },
        Phrase::Sum => match class {
            Class::Call => Some(Form::Sum),
            Class::OpenParenthesis => Some(Form::Sum),
            Class::Minus => Some(Form::Sum),
            Class::Name => Some(Form::Sum),
            Class::Number => Some(Form::Sum),
            _ => None,
        },
        Phrase::NextTerm => match class {
            Class::Plus => Some(Form::PlusTerm),
            Class::Minus => Some(Form::MinusTerm),
            _ => None,
        },
        Phrase::Term => match class {
            Class::Call => Some(Form::Term),
            Class::OpenParenthesis => Some(Form::Term),
            Class::Minus => Some(Form::Term),
            Class::Name => Some(Form::Term),
            Class::Number => Some(Form::Term),
            _ => None,
        },
        Phrase::NextUnary => match class {
            Class::Star => Some(Form::NextUnary),
            _ => None,
        },
        Phrase::Unary => match class {
            Class::Call => Some(Form::OtherUnary),
            Class::OpenParenthesis => Some(Form::OtherUnary),
            Class::Minus => Some(Form::OtherUnary),
            Class::Name => Some(Form::OtherUnary),
            Class::Number => Some(Form::NumberUnary),
            _ => None,
        },
        Phrase::Operand => match class {
            Class::Call => Some(Form::Call),
            Class::OpenParenthesis => Some(Form::Parentheses),
            Class::Minus => Some(Form::Negation),
            Class::Name => Some(Form::NamedOperand),
            _ => None,
        },
        Phrase::Negated => match class {
            Class::Number => Some(Form::NegatedNumber),
            Class::Widest => Some(Form::NegatedWidest),
            _ => Some(Form::NegatedOperand),
        },
        Phrase::Pair => match class {
            Class::Call => Some(Form::Pair),
            Class::OpenParenthesis => Some(Form::Pair),
            Class::Minus => Some(Form::Pair),
            Class::Name => Some(Form::Pair),
            Class::Number => Some(Form::Pair),
            _ => None,
        },
        Phrase::Access => match class {
            Class::OpenBracket => Some(Form::Access),
            _ => None,
        },
        Phrase::Indices => Some(Form::Indices),
        Phrase::IndexList => match class {
            Class::Protocol => Some(Form::IndexList),
            Class::Tilde => Some(Form::IndexList),
            Class::Name => Some(Form::IndexList),
            Class::Number => Some(Form::IndexList),
            _ => None,
        },
        Phrase::NextIndex => match class {
            Class::Comma => Some(Form::NextIndex),
            _ => None,
        },
        Phrase::Index => match class {
            Class::Protocol => Some(Form::ProtocolIndex),
            Class::Tilde => Some(Form::BareIndex),
            Class::Name => Some(Form::BareIndex),
            Class::Number => Some(Form::BareIndex),
            _ => None,
        },
        Phrase::Core => match class {
            Class::Tilde => Some(Form::LooseCore),
            Class::Name => Some(Form::PlainCore),
            Class::Number => Some(Form::PlainCore),
            _ => None,
        },
        Phrase::Loose => match class {
            Class::Name => Some(Form::LooseNamed),
            Class::Number => Some(Form::LooseConstant),
            _ => None,
        },
        Phrase::LooseRest => match class {
            Class::Plus => Some(Form::PlusRest),
            Class::Minus => Some(Form::MinusRest),
            _ => None,
        },
        Phrase::Added => match class {
            Class::Name => Some(Form::AddedName),
            Class::Number => Some(Form::AddedNumber),
            _ => None,
        },
    }
}
