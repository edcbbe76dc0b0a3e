//! The tokens that are left to read.
ghost use Rattle.std.specs.Prelude.{◌≡◌, ◌≢◌, ◌∷◌, MatchOption, length};
ghost use Rattle.fin_parse.specs.Syntax.{signs, look};
ghost use Rattle.fin_parse.specs.Breaches.{next_line};
ghost use Rattle.fin_parse.specs.Classes.{class_of as class};

use crate::class::{Class, class_of};
use fin_lex::Token;
use std::marker::Model;

/// The tokens that are left.
#[derive(Drop)]
pub struct Cursor<'a> {
    left: &'a [Token],
}

impl<'a> Model for Cursor<'a> {
    ghost use Rattle.std.specs.Prelude.{List};
    ghost use Rattle.fin_lex.specs.declared.token.Token.{Token};

    ghost Value = { List Token };

    ghost view = { λ c. c.left.now };
}

impl<'a> Cursor<'a> {
    pub fn new(left: &'a [Token]) -> Self
        ensures { result ≡ left.now }
    {
        Cursor { left }
    }

    /// How many tokens are left.
    pub fn len(&self) -> usize
        ensures { result ≡ length self.now }
    {
        self.left.len()
    }

    /// The line of the next token, or of the end.
    pub fn line(&self, last: u32) -> u32
        ensures { result ≡ next_line self.now last }
    {
        match self.left {
            [token, ..] => token.line,
            [] => last,
        }
    }

    /// The class of the next token, or of the end.
    pub fn class(&self) -> Class
        ensures { result ≡ look (signs self.now) }
    {
        match self.left {
            [token, ..] => class_of(token.kind),
            [] => Class::End,
        }
    }

    /// Takes the next token, if it is of that class.
    pub fn take(&mut self, wanted: Class) -> Option<Token>
        requires { wanted ≢ Class.End }
        ensures { MatchOption result ((self.new ≡ self.old) × (look (signs self.old) ≢ wanted)) (λ token. (self.old ≡ token ∷ self.new) × (class token.kind ≡ wanted)) }
    {
        let [token, rest @ ..] = self.left else {
            return None;
        };
        if class_of(token.kind) != wanted {
            return None;
        }
        self.left = rest;
        Some(*token)
    }
}
