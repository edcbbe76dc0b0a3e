//! The line of a number that is too large.
ghost use Rattle.std.specs.Prelude.{◌≡◌, true, false};
ghost use Rattle.fin_engine.specs.Numbers as spec;

use crate::job::Job;
use fin_base::{Fail, Refusal, Rule};
use fin_lex::{Token, TokenKind};

/// The same, but that `M5` is told with the line of the first number over 2^40 in a shape, a range or an index.
pub(crate) fn told(tokens: &[Token], verdict: Result<Job, Fail>) -> Result<Job, Fail>
    ensures value { result ≡ spec.told_result tokens.now verdict }
{
    match verdict {
        Ok(job) => Ok(job),
        Err(Fail::Refused(refusal)) => Err(Fail::Refused(told_refusal(tokens, refusal))),
        Err(Fail::Memory(e)) => Err(Fail::Memory(e)),
    }
}

fn told_refusal(tokens: &[Token], refusal: Refusal) -> Refusal
    ensures value { result ≡ spec.told tokens.now refusal }
{
    if is_large_rule(refusal.rule) {
        Refusal {
            rule: refusal.rule,
            line: large_line(tokens).unwrap_or(refusal.line),
        }
    } else {
        refusal
    }
}

fn is_large_rule(rule: Rule) -> bool
    ensures value { result ≡ spec.is_large_rule rule }
{
    match rule {
        Rule::M5 => true,
        _ => false,
    }
}

fn large_line(tokens: &[Token]) -> Option<u32>
    ensures value { result ≡ spec.large_line false false tokens.now }
{
    let mut inside = false;
    let mut expects = false;
    for token in tokens {
        if (inside || expects) && is_large_number(token.kind) {
            return Some(token.line);
        }
        inside = inside_after(inside, token.kind);
        expects = expects_after(expects, token.kind);
    }
    None
}

fn inside_after(inside: bool, kind: TokenKind) -> bool
    ensures value { result ≡ spec.inside_after inside kind }
{
    match kind {
        TokenKind::Symbol(place) => place == 0 || (place != 1 && inside),
        _ => inside,
    }
}

fn expects_after(expects: bool, kind: TokenKind) -> bool
    ensures value { result ≡ spec.expects_after expects kind }
{
    match kind {
        TokenKind::Number(_) => expects,
        TokenKind::Reserved(place) => place == 0 || place == 4,
        TokenKind::Symbol(place) => place == 21,
        TokenKind::Name => false,
    }
}

fn is_large_number(kind: TokenKind) -> bool
    ensures value { result ≡ spec.is_large_number kind }
{
    match kind {
        TokenKind::Number(n) => n > 1_099_511_627_776,
        _ => false,
    }
}
