//! The rules on the life of tensors.
ghost use Rattle.std.specs.Prelude.{◌≡◌, ◌≤◌, IfOk, IfErr, length, List, [], None, Some};
ghost use Rattle.std.specs.Option.{option_or};
ghost use Rattle.fin_ast.specs.Life.{life_in, breach_by};
ghost use Rattle.fin_ast.specs.Life as life;
ghost use Rattle.fin_ast.specs.declared.header.Header.{Header};
ghost use Rattle.fin_ast.specs.Text.{Updates, Declares, Freezes, Thaws};
ghost use Rattle.fin_life.specs.Completing.{completing_of};
ghost use Rattle.fin_life.specs.Passage.{after_all, body_breach, breach_in, breach_of_expr, life_of};
ghost use Rattle.fin_life.specs.Passage.{passage_of, passages_of};
ghost use Rattle.fin_life.specs.Table.{mode_in};

use crate::breach::broken;
use crate::modes::{Modes, is_changed, is_declared, is_input, is_read, is_update};
use fin_ast::{Expr, Header, Kind, Mode, Program, Stmt};
use fin_base::{Refusal, Rule};

/// Whether each tensor is used as its mode allows.
///
/// Refused by the first breach in text order: an update, a read, a declaration, a freeze or a thaw in a wrong mode, or
/// a body that ends with another mode of a tensor that was declared at its beginning. An output that isn't in read
/// mode at the end is looked at last.
pub fn check_life(program: &Program) -> Result<(), Refusal>
    ensures kept { IfOk result (λ u. life_in program.now ≡ None) }
    ensures refused { IfErr result (λ r. life_in program.now ≡ Some r) }
{
    match breach(program.headers.as_slice(), program.body.as_slice()) {
        Some(refusal) => Err(refusal),
        None => Ok(()),
    }
}

/// The first breach of a program with these headers and statements.
pub fn breach(headers: &[Header], body: &[Stmt]) -> Option<Refusal>
    requires { length headers.now ≤ 64 }
    ensures { result ≡ life_of headers.now body.now }
{
    let begin = Modes::at_start(headers);
    let mut now = begin;
    match first_breach(headers, body, &begin, &mut now) {
        Some(refusal) => Some(refusal),
        None => first_unread(headers, &now),
    }
}

/// The first breach of the statements of a body, and where there is none, the modes after them.
#[cycle(life)]
fn first_breach(
    headers: &[Header],
    body: &[Stmt],
    begin: &Modes,
    now: &mut Modes,
) -> Option<Refusal>
    requires { length headers.now ≤ 64 }
    ensures breach { result ≡ breach_in (passages_of headers.now body.now) (mode_in begin.now) (mode_in now.old) }
    ensures after { let statements = passages_of headers.now body.now in
        result ≡ None → mode_in now.new ≡ after_all statements (mode_in now.old) }
{
    for statement in body {
        if let Some(refusal) = stmt_breach(headers, statement, begin, now) {
            return Some(refusal);
        }
        lead(statement, now);
    }
    None
}

#[cycle(life)]
fn stmt_breach(headers: &[Header], statement: &Stmt, begin: &Modes, now: &Modes) -> Option<Refusal>
    requires { length headers.now ≤ 64 }
    ensures { result ≡ (passage_of headers.now statement.now).breach (mode_in begin.now) (mode_in now.now) }
{
    match statement {
        Stmt::Block {
            body,
            line: _,
            last,
        } => inner_breach(headers, body.as_slice(), *last, now),
        Stmt::Loop {
            var: _,
            range: _,
            par: _,
            body,
            line: _,
            last,
        } => inner_breach(headers, body.as_slice(), *last, now),
        Stmt::Cond {
            test,
            body,
            line: _,
            last,
        } => match expr_breach(test, now) {
            Some(refusal) => Some(refusal),
            None => inner_breach(headers, body.as_slice(), *last, now),
        },
        Stmt::Bind {
            var: _,
            value,
            body,
            line: _,
            last,
        } => match expr_breach(value, now) {
            Some(refusal) => Some(refusal),
            None => inner_breach(headers, body.as_slice(), *last, now),
        },
        Stmt::Declare {
            tensor,
            value: _,
            line,
        } => declare_breach(headers, *tensor, *line, begin, now),
        Stmt::Freeze { tensor, line } => freeze_breach(headers, *tensor, *line, now),
        Stmt::Thaw { tensor, line } => thaw_breach(headers, *tensor, *line, now),
        Stmt::Update {
            tensor,
            at: _,
            by: _,
            value,
            line,
        } => match update_breach(headers, *tensor, *line, now) {
            Some(refusal) => Some(refusal),
            None => expr_breach(value, now),
        },
    }
}

/// The first breach of a body, its end among them.
#[cycle(life)]
fn inner_breach(headers: &[Header], body: &[Stmt], last: u32, begin: &Modes) -> Option<Refusal>
    requires { length headers.now ≤ 64 }
    ensures { result ≡ body_breach headers.now (passages_of headers.now body.now) last (mode_in begin.now) }
{
    let mut now = *begin;
    match first_breach(headers, body, begin, &mut now) {
        Some(refusal) => Some(refusal),
        None => first_changed(headers, last, begin, &now),
    }
}

/// The modes after a statement.
pub fn lead(statement: &Stmt, now: &mut Modes)
    ensures inserting { (headers : List Header)
        → mode_in now.new ≡ (completing_of headers statement.now).after (mode_in now.old) }
    ensures looking { (headers : List Header)
        → mode_in now.new ≡ (passage_of headers statement.now).after (mode_in now.old) }
{
    match statement {
        Stmt::Declare {
            tensor,
            value: _,
            line: _,
        } => now.lead(*tensor, Mode::Update),
        Stmt::Freeze { tensor, line: _ } => now.lead(*tensor, Mode::Read),
        Stmt::Thaw { tensor, line: _ } => now.lead(*tensor, Mode::Update),
        _ => (),
    }
}

fn declare_breach(
    headers: &[Header],
    tensor: u8,
    line: u32,
    begin: &Modes,
    now: &Modes,
) -> Option<Refusal>
    ensures { result ≡ breach_by headers.now (mode_in begin.now) (mode_in now.now) (Declares tensor line) }
{
    broken(
        is_input(headers, tensor) || is_update(now.at(tensor)) || is_declared(begin.at(tensor)),
        Rule::L3,
        line,
    )
}

fn freeze_breach(headers: &[Header], tensor: u8, line: u32, now: &Modes) -> Option<Refusal>
    ensures { result ≡ breach_by headers.now (mode_in now.now) (mode_in now.now) (Freezes tensor line) }
{
    broken(!is_update(now.at(tensor)), Rule::L4, line)
}

fn thaw_breach(headers: &[Header], tensor: u8, line: u32, now: &Modes) -> Option<Refusal>
    ensures { result ≡ breach_by headers.now (mode_in now.now) (mode_in now.now) (Thaws tensor line) }
{
    broken(
        is_input(headers, tensor) || !is_read(now.at(tensor)),
        Rule::L5,
        line,
    )
}

fn update_breach(headers: &[Header], tensor: u8, line: u32, now: &Modes) -> Option<Refusal>
    ensures { result ≡ breach_by headers.now (mode_in now.now) (mode_in now.now) (Updates tensor [] line) }
{
    broken(
        is_input(headers, tensor) || !is_update(now.at(tensor)),
        Rule::L1,
        line,
    )
}

// The first read that breaks a rule. A sum may have millions of terms, and groups to the left: its sides are gone through
// from the last one, and what stands before it is told in its place.
fn expr_breach(expr: &Expr, now: &Modes) -> Option<Refusal>
    ensures { result ≡ breach_of_expr (mode_in now.now) expr.now }
{
    let mut at = expr;
    let mut later = None;
    loop {
        match at {
            Expr::Num(_) | Expr::Var { var: _, line: _ } => return later,
            Expr::Read {
                tensor,
                at: _,
                line,
            } => return first_of(broken(!is_read(now.at(*tensor)), Rule::L2, *line), later),
            Expr::Neg(inner) => return first_of(expr_breach(inner.get(), now), later),
            Expr::Two { op: _, left, right } => {
                later = first_of(expr_breach(right.get(), now), later);
                at = left.get();
            }
        }
    }
}

fn first_of(first: Option<Refusal>, later: Option<Refusal>) -> Option<Refusal>
    ensures { result ≡ option_or first later }
{
    match first {
        Some(refusal) => Some(refusal),
        None => later,
    }
}

fn first_changed(headers: &[Header], line: u32, begin: &Modes, now: &Modes) -> Option<Refusal>
    requires { length headers.now ≤ 64 }
    ensures { result ≡ life.first_changed (mode_in begin.now) (mode_in now.now) line headers.now }
{
    for tensor in 0..headers.len() {
        let at = tensor as u8;
        if is_changed(begin.at(at), now.at(at)) {
            return Some(Refusal {
                rule: Rule::L6,
                line,
            });
        }
    }
    None
}

fn first_unread(headers: &[Header], now: &Modes) -> Option<Refusal>
    requires { length headers.now ≤ 64 }
    ensures { result ≡ life.first_unread (mode_in now.now) headers.now }
{
    for tensor in 0..headers.len() {
        let header = &headers[tensor];
        if header.kind == Kind::Output && !is_read(now.at(tensor as u8)) {
            return Some(Refusal {
                rule: Rule::L7,
                line: header.line,
            });
        }
    }
    None
}
