//! What is left of a statement.
ghost use Rattle.std.specs.Prelude.{◌≡◌, [], ◌∷◌, IfOk, if◌then◌else◌, map};
ghost use Rattle.std.specs.List.{list_any};
ghost use Rattle.fin_simp.specs.Facts.{marks, marks_of};
ghost use Rattle.fin_simp.specs.Left.{literal_in};
ghost use Rattle.fin_simp.specs.Numbered.{here_at, past_all, past_stmt};
ghost use Rattle.fin_simp.specs.Simplified as spec;
ghost use Rattle.fin_simp.specs.Simplified.{simplified, simplified_all};

use crate::facts::{Bound, Facts, Gap, Known, next_number, test_of, with_bound};
use crate::nothing::{fails, is_identity};
use crate::remainder::{Left, simplify_expr};
use fin_ast::Stmt;
use sqlite_items::Items;
use std::alloc::{AllocError, Global};

/// The statements that are left of a statement or a body, and the numbers of the next read and test.
#[derive(Debug, Drop)]
pub struct Rewritten {
    pub statements: Items<Stmt>,
    pub read: u32,
    pub test: u32,
}

/// A statement with its parts simplified, children first, by the first rule that fits. `gaps` are reads that give
/// their fill, and `known` tests of which it is known whether they hold; both by their numbers in the order of the
/// text. `None` is nothing. Where several statements are left of a block, they stand in one.
pub fn simplify(
    alloc: Global,
    body: Stmt,
    gaps: &[Gap],
    known: &[Known],
) -> Result<Option<Stmt>, AllocError>
    ensures { IfOk result (λ o. o ≡ spec.simplify body (marks_of gaps.now known.now [])) }
{
    let facts = Facts {
        gaps,
        known,
        bound: &[],
    };
    let left = simplify_stmt(alloc, &body, &facts, 0, 0)?;
    let lines = lines_of(&body);
    as_one(left.statements, lines.0, lines.1)
}

fn lines_of(s: &Stmt) -> (u32, u32)
    ensures { result ≡ spec.lines_of s.now }
{
    match s {
        Stmt::Block {
            body: _,
            line,
            last,
        } => (*line, *last),
        Stmt::Loop {
            var: _,
            range: _,
            par: _,
            body: _,
            line,
            last,
        } => (*line, *last),
        Stmt::Cond {
            test: _,
            body: _,
            line,
            last,
        } => (*line, *last),
        Stmt::Bind {
            var: _,
            value: _,
            body: _,
            line,
            last,
        } => (*line, *last),
        Stmt::Declare {
            tensor: _,
            value: _,
            line,
        } => (*line, *line),
        Stmt::Freeze { tensor: _, line } => (*line, *line),
        Stmt::Thaw { tensor: _, line } => (*line, *line),
        Stmt::Update {
            tensor: _,
            at: _,
            by: _,
            value: _,
            line,
        } => (*line, *line),
    }
}

fn as_one(statements: Items<Stmt>, line: u32, last: u32) -> Result<Option<Stmt>, AllocError>
    ensures { IfOk result (λ o. o ≡ spec.as_one line last statements) }
{
    if statements.len() > 1 {
        return Ok(Some(Stmt::Block {
            body: statements,
            line,
            last,
        }));
    }
    let mut statements = statements;
    Ok(statements.pop())
}

/// What is left of a statement, whose first read and test have these numbers.
#[cycle(rewritten)]
pub fn simplify_stmt(
    alloc: Global,
    s: &Stmt,
    facts: &Facts<'_>,
    read: u32,
    test: u32,
) -> Result<Rewritten, AllocError>
    ensures left { IfOk result (λ r. r.statements ≡ simplified s.now (here_at read test) (marks facts.now)) }
    ensures past { IfOk result (λ r. here_at r.read r.test ≡ past_stmt s.now (here_at read test)) }
{
    match s {
        Stmt::Block { body, line, last } => {
            let left = simplify_all(alloc, body.as_slice(), facts, read, test)?;
            let statements = opened(alloc, left.statements, *line, *last)?;
            Ok(rewriting(statements, left.read, left.test))
        }
        Stmt::Loop {
            var,
            range,
            par,
            body,
            line,
            last,
        } => {
            let bound = with_bound(alloc, facts.bound, *var, None)?;
            let inner = Facts {
                gaps: facts.gaps,
                known: facts.known,
                bound: bound.as_slice(),
            };
            let left = simplify_all(alloc, body.as_slice(), &inner, read, test)?;
            let is_none = left.statements.is_empty();
            let whole = Stmt::Loop {
                var: *var,
                range: *range,
                par: *par,
                body: left.statements,
                line: *line,
                last: *last,
            };
            let statements = unless(alloc, is_none, whole)?;
            Ok(rewriting(statements, left.read, left.test))
        }
        Stmt::Cond {
            test: condition,
            body,
            line,
            last,
        } => {
            let value = simplify_expr(alloc, condition, facts, read)?;
            let next = next_number(test)?;
            let body = simplify_all(alloc, body.as_slice(), facts, value.next, next)?;
            let told = settled(test_of(facts.known, test), value.left);
            let statements = chosen(alloc, told, body.statements, *line, *last)?;
            Ok(rewriting(statements, body.read, body.test))
        }
        Stmt::Bind {
            var,
            value,
            body,
            line,
            last,
        } => {
            let value = simplify_expr(alloc, value, facts, read)?;
            let bound = with_value(alloc, facts.bound, *var, &value.left)?;
            let inner = Facts {
                gaps: facts.gaps,
                known: facts.known,
                bound: bound.as_slice(),
            };
            let body = simplify_all(alloc, body.as_slice(), &inner, value.next, test)?;
            let statements = bound_in(alloc, *var, value.left, body.statements, (*line, *last))?;
            Ok(rewriting(statements, body.read, body.test))
        }
        Stmt::Declare {
            tensor,
            value,
            line,
        } => {
            let whole = Stmt::Declare {
                tensor: *tensor,
                value: *value,
                line: *line,
            };
            let statements = alone(alloc, whole)?;
            Ok(rewriting(statements, read, test))
        }
        Stmt::Freeze { tensor, line } => {
            let whole = Stmt::Freeze {
                tensor: *tensor,
                line: *line,
            };
            let statements = alone(alloc, whole)?;
            Ok(rewriting(statements, read, test))
        }
        Stmt::Thaw { tensor, line } => {
            let whole = Stmt::Thaw {
                tensor: *tensor,
                line: *line,
            };
            let statements = alone(alloc, whole)?;
            Ok(rewriting(statements, read, test))
        }
        Stmt::Update {
            tensor,
            at,
            by,
            value,
            line,
        } => {
            let value = simplify_expr(alloc, value, facts, read)?;
            let is_none = is_identity(*by, value.left.literal());
            let at = at.copy(alloc)?;
            let whole = Stmt::Update {
                tensor: *tensor,
                at,
                by: *by,
                value: value.left.into_expr(),
                line: *line,
            };
            let statements = unless(alloc, is_none, whole)?;
            Ok(rewriting(statements, value.next, test))
        }
    }
}

/// What is left of a body.
#[cycle(rewritten)]
pub fn simplify_all(
    alloc: Global,
    body: &[Stmt],
    facts: &Facts<'_>,
    read: u32,
    test: u32,
) -> Result<Rewritten, AllocError>
    ensures left { IfOk result (λ r. r.statements ≡ simplified_all body.now (here_at read test) (marks facts.now)) }
    ensures past { IfOk result (λ r. here_at r.read r.test ≡ past_all (map past_stmt body.now) (here_at read test)) }
{
    let mut statements = Items::new(alloc);
    let mut next_read = read;
    let mut next_test = test;
    for s in body {
        let one = simplify_stmt(alloc, s, facts, next_read, next_test)?;
        statements.append(one.statements)?;
        next_read = one.read;
        next_test = one.test;
    }
    Ok(rewriting(statements, next_read, next_test))
}

/// The variables that are bound, and one more, with its number where a literal is left of its value.
fn with_value(
    alloc: Global,
    bound: &[Bound],
    var: u32,
    value: &Left,
) -> Result<Vec<Bound>, AllocError>
    ensures { IfOk result (λ v. v.items ≡ record { var = var; number = literal_in value.now } ∷ bound.now) }
{
    with_bound(alloc, bound, var, value.literal())
}

fn rewriting(statements: Items<Stmt>, read: u32, test: u32) -> Rewritten
    ensures left { result.statements ≡ statements }
    ensures read { result.read ≡ read }
    ensures test { result.test ≡ test }
{
    Rewritten {
        statements,
        read,
        test,
    }
}

fn alone(alloc: Global, s: Stmt) -> Result<Items<Stmt>, AllocError>
    ensures { IfOk result (λ xs. xs ≡ s ∷ []) }
{
    let mut one = Items::new(alloc);
    one.push(s)?;
    Ok(one)
}

fn unless(alloc: Global, is_none: bool, s: Stmt) -> Result<Items<Stmt>, AllocError>
    ensures { IfOk result (λ xs. xs ≡ (if is_none then [] else s ∷ [])) }
{
    if is_none {
        return Ok(Items::new(alloc));
    }
    alone(alloc, s)
}

/// What is left of a body, in place of its braces, unless a declaration stands directly in it.
fn opened(alloc: Global, body: Items<Stmt>, line: u32, last: u32) -> Result<Items<Stmt>, AllocError>
    ensures { IfOk result (λ xs. xs ≡ spec.opened line last body) }
{
    if declares(body.as_slice()) {
        return alone(alloc, Stmt::Block { body, line, last });
    }
    Ok(body)
}

fn declares(body: &[Stmt]) -> bool
    ensures { result ≡ list_any spec.is_declaration body.now }
{
    for s in body {
        if is_declaration(s) {
            return true;
        }
    }
    false
}

fn is_declaration(s: &Stmt) -> bool
    ensures { result ≡ spec.is_declaration s.now }
{
    match s {
        Stmt::Declare {
            tensor: _,
            value: _,
            line: _,
        } => true,
        _ => false,
    }
}

/// What is known of a test stands in its place; but one that is left as 0 fails.
fn settled(known: Option<i64>, left: Left) -> Left
    ensures { result ≡ spec.settled known left }
{
    match known {
        None => left,
        Some(n) => {
            if fails(left.literal()) {
                left
            } else {
                Left::Literal(n)
            }
        }
    }
}

fn chosen(
    alloc: Global,
    test: Left,
    body: Items<Stmt>,
    line: u32,
    last: u32,
) -> Result<Items<Stmt>, AllocError>
    ensures { IfOk result (λ xs. xs ≡ spec.chosen line last test body) }
{
    match test {
        Left::Literal(n) => {
            if n == 0 {
                return Ok(Items::new(alloc));
            }
            opened(alloc, body, line, last)
        }
        Left::Open(test) => {
            let is_none = body.is_empty();
            unless(
                alloc,
                is_none,
                Stmt::Cond {
                    test,
                    body,
                    line,
                    last,
                },
            )
        }
    }
}

fn bound_in(
    alloc: Global,
    var: u32,
    value: Left,
    body: Items<Stmt>,
    lines: (u32, u32),
) -> Result<Items<Stmt>, AllocError>
    ensures { IfOk result (λ xs. xs ≡ spec.bound var lines.0 lines.1 value body) }
{
    let (line, last) = lines;
    match value {
        Left::Literal(_) => opened(alloc, body, line, last),
        Left::Open(value) => {
            let is_none = body.is_empty();
            unless(
                alloc,
                is_none,
                Stmt::Bind {
                    var,
                    value,
                    body,
                    line,
                    last,
                },
            )
        }
    }
}
