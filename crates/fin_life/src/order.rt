//! The order of updates.
ghost use Rattle.std.specs.Prelude.{◌≡◌, ◌≤◌, ◌+◌, IfOk, IfErr, slice_get, None, Some};
ghost use Rattle.fin_ast.specs.Choices.{levels_of};
ghost use Rattle.fin_ast.specs.Depth.{depth_of, depth_of_all};
ghost use Rattle.fin_ast.specs.Life.{life_in};
ghost use Rattle.fin_ast.specs.Order.{order_in};
ghost use Rattle.fin_tensor.specs.Order.{ordered_levels as ordered_levels_of};
ghost use Rattle.fin_life.specs.Loops.{loops_in};
ghost use Rattle.fin_life.specs.Tracks.{tracks_in};
ghost use Rattle.fin_life.specs.Trails.{after_all, breach_along, order_of, trail_of, trails_of};
ghost use Rattle.fin_life.specs.Trails as trails;

use crate::loops::{Loops, is_in_order};
use crate::tracks::Tracks;
use fin_ast::{Header, Index, Program, Stmt};
use fin_base::{Refusal, Rule};
use fin_tensor::ordered_levels;

/// Whether the updates of each tensor with list, runs or band levels go along these levels.
///
/// Refused by the first breach in text order: an update whose indices down to the deepest such level aren't the
/// variables of the outermost loops entered since the declaration, or whose loops aren't those of the first update
/// since then.
pub fn check_order(program: &Program) -> Result<(), Refusal>
    requires { life_in program.now ≡ None }
    ensures kept { IfOk result (λ u. order_in program.now ≡ None) }
    ensures refused { IfErr result (λ r. order_in program.now ≡ Some r) }
{
    match breach(program.headers.as_slice(), program.body.as_slice()) {
        Some(refusal) => Err(refusal),
        None => Ok(()),
    }
}

/// The first breach of a program with these headers and statements.
pub fn breach(headers: &[Header], body: &[Stmt]) -> Option<Refusal>
    requires { depth_of_all body.now ≤ 16 }
    ensures { result ≡ order_of headers.now body.now }
{
    let loops = Loops::none();
    let mut tracks = Tracks::none();
    first_breach(headers, body, &loops, &mut tracks)
}

/// The first breach of statements, and where there is none, what is carried on.
#[cycle(order)]
fn first_breach(
    headers: &[Header],
    body: &[Stmt],
    loops: &Loops,
    tracks: &mut Tracks,
) -> Option<Refusal>
    requires { depth_of_all body.now + loops.now.count ≤ 16 }
    ensures breach { let statements = trails_of headers.now body.now in
        result ≡ breach_along statements (loops_in loops.now) (tracks_in tracks.old) }
    ensures after { let statements = trails_of headers.now body.now in
        result ≡ None → tracks_in tracks.new ≡ after_all statements (loops_in loops.now) (tracks_in tracks.old) }
{
    for statement in body {
        if let Some(refusal) = stmt_breach(headers, statement, loops, tracks) {
            return Some(refusal);
        }
    }
    None
}

#[cycle(order)]
fn stmt_breach(
    headers: &[Header],
    statement: &Stmt,
    loops: &Loops,
    tracks: &mut Tracks,
) -> Option<Refusal>
    requires { depth_of statement.now + loops.now.count ≤ 16 }
    ensures breach { let trail = trail_of headers.now statement.now in
        result ≡ trail.breach (loops_in loops.now) (tracks_in tracks.old) }
    ensures after { let trail = trail_of headers.now statement.now in
        result ≡ None → tracks_in tracks.new ≡ trail.after (loops_in loops.now) (tracks_in tracks.old) }
{
    match statement {
        Stmt::Block {
            body,
            line: _,
            last: _,
        } => first_breach(headers, body.as_slice(), loops, tracks),
        Stmt::Loop {
            var,
            range: _,
            par: _,
            body,
            line: _,
            last: _,
        } => {
            let inner = loops.with(*var);
            first_breach(headers, body.as_slice(), &inner, tracks)
        }
        Stmt::Cond {
            test: _,
            body,
            line: _,
            last: _,
        } => first_breach(headers, body.as_slice(), loops, tracks),
        Stmt::Bind {
            var: _,
            value: _,
            body,
            line: _,
            last: _,
        } => first_breach(headers, body.as_slice(), loops, tracks),
        Stmt::Declare {
            tensor,
            value: _,
            line: _,
        } => {
            tracks.declare(*tensor, loops);
            None
        }
        Stmt::Freeze { tensor: _, line: _ } => None,
        Stmt::Thaw { tensor: _, line: _ } => None,
        Stmt::Update {
            tensor,
            at,
            by: _,
            value: _,
            line,
        } => {
            let breach = update_breach(headers, *tensor, at.as_slice(), *line, loops, tracks);
            tracks.update(*tensor, loops);
            breach
        }
    }
}

fn update_breach(
    headers: &[Header],
    tensor: u8,
    at: &[Index],
    line: u32,
    loops: &Loops,
    tracks: &Tracks,
) -> Option<Refusal>
    ensures { let breach = trails.update_breach headers.now tensor at.now line in
        result ≡ breach (loops_in loops.now) (tracks_in tracks.now) }
{
    let d = ordered(headers, tensor);
    let outer = tracks.outer(tensor);
    let inner = loops.without(outer);
    if !is_in_order(d, inner, at) {
        Some(Refusal {
            rule: Rule::U1,
            line,
        })
    } else if !tracks.is_as_first(tensor, d, outer, inner) {
        Some(Refusal {
            rule: Rule::U2,
            line,
        })
    } else {
        None
    }
}

/// The number of levels of a tensor down to its deepest ordered one.
fn ordered(headers: &[Header], tensor: u8) -> usize
    ensures { result ≡ ordered_levels_of (levels_of (slice_get headers.now tensor)) }
{
    match headers.get(usize::from(tensor)) {
        Some(header) => ordered_levels(header.format.levels.as_slice()),
        None => 0,
    }
}
