//! Puts freeze and thaw into a program.
ghost use Rattle.std.specs.Prelude.{◌≡◌, ◌≤◌, IfOk, OnOk, List, length, zero};
ghost use Rattle.fin_ast.specs.declared.header.Header.{Header};
ghost use Rattle.fin_ast.specs.Insertion.{completed_program};
ghost use Rattle.fin_life.specs.Completing.{carried, carried_body, carried_program, completing_of, completings_of};
ghost use Rattle.fin_life.specs.Completing as completing;
ghost use Rattle.fin_life.specs.Drafts.{begun, carried_in, frozen, in_turn, thawed};
ghost use Rattle.fin_life.specs.Drafts as drafts;
ghost use Rattle.fin_life.specs.Mentions.{mention_in};
ghost use Rattle.fin_life.specs.Table.{mode_in};

use crate::life::lead;
use crate::mentions::{Mentions, only_reads, only_updates};
use crate::modes::{Modes, is_input, is_read, is_update};
use fin_ast::{Header, Kind, Mode, Program, Stmt};
use sqlite_items::Items;
use std::alloc::{AllocError, Global};

/// A completed body so far, with the modes at its end.
#[derive(Debug, Drop)]
pub struct Draft {
    statements: Items<Stmt>,
    modes: Modes,
}

impl Draft {
    fn freeze(&mut self, tensor: u8, line: u32) -> Result<(), AllocError>
        ensures { OnOk result (carried_in self.new ≡ frozen tensor line (carried_in self.old)) }
    {
        self.statements.push(Stmt::Freeze { tensor, line })?;
        self.modes.lead(tensor, Mode::Read);
        Ok(())
    }

    fn thaw(&mut self, tensor: u8, line: u32) -> Result<(), AllocError>
        ensures { OnOk result (carried_in self.new ≡ thawed tensor line (carried_in self.old)) }
    {
        self.statements.push(Stmt::Thaw { tensor, line })?;
        self.modes.lead(tensor, Mode::Update);
        Ok(())
    }

    /// Puts in what a tensor wants before a statement with these mentions.
    fn put_one(
        &mut self,
        headers: &[Header],
        mentions: &Mentions,
        line: u32,
        tensor: u8,
    ) -> Result<(), AllocError>
        ensures { let put = drafts.put_one headers.now (mention_in mentions.now) line tensor in
            OnOk result (carried_in self.new ≡ put (carried_in self.old)) }
    {
        let mode = self.modes.at(tensor);
        let mention = mentions.at(tensor);
        if is_update(mode) && only_reads(mention) {
            self.freeze(tensor, line)
        } else if is_read(mode) && !is_input(headers, tensor) && only_updates(mention) {
            self.thaw(tensor, line)
        } else {
            Ok(())
        }
    }

    /// Puts in what all tensors want before a statement.
    fn put_all(
        &mut self,
        alloc: Global,
        headers: &[Header],
        statement: &Stmt,
    ) -> Result<(), AllocError>
        requires { length headers.now ≤ 64 }
        ensures { let put = completing.put_all headers.now (completing_of headers.now statement.now) in
            OnOk result (carried_in self.new ≡ put (carried_in self.old)) }
    {
        let mut mentions = Mentions::nothing();
        mentions.note_statement(alloc, statement)?;
        let line = line_of(statement);
        for tensor in 0..headers.len() {
            self.put_one(headers, &mentions, line, tensor as u8)?;
        }
        Ok(())
    }

    /// Puts in a freeze at the end of the program for an output in update mode.
    fn put_last(&mut self, header: &Header, line: u32, tensor: u8) -> Result<(), AllocError>
        ensures { OnOk result (carried_in self.new ≡ drafts.put_last line tensor header.now (carried_in self.old)) }
    {
        if header.kind == Kind::Output && is_update(self.modes.at(tensor)) {
            self.freeze(tensor, line)
        } else {
            Ok(())
        }
    }

    /// The same for all outputs.
    fn put_at_end(&mut self, headers: &[Header], line: u32) -> Result<(), AllocError>
        requires { length headers.now ≤ 64 }
        ensures { let put = in_turn (drafts.put_last line) zero headers.now in
            OnOk result (carried_in self.new ≡ put (carried_in self.old)) }
    {
        for tensor in 0..headers.len() {
            self.put_last(&headers[tensor], line, tensor as u8)?;
        }
        Ok(())
    }
}

/// The line of a statement.
fn line_of(statement: &Stmt) -> u32
    ensures { (headers : List Header) → result ≡ (completing_of headers statement.now).line }
{
    match statement {
        Stmt::Block {
            body: _,
            line,
            last: _,
        } => *line,
        Stmt::Loop {
            var: _,
            range: _,
            par: _,
            body: _,
            line,
            last: _,
        } => *line,
        Stmt::Cond {
            test: _,
            body: _,
            line,
            last: _,
        } => *line,
        Stmt::Bind {
            var: _,
            value: _,
            body: _,
            line,
            last: _,
        } => *line,
        Stmt::Declare {
            tensor: _,
            value: _,
            line,
        } => *line,
        Stmt::Freeze { tensor: _, line } => *line,
        Stmt::Thaw { tensor: _, line } => *line,
        Stmt::Update {
            tensor: _,
            at: _,
            by: _,
            value: _,
            line,
        } => *line,
    }
}

/// The completed statements of a body, from the modes before it, and the modes after it.
#[cycle(completed)]
fn complete_all(
    alloc: Global,
    headers: &[Header],
    body: &[Stmt],
    now: &Modes,
) -> Result<Draft, AllocError>
    requires { length headers.now ≤ 64 }
    ensures { let statements = completings_of headers.now body.now in
        IfOk result (λ d. carried_in d ≡ carried headers.now statements (begun (mode_in now.now))) }
{
    let mut draft = Draft {
        statements: Items::new(alloc),
        modes: *now,
    };
    for statement in body {
        draft.put_all(alloc, headers, statement)?;
        let whole = complete_stmt(alloc, headers, statement, &draft.modes)?;
        draft.statements.push(whole)?;
        lead(statement, &mut draft.modes);
    }
    Ok(draft)
}

#[cycle(completed)]
fn complete_body(
    alloc: Global,
    headers: &[Header],
    body: &[Stmt],
    now: &Modes,
) -> Result<Items<Stmt>, AllocError>
    requires { length headers.now ≤ 64 }
    ensures { let statements = completings_of headers.now body.now in
        IfOk result (λ ss. ss ≡ carried_body headers.now statements (mode_in now.now)) }
{
    let draft = complete_all(alloc, headers, body, now)?;
    Ok(draft.statements)
}

#[cycle(completed)]
fn complete_stmt(
    alloc: Global,
    headers: &[Header],
    statement: &Stmt,
    now: &Modes,
) -> Result<Stmt, AllocError>
    requires { length headers.now ≤ 64 }
    ensures { IfOk result (λ s. s ≡ (completing_of headers.now statement.now).whole (mode_in now.now)) }
{
    match statement {
        Stmt::Block { body, line, last } => {
            let body = complete_body(alloc, headers, body.as_slice(), now)?;
            Ok(Stmt::Block {
                body,
                line: *line,
                last: *last,
            })
        }
        Stmt::Loop {
            var,
            range,
            par,
            body,
            line,
            last,
        } => {
            let body = complete_body(alloc, headers, body.as_slice(), now)?;
            Ok(Stmt::Loop {
                var: *var,
                range: *range,
                par: *par,
                body,
                line: *line,
                last: *last,
            })
        }
        Stmt::Cond {
            test,
            body,
            line,
            last,
        } => {
            let test = test.copy(alloc)?;
            let body = complete_body(alloc, headers, body.as_slice(), now)?;
            Ok(Stmt::Cond {
                test,
                body,
                line: *line,
                last: *last,
            })
        }
        Stmt::Bind {
            var,
            value,
            body,
            line,
            last,
        } => {
            let value = value.copy(alloc)?;
            let body = complete_body(alloc, headers, body.as_slice(), now)?;
            Ok(Stmt::Bind {
                var: *var,
                value,
                body,
                line: *line,
                last: *last,
            })
        }
        Stmt::Declare {
            tensor,
            value,
            line,
        } => Ok(Stmt::Declare {
            tensor: *tensor,
            value: *value,
            line: *line,
        }),
        Stmt::Freeze { tensor, line } => Ok(Stmt::Freeze {
            tensor: *tensor,
            line: *line,
        }),
        Stmt::Thaw { tensor, line } => Ok(Stmt::Thaw {
            tensor: *tensor,
            line: *line,
        }),
        Stmt::Update {
            tensor,
            at,
            by,
            value,
            line,
        } => {
            let at = at.copy(alloc)?;
            let value = value.copy(alloc)?;
            Ok(Stmt::Update {
                tensor: *tensor,
                at,
                by: *by,
                value,
                line: *line,
            })
        }
    }
}

/// The statements of a program after insertion.
pub fn completed(
    alloc: Global,
    headers: &[Header],
    body: &[Stmt],
    last: u32,
) -> Result<Items<Stmt>, AllocError>
    requires { length headers.now ≤ 64 }
    ensures { IfOk result (λ ss. ss ≡ carried_program headers.now body.now last) }
{
    let start = Modes::at_start(headers);
    let mut draft = complete_all(alloc, headers, body, &start)?;
    draft.put_at_end(headers, last)?;
    Ok(draft.statements)
}

/// Puts freeze and thaw into a program.
///
/// Before a statement that reads a tensor in update mode, and doesn't otherwise speak of it, stands a freeze; before
/// one that updates a tensor in read mode that is no input, and doesn't otherwise speak of it, a thaw. At the end
/// outputs in update mode are frozen. Each has the line of the statement that it precedes, or the line behind the
/// text.
pub fn complete(alloc: Global, program: Program) -> Result<Program, AllocError>
    ensures headers { IfOk result (λ p. p.headers ≡ program.headers) }
    ensures body { IfOk result (λ p. p.body ≡ completed_program program) }
    ensures last { IfOk result (λ p. p.last ≡ program.last) }
{
    let body = completed(
        alloc,
        program.headers.as_slice(),
        program.body.as_slice(),
        program.last,
    )?;
    Ok(Program {
        headers: program.headers,
        body,
        last: program.last,
    })
}
