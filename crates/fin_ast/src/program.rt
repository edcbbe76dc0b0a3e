//! Whole programs.
ghost use Rattle.std.specs.Prelude.{◌≡◌, ◌≤◌, IfOk, IsTrue, length, nat_eq};
ghost use Rattle.std.specs.Cmp.Lexicographic.{pointwise};
ghost use Rattle.std.specs.List.{IsDistinct};
ghost use Rattle.std.proofs.lemmas.Map.Keys.{IsDistinct-prop};
ghost use Rattle.fin_ast.specs.Headers.{names_of};
ghost use Rattle.fin_ast.specs.Bindings.{counts_from, bindings_of_all};
ghost use Rattle.fin_ast.specs.Scope.{are_named, outermost};
ghost use Rattle.fin_ast.specs.Depth.{IsShallow};
ghost use Rattle.fin_ast.specs.Literals.{are_worded};

use crate::copy::copy_all;
use crate::header::Header;
use crate::tree::Stmt;
use fin_tensor::{Duplicate, Seq};
use sqlite_items::Items;
use std::alloc::{AllocError, Global};

/// A program. `last` is the line behind its text.
///
/// Its headers have different names. The variables are numbered in the order
/// in which loops and lets bind them. Each number in the body stands for a header, or for a loop or let around it; an
/// index for loops alone, and a `~` index for two different ones. An access has an index for each level, and a
/// declaration gives the fill. The literals of its expressions are words.
#[derive(Debug, Drop)]
pub struct Program {
    pub headers: Seq<Header>,
    pub body: Items<Stmt>,
    pub last: u32,
    pub ghost few: { length headers ≤ 64 },
    pub ghost distinct: { IsDistinct (pointwise nat_eq) (names_of headers) } by { IsDistinct-prop
        (pointwise nat_eq) (names_of headers) },
    pub ghost numbered: { IsTrue (counts_from 0 (bindings_of_all body)) },
    pub ghost named: { IsTrue (are_named body (outermost headers)) },
    pub ghost shallow: { IsShallow body },
    pub ghost worded: { IsTrue (are_worded body) },
}

impl Program {
    /// An equal program.
    pub fn copy(&self, alloc: Global) -> Result<Program, AllocError>
        ensures { IfOk result (λ p. p ≡ self.now) }
    {
        let headers = self.headers.copy(alloc)?;
        let body = copy_all(alloc, self.body.as_slice())?;
        Ok(Program {
            headers,
            body,
            last: self.last,
        })
    }
}
