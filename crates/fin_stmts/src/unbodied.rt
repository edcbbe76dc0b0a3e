//! The codes of statements without bodies.
ghost use Rattle.std.specs.Prelude.{◌≡◌, ◌∷◌, [], ℕ, ℤ, IfOk};
ghost use Rattle.fin_ast.specs.declared.tree.Stmt.TheVariants as stmt;
ghost use Rattle.fin_stmts.specs.Lowering.{LowersOne, LowersSome};

use crate::place::{Codes, Place, heads_of};
use fin_ast::Checked;
use fin_ir::Code;
use fin_perform::{Update, declare_code, freeze_code, thaw_code, update_code};
use sqlite_items::Items;
use std::alloc::{AllocError, Global};

/// One code, and how many locals it needs.
pub(crate) fn single(alloc: Global, code: Code, room: u32) -> Result<Codes, AllocError>
    ensures codes { IfOk result (λ m. m.codes ≡ code ∷ []) }
    ensures room { IfOk result (λ m. m.room ≡ room) }
{
    let mut codes = Items::new(alloc);
    codes.push(code)?;
    Ok(Codes { codes, room })
}

#[tactic(auto, using(crate::proofs::Extents::are_built))]
pub(crate) fn lower_declare(
    alloc: Global,
    checked: &Checked,
    tensor: u8,
    place: &Place<'_>,
) -> Result<Codes, AllocError>
    ensures { IfOk result (λ m. (value : ℤ) (line : ℕ)
        → LowersOne checked.now place.now m (stmt.Declare tensor value line)) }
{
    let heads = heads_of(checked);
    let code = declare_code(alloc, &heads, tensor)?;
    single(alloc, code, place.next)
}

pub(crate) fn lower_freeze(
    alloc: Global,
    checked: &Checked,
    tensor: u8,
    place: &Place<'_>,
) -> Result<Codes, AllocError>
    ensures { IfOk result (λ m. (line : ℕ) → LowersOne checked.now place.now m (stmt.Freeze tensor line)) }
{
    let heads = heads_of(checked);
    let code = freeze_code(alloc, &heads, tensor)?;
    single(alloc, code, place.next)
}

pub(crate) fn lower_thaw(
    alloc: Global,
    checked: &Checked,
    tensor: u8,
    place: &Place<'_>,
) -> Result<Codes, AllocError>
    ensures { IfOk result (λ m. (line : ℕ) → LowersOne checked.now place.now m (stmt.Thaw tensor line)) }
{
    let heads = heads_of(checked);
    let code = thaw_code(alloc, &heads, tensor)?;
    single(alloc, code, place.next)
}

pub(crate) fn lower_update(
    alloc: Global,
    checked: &Checked,
    update: &Update<'_>,
    place: &Place<'_>,
) -> Result<Codes, AllocError>
    ensures { IfOk result (λ m. (line : ℕ) → LowersSome checked.now place.now m
        (stmt.Update update.now.tensor update.now.at.now update.now.by update.now.value.now line)) }
{
    let heads = heads_of(checked);
    let placed = update_code(alloc, &heads, update, place.next)?;
    single(alloc, placed.code, placed.need)
}
