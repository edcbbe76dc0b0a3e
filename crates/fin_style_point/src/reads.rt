//! The looplets of the parts, each under the number of its read or mask.
ghost use Rattle.std.specs.Prelude.{◌≡◌, IfOk, map};
ghost use Rattle.fin_looplet.specs.Cut.{cut};
ghost use Rattle.fin_nest.specs.Entries.{with_looplet};
ghost use Rattle.fin_style_point.specs.Steps.{unshifted, held};

use fin_ir::IExpr;
use fin_looplet::Looplet;
use fin_nest::Numbered;
use sqlite_items::Items;
use std::alloc::{AllocError, Global};

/// The looplets of a region, cut at its end: no spike is left at their head.
pub(crate) fn cut_all(
    alloc: Global,
    end: &IExpr,
    entries: &[Numbered],
) -> Result<Items<Numbered>, AllocError>
    ensures { IfOk result (λ all. all ≡ map (with_looplet (cut end.now)) entries.now) }
{
    let mut all = Items::new(alloc);
    for entry in entries {
        let looplet = entry.looplet.cut(alloc, end)?;
        all.push(Numbered {
            number: entry.number,
            looplet,
        })?;
    }
    Ok(all)
}

/// The looplets with each shift at their head pushed inside.
pub(crate) fn unshifted_all(
    alloc: Global,
    entries: &[Numbered],
) -> Result<Items<Numbered>, AllocError>
    ensures { IfOk result (λ all. all ≡ map (with_looplet unshifted) entries.now) }
{
    let mut all = Items::new(alloc);
    for entry in entries {
        let looplet = unshifted(alloc, &entry.looplet)?;
        all.push(Numbered {
            number: entry.number,
            looplet,
        })?;
    }
    Ok(all)
}

fn unshifted(alloc: Global, looplet: &Looplet) -> Result<Looplet, AllocError>
    ensures { IfOk result (λ l. l ≡ unshifted looplet.now) }
{
    match looplet {
        Looplet::Shift { by, child } => child.get().moved(alloc, by),
        _ => looplet.copy(alloc),
    }
}

/// The looplets at one coordinate, which stands in the locals of their lookups.
pub(crate) fn held_all(alloc: Global, entries: &[Numbered]) -> Result<Items<Numbered>, AllocError>
    ensures { IfOk result (λ all. all ≡ map (with_looplet held) entries.now) }
{
    let mut all = Items::new(alloc);
    for entry in entries {
        let looplet = held(alloc, &entry.looplet)?;
        all.push(Numbered {
            number: entry.number,
            looplet,
        })?;
    }
    Ok(all)
}

fn held(alloc: Global, looplet: &Looplet) -> Result<Looplet, AllocError>
    ensures { IfOk result (λ l. l ≡ held looplet.now) }
{
    match looplet {
        Looplet::Lookup { coord: _, leaf } => {
            let leaf = leaf.copy(alloc)?;
            Ok(Looplet::Run(leaf))
        }
        _ => looplet.copy(alloc),
    }
}
