//! One update for all coordinates of a region.
ghost use Rattle.std.specs.Prelude.{◌≡◌, ◌∷◌, [], ◌++◌, IfOk, pos};
ghost use Rattle.fin_ir.specs.declared.code.Code.TheVariants.{Charge};
ghost use Rattle.fin_ir.specs.declared.expression.IExpr.TheVariants.{Num};
ghost use Rattle.fin_looplet.specs.Cut.{minus};
ghost use Rattle.fin_style_point.specs.Changes.{repeated_value, update_code, put_code, once_code, at_once_code};
ghost use Rattle.fin_tensor.specs.Levels.{AreSmall};

use crate::codes::within_code;
use crate::nest::Nest;
use fin_base::Reduce;
use fin_ir::{Code, IExpr};
use fin_looplet::minus;
use fin_nest::{copy_ends, when};
use fin_read::in_box;
use fin_tensor::Seq;
use sqlite_items::{Boxed, Items};
use std::alloc::{AllocError, Global};

/// What a body does that is one update, the same at each coordinate: the value is joined to that of the tensor there.
/// The codes `before` bring what the coordinates and the value name into locals.
#[derive(Debug, Drop)]
pub struct Change {
    pub before: Items<Code>,
    pub tensor: u8,
    pub at: Seq<IExpr>,
    pub by: Reduce,
    pub value: IExpr,
}

/// The update at once for all coordinates of the nest, where there is one and where its own coordinates lie in the box
/// of that shape. It costs 2, however long the region is.
pub fn at_once(
    alloc: Global,
    nest: &Nest,
    shape: &[u64],
    change: &Change,
) -> Result<Code, AllocError>
    requires small { AreSmall shape.now }
    ensures { IfOk result (λ c. c ≡ at_once_code nest.now shape.now change.now) }
{
    let update = put_code(alloc, nest, shape, change)?;
    let once = once_code(alloc, change.before.as_slice(), update)?;
    let (lo, hi) = copy_ends(alloc, &nest.lo, &nest.hi)?;
    within_code(alloc, lo, hi, once)
}

/// The update behind the codes before it, and the work of a coordinate and of an update.
fn once_code(alloc: Global, before: &[Code], update: Code) -> Result<Code, AllocError>
    ensures { IfOk result (λ c. c ≡ once_code before.now update) }
{
    let paid = paid(alloc, update)?;
    let codes = joined(alloc, before, paid)?;
    Ok(Code::Seq(codes))
}

fn paid(alloc: Global, update: Code) -> Result<Items<Code>, AllocError>
    ensures { IfOk result (λ codes. codes ≡ Charge (Num (pos 2)) ∷ update ∷ []) }
{
    let mut codes = Items::new(alloc);
    codes.push(Code::Charge(IExpr::Num(2)))?;
    codes.push(update)?;
    Ok(codes)
}

fn joined(alloc: Global, before: &[Code], codes: Items<Code>) -> Result<Items<Code>, AllocError>
    ensures { IfOk result (λ all. all ≡ before.now ++ codes) }
{
    let mut all = copies(alloc, before)?;
    all.append(codes)?;
    Ok(all)
}

fn copies(alloc: Global, codes: &[Code]) -> Result<Items<Code>, AllocError>
    ensures { IfOk result (λ copies. copies ≡ codes.now) }
{
    let mut copies = Items::new(alloc);
    for code in codes {
        let code = code.copy(alloc)?;
        copies.push(code)?;
    }
    Ok(copies)
}

fn put_code(alloc: Global, nest: &Nest, shape: &[u64], change: &Change) -> Result<Code, AllocError>
    requires small { AreSmall shape.now }
    ensures { IfOk result (λ c. c ≡ put_code shape.now change.now nest.now.lo nest.now.hi) }
{
    let test = in_box(alloc, shape, change.at.as_slice())?;
    let update = update_code(alloc, nest, change)?;
    when(alloc, test, update)
}

fn update_code(alloc: Global, nest: &Nest, change: &Change) -> Result<Code, AllocError>
    ensures { IfOk result (λ c. c ≡ update_code change.now nest.now.lo nest.now.hi) }
{
    let at = change.at.copy(alloc)?;
    let value = repeated_value(alloc, nest, change)?;
    Ok(Code::Update {
        tensor: change.tensor,
        at,
        by: change.by,
        value,
    })
}

/// The value that does what the change's value does at each coordinate.
fn repeated_value(alloc: Global, nest: &Nest, change: &Change) -> Result<IExpr, AllocError>
    ensures { IfOk result (λ e. e ≡ repeated_value change.now nest.now.lo nest.now.hi) }
{
    let count = length_of(alloc, nest)?;
    let value = change.value.copy(alloc)?;
    let value = Boxed::new(alloc, value)?;
    let by = change.by;
    Ok(IExpr::Times { by, value, count })
}

fn length_of(alloc: Global, nest: &Nest) -> Result<Boxed<IExpr>, AllocError>
    ensures { IfOk result (λ e. e ≡ minus nest.now.hi nest.now.lo) }
{
    let (lo, hi) = copy_ends(alloc, &nest.lo, &nest.hi)?;
    let count = minus(alloc, hi, lo)?;
    Boxed::new(alloc, count)
}
