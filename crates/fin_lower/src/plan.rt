//! Programs lowered to plans.
ghost use Rattle.std.specs.Prelude.{◌≡◌, IfOk, map};
ghost use Rattle.fin_ast.specs.declared.header.Header.{Header};
ghost use Rattle.fin_perform.specs.Layouts.{kind_number as number_of, layout_with};
ghost use Rattle.fin_lower.specs.Plans.{IsPlan};

use fin_ast::{Checked, Header, Kind};
use fin_ir::{Code, Layout, Plan};
use fin_stmts::{Codes, lower_body};
use fin_tensor::{Duplicate, Format, Seq};
use std::alloc::{AllocError, Global};

/// A plan of the program: the codes of its statements, over its tensors, and as many locals as these need. There is no
/// memory for more ranges than a `u32` counts.
pub fn lower(alloc: Global, checked: &Checked) -> Result<Plan, AllocError>
    ensures { IfOk result (λ p. IsPlan checked.now p) }
{
    let Codes { codes, room } = lower_body(alloc, checked)?;
    let layout = layout_of(alloc, checked, room)?;
    Ok(Plan {
        code: Code::Seq(codes),
        layout,
    })
}

// The layout of the program's tensors, with so many locals.
fn layout_of(alloc: Global, checked: &Checked, locals: u32) -> Result<Layout, AllocError>
    ensures { IfOk result (λ l. l ≡ layout_with checked.now locals) }
{
    let formats = formats_of(alloc, checked.program.headers.as_slice())?;
    let shapes = checked.dims.shapes.copy(alloc)?;
    let kinds = kinds_of(alloc, checked.program.headers.as_slice())?;
    Ok(Layout {
        formats,
        shapes,
        kinds,
        locals,
    })
}

fn formats_of(alloc: Global, headers: &[Header]) -> Result<Seq<Format>, AllocError>
    ensures { IfOk result (λ fs. fs ≡ map (λ (h : Header). h.format) headers.now) }
{
    let mut formats = Seq::new(alloc);
    for header in headers {
        let format = header.format.copy(alloc)?;
        formats.push(format)?;
    }
    Ok(formats)
}

fn kinds_of(alloc: Global, headers: &[Header]) -> Result<Seq<u8>, AllocError>
    ensures { IfOk result (λ ks. ks ≡ map (λ (h : Header). number_of h.kind) headers.now) }
{
    let mut kinds = Seq::new(alloc);
    for header in headers {
        kinds.push(kind_number(header.kind))?;
    }
    Ok(kinds)
}

fn kind_number(kind: Kind) -> u8
    ensures { result ≡ number_of kind }
{
    match kind {
        Kind::Input => 0,
        Kind::Output => 1,
        Kind::Local => 2,
    }
}
