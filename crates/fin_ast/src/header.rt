//! The headers of tensors.
ghost use Rattle.std.specs.Prelude.{◌≡◌, IfOk, IsTrue, length};
ghost use Rattle.fin_tensor.specs.Placement.{IsPlacedAs};
ghost use Rattle.fin_ast.specs.Kinds.{is_input, has_length};
ghost use Rattle.fin_ast.specs.Literals.{is_word};
ghost use Rattle.fin_ast.specs.Placements.{IsPlacedAs-prop};

use fin_tensor::{Duplicate, Format, Name, Nums};
use std::alloc::{AllocError, Global};

/// Where a tensor comes from or goes to.
#[derive(Clone, Copy, Debug, PartialEq, Eq)]
pub enum Kind {
    Input,
    Output,
    Local,
}

/// The header of a tensor: its kind, name and format, its shape where one is given, and its line. The format keeps the
/// placement, the fill is a word, and the shape has a number for each level.
#[derive(Debug, Drop)]
pub struct Header {
    pub kind: Kind,
    pub name: Name,
    pub format: Format,
    pub shape: Option<Nums>,
    pub line: u32,
    pub ghost placed: { IsPlacedAs (is_input kind) format.levels format.wrap } by { IsPlacedAs-prop
        (is_input kind) format.levels format.wrap },
    pub ghost shaped: { IsTrue (has_length (length format.levels) shape) },
    pub ghost worded: { IsTrue (is_word format.fill) },
}

impl Duplicate for Header {
    fn copy(&self, alloc: Global) -> Result<Header, AllocError> {
        let name = self.name.copy(alloc)?;
        let format = self.format.copy(alloc)?;
        let shape = copy_shape(alloc, &self.shape)?;
        Ok(Header {
            kind: self.kind,
            name,
            format,
            shape,
            line: self.line,
        })
    }
}

fn copy_shape(alloc: Global, shape: &Option<Nums>) -> Result<Option<Nums>, AllocError>
    ensures { IfOk result (λ s. s ≡ shape.now) }
{
    match shape {
        Some(shape) => {
            let shape = shape.copy(alloc)?;
            Ok(Some(shape))
        }
        None => Ok(None),
    }
}
