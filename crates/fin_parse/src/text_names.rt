//! The rules on names in a whole text.
ghost use Rattle.fin_parse.specs.TextNames.{FirstBreach, name_breaches};

use crate::breaches::check_parts;
use crate::counts::Names;
use crate::headers::check_headers;
use crate::scope::Place;
use crate::trees::Text;
use fin_base::Fail;
use std::alloc::Global;

/// Looks at the names of a text.
///
/// # Errors
/// The first breach in the order of the text: `N1` at a name that stands for nothing that may stand there, `N2` at a name
/// that is taken, `N3` at an access with another count of indices than the format has levels, or at a header whose shape
/// has another count.
pub fn check_names(alloc: Global, text: &[u8], trees: &Text) -> Result<(), Fail>
    ensures names { FirstBreach (name_breaches text.now trees.now) result }
{
    let mut tensors = Vec::new(alloc);
    let found = check_headers(alloc, text, trees.headers.as_slice(), &mut tensors)?;
    if let Some(refusal) = found {
        return Err(Fail::Refused(refusal));
    }
    let names = Names {
        text,
        tensors: tensors.as_slice(),
    };
    let place = Place {
        bound: Vec::new(alloc),
        begun: None,
    };
    let found = check_parts(alloc, &names, &place, &place, 0, trees.body.as_slice())?;
    match found {
        Some(refusal) => Err(Fail::Refused(refusal)),
        None => Ok(()),
    }
}
