//! Where indices point.
ghost use Rattle.std.specs.Prelude.{◌≡◌, IfOk, IfSome, IsTrue, map};
ghost use Rattle.fin_tensor.specs.TensorFunction.{is_in_box};
ghost use Rattle.fin_ast.specs.Value.{coordinates, number, number_if, place};

use fin_ast::Index;
use fin_tensor::Coords;
use std::alloc::{AllocError, Global};

/// The coordinates where these indices point, if they lie in the box.
pub fn coordinates(
    alloc: Global,
    shape: &[u64],
    at: &[Index],
    vars: &[i64],
) -> Result<Option<Coords>, AllocError>
    ensures value { IfOk result (λ cs. cs ≡ coordinates shape.now (map (place vars.now) at.now)) }
    ensures inside { IfOk result (λ o. IfSome o (λ cs. IsTrue (is_in_box shape.now cs))) }
{
    if shape.len() != at.len() {
        return Ok(None);
    }
    let mut found = Coords::new(alloc);
    for (k, index) in at.iter().enumerate() {
        let c = place(vars, index);
        if c < 0 || c >= shape[k] as i128 {
            return Ok(None);
        }
        found.push(c as u64)?;
    }
    Ok(Some(found))
}

// The sum is taken in a wider word, which holds it.
fn place(vars: &[i64], index: &Index) -> i128
    ensures { result ≡ place vars.now index.now }
{
    number_if(vars, index.first) as i128
        + number_if(vars, index.second) as i128
        + index.offset as i128
}

fn number_if(vars: &[i64], var: Option<u32>) -> i64
    ensures { result ≡ number_if vars.now var }
{
    match var {
        Some(var) => number(vars, var),
        None => 0,
    }
}

/// The number of a variable; 0 where there is none.
pub fn number(vars: &[i64], var: u32) -> i64
    ensures { result ≡ number vars.now var }
{
    match vars.get(var as usize) {
        Some(value) => *value,
        None => 0,
    }
}
