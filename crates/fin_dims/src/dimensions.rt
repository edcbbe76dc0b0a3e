//! The dimensions of a program.
ghost use Rattle.std.specs.Prelude.{◌≡◌, IfOk, IfErr, length, [], None, Some};
ghost use Rattle.std.specs.Option.{option_or};
ghost use Rattle.fin_ast.specs.Ties.{AreExtents, IsUneven};
ghost use Rattle.fin_ast.specs.Infer.{large_in, shapes_in, places_in, ties_in, dims_in, breach_in, IsInferred};
ghost use Rattle.fin_ast.specs.Infer.{IsFirstBreach};
ghost use Rattle.fin_ast.specs.Infer as infer;
ghost use Rattle.fin_dims.specs.Settled.{IfRefused, extent_of};

use crate::choices::first_crowd;
use crate::classes::Classes;
use crate::extents::first_dense;
use crate::large::first_large;
use crate::settle::classes_of;
use fin_ast::{Dims, Header, Place, Program};
use fin_base::{Fail, Refusal};
use fin_tensor::Nums;
use std::alloc::{AllocError, Global};

/// The extents of all dimensions and loops, where `shapes` are those of the inputs, by header.
///
/// Refused where a rule on extents is broken, by the first breach: first empty ranges and large numbers, then ties
/// that join unequal numbers, extents that nothing gives, indices outside, dense extents, and choices.
pub fn infer(alloc: Global, program: &Program, shapes: &[Option<Nums>]) -> Result<Dims, Fail>
    requires { length shapes.now ≡ length program.now.headers }
    ensures numbers { IfOk result (IsInferred program.now shapes.now) }
    ensures refused { IfErr result (λ e. IfRefused e (IsFirstBreach program.now shapes.now)) }
{
    let places = program.places(alloc)?;
    match first_large(program.headers.as_slice(), places.as_slice()) {
        Some(refusal) => Err(Fail::Refused(refusal)),
        None => infer_small(alloc, program, shapes, places.as_slice()),
    }
}

fn infer_small(
    alloc: Global,
    program: &Program,
    shapes: &[Option<Nums>],
    places: &[Place],
) -> Result<Dims, Fail>
    requires count { length shapes.now ≡ length program.now.headers }
    requires places { places.now ≡ places_in program.now }
    requires small { large_in program.now ≡ None }
    ensures numbers { IfOk result (IsInferred program.now shapes.now) }
    ensures refused { IfErr result (λ e. IfRefused e (IsFirstBreach program.now shapes.now)) }
{
    let given = given(alloc, program.headers.as_slice(), shapes)?;
    match classes_of(alloc, given.as_slice(), places) {
        Ok(classes) => {
            let dims = classes.dims(alloc, program.headers.as_slice(), places)?;
            match breach(alloc, &classes, program, places, &dims)? {
                Some(refusal) => Err(Fail::Refused(refusal)),
                None => Ok(dims),
            }
        }
        Err(fail) => Err(fail),
    }
}

fn given(
    alloc: Global,
    headers: &[Header],
    shapes: &[Option<Nums>],
) -> Result<Vec<Option<Nums>>, AllocError>
    requires { length shapes.now ≡ length headers.now }
    ensures { IfOk result (λ given. given.items ≡ infer.given headers.now shapes.now []) }
{
    let mut given = Vec::new(alloc);
    for k in 0..headers.len() {
        let shape = given_shape(alloc, &shapes[k], &headers[k])?;
        given.push(shape)?;
    }
    Ok(given)
}

fn given_shape(
    alloc: Global,
    shape: &Option<Nums>,
    header: &Header,
) -> Result<Option<Nums>, AllocError>
    ensures { IfOk result (λ given. given ≡ option_or shape.now header.now.shape) }
{
    match shape {
        Some(shape) => copied(alloc, shape),
        None => match &header.shape {
            Some(shape) => copied(alloc, shape),
            None => Ok(None),
        },
    }
}

fn copied(alloc: Global, shape: &Nums) -> Result<Option<Nums>, AllocError>
    ensures { IfOk result (λ given. given ≡ Some shape.now) }
{
    let shape = shape.copy(alloc)?;
    Ok(Some(shape))
}

fn breach(
    alloc: Global,
    classes: &Classes,
    program: &Program,
    places: &[Place],
    dims: &Dims,
) -> Result<Option<Refusal>, AllocError>
    requires places { places.now ≡ places_in program.now }
    requires dims { dims.now ≡ dims_in (extent_of classes.now) program.now }
    ensures { IfOk result (λ breach. breach ≡ breach_in (extent_of classes.now) program.now) }
{
    let headers = program.headers.as_slice();
    let dense = first_dense(headers, dims.shapes.as_slice());
    let crowd = first_crowd(alloc, headers, program.body.as_slice())?;
    let outside = classes.first_outside(dims.ranges.as_slice(), places);
    let unknown = classes.first_unknown(headers, places);
    Ok(unknown.or(outside.or(dense.or(crowd))))
}
