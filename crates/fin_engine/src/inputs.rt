//! The tensors of a job against the headers of its program.
ghost use Rattle.std.specs.Prelude.{◌≡◌, IfOk, option_map, option_copied};
ghost use Rattle.std.specs.List.{list_any};
ghost use Rattle.std.specs.Cmp.Lexicographic.{pointwise};
ghost use Rattle.fin_ast.specs.Kinds.{is_input as is_input_kind};
ghost use Rattle.fin_ast.specs.Sizes.{broken as broken_of, first_of};
ghost use Rattle.fin_engine.specs.Inputs as spec;

use fin_ast::{Header, Kind};
use fin_base::{Refusal, Rule};
use fin_tensor::{Duplicate, Format, Level, Name, Nums, Seq, Storage};
use fin_text::Given;
use indexmap::IndexMap;
use std::alloc::{AllocError, Global};

/// `X6` at the header of an input that has no tensor, or else at the first line of a tensor that is that of no input,
/// or has another format or fill than its header.
pub(crate) fn unmatched(headers: &[Header], given: &IndexMap<Name, Given>) -> Option<Refusal>
    ensures first { result ≡ spec.unmatched headers.now given.now.entries }
{
    let found = first_lacking(headers, given);
    if found.is_some() {
        return found;
    }
    first_straying(headers, given)
}

fn first_lacking(headers: &[Header], given: &IndexMap<Name, Given>) -> Option<Refusal>
    ensures first { result ≡ first_of (spec.lacking given.now.entries) headers.now }
{
    for header in headers {
        if let Some(refusal) = lacking(header, given) {
            return Some(refusal);
        }
    }
    None
}

fn lacking(header: &Header, given: &IndexMap<Name, Given>) -> Option<Refusal>
    ensures breach { result ≡ spec.lacking given.now.entries header.now }
{
    let is_missing = given.get(&header.name).is_none();
    broken(is_input(header.kind) && is_missing, header.line)
}

fn first_straying(headers: &[Header], given: &IndexMap<Name, Given>) -> Option<Refusal>
    ensures first { result ≡ first_of (spec.straying headers.now) given.now.entries }
{
    for place in 0..given.len() {
        let found = straying_at(headers, given, place);
        if found.is_some() {
            return found;
        }
    }
    None
}

fn straying_at(headers: &[Header], given: &IndexMap<Name, Given>, place: usize) -> Option<Refusal>
    ensures breach { result ≡ spec.straying_at headers.now given.now.entries place }
{
    let (name, tensor) = given.get_index(place)?;
    straying(headers, name, tensor)
}

fn straying(headers: &[Header], name: &Name, tensor: &Given) -> Option<Refusal>
    ensures breach { result ≡ spec.straying headers.now (name.now, tensor.now) }
{
    broken(!has_header(headers, name, tensor), tensor.line)
}

fn has_header(headers: &[Header], name: &Name, tensor: &Given) -> bool
    ensures value { result ≡ list_any (spec.is_header_of (name.now, tensor.now)) headers.now }
{
    for header in headers {
        if is_header_of(header, name, tensor) {
            return true;
        }
    }
    false
}

fn is_header_of(header: &Header, name: &Name, tensor: &Given) -> bool
    ensures value { result ≡ spec.is_header_of (name.now, tensor.now) header.now }
{
    let is_named = header.name == *name;
    let is_alike = is_same_format(&header.format, &tensor.storage.format);
    is_input(header.kind) && is_named && is_alike
}

fn is_same_format(a: &Format, b: &Format) -> bool
    ensures value { result ≡ spec.same_format a.now b.now }
{
    let are_alike = are_same_levels(a.levels.as_slice(), b.levels.as_slice());
    are_alike && a.fill == b.fill
}

fn are_same_levels(a: &[Level], b: &[Level]) -> bool
    ensures value { result ≡ pointwise spec.same_level a.now b.now }
{
    match (a, b) {
        ([], []) => true,
        ([first, rest @ ..], [other, others @ ..]) => {
            is_same_level(*first, *other) && are_same_levels(rest, others)
        }
        _ => false,
    }
}

fn is_same_level(a: Level, b: Level) -> bool
    ensures value { result ≡ spec.same_level a b }
{
    match (a, b) {
        (Level::Dense, Level::Dense) => true,
        (Level::List, Level::List) => true,
        (Level::Runs, Level::Runs) => true,
        (Level::Band, Level::Band) => true,
        (Level::Dict, Level::Dict) => true,
        _ => false,
    }
}

fn is_input(kind: Kind) -> bool
    ensures value { result ≡ is_input_kind kind }
{
    match kind {
        Kind::Input => true,
        Kind::Output => false,
        Kind::Local => false,
    }
}

fn broken(is_broken: bool, line: u32) -> Option<Refusal>
    ensures value { result ≡ broken_of is_broken Rule.X6 line }
{
    if is_broken {
        Some(Refusal {
            rule: Rule::X6,
            line,
        })
    } else {
        None
    }
}

/// The storages of the inputs, in the order of their headers.
pub(crate) fn inputs_of(
    alloc: Global,
    headers: &[Header],
    given: &IndexMap<Name, Given>,
) -> Result<Seq<Storage>, AllocError>
    ensures value { IfOk result (λ storages. storages ≡ spec.inputs_of headers.now given.now.entries) }
{
    let mut storages = Seq::new(alloc);
    for header in headers {
        if let Some(tensor) = given_to(header, given) {
            let storage = tensor.storage.copy(alloc)?;
            storages.push(storage)?;
        }
    }
    Ok(storages)
}

/// The shapes of the inputs, by header.
pub(crate) fn shapes_of(
    alloc: Global,
    headers: &[Header],
    given: &IndexMap<Name, Given>,
) -> Result<Vec<Option<Nums>>, AllocError>
    ensures value { IfOk result (λ shapes. shapes.items ≡ spec.shapes_of headers.now given.now.entries) }
{
    let mut shapes = Vec::new(alloc);
    for header in headers {
        let shape = shape_of(alloc, given_to(header, given))?;
        shapes.push(shape)?;
    }
    Ok(shapes)
}

fn shape_of(alloc: Global, tensor: Option<&Given>) -> Result<Option<Nums>, AllocError>
    ensures value { IfOk result (λ shape. shape ≡ option_map spec.shape_of (option_copied tensor.entry)) }
{
    match tensor {
        Some(tensor) => {
            let shape = tensor.storage.shape.copy(alloc)?;
            Ok(Some(shape))
        }
        None => Ok(None),
    }
}

/// The tensor of a header, where it is that of an input.
fn given_to<'a>(header: &Header, given: &'a IndexMap<Name, Given>) -> Option<&'a Given>
    ensures value { option_copied result ≡ spec.given_to given.now.entries header.now }
{
    if is_input(header.kind) {
        given.get(&header.name)
    } else {
        None
    }
}
