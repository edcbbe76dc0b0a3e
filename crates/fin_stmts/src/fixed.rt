//! Whether along a nest of runs and lookups what is left is one update that is the same at each coordinate.
ghost use Rattle.std.specs.Prelude.{◌≡◌};
ghost use Rattle.std.specs.List.{list_all, list_any};
ghost use Rattle.fin_nest.specs.Entries.{looplets};
ghost use Rattle.fin_style_point.specs.Parts.{all_looplets};
ghost use Rattle.fin_style_point.specs.Steps as steps;
ghost use Rattle.fin_simp.specs.Gathered.{as_kind, as_rest};
ghost use Rattle.fin_simp.specs.Work as work;
ghost use Rattle.fin_known.specs.Telling.{slots_of};
ghost use Rattle.fin_loops.specs.Points.{seen_bare};
ghost use Rattle.fin_loops.specs.Told.{is_fixed_by};
ghost use Rattle.fin_stmts.specs.Varying as spec;

use fin_ast::Index;
use fin_looplet::Looplet;
use fin_nest::Numbered;
use fin_simp::{Access, Kind, Rest};
use fin_style_point::Nest;

/// Whether its looplets are all runs and lookups.
pub(crate) fn is_flat(nest: &Nest) -> bool
    ensures { result ≡ list_all steps.is_flat (all_looplets nest.now) }
{
    are_flat(nest.reads.as_slice()) && are_flat(nest.masks.as_slice())
}

fn are_flat(entries: &[Numbered]) -> bool
    ensures { result ≡ list_all steps.is_flat (looplets entries.now) }
{
    for entry in entries {
        if !is_flat_one(&entry.looplet) {
            return false;
        }
    }
    true
}

fn is_flat_one(looplet: &Looplet) -> bool
    ensures { result ≡ steps.is_flat looplet.now }
{
    match looplet {
        Looplet::Run(_) => true,
        Looplet::Lookup { coord: _, leaf: _ } => true,
        _ => false,
    }
}

/// Whether what is left of a loop's body is one update that is the same at each coordinate of a nest. `drives` says
/// which of the nest's reads the loop drives.
pub(crate) fn is_fixed(var: u32, drives: &[bool], nest: &Nest, rest: &Rest) -> bool
    requires { steps.AllFlat (all_looplets nest.now) }
    ensures { let seen = seen_bare (all_looplets nest.now) in
        result ≡ is_fixed_by var (slots_of drives.now nest.now) seen (as_rest rest.now) }
{
    if !is_one_update(&rest.kind) {
        return false;
    }
    if has_var(rest.vars.as_slice(), var) {
        return false;
    }
    if name_var(rest.targets.as_slice(), var) {
        return false;
    }
    !some_vary(drives, nest.reads.as_slice(), rest.reads.as_slice())
}

fn is_one_update(kind: &Kind) -> bool
    ensures { result ≡ work.is_one_update (as_kind kind.now) }
{
    match kind {
        Kind::Nothing => false,
        Kind::OneUpdate => true,
        Kind::Other => false,
    }
}

fn has_var(vars: &[u32], var: u32) -> bool
    ensures { result ≡ work.is_in vars.now var }
{
    for one in vars {
        if var == *one {
            return true;
        }
    }
    false
}

/// Whether one of some indices names a variable.
pub(crate) fn name_var(indices: &[Index], var: u32) -> bool
    ensures { result ≡ list_any (work.names_var var) indices.now }
{
    for index in indices {
        if names_var(index, var) {
            return true;
        }
    }
    false
}

fn names_var(index: &Index, var: u32) -> bool
    ensures { result ≡ work.names_var var index.now }
{
    is_var(&index.first, var) || is_var(&index.second, var)
}

fn is_var(name: &Option<u32>, var: u32) -> bool
    ensures { result ≡ spec.is_var var name.now }
{
    match name {
        Some(one) => *one == var,
        None => false,
    }
}

// Whether one of the reads that remain varies along the nest: the loop drives it, and it is a lookup there.
fn some_vary(drives: &[bool], reads: &[Numbered], remaining: &[Access]) -> bool
    ensures { result ≡ list_any (λ a. spec.varies_at drives.now reads.now a.read) remaining.now }
{
    for access in remaining {
        if varies(drives, reads, access.read) {
            return true;
        }
    }
    false
}

fn varies(drives: &[bool], reads: &[Numbered], number: u32) -> bool
    ensures { result ≡ spec.varies_at drives.now reads.now number }
{
    for i in 0..reads.len() {
        if i < drives.len() && varies_here(drives[i], &reads[i], number) {
            return true;
        }
    }
    false
}

fn varies_here(driven: bool, read: &Numbered, number: u32) -> bool
    ensures { result ≡ spec.varies_here driven read.now number }
{
    driven && read.number == number && is_lookup(&read.looplet)
}

fn is_lookup(looplet: &Looplet) -> bool
    ensures { result ≡ spec.is_lookup looplet.now }
{
    match looplet {
        Looplet::Lookup { coord: _, leaf: _ } => true,
        _ => false,
    }
}
