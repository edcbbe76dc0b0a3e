//! The loops around a place.
ghost use Rattle.std.specs.Prelude.{◌≡◌, ◌+◌, ◌<◌, ◌≤◌, [], ◌∷◌, ◌++◌, drop, length, nat_eq, take};
ghost use Rattle.std.specs.Cmp.Lexicographic.{pointwise};
ghost use Rattle.fin_ast.specs.Order as order;
ghost use Rattle.fin_ast.specs.Ties.{bare};

use fin_ast::Index;

/// The variables of loops, outermost first. At most 16 stand in one another.
#[derive(Clone, Copy, Debug)]
pub struct Loops {
    pub vars: [u32; 16],
    pub count: usize,
    pub ghost within: { count ≤ 16 },
}

impl Loops {
    ghost use Rattle.fin_life.specs.Loops.{loops_in};

    /// No loops.
    pub fn none() -> Loops
        ensures loops { loops_in result ≡ [] }
        ensures count { result.count ≡ 0 }
    {
        Loops {
            vars: [0; 16],
            count: 0,
        }
    }

    /// These loops and one inside them.
    pub fn with(&self, var: u32) -> Loops
        requires { self.now.count < 16 }
        ensures loops { loops_in result ≡ loops_in self.now ++ var ∷ [] }
        ensures count { result.count ≡ self.now.count + 1 }
    {
        let mut vars = self.vars;
        vars[self.count] = var;
        Loops {
            vars,
            count: self.count + 1,
        }
    }

    /// All of them.
    fn all(&self) -> &[u32]
        ensures { result.now ≡ loops_in self.now }
    {
        first(&self.vars, self.count)
    }

    /// Their number.
    pub fn len(&self) -> usize
        ensures { result ≡ length (loops_in self.now) }
    {
        self.all().len()
    }

    /// Those without the outermost ones, of which a number is left out.
    pub fn without(&self, outer: usize) -> &[u32]
        ensures { result.now ≡ drop outer (loops_in self.now) }
    {
        past(self.all(), outer)
    }
}

/// The first ones, a number of them.
pub fn first<T>(items: &[T], d: usize) -> &[T]
    ensures { result.now ≡ take d items.now }
{
    &items[..d.min(items.len())]
}

/// Those after the first ones, of which a number is left out.
fn past<T>(items: &[T], n: usize) -> &[T]
    ensures { result.now ≡ drop n items.now }
{
    &items[n.min(items.len())..]
}

/// Whether the first d indices are the bare variables of the d outermost loops.
pub fn is_in_order(d: usize, loops: &[u32], at: &[Index]) -> bool
    ensures { result ≡ order.is_in_order d loops.now at.now }
{
    d <= loops.len() && are_variables(first(loops, d), first(at, d))
}

fn are_variables(loops: &[u32], at: &[Index]) -> bool
    ensures { result ≡ order.are_variables loops.now at.now }
{
    if loops.len() != at.len() {
        return false;
    }
    for k in 0..loops.len() {
        if !is_variable(loops[k], &at[k]) {
            return false;
        }
    }
    true
}

fn is_variable(var: u32, index: &Index) -> bool
    ensures { result ≡ order.is_variable var (bare index.now) }
{
    match (index.loose, index.first, index.second, index.offset) {
        (false, Some(first), None, 0) => first == var,
        _ => false,
    }
}

/// Whether the first d loops are the same.
pub fn are_same(d: usize, loops: &[u32], others: &[u32]) -> bool
    ensures { result ≡ pointwise nat_eq (take d loops.now) (take d others.now) }
{
    first(loops, d) == first(others, d)
}
