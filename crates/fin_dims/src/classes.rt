//! Classes of dimensions and loops that ties join.
ghost use Rattle.std.specs.Prelude.{◌≡◌, ◌<◌, ◌++◌, [], ◌∷◌, length, map, MatchBool, slice_index_or, IsTrue};
ghost use Rattle.fin_dims.specs.Classes.{AreEqual, AreUnequal, IsReady, IsUnequalTo, Joins, Merges, relabelled};

use fin_ast::Tie;

/// Dimensions and loops in classes. A loop is in the class of a dimension that it is tied to, its anchor.
#[derive(Drop)]
pub struct Classes {
    /// The anchors of loops, by variable.
    pub anchors: Vec<Option<usize>>,
    /// The labels of classes, by dimension.
    pub labels: Vec<usize>,
    /// The known numbers of classes, by label.
    pub numbers: Vec<Option<u64>>,
}

impl Classes {
    /// Joins the ends of a tie; false where their classes have unequal numbers.
    pub fn join(&mut self, tie: &Tie) -> bool
        requires ready { IsReady self.old }
        requires dimension { tie.now.dimension < length self.old.labels.items }
        requires var { tie.now.var < length self.old.anchors.items }
        ensures ready { IsReady self.new }
        ensures dimensions { length self.new.labels.items ≡ length self.old.labels.items }
        ensures variables { length self.new.anchors.items ≡ length self.old.anchors.items }
        ensures joined { Joins self.old self.new tie.now result }
    {
        let var = tie.var as usize;
        match self.anchors[var] {
            None => {
                self.anchors[var] = Some(tie.dimension);
                true
            }
            Some(anchor) => {
                let from = self.labels[anchor];
                let to = self.labels[tie.dimension];
                if from == to {
                    true
                } else {
                    self.merge(from, to)
                }
            }
        }
    }

    /// Joins two classes, unless their numbers are known and unequal.
    fn merge(&mut self, from: usize, to: usize) -> bool
        requires from { from < length self.old.numbers.items }
        requires to { to < length self.old.numbers.items }
        requires range { IsReady self.old }
        ensures range { IsReady self.new }
        ensures dimensions { length self.new.labels.items ≡ length self.old.labels.items }
        ensures anchors { self.new.anchors.items ≡ self.old.anchors.items }
        ensures merged { MatchBool result (Merges self.old self.new from to) (IsUnequalTo self.old from to) }
    {
        if are_unequal(self.numbers[to], self.numbers[from]) {
            return false;
        }
        self.numbers[to] = self.numbers[to].or(self.numbers[from]);
        relabel(&mut self.labels, from, to);
        true
    }
}

fn are_unequal(a: Option<u64>, b: Option<u64>) -> bool
    ensures { MatchBool result (AreUnequal a b) (AreEqual a b) }
{
    match (a, b) {
        (Some(a), Some(b)) => a != b,
        _ => false,
    }
}

fn relabel(labels: &mut Vec<usize>, from: usize, to: usize)
    ensures { labels.new.items ≡ map (relabelled from to) labels.old.items }
{
    for k in 0..labels.len() {
        labels[k] = new_label(labels[k], from, to);
    }
}

fn new_label(label: usize, from: usize, to: usize) -> usize
    ensures { result ≡ relabelled from to label }
{
    if label == from { to } else { label }
}
