//! The state of a run.
ghost use Rattle.std.specs.Prelude.{◌≡◌, ℕ, ◌≤◌, List, IfOk, length};
ghost use Rattle.fin_tensor.specs.declared.storage.Storage.{Storage};
ghost use Rattle.fin_ir.specs.Start.{started};
ghost use Rattle.fin_ir.specs.Regular.{IsLayout, InputsFit, Fits};
ghost use Rattle.fin_run.specs.States.{machine, lent_from, zeros};

use fin_build::Builder;
use fin_ir::Layout;
use fin_tensor::{Storage, Vals};
use std::alloc::{AllocError, Global};

/// What a run holds of a tensor.
#[derive(Drop)]
pub enum Held {
    Nothing,
    /// The input storage of that number, in order.
    Lent(u8),
    Building(Builder),
    Frozen(Storage),
}

/// The state of a run, beside the input storages.
#[derive(Drop)]
pub struct State {
    pub locals: Vals,
    pub tensors: Vec<Held>,
    /// The charges so far.
    pub work: u64,
}

impl State {
    /// The inputs are lent in their order, all other tensors are nothing; the locals and the work are 0.
    pub fn new(alloc: Global, layout: &Layout) -> Result<State, AllocError>
        requires { IsLayout layout.now }
        ensures locals { IfOk result (λ s. s.locals ≡ zeros layout.now.locals) }
        ensures tensors { IfOk result (λ s. s.tensors.items ≡ lent_from 0 layout.now.kinds) }
        ensures work { IfOk result (λ s. s.work ≡ 0) }
        ensures fits { IfOk result (λ s. (inputs : List Storage) → InputsFit layout.now inputs → Fits layout.now (machine inputs s 0)) }
        ensures start { IfOk result (λ s. (inputs : List Storage) → machine inputs s 0 ≡ started layout.now inputs) }
    {
        let locals = zeros(alloc, layout.locals)?;
        let tensors = lend(alloc, layout.kinds.as_slice())?;
        Ok(State {
            locals,
            tensors,
            work: 0,
        })
    }
}

fn zeros(alloc: Global, count: u32) -> Result<Vals, AllocError>
    ensures { IfOk result (λ xs. xs ≡ zeros count) }
{
    let mut all = Vals::new(alloc);
    for _ in 0..count {
        all.push(0)?;
    }
    Ok(all)
}

fn lend(alloc: Global, kinds: &[u8]) -> Result<Vec<Held>, AllocError>
    requires { length kinds.now ≤ 256 }
    ensures { IfOk result (λ hs. hs.items ≡ lent_from 0 kinds.now) }
{
    let mut tensors = Vec::new(alloc);
    let mut inputs: usize = 0;
    for kind in kinds {
        if *kind == 0 {
            tensors.push(Held::Lent(inputs as u8))?;
            inputs += 1;
        } else {
            tensors.push(Held::Nothing)?;
        }
    }
    Ok(tensors)
}
