//! The core, and its events.
ghost use Rattle.std.specs.Prelude.{◌≡◌, ◌<◌, length, IfOk, OnOk, OnErr};
ghost use Rattle.fin_core.specs.Effects.{Words};
ghost use Rattle.fin_core.specs.Interleaving.{Free};
ghost use Rattle.fin_core.specs.Cores.{meant, listed, lists, values, put_in, LiesIn, AllLie, AreUnordered, AllBuilt};

use crate::effect::Effect;
use crate::queue::{Queue, queues};
use fin_build::Builder;
use std::alloc::AllocError;

/// Tensors, and the effects of chunks that are still to come.
#[derive(Drop)]
pub struct Core {
    tensors: Vec<Builder>,
    effects: Vec<Queue>,
    ghost free: { Free (lists effects.items) },
    ghost words: { Words (values tensors.items) },
    ghost lie: { AllLie tensors.items (lists effects.items) },
    ghost unordered: { AreUnordered tensors.items },
}

impl Core {
    ghost use Rattle.std.specs.Prelude.{◌↔◌, false, []};
    ghost use Rattle.fin_core.specs.Interleaving.{Settled};
    ghost use Rattle.fin_core.specs.Cores.{tensor_at};
    ghost use Rattle.fin_core.specs.Events.{waiting, IsTakenOff, IsPut, IsNextState, HasSameSerial, IsAsBefore};

    /// These tensors, and one list of effects for each chunk.
    pub fn new(tensors: Vec<Builder>, effects: Vec<Vec<Effect>>) -> Result<Core, AllocError>
        requires levels { AreUnordered tensors.items }
        requires lie { AllLie tensors.items (listed effects.items) }
        requires settled { Settled (listed effects.items) }
        ensures { IfOk result (λ core. (core.tensors ≡ tensors) × (lists core.effects.items ≡ listed effects.items)) }
    {
        are_built(tensors.as_slice());
        let effects = queues(effects)?;
        Ok(Core { tensors, effects })
    }

    /// Applies the next effect of that chunk; false where its list is used up. After want of memory the core is as
    /// before.
    pub fn event(&mut self, chunk: u32) -> Result<bool, AllocError>
        requires { chunk < length self.old.effects.items }
        ensures some { IfOk result (λ some. (some ≡ false) ↔ (waiting self.old chunk ≡ [])) }
        ensures rest { OnOk result (IsTakenOff chunk self.old self.new) }
        ensures tensors { OnOk result (IsPut chunk self.old self.new) }
        ensures state { OnOk result (IsNextState chunk self.old self.new) }
        ensures serial { OnOk result (HasSameSerial self.old self.new) }
        ensures err { OnErr result (IsAsBefore self.old self.new) }
    {
        let chunk = chunk as usize;
        let Some(effect) = self.effects[chunk].waiting.front() else {
            return Ok(false);
        };
        update(&mut self.tensors, effect)?;
        self.effects[chunk].waiting.pop_front();
        Ok(true)
    }

    /// A tensor as it is after the events so far.
    pub fn held(&self, tensor: u8) -> &Builder
        requires { tensor < length self.now.tensors.items }
        ensures { result.now ≡ tensor_at self.now.tensors.items tensor }
    {
        &self.tensors[tensor as usize]
    }
}

fn update(tensors: &mut Vec<Builder>, effect: &Effect) -> Result<(), AllocError>
    requires lies { LiesIn tensors.old.items (meant effect.now) }
    requires levels { AreUnordered tensors.old.items }
    ensures ok { OnOk result (tensors.new.items ≡ put_in (meant effect.now) tensors.old.items) }
    ensures err { OnErr result (tensors.new.items ≡ tensors.old.items) }
{
    let tensor = &mut tensors[effect.tensor as usize];
    tensor.update(effect.at.as_slice(), effect.by, effect.value)
}

fn are_built(tensors: &[Builder])
    ensures { AllBuilt tensors.now }
{
    for tensor in tensors {
        tensor.is_building();
    }
}
