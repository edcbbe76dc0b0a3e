//! Lists of effects that are taken from the front.
ghost use Rattle.std.specs.Prelude.{◌≡◌, IfOk};
ghost use Rattle.fin_core.specs.Cores.{listed, lists};

use crate::effect::Effect;
use std::alloc::AllocError;
use std::collections::VecDeque;

/// The effects of a chunk that are still to come, the next one first.
#[derive(Drop)]
pub(crate) struct Queue {
    pub(crate) waiting: VecDeque<Effect>,
}

/// Each list as a queue.
pub(crate) fn queues(effects: Vec<Vec<Effect>>) -> Result<Vec<Queue>, AllocError>
    ensures { IfOk result (λ queues. lists queues.items ≡ listed effects.items) }
{
    let mut queues = Vec::new(*effects.allocator());
    for list in effects {
        queues.push(Queue {
            waiting: VecDeque::from(list),
        })?;
    }
    Ok(queues)
}
