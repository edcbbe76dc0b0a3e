//! What is true of the extents of each program.
ghost use Rattle.fin_dims.specs.Totality.{InferredOrBreach};

/// Each program, with shapes of its inputs, has extents, or a first breach of the rules on extents.
pub fn inferred_or_breach()
    ensures { InferredOrBreach }
{}
