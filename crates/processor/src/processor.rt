use crate::state::State;
use arrayvec::ArrayVec;
use std::marker::Model;

mod calls;
mod holding;

/// A processor with a number of its own. Its memory is fixed: up to 16 services may be open. Clauses see it as the record `Proc`.
#[derive(Drop)]
pub struct Processor {
    number: u32,
    mask: u8,
    state: State,
    // The mask that the take of each open service found, the outermost first.
    masks: ArrayVec<u8, 16>,
}

impl Model for Processor {
    ghost use Rattle.std.specs.Prelude.{◌+◌, ◌≤◌, length, reverse};
    ghost use Rattle.processor.specs.Steps.{Proc, proc, wanted};

    ghost Value = { Proc };

    ghost view = { λ p. proc p.number p.mask p.state (reverse p.masks.items) };

    // A taken level has a place for its service.
    ghost invariant = { λ p. length p.masks.items + wanted p.state ≤ 16 };
}
