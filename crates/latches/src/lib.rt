// Seven request inputs that can be of edge or level sort, as chips have them: their wires, and the edges that they hold. What else a
// source has, a chip's registers say.
#![tactic(auto)]

ghost use Rattle.std.specs.Prelude.{◌≡◌};
ghost use Rattle.card.specs.Meaning.{driving};
ghost use Rattle.card.specs.Withdrawing.{told};
ghost use Rattle.latches.specs.Latching.{Settings, at_rest, input_source, pending_inputs, driven, released, keeping, loses};

use bits::{is_set, with};
use card::{Driven, Withdrawn};

/// The wires of seven inputs, numbered 1 to 7, and the edges that they hold: input n is bit n of each byte.
#[derive(Clone, Copy, PartialEq, Eq, Debug)]
pub struct Latches {
    wires: u8,
    held: u8,
}

impl Latches {
    /// Every wire negated, and nothing held.
    pub fn new() -> Latches
        ensures { result ≡ at_rest }
    {
        Latches { wires: 0, held: 0 }
    }

    /// Drives the wire of an input, which is of edge sort or not, and armed or not.
    pub fn drive(&mut self, input: u8, asserted: bool, edge: bool, armed: bool) -> Driven
        ensures result { (i : Settings) → edge ≡ i.edge input → armed ≡ i.armed input → result ≡ driving (input_source i self.old input) asserted }
        ensures after { (i : Settings) → edge ≡ i.edge input → armed ≡ i.armed input → self.new ≡ driven i self.old input asserted }
    {
        let was_asserted = is_set(self.wires, input);
        self.wires = with(self.wires, input, asserted);
        if !edge {
            return Driven::Follow;
        }
        if was_asserted || !asserted {
            return Driven::Quiet;
        }
        if !armed {
            return Driven::Lost;
        }
        let was_held = is_set(self.held, input);
        self.held = with(self.held, input, true);
        if was_held {
            Driven::Merged
        } else {
            Driven::Latched
        }
    }

    /// The inputs that have a request, bit n for input n: those of edge sort that hold an edge, and the others whose wire is asserted.
    pub fn pending(&self, edges: u8) -> u8
        ensures { result ≡ pending_inputs self.now edges }
    {
        self.held & edges | self.wires & !edges
    }

    /// An input was answered: it holds no edge now.
    pub fn release(&mut self, input: u8)
        ensures { self.new ≡ released self.old input }
    {
        self.held = with(self.held, input, false);
    }

    /// Withdraws the edges of the inputs that are not kept; `edges` are the inputs of edge sort. Tells their sources: input n is source
    /// n - 1.
    pub fn withdraw_but(&mut self, edges: u8, kept: u8) -> Withdrawn
        ensures result { result ≡ told (loses self.old edges kept) 7 }
        ensures after { self.new ≡ keeping self.old edges kept }
    {
        let held = self.held & edges;
        self.held = held & kept;
        Withdrawn::from_byte((held & !kept) >> 1)
    }
}
