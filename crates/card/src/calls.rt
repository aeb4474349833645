ghost use Rattle.std.specs.Prelude.{◌≡◌};
ghost use Rattle.card.specs.Runs.{end_of};
ghost use Rattle.card.specs.Edges.{gives, leaves, EdgesKept};

use crate::faults::CardFault;
use crate::interface::Card;
use crate::outcomes::{Answer, Driven};
use crate::withdrawn::Withdrawn;

// Calls are data, and no closures: the law over every run is about lists of them.
/// A call of a card.
#[derive(Clone, Copy, PartialEq, Eq, Debug)]
pub enum CardCall {
    Drive { source: u8, asserted: bool },
    Read { register: u8, lines: u8 },
    Write { register: u8, value: u8 },
    Answer { level: u8 },
    Reset,
}

/// What a call of a card gave.
#[derive(Clone, Copy, PartialEq, Eq, Debug)]
pub enum CardResult {
    Drove(Result<Driven, CardFault>),
    Showed(Result<u8, CardFault>),
    Withdrew(Result<Withdrawn, CardFault>),
    Answered(Result<Option<Answer>, CardFault>),
}

/// Makes one call.
pub fn perform<C: Card>(card: &mut C, call: CardCall) -> CardResult
    ensures result { result ≡ gives C.Card.model card.old call }
    ensures after { card.new ≡ leaves C.Card.model card.old call }
{
    match call {
        CardCall::Drive { source, asserted } => CardResult::Drove(card.drive(source, asserted)),
        CardCall::Read { register, lines } => CardResult::Showed(card.read(register, lines)),
        CardCall::Write { register, value } => CardResult::Withdrew(card.write(register, value)),
        CardCall::Answer { level } => CardResult::Answered(card.answer(level)),
        CardCall::Reset => CardResult::Withdrew(card.reset()),
    }
}

/// Makes calls in turn, granted or refused. Each edge that a source latched in them, or held before, has been answered,
/// reported withdrawn, or is held still.
pub fn run<C: Card>(card: &mut C, calls: &[CardCall])
    ensures after { card.new ≡ end_of (leaves C.Card.model) card.old calls.now }
    ensures edges { EdgesKept C.Card.model card.old calls.now }
{
    for call in calls {
        let _ = perform(card, *call);
    }
}
