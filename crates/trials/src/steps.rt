// Calls of a card, each with what it must give.
use card::{
    Answer, Card, CardCall, CardFault, CardResult, Driven, Refusal, Reply, Withdrawn, perform,
};
use std::process::Abort;

pub(crate) type Step = (CardCall, CardResult);

// A drive.
pub(crate) fn drive(source: u8, asserted: bool, gives: Driven) -> Step {
    (
        CardCall::Drive { source, asserted },
        CardResult::Drove(Ok(gives)),
    )
}

// A read while no bus line is on.
pub(crate) fn read(register: u8, gives: Result<u8, CardFault>) -> Step {
    read_with(register, 0, gives)
}

// A read while these bus lines are on.
pub(crate) fn read_with(register: u8, lines: u8, gives: Result<u8, CardFault>) -> Step {
    (
        CardCall::Read { register, lines },
        CardResult::Showed(gives),
    )
}

// A write that withdraws the edges of these sources, bit s for source s.
pub(crate) fn write(register: u8, value: u8, withdraws: u8) -> Step {
    (
        CardCall::Write { register, value },
        CardResult::Withdrew(Ok(Withdrawn::from_byte(withdraws))),
    )
}

// A write that is refused.
pub(crate) fn no_write(register: u8, value: u8, fault: CardFault) -> Step {
    (
        CardCall::Write { register, value },
        CardResult::Withdrew(Err(fault)),
    )
}

// An answer by a source.
pub(crate) fn answer(level: u8, source: u8, reply: Reply) -> Step {
    (
        CardCall::Answer { level },
        CardResult::Answered(Ok(Some(Answer { source, reply }))),
    )
}

// An answer that no source gives.
pub(crate) fn no_answer(level: u8) -> Step {
    (CardCall::Answer { level }, CardResult::Answered(Ok(None)))
}

// How a call is refused: the fault's number, if it is.
pub(crate) fn refused<T: Drop, F: Into<Refusal>>(given: Result<T, F>) -> Option<u8> {
    given.err().map(|fault| fault.into().number)
}

// Makes the calls in turn, each of which must give what is said.
pub(crate) fn follow<C: Card>(rt: &impl Abort, card: &mut C, steps: &[Step]) {
    for (call, gives) in steps {
        assert_eq!(rt; perform(card, *call), *gives);
    }
}
