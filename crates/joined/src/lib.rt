// Two cards joined into one: a daisy chain. The front card's sources and registers come first, the rear card's follow.
#![tactic(auto)]

ghost use Rattle.std.specs.Prelude.{◌≡◌, ◌+◌, ◌<◌, None};
ghost use Rattle.card.specs.Model.{unless_refused, size_first, capped_sources, capped_registers};
ghost use Rattle.joined.specs.Joining.{join, behind, source_named, register_named};
ghost use Rattle.joined.specs.Joins.{join_laws};

use card::{Answer, Card, CardFault, Driven, Withdrawn};

/// A front card and a rear card, which together are a card again. An answer goes to the rear only if no front source asks at that
/// level.
#[derive(Drop)]
pub struct Joined<F, R> {
    pub front: F,
    pub rear: R,
}

impl<F: Card, R: Card> Joined<F, R> {
    // Refuses where both together have over 64 sources or over 64 registers. Tried: card's `check_size::<Self>()`, which gets no proof
    // here, since a function generic in a card counts as a caller of all that card's methods, and those below call this one.
    fn check_size() -> Result<(), CardFault>
        ensures { result ≡ unless_refused (size_first (join F.Card.model R.Card.model) None) tt }
    {
        if Self::source_count() > 64 || Self::register_count() > 64 {
            return Err(CardFault::Oversize);
        }
        Ok(())
    }

    // The fault of the rear, with its sources and registers numbered as the joined card's.
    fn behind(fault: CardFault) -> CardFault
        requires { (source_named fault + capped_sources F.Card.model < 256) × (register_named fault + capped_registers F.Card.model < 256) }
        ensures { result ≡ behind (capped_sources F.Card.model) (capped_registers F.Card.model) fault }
    {
        let sources = F::source_count() as u8;
        let registers = F::register_count() as u8;
        match fault {
            CardFault::NoSource(source) => CardFault::NoSource(source + sources),
            CardFault::NoRegister(register) => CardFault::NoRegister(register + registers),
            CardFault::NoAccess(register) => CardFault::NoAccess(register + registers),
            CardFault::Oversize | CardFault::BadLevel(_) | CardFault::NoControl(_) => fault,
        }
    }
}

impl<F: Card, R: Card> Card for Joined<F, R> {
    ghost model = { join F.Card.model R.Card.model };

    ghost laws = { join_laws F.Card.model R.Card.model F.Card.laws R.Card.laws };

    fn source_count() -> usize {
        (F::source_count() + R::source_count()).min(65)
    }

    fn register_count() -> usize {
        (F::register_count() + R::register_count()).min(65)
    }

    #[tactic(auto, using(std::proofs::lemmas::Bool::Decides::nat_tests, crate::proofs::JoinCalls::driving_raised))]
    fn drive(&mut self, source: u8, asserted: bool) -> Result<Driven, CardFault> {
        Self::check_size()?;
        // Here, and not by the rear, which would ask its own rear in turn.
        if usize::from(source) >= Self::source_count() {
            return Err(CardFault::NoSource(source));
        }
        match source.checked_sub(F::source_count() as u8) {
            None => self.front.drive(source, asserted),
            Some(own) => self.rear.drive(own, asserted),
        }
    }

    fn read(&self, register: u8, lines: u8) -> Result<u8, CardFault> {
        Self::check_size()?;
        // Here, as in `drive`.
        if usize::from(register) >= Self::register_count() {
            return Err(CardFault::NoRegister(register));
        }
        match register.checked_sub(F::register_count() as u8) {
            None => self.front.read(register, lines),
            Some(own) => self
                .rear
                .read(own, lines)
                .map_err(|fault| Self::behind(fault)),
        }
    }

    #[tactic(auto, using(std::proofs::lemmas::Bool::Decides::nat_tests, crate::proofs::JoinCalls::withdrawn_front, crate::proofs::JoinCalls::withdrawn_rear))]
    fn write(&mut self, register: u8, value: u8) -> Result<Withdrawn, CardFault> {
        Self::check_size()?;
        // Here, as in `drive`.
        if usize::from(register) >= Self::register_count() {
            return Err(CardFault::NoRegister(register));
        }
        match register.checked_sub(F::register_count() as u8) {
            None => self.front.write(register, value),
            Some(own) => self
                .rear
                .write(own, value)
                .map_err(|fault| Self::behind(fault))
                .map(|withdrawn| withdrawn.shifted(F::source_count())),
        }
    }

    fn answer(&mut self, level: u8) -> Result<Option<Answer>, CardFault> {
        Self::check_size()?;
        if let Some(answer) = self.front.answer(level)? {
            return Ok(Some(answer));
        }
        let rear = self.rear.answer(level)?;
        Ok(rear.map(|answer| Answer {
            source: answer.source + F::source_count() as u8,
            ..answer
        }))
    }

    #[tactic(auto, using(crate::proofs::JoinCalls::withdrawn_both))]
    fn reset(&mut self) -> Result<Withdrawn, CardFault> {
        Self::check_size()?;
        let front = self.front.reset()?;
        let rear = self.rear.reset()?;
        Ok(front.union(rear.shifted(F::source_count())))
    }

    #[tactic(auto, using(crate::proofs::JoinCalls::asked_both))]
    fn asked(&self) -> u8 {
        self.front.asked() | self.rear.asked()
    }
}
