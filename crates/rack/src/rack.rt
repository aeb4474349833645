ghost use Rattle.std.specs.Prelude.{◌≡◌, ◌+◌, ◌≤◌, length, false, if◌then◌else◌, Ok, Err};
ghost use Rattle.card.specs.declared.faults.CardFault.TheVariants.{Oversize};
ghost use Rattle.card.specs.Source.{pick};
ghost use Rattle.card.specs.Model.{source_of, oversize, reply_of, if_chosen};
ghost use Rattle.rack.specs.declared.calls.Call.TheVariants.{Drive, Read, Write, Mask, Take, Acknowledge, Return, Reset};
ghost use Rattle.rack.specs.declared.calls.Outcome.TheVariants.{Drove, Showed, Withdrew, Masked, Took, Answered, Returned, Cleared};
ghost use Rattle.processor.specs.Steps.{wanted};
ghost use Rattle.rack.specs.Machine.{parts, start, oversized, reached, answered, rack_gives, rack_leaves, outcome};

use crate::calls::{Call, Outcome, Reached, Side};
use crate::faults::RackFault;
use card::{Answer, Card, CardFault, Driven, Handler, Withdrawn, check_size};
use processor::{Processor, ProcessorCall};
use std::marker::Model;

/// A handler above a chain, and one processor.
#[derive(Drop)]
pub struct Rack<H, C> {
    pub(crate) handler: H,
    pub(crate) chain: C,
    pub(crate) processor: Processor,
}

impl<H, C> Model for Rack<H, C> {
    ghost use Rattle.rack.specs.Machine.{State};

    ghost Value = { State H C };

    ghost view = { λ r. record { handler = r.handler; chain = r.chain; processor = r.processor } };
}

// The answer of a side at a level, if one of its sources asks there. None asks at a level outside 1 to 7.
fn answer_of<K: Card>(card: &mut K, level: u8) -> Option<Answer>
    requires { oversize K.Card.model ≡ false }
    ensures result { result ≡ reply_of (source_of K.Card.model card.old) (pick (source_of K.Card.model card.old) level K.Card.model.sources) }
    ensures after { card.new ≡ if_chosen (pick (source_of K.Card.model card.old) level K.Card.model.sources) (K.Card.model.answered card.old level) card.old }
{
    card.answer(level).unwrap_or(None)
}

impl<H: Handler, C: Card> Rack<H, C> {
    /// A rack as it is made: the processor has this number, mask 7, nothing taken and nothing open.
    pub fn new(number: u32, handler: H, chain: C) -> Rack<H, C>
        ensures { result ≡ start number handler chain }
    {
        Rack {
            handler,
            chain,
            processor: Processor::new(number),
        }
    }

    /// How many services are open: never over 16, and under 16 while a level is taken. Services are numbered from 1, so this is the number of
    /// the innermost.
    pub fn service_count(&self) -> u8
        ensures count { result ≡ length self.now.processor.services }
        ensures room { length self.now.processor.services + wanted self.now.processor.state ≤ 16 }
    {
        self.processor.service_count()
    }

    /// Drives the wire of a source of a side.
    pub fn drive(&mut self, side: Side, source: u8, asserted: bool) -> Result<Driven, RackFault>
        ensures result { outcome Drove result ≡ rack_gives (parts H.Handler C.Card) self.old (Drive side source asserted) }
        ensures after { self.new ≡ rack_leaves (parts H.Handler C.Card) self.old (Drive side source asserted) }
    {
        Self::fits()?;
        // A match: the sides are of two types, so a helper would take a closure for each.
        match side {
            Side::Local => Ok(self.handler.drive(source, asserted)?),
            Side::Chain => Ok(self.chain.drive(source, asserted)?),
        }
    }

    /// What a register of a side shows. It is told the bus lines: line n is on exactly when a chain source asks at n.
    pub fn read(&self, side: Side, register: u8) -> Result<u8, RackFault>
        ensures { outcome Showed result ≡ rack_gives (parts H.Handler C.Card) self.now (Read side register) }
    {
        Self::fits()?;
        let lines = self.chain.asked();
        // A match: the sides are of two types, so a helper would take a closure for each.
        match side {
            Side::Local => Ok(self.handler.read(register, lines)?),
            Side::Chain => Ok(self.chain.read(register, lines)?),
        }
    }

    /// Writes a register of a side.
    pub fn write(&mut self, side: Side, register: u8, value: u8) -> Result<Withdrawn, RackFault>
        ensures result { outcome Withdrew result ≡ rack_gives (parts H.Handler C.Card) self.old (Write side register value) }
        ensures after { self.new ≡ rack_leaves (parts H.Handler C.Card) self.old (Write side register value) }
    {
        Self::fits()?;
        // A match: the sides are of two types, so a helper would take a closure for each.
        match side {
            Side::Local => Ok(self.handler.write(register, value)?),
            Side::Chain => Ok(self.chain.write(register, value)?),
        }
    }

    /// Sets the processor's mask.
    pub fn set_mask(&mut self, mask: u8) -> Result<(), RackFault>
        ensures result { outcome (λ _. Masked) result ≡ rack_gives (parts H.Handler C.Card) self.old (Mask mask) }
        ensures after { self.new ≡ rack_leaves (parts H.Handler C.Card) self.old (Mask mask) }
    {
        Self::fits()?;
        self.processor.step(ProcessorCall::Mask { mask })?;
        Ok(())
    }

    /// Takes the presented level, if it is above the mask.
    pub fn take_level(&mut self) -> Result<Option<u8>, RackFault>
        ensures result { outcome Took result ≡ rack_gives (parts H.Handler C.Card) self.old Take }
        ensures after { self.new ≡ rack_leaves (parts H.Handler C.Card) self.old Take }
    {
        Self::fits()?;
        let presented = self.presented_level();
        Ok(self.processor.take_level(presented)?)
    }

    /// Acknowledges the level taken: tells who answers, and opens a service.
    pub fn acknowledge_level(&mut self) -> Result<Reached, RackFault>
        ensures result { outcome Answered result ≡ rack_gives (parts H.Handler C.Card) self.old Acknowledge }
        ensures after { self.new ≡ rack_leaves (parts H.Handler C.Card) self.old Acknowledge }
    {
        Self::fits()?;
        let level = self.processor.open_service()?;
        Ok(self.answer_at(level))
    }

    /// Closes the service of this number, the innermost, and gives the mask that is put back.
    pub fn return_depth(&mut self, depth: u8) -> Result<u8, RackFault>
        ensures result { outcome Returned result ≡ rack_gives (parts H.Handler C.Card) self.old (Return depth) }
        ensures after { self.new ≡ rack_leaves (parts H.Handler C.Card) self.old (Return depth) }
    {
        Self::fits()?;
        Ok(self.processor.close_service(depth)?)
    }

    /// Resets the handler, the chain and the mask, all or none. Tells the sources whose held edge that withdrew: of the chain, and of the
    /// handler.
    pub fn reset(&mut self) -> Result<(Withdrawn, Withdrawn), RackFault>
        ensures result { outcome (λ w. Cleared w.0 w.1) result ≡ rack_gives (parts H.Handler C.Card) self.old Reset }
        ensures after { self.new ≡ rack_leaves (parts H.Handler C.Card) self.old Reset }
    {
        Self::fits()?;
        self.processor.step(ProcessorCall::Reset)?;
        let local = self.handler.reset()?;
        let chain = self.chain.reset()?;
        Ok((chain, local))
    }

    /// Makes a call.
    pub fn step(&mut self, call: Call) -> Result<Outcome, RackFault>
        ensures result { result ≡ rack_gives (parts H.Handler C.Card) self.old call }
        ensures after { self.new ≡ rack_leaves (parts H.Handler C.Card) self.old call }
    {
        match call {
            Call::Drive {
                side,
                source,
                asserted,
            } => Ok(Outcome::Drove(self.drive(side, source, asserted)?)),
            Call::Read { side, register } => Ok(Outcome::Showed(self.read(side, register)?)),
            Call::Write {
                side,
                register,
                value,
            } => Ok(Outcome::Withdrew(self.write(side, register, value)?)),
            Call::Mask { mask } => {
                self.set_mask(mask)?;
                Ok(Outcome::Masked)
            }
            Call::Take => Ok(Outcome::Took(self.take_level()?)),
            Call::Acknowledge => Ok(Outcome::Answered(self.acknowledge_level()?)),
            Call::Return { depth } => Ok(Outcome::Returned(self.return_depth(depth)?)),
            Call::Reset => {
                let (chain, local) = self.reset()?;
                Ok(Outcome::Cleared(chain, local))
            }
        }
    }

    // Whether both sides are of a size that can be called.
    pub(crate) fn fits() -> Result<(), CardFault>
        ensures { result ≡ (if oversized (parts H.Handler C.Card) then Err Oversize else Ok tt) }
    {
        check_size::<H>()?;
        check_size::<C>()
    }

    // Who answers at a level: a local source first, then one of the chain if the handler admits the level.
    pub(crate) fn answer_at(&mut self, level: u8) -> Reached
        requires { oversized (parts H.Handler C.Card) ≡ false }
        ensures result { result ≡ reached (parts H.Handler C.Card) self.old level }
        ensures after { self.new ≡ answered (parts H.Handler C.Card) self.old level }
    {
        if let Some(answer) = answer_of(&mut self.handler, level) {
            return Reached::At(Side::Local, answer);
        }
        if self.handler.admits(level) {
            self.handler.notice(level);
            if let Some(answer) = answer_of(&mut self.chain, level) {
                return Reached::At(Side::Chain, answer);
            }
        }
        Reached::Spurious(24)
    }
}
