ghost use Rattle.std.specs.Prelude.{◌≡◌, ℕ, None};
ghost use Rattle.card.specs.Model.{Model, oversize, size_first, level_fault, unless_refused, capped_sources, capped_registers, drive_result, drive_exit, read_result, write_result, write_exit, answer_result, answer_exit, reset_result, reset_exit, levels_asked};
ghost use Rattle.card.specs.Laws.{Laws, NoticeLaw};

use crate::faults::CardFault;
use crate::outcomes::{Answer, Driven};
use crate::withdrawn::Withdrawn;

/// A card: sources that ask for interrupts, and eight-bit registers, both numbered from 0.
///
/// `model` says what a card of this kind is: its counts, what it means in each state, and where each call leads. Each contract
/// below is exact: it determines the answer and the whole card afterwards. `laws` are the rules that every card keeps.
pub trait Card {
    ghost model: { Model Self };

    // The counts are capped numbers, and no Options: sums of two can't overflow, and 65 is over the limit like any count too large.
    /// How many sources the kind has, or 65 for any number above 64.
    fn source_count() -> usize
        ensures { result ≡ capped_sources model };

    /// How many registers the kind has, or 65 for any number above 64.
    fn register_count() -> usize
        ensures { result ≡ capped_registers model };

    /// Drives the wire of a source: asserted, or negated.
    fn drive(&mut self, source: u8, asserted: bool) -> Result<Driven, CardFault>
        ensures result { result ≡ drive_result model self.old source asserted }
        ensures after { self.new ≡ drive_exit model self.old source asserted };

    /// What a register shows while the bus lines are as told: bit n of `lines` for line n, 1 to 7. Changes nothing.
    fn read(&self, register: u8, lines: u8) -> Result<u8, CardFault>
        ensures { result ≡ read_result model self.now register lines };

    /// Writes a register, and tells the sources whose held edge that withdrew.
    fn write(&mut self, register: u8, value: u8) -> Result<Withdrawn, CardFault>
        ensures result { result ≡ write_result model self.old register value }
        ensures after { self.new ≡ write_exit model self.old register value };

    /// Answers an acknowledge at a level: the source of smallest rank asking there, or none.
    fn answer(&mut self, level: u8) -> Result<Option<Answer>, CardFault>
        ensures result { result ≡ answer_result model self.old level }
        ensures after { self.new ≡ answer_exit model self.old level };

    /// Sets the registers to their reset values, and tells the sources whose held edge that withdrew.
    fn reset(&mut self) -> Result<Withdrawn, CardFault>
        ensures result { result ≡ reset_result model self.old }
        ensures after { self.new ≡ reset_exit model self.old };

    /// The question, which is never refused: bit n for each level n, 1 to 7, at which a source asks.
    fn asked(&self) -> u8
        ensures { result ≡ levels_asked model self.now };

    ghost laws: { Laws model };
}

/// A handler stands between a processor and a chain of cards. It is a card with seven marks, which say whether it admits each
/// bus level, and is told of each level that is passed on to its chain.
pub trait Handler: Card {
    ghost noticed: { Self → ℕ → Self };

    /// Whether it admits a bus level; only 1 to 7 are levels.
    fn admits(&self, level: u8) -> bool
        ensures { result ≡ (Self.Card.model.meaning self.now).admits level };

    /// The notice of a level passed to the chain.
    fn notice(&mut self, level: u8)
        ensures { self.new ≡ noticed self.old level };

    ghost notices: { NoticeLaw Self.Card.model noticed };
}

/// Whether a kind of card has over 64 sources or over 64 registers, so that every call but the question is refused.
pub fn is_oversize<C: Card>() -> bool
    ensures { result ≡ oversize C.Card.model }
{
    C::source_count() > 64 || C::register_count() > 64
}

/// Refuses where a kind of card has over 64 sources or over 64 registers.
pub fn check_size<C: Card>() -> Result<(), CardFault>
    ensures { result ≡ unless_refused (size_first C.Card.model None) tt }
{
    if is_oversize::<C>() {
        return Err(CardFault::Oversize);
    }
    Ok(())
}

/// Refuses a level outside 1 to 7.
pub fn check_level(level: u8) -> Result<(), CardFault>
    ensures { result ≡ unless_refused (level_fault level) tt }
{
    if !(1..=7).contains(&level) {
        return Err(CardFault::BadLevel(level));
    }
    Ok(())
}
