// The plain handler: no sources and no registers; it admits every level.
#![tactic(auto)]

ghost use Rattle.plain.specs.Sheet.{plain_model};
ghost use Rattle.plain.specs.Rules.{plain_laws};
ghost use Rattle.std.proofs.Common.{rules};

use card::{Answer, Card, CardFault, Driven, Handler, Withdrawn, check_level};

/// A handler that lets every level of its chain through.
#[derive(Clone, Copy, PartialEq, Eq, Debug)]
pub struct PlainHandler {}

impl PlainHandler {
    pub const SOURCES: usize = 0;

    pub const REGISTERS: usize = 0;
}

impl Card for PlainHandler {
    ghost model = { plain_model };

    ghost laws = { plain_laws };

    // A rule of the project: a chip has its counts as constants, joined cards have capped sums, and the trait asks for functions.
    fn source_count() -> usize {
        Self::SOURCES
    }

    fn register_count() -> usize {
        Self::REGISTERS
    }

    fn drive(&mut self, source: u8, _asserted: bool) -> Result<Driven, CardFault> {
        Err(CardFault::NoSource(source))
    }

    fn read(&self, register: u8, _lines: u8) -> Result<u8, CardFault> {
        Err(CardFault::NoRegister(register))
    }

    fn write(&mut self, register: u8, _value: u8) -> Result<Withdrawn, CardFault> {
        Err(CardFault::NoRegister(register))
    }

    fn answer(&mut self, level: u8) -> Result<Option<Answer>, CardFault> {
        check_level(level)?;
        Ok(None)
    }

    fn reset(&mut self) -> Result<Withdrawn, CardFault> {
        Ok(Withdrawn::none())
    }

    fn asked(&self) -> u8 {
        0
    }
}

impl Handler for PlainHandler {
    ghost noticed = { λ x n. x };

    ghost notices = { Prim.search rules };

    fn admits(&self, level: u8) -> bool {
        (1..=7).contains(&level)
    }

    fn notice(&mut self, _level: u8) {}
}
