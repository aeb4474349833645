// The SCB68155 interrupt handler: seven request lines and eight registers. Line n asks at level n and is source n - 1; lines 1 to 6
// are LRQ1 to LRQ6, and line 7 is NMI. `specs/Sheet.antt` is its data sheet.
#![tactic(auto)]

ghost use Rattle.std.specs.Prelude.{◌≡◌};
ghost use Rattle.scb68155.specs.Sheet.{fresh, requests, notices, scb68155_model};
ghost use Rattle.scb68155.specs.Rules.{scb68155_laws};
ghost use Rattle.std.proofs.Common.{rules};

use bits::is_set;
use card::{Answer, Card, CardFault, Driven, Handler, Withdrawn, check_level};
use latches::Latches;
use registers::{LINE_BITS, Registers};

mod registers;

/// The chip: its registers, and the wires and held edges of its lines.
#[derive(Drop)]
pub struct Scb68155 {
    registers: Registers,
    latches: Latches,
}

impl Scb68155 {
    pub const SOURCES: usize = 7;

    pub const REGISTERS: usize = 8;

    /// A chip as it is made: all registers clear, and the wires negated.
    pub fn new() -> Scb68155
        ensures { result ≡ fresh }
    {
        Scb68155 {
            registers: Registers::new(),
            latches: Latches::new(),
        }
    }

    // The lines that have a request, masked or not.
    fn requests(&self) -> u8
        ensures { result ≡ requests self.now }
    {
        self.latches.pending(self.registers.edges()) & LINE_BITS
    }
}

impl Card for Scb68155 {
    ghost model = { scb68155_model };

    ghost laws = { scb68155_laws };

    // A rule of the project: a chip has its counts as constants, joined cards have capped sums, and the trait asks for functions.
    fn source_count() -> usize {
        Self::SOURCES
    }

    fn register_count() -> usize {
        Self::REGISTERS
    }

    fn drive(&mut self, source: u8, asserted: bool) -> Result<Driven, CardFault> {
        if source >= 7 {
            return Err(CardFault::NoSource(source));
        }
        let line = source + 1;
        let edge = self.registers.is_edge(line);
        Ok(self.latches.drive(line, asserted, edge, true))
    }

    fn read(&self, register: u8, lines: u8) -> Result<u8, CardFault> {
        self.registers.read(register, self.requests(), lines)
    }

    fn write(&mut self, register: u8, value: u8) -> Result<Withdrawn, CardFault> {
        let edges = self.registers.edges();
        self.registers.write(register, value)?;
        Ok(self.latches.withdraw_but(edges, self.registers.edges()))
    }

    fn answer(&mut self, level: u8) -> Result<Option<Answer>, CardFault> {
        check_level(level)?;
        if !is_set(self.asked(), level) {
            return Ok(None);
        }
        let reply = self.registers.reply(level);
        self.registers.note(level, true);
        self.latches.release(level);
        Ok(Some(Answer {
            source: level - 1,
            reply,
        }))
    }

    fn reset(&mut self) -> Result<Withdrawn, CardFault> {
        let edges = self.registers.edges();
        self.registers = Registers::new();
        Ok(self.latches.withdraw_but(edges, 0))
    }

    fn asked(&self) -> u8 {
        self.requests() & self.registers.local_mask
    }
}

impl Handler for Scb68155 {
    ghost noticed = { notices };

    ghost notices = { Prim.search rules };

    fn admits(&self, level: u8) -> bool {
        self.registers.admits(level)
    }

    fn notice(&mut self, level: u8) {
        self.registers.note(level, false);
    }
}
