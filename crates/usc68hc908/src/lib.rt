// The USC68HC908 programmable interrupt controller: seven channels, which ask at the one level that the card is wired to, and four
// registers. `specs/Sheet.antt` is its data sheet.
#![tactic(auto)]

ghost use Rattle.std.specs.Prelude.{◌≡◌, ◌<◌, ◌≤◌};
ghost use Rattle.card.specs.Withdrawing.{told};
ghost use Rattle.card.specs.Meaning.{lost};
ghost use Rattle.usc68hc908.specs.Sheet.{fresh, level_of, channels, base_of, ipr, in_service, how_many, chosen_channel, cleared, usc68hc908_model};
ghost use Rattle.usc68hc908.specs.Rules.{usc68hc908_laws};

use bits::{highest_set, is_set, with};
use card::{Answer, Card, CardFault, Driven, Reply, Withdrawn, check_level};
use latches::Latches;

// The channels of edge sort, bit c for channel c: the odd ones.
const EDGES: u8 = 0b1010_1010;

// The bits that are channels: bit 0 is none.
const CHANNELS: u8 = 0b1111_1110;

// The bits of the vector base that are kept.
const BASE: u8 = 0b1111_1000;

/// The chip. Channel c, 1 to 7, has bit c of every register, and is source c - 1.
#[derive(Drop)]
pub struct Usc68hc908 {
    // the level that it is wired to, as it was asked for
    wired: u8,
    latches: Latches,
    // mask register: a channel may ask while its bit is set
    imr: u8,
    // enable register; its bit 0 says which register is reached as register 3
    ier: u8,
    // in-service register
    isr: u8,
    // vector base register
    ivr: u8,
}

impl Usc68hc908 {
    pub const SOURCES: usize = 7;

    pub const REGISTERS: usize = 4;

    /// A chip as it is made, wired to a level; a number outside 1 to 7 wires it to level 0, at which no source ever asks.
    pub fn new(level: u8) -> Usc68hc908
        ensures { result ≡ fresh level }
    {
        Usc68hc908 {
            wired: level,
            latches: Latches::new(),
            imr: 0,
            ier: 0,
            isr: 0,
            ivr: 0,
        }
    }

    /// How many channels are in service: how deep their services are nested.
    pub fn nesting(&self) -> u32
        ensures { result ≡ how_many (in_service self.now) 8 }
    {
        self.channels_in_service().count_ones()
    }

    // Not an Option: wired to no level it is at level 0, as the sheet has it.
    fn level(&self) -> u8
        ensures value { result ≡ level_of self.now }
        ensures bound { result < 8 }
    {
        if self.wired < 8 { self.wired } else { 0 }
    }

    fn channels_in_service(&self) -> u8
        ensures { result ≡ channels self.now.isr }
    {
        self.isr & CHANNELS
    }

    // No function is shared with the other chip's base: it would be this mask alone.
    fn base(&self) -> u8
        ensures value { result ≡ base_of self.now }
        ensures bound { result ≤ 248 }
    {
        self.ivr & BASE
    }

    // The pending register: edge channels that hold an edge, and level channels that are enabled with their wire asserted.
    fn pending(&self) -> u8
        ensures { result ≡ ipr self.now }
    {
        self.latches.pending(EDGES) & (EDGES | self.ier) & CHANNELS
    }

    // The highest channel that asks, which is above those in service.
    fn highest_asking(&self) -> Option<u8>
        ensures { result ≡ chosen_channel self.now }
    {
        let channel = highest_set(self.pending() & self.ier & self.imr);
        (channel > highest_set(self.isr)).then_some(channel)
    }

    // Clears all registers and withdraws all held edges.
    fn clear(&mut self) -> Withdrawn
        ensures result { result ≡ told (lost (usc68hc908_model.meaning self.old) (usc68hc908_model.meaning (cleared self.old))) 7 }
        ensures after { self.new ≡ cleared self.old }
    {
        self.imr = 0;
        self.ier = 0;
        self.isr = 0;
        self.ivr = 0;
        self.latches.withdraw_but(EDGES, 0)
    }
}

impl Card for Usc68hc908 {
    ghost model = { usc68hc908_model };

    ghost laws = { usc68hc908_laws };

    // A rule of the project: a chip has its counts as constants, joined cards have capped sums, and the trait asks for functions.
    fn source_count() -> usize {
        Self::SOURCES
    }

    fn register_count() -> usize {
        Self::REGISTERS
    }

    fn drive(&mut self, source: u8, asserted: bool) -> Result<Driven, CardFault> {
        if source >= 7 {
            return Err(CardFault::NoSource(source));
        }
        let channel = source + 1;
        let edge = is_set(EDGES, channel);
        let armed = is_set(self.ier, channel);
        Ok(self.latches.drive(channel, asserted, edge, armed))
    }

    fn read(&self, register: u8, _lines: u8) -> Result<u8, CardFault> {
        match register {
            0 => Ok(self.pending()),
            1 => Ok(self.imr & CHANNELS),
            2 => Ok(self.ier),
            3 if is_set(self.ier, 0) => Ok(self.base()),
            3 => Ok(self.channels_in_service()),
            _ => Err(CardFault::NoRegister(register)),
        }
    }

    fn write(&mut self, register: u8, value: u8) -> Result<Withdrawn, CardFault> {
        match register {
            0 => Err(CardFault::NoAccess(0)),
            1 => {
                self.imr = value;
                Ok(Withdrawn::none())
            }
            2 => {
                self.ier = value;
                Ok(self.latches.withdraw_but(EDGES, value))
            }
            3 if is_set(self.ier, 0) => {
                self.ivr = value;
                Ok(Withdrawn::none())
            }
            3 if value == 0 => Ok(self.clear()),
            3 => {
                self.isr &= value;
                Ok(Withdrawn::none())
            }
            _ => Err(CardFault::NoRegister(register)),
        }
    }

    fn answer(&mut self, level: u8) -> Result<Option<Answer>, CardFault> {
        check_level(level)?;
        if level != self.level() {
            return Ok(None);
        }
        let Some(channel) = self.highest_asking() else {
            return Ok(None);
        };
        self.latches.release(channel);
        self.isr = with(self.isr, channel, true);
        Ok(Some(Answer {
            source: channel - 1,
            reply: Reply::Byte(self.base() + channel),
        }))
    }

    fn reset(&mut self) -> Result<Withdrawn, CardFault> {
        Ok(self.clear())
    }

    #[tactic(auto, using(crate::proofs::Calls::asked_unwired, crate::proofs::Calls::asked_if_some))]
    fn asked(&self) -> u8 {
        let level = self.level();
        if level == 0 {
            return 0;
        }
        with(0, level, self.highest_asking().is_some())
    }
}
