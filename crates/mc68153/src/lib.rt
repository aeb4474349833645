// The MC68153 bus interrupter module: four level inputs and eight registers. Registers 0 to 3 are the control registers of inputs
// 0 to 3, and registers 4 to 7 their vector registers. `specs/Sheet.antt` is its data sheet.
#![tactic(auto)]

ghost use Rattle.std.specs.Prelude.{◌≡◌, ℕ, ◌<◌, false};
ghost use Rattle.card.specs.Source.{asking, asking_at, pick};
ghost use Rattle.mc68153.specs.Sheet.{fresh, fresh_input, level_in, reply_of_input, input_source, settled, source_at, mc68153_model};
ghost use Rattle.mc68153.specs.Rules.{mc68153_laws};

use bits::{is_set, with};
use card::{Answer, Card, CardFault, Driven, Reply, Withdrawn, check_level};

// The bits of a control register.
const AUTO_CLEAR: u8 = 3;

const ENABLE: u8 = 4;

const OUTSIDE: u8 = 5;

const FLAG_AUTO_CLEAR: u8 = 6;

const FLAG: u8 = 7;

/// One input: its control and vector registers, and its wire.
#[derive(Clone, Copy, PartialEq, Eq, Debug)]
pub struct Input {
    control: u8,
    vector: u8,
    asserted: bool,
}

impl Input {
    // As it is made, its wire negated.
    fn new() -> Input
        ensures { result ≡ fresh_input false }
    {
        Input {
            control: 0,
            vector: 15,
            asserted: false,
        }
    }

    // Sets its registers as they were when it was made.
    fn reset(&mut self)
        ensures { self.new ≡ fresh_input self.old.asserted }
    {
        *self = Input {
            asserted: self.asserted,
            ..Input::new()
        };
    }

    // Bits 2 to 0 of the control register.
    fn level(&self) -> u8
        ensures value { result ≡ level_in self.now.control }
        ensures bound { result < 8 }
    {
        self.control & 7
    }

    // Whether it asks, whichever input it is.
    fn asks(&self) -> bool
        ensures { (s : ℕ) → result ≡ asking (input_source s self.now) }
    {
        self.level() != 0 && is_set(self.control, ENABLE) && self.asserted
    }

    fn asks_at(&self, level: u8) -> bool
        ensures { (s : ℕ) → result ≡ asking_at level (input_source s self.now) }
    {
        self.asks() && self.level() == level
    }

    fn reply(&self) -> Reply
        ensures { result ≡ reply_of_input self.now }
    {
        if is_set(self.control, OUTSIDE) {
            Reply::Outside
        } else {
            Reply::Byte(self.vector)
        }
    }

    // What an answer does to the answering input: each auto-clear bit that is set clears its bit of the control register.
    fn settle(&mut self)
        ensures { self.new ≡ settled self.old }
    {
        if is_set(self.control, AUTO_CLEAR) {
            self.control = with(self.control, ENABLE, false);
        }
        if is_set(self.control, FLAG_AUTO_CLEAR) {
            self.control = with(self.control, FLAG, false);
        }
    }
}

/// The chip: a table of its inputs.
#[derive(Drop)]
pub struct Mc68153 {
    inputs: [Input; 4],
}

impl Mc68153 {
    pub const SOURCES: usize = 4;

    pub const REGISTERS: usize = 8;

    /// A chip as it is made: control 0 and vector 15 at each input, and the wires negated.
    pub fn new() -> Mc68153
        ensures { result ≡ fresh }
    {
        Mc68153 {
            inputs: [Input::new(); 4],
        }
    }

    // The highest input that asks at a level: input 3 comes first.
    fn highest_asking(&self, level: u8) -> Option<u8>
        ensures { result ≡ pick (source_at self.now) level 4 }
    {
        let source = self.inputs.iter().rposition(|input| input.asks_at(level))?;
        Some(source as u8)
    }
}

impl Card for Mc68153 {
    ghost model = { mc68153_model };

    ghost laws = { mc68153_laws };

    // A rule of the project: a chip has its counts as constants, joined cards have capped sums, and the trait asks for functions.
    fn source_count() -> usize {
        Self::SOURCES
    }

    fn register_count() -> usize {
        Self::REGISTERS
    }

    fn drive(&mut self, source: u8, asserted: bool) -> Result<Driven, CardFault> {
        if source >= 4 {
            return Err(CardFault::NoSource(source));
        }
        let input = &mut self.inputs[source as usize];
        input.asserted = asserted;
        Ok(Driven::Follow)
    }

    fn read(&self, register: u8, _lines: u8) -> Result<u8, CardFault> {
        match register {
            0..=3 => Ok(self.inputs[register as usize].control),
            4..=7 => Ok(self.inputs[register as usize - 4].vector),
            _ => Err(CardFault::NoRegister(register)),
        }
    }

    fn write(&mut self, register: u8, value: u8) -> Result<Withdrawn, CardFault> {
        match register {
            0..=3 => self.inputs[register as usize].control = value,
            4..=7 => self.inputs[register as usize - 4].vector = value,
            _ => return Err(CardFault::NoRegister(register)),
        }
        Ok(Withdrawn::none())
    }

    fn answer(&mut self, level: u8) -> Result<Option<Answer>, CardFault> {
        check_level(level)?;
        let Some(source) = self.highest_asking(level) else {
            return Ok(None);
        };
        let input = &mut self.inputs[source as usize];
        let reply = input.reply();
        input.settle();
        Ok(Some(Answer { source, reply }))
    }

    fn reset(&mut self) -> Result<Withdrawn, CardFault> {
        for input in &mut self.inputs {
            input.reset();
        }
        Ok(Withdrawn::none())
    }

    fn asked(&self) -> u8 {
        // A `for`, and no twin of the folds over levels: it goes through the inputs.
        let mut levels = 0;
        for input in &self.inputs {
            if input.asks() {
                levels = with(levels, input.level(), true);
            }
        }
        levels
    }
}
