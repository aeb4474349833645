// The registers of the SCB68155.
ghost use Rattle.std.specs.Prelude.{◌≡◌, ◌<◌, ◌≤◌};
ghost use Rattle.card.specs.Model.{unless_refused, changed_unless};
ghost use Rattle.scb68155.specs.Sheet.{clear, low_bits, named, control, pointer_fault, is_edge, edges, is_vectored, base, reply_of_line, admits_level, noting, shows, writing, refuses_read, refuses_write, if_register};

use bits::{is_set, with};
use card::{CardFault, Reply};

// The line of NMI. Lines 1 to 6 are LRQ1 to LRQ6.
const NMI: u8 = 7;

// The bits of a control register.
const EDGE: u8 = 1;

const VECTORED: u8 = 2;

// The bit of the local mask that is the vector enable of NMI.
const NMI_VECTORED: u8 = 0;

// The bits that R0 and R1 keep, those that R2 keeps, and those of the lines and the bus levels.
const LOW_BITS: u8 = 0x07;

const HIGH_BITS: u8 = 0xf8;

pub(crate) const LINE_BITS: u8 = 0xfe;

// What is added in R7 for a local request.
const LOCAL: u8 = 8;

/// The registers, each as it was last written. What the chip keeps of a value is what its functions below make of it.
#[derive(Drop)]
pub struct Registers {
    /// R0: names the control register that R1 reaches.
    pointer: u8,
    /// The control registers of LRQ1 to LRQ6.
    controls: [u8; 6],
    /// R2: the vector base.
    vector: u8,
    /// R3: opens the lines.
    pub(crate) local_mask: u8,
    /// R5: admits bus levels.
    bus_mask: u8,
    /// R7: the last acknowledge.
    last: u8,
}

impl Registers {
    // All registers clear.
    pub(crate) fn new() -> Registers
        ensures { result ≡ clear }
    {
        Registers {
            pointer: 0,
            controls: [0; 6],
            vector: 0,
            local_mask: 0,
            bus_mask: 0,
            last: 0,
        }
    }

    // The line whose control register R1 reaches.
    fn named_line(&self) -> Result<u8, CardFault>
        ensures { result ≡ unless_refused (pointer_fault self.now) (named self.now) }
    {
        let line = self.pointer & LOW_BITS;
        if line < 1 || line > 6 {
            return Err(CardFault::NoControl(line));
        }
        Ok(line)
    }

    // The control register of an LRQ line, or 0 where there is none. Not an Option: its bits are then clear, as the sheet has it.
    fn control(&self, line: u8) -> u8
        ensures { result ≡ control self.now line }
    {
        match line {
            1..=6 => self.controls[line as usize - 1],
            _ => 0,
        }
    }

    // Whether a line is of edge sort.
    pub(crate) fn is_edge(&self, line: u8) -> bool
        ensures { result ≡ is_edge self.now line }
    {
        line == NMI || is_set(self.control(line), EDGE)
    }

    // The lines of edge sort, bit n for line n.
    pub(crate) fn edges(&self) -> u8
        ensures { result ≡ edges self.now }
    {
        (1..8u8).fold(0, |edges, line| with(edges, line, self.is_edge(line)))
    }

    // Whether a line replies with a vector.
    fn is_vectored(&self, line: u8) -> bool
        ensures { result ≡ is_vectored self.now line }
    {
        if line == NMI {
            is_set(self.local_mask, NMI_VECTORED)
        } else {
            is_set(self.control(line), VECTORED)
        }
    }

    // The vector base. No function is shared with the other chip's: it would be this mask alone.
    fn base(&self) -> u8
        ensures value { result ≡ base self.now }
        ensures bound { result ≤ 248 }
    {
        self.vector & HIGH_BITS
    }

    // What a line answers an acknowledge with.
    pub(crate) fn reply(&self, line: u8) -> Reply
        requires { line < 8 }
        ensures { result ≡ reply_of_line self.now line }
    {
        if self.is_vectored(line) {
            Reply::Byte(self.base() + line)
        } else {
            Reply::Outside
        }
    }

    // Whether a bus level is admitted.
    pub(crate) fn admits(&self, level: u8) -> bool
        ensures { result ≡ admits_level self.now level }
    {
        level >= 1 && is_set(self.bus_mask, level)
    }

    // Notes an acknowledge in R7: its level, plus eight when the request is local.
    pub(crate) fn note(&mut self, level: u8, local: bool)
        ensures { self.new ≡ noting self.old level local }
    {
        self.last = (level & LOW_BITS) + if local { LOCAL } else { 0 };
    }

    // Reads the control register that R0 names.
    fn read_control(&self) -> Result<u8, CardFault>
        ensures { result ≡ unless_refused (pointer_fault self.now) (low_bits (control self.now (named self.now))) }
    {
        let line = self.named_line()?;
        Ok(self.control(line) & LOW_BITS)
    }

    // Writes the control register that R0 names.
    fn write_control(&mut self, value: u8) -> Result<(), CardFault>
        ensures result { result ≡ unless_refused (pointer_fault self.old) tt }
        ensures after { self.new ≡ changed_unless (pointer_fault self.old) (writing self.old 1 value) self.old }
    {
        let line = self.named_line()?;
        self.controls[line as usize - 1] = value;
        Ok(())
    }

    // What a register shows. R4 shows the requests and R6 the bus lines, both of which are told here.
    pub(crate) fn read(&self, register: u8, requests: u8, lines: u8) -> Result<u8, CardFault>
        ensures { result ≡ unless_refused (if_register register (refuses_read self.now register)) (shows self.now requests lines register) }
    {
        match register {
            0 => Err(CardFault::NoAccess(0)),
            1 => self.read_control(),
            2 => Ok(self.base()),
            3 => Ok(self.local_mask),
            4 => Ok(requests),
            5 => Ok(self.bus_mask & LINE_BITS),
            6 => Ok(lines & LINE_BITS),
            7 => Ok(self.last),
            _ => Err(CardFault::NoRegister(register)),
        }
    }

    // Writes a register.
    pub(crate) fn write(&mut self, register: u8, value: u8) -> Result<(), CardFault>
        ensures result { result ≡ unless_refused (if_register register (refuses_write self.old register)) tt }
        ensures after { self.new ≡ changed_unless (if_register register (refuses_write self.old register)) (writing self.old register value) self.old }
    {
        match register {
            0 => self.pointer = value,
            1 => return self.write_control(value),
            2 => self.vector = value,
            3 => self.local_mask = value,
            5 => self.bus_mask = value,
            4 | 6 | 7 => return Err(CardFault::NoAccess(register)),
            _ => return Err(CardFault::NoRegister(register)),
        }
        Ok(())
    }
}
