ghost use Rattle.std.specs.Prelude.{◌≡◌, Some};
ghost use Rattle.card.specs.Words.{tabbed, refusal_fields};
ghost use Rattle.processor.specs.Faults.{processor_refusal};

use card::{Layer, Refusal};
use std::error::Error;
use std::fmt;

// A rule of the project: `step` matches this state together with the call.
/// What a processor is about: nothing, or a level that it has taken and not acknowledged yet.
#[derive(Clone, Copy, PartialEq, Eq, Debug)]
pub enum State {
    Idle,
    /// The level, and the mask that its take found.
    Taken { level: u8, found: u8 },
}

// Calls are data, and no closures: the law over every run is about lists of them.
/// A call of a processor.
#[derive(Clone, Copy, PartialEq, Eq, Debug)]
pub enum ProcessorCall {
    /// Take the presented level if it is above the mask.
    Take { presented: u8 },
    /// Acknowledge the level taken: its service opens.
    Acknowledge,
    /// Return from the service of this number, the innermost.
    Return { depth: u8 },
    /// Set the mask.
    Mask { mask: u8 },
    /// Set the mask to 7.
    Reset,
}

/// What a granted call did.
#[derive(Clone, Copy, PartialEq, Eq, Debug)]
pub enum Done {
    /// It took this level, or none.
    Took(Option<u8>),
    /// It opened the service of this level.
    Opened(u8),
    /// It closed the innermost service, and put this mask back.
    Returned(u8),
    /// It set this mask.
    Masked(u8),
    /// It set the mask to 7.
    WasReset,
}

/// Why a processor refuses a call.
#[derive(Clone, Copy, PartialEq, Eq, Debug)]
pub enum ProcessorFault {
    /// The mask is over 7.
    BadMask(u8),
    /// This level is taken: only an acknowledge is allowed.
    LevelTaken(u8),
    /// No level is taken, or the token can't acknowledge it.
    NothingTaken,
    /// This is not the number of the innermost service, or the token is foreign.
    NotInnermost(u8),
    /// 16 services are open.
    Full,
    /// This many services are open.
    ServicesOpen(u8),
}

impl ProcessorFault {
    // Beside From, so that a caller can ask a fault by a method.
    /// The fault's number, layer and place.
    pub fn refusal(self) -> Refusal
        ensures { result ≡ processor_refusal self }
    {
        Refusal::from(self)
    }
}

impl From<ProcessorFault> for Refusal {
    ghost from_gives = { λ fault r. r ≡ processor_refusal fault };

    fn from(fault: ProcessorFault) -> Refusal {
        let (number, place) = match fault {
            ProcessorFault::BadMask(mask) => (18, mask),
            ProcessorFault::LevelTaken(level) => (21, level),
            ProcessorFault::NothingTaken => (22, 0),
            ProcessorFault::NotInnermost(depth) => (23, depth),
            ProcessorFault::Full => (24, 16),
            ProcessorFault::ServicesOpen(count) => (25, count),
        };
        Layer::Rack.refusal(number, place)
    }
}

// As a script prints it. Each fault has an impl of its own: one for all of them would be an orphan, since Display is std's.
impl fmt::Display for ProcessorFault {
    ghost output = { λ e. Some (tabbed (refusal_fields (processor_refusal e))) };

    fn fmt<W: fmt::Write>(&self, f: &mut fmt::Formatter<W>) -> fmt::Result {
        fmt::Display::fmt(&Refusal::from(*self), f)
    }
}

impl Error for ProcessorFault {}
