ghost use Rattle.std.specs.Prelude.{◌≡◌, Some};
ghost use Rattle.rack.specs.declared.faults.RackFault.TheVariants.{Card, Processor};
ghost use Rattle.rack.specs.Faults.{rack_refusal};
ghost use Rattle.card.specs.Words.{tabbed, refusal_fields};

use card::{CardFault, Refusal};
use processor::ProcessorFault;
use std::error::Error;
use std::fmt;

// Not a Result: either is a fault.
/// Why a rack refuses a call: the fault of a card or of the processor, carried whole.
#[derive(Clone, Copy, PartialEq, Eq, Debug)]
pub enum RackFault {
    Card(CardFault),
    Processor(ProcessorFault),
}

impl From<CardFault> for RackFault {
    ghost from_gives = { λ fault r. r ≡ Card fault };

    fn from(fault: CardFault) -> RackFault {
        RackFault::Card(fault)
    }
}

impl From<ProcessorFault> for RackFault {
    ghost from_gives = { λ fault r. r ≡ Processor fault };

    fn from(fault: ProcessorFault) -> RackFault {
        RackFault::Processor(fault)
    }
}

impl RackFault {
    // Beside From, so that a caller can ask a fault by a method.
    /// The fault's number, layer and place.
    pub fn refusal(self) -> Refusal
        ensures { result ≡ rack_refusal self }
    {
        Refusal::from(self)
    }
}

impl From<RackFault> for Refusal {
    ghost from_gives = { λ fault r. r ≡ rack_refusal fault };

    fn from(fault: RackFault) -> Refusal {
        match fault {
            RackFault::Card(fault) => Refusal::from(fault),
            RackFault::Processor(fault) => Refusal::from(fault),
        }
    }
}

// As a script prints it. Each fault has an impl of its own: one for all of them would be an orphan, since Display is std's.
impl fmt::Display for RackFault {
    ghost output = { λ e. Some (tabbed (refusal_fields (rack_refusal e))) };

    fn fmt<W: fmt::Write>(&self, f: &mut fmt::Formatter<W>) -> fmt::Result {
        fmt::Display::fmt(&Refusal::from(*self), f)
    }
}

impl Error for RackFault {}
