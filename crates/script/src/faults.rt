ghost use Rattle.std.specs.Prelude.{◌≡◌, Some};
ghost use Rattle.card.specs.Words.{tabbed, refusal_fields};
ghost use Rattle.script.specs.declared.faults.ScriptFault.TheVariants.{Rack};
ghost use Rattle.script.specs.Faults.{script_refusal};

use card::{Layer, Refusal};
use rack::RackFault;
use std::error::Error;
use std::fmt;

/// Why a line, or a whole script, is refused.
#[derive(Clone, Copy, PartialEq, Eq, Debug)]
pub enum ScriptFault {
    /// The output buffer of a line call has under 128 bytes.
    ShortOutput,
    /// The line has over 80 bytes.
    LongLine,
    /// Its first field is no word of a script.
    UnknownWord,
    /// It has too many fields, or too few.
    WrongCount,
    /// This field, the word being field 1, is no number of one to three digits up to 255, or no wire where a wire is due.
    BadField(u8),
    /// The script has over 65,536 bytes.
    LongScript,
    /// The rack refused the call.
    Rack(RackFault),
}

impl From<RackFault> for ScriptFault {
    ghost from_gives = { λ fault r. r ≡ Rack fault };

    fn from(fault: RackFault) -> ScriptFault {
        ScriptFault::Rack(fault)
    }
}

impl ScriptFault {
    // Beside From, so that a caller can ask a fault by a method.
    /// The fault's number, layer and place.
    pub fn refusal(self) -> Refusal
        ensures { result ≡ script_refusal self }
    {
        Refusal::from(self)
    }
}

impl From<ScriptFault> for Refusal {
    ghost from_gives = { λ fault r. r ≡ script_refusal fault };

    fn from(fault: ScriptFault) -> Refusal {
        let (number, place) = match fault {
            ScriptFault::ShortOutput => (9, 0),
            ScriptFault::LongLine => (10, 0),
            ScriptFault::UnknownWord => (11, 1),
            ScriptFault::WrongCount => (12, 0),
            ScriptFault::BadField(place) => (13, place),
            ScriptFault::LongScript => (19, 0),
            ScriptFault::Rack(fault) => return Refusal::from(fault),
        };
        Layer::Script.refusal(number, place)
    }
}

// As a script prints it. Each fault has an impl of its own: one for all of them would be an orphan, since Display is std's.
impl fmt::Display for ScriptFault {
    ghost output = { λ e. Some (tabbed (refusal_fields (script_refusal e))) };

    fn fmt<W: fmt::Write>(&self, f: &mut fmt::Formatter<W>) -> fmt::Result {
        fmt::Display::fmt(&Refusal::from(*self), f)
    }
}

impl Error for ScriptFault {}
