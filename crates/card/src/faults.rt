ghost use Rattle.std.specs.Prelude.{◌≡◌, Some};
ghost use Rattle.card.specs.Faults.{refusal, card_refusal};
ghost use Rattle.card.specs.Fields.{texts, AreShort};
ghost use Rattle.card.specs.Words.{layer_word, tabbed, refusal_fields};

use crate::fields::Field::{Number, Word};
use crate::fields::Fields;
use std::error::Error;
use std::fmt;

/// The layer that refused a call.
#[derive(Clone, Copy, PartialEq, Eq, Debug)]
pub enum Layer {
    Script,
    Rack,
    Card,
}

impl Layer {
    // Beside Display, since a page is written without a formatter.
    /// The word that a script's output has for it.
    pub fn word(self) -> &'static str
        ensures { result.now ≡ layer_word self }
    {
        match self {
            Layer::Script => "script",
            Layer::Rack => "rack",
            Layer::Card => "card",
        }
    }

    /// A refusal at this layer.
    pub fn refusal(self, number: u8, place: u8) -> Refusal
        ensures { result ≡ refusal number self place }
    {
        Refusal {
            number,
            layer: self,
            place,
        }
    }
}

impl fmt::Display for Layer {
    ghost output = { λ l. Some (layer_word l) };

    fn fmt<W: fmt::Write>(&self, f: &mut fmt::Formatter<W>) -> fmt::Result {
        f.write_str(self.word())
    }
}

/// A fault as it is told: its number, the layer that refused, and the place.
#[derive(Clone, Copy, PartialEq, Eq, Debug)]
pub struct Refusal {
    pub number: u8,
    pub layer: Layer,
    pub place: u8,
}

impl Refusal {
    /// The fields that a script's output has for it.
    #[tactic(auto, using(crate::proofs::Numbers::number_short))]
    pub fn fields(self) -> Fields
        ensures texts { texts result ≡ refusal_fields self }
        ensures short { AreShort result }
    {
        Fields::Four(
            Word("refused"),
            Number(self.number.into()),
            Word(self.layer.word()),
            Number(self.place.into()),
        )
    }
}

// As a script prints it. The first word goes out with its tab in one write, which a writer that is full in between can tell; through `Fields`
// it would be two.
impl fmt::Display for Refusal {
    ghost output = { λ r. Some (tabbed (refusal_fields r)) };

    fn fmt<W: fmt::Write>(&self, f: &mut fmt::Formatter<W>) -> fmt::Result {
        let number = self.number;
        let layer = self.layer.word();
        let place = self.place;
        write!(f, "refused\t{number}\t{layer}\t{place}")
    }
}

/// Why a card refuses a call.
#[derive(Clone, Copy, PartialEq, Eq, Debug)]
pub enum CardFault {
    /// The card has over 64 sources or over 64 registers.
    Oversize,
    /// It has no such source.
    NoSource(u8),
    /// It has no such register.
    NoRegister(u8),
    /// The register can't be read, or can't be written.
    NoAccess(u8),
    /// The level to answer at is not 1 to 7.
    BadLevel(u8),
    /// The pointer register holds this number, which names no control register.
    NoControl(u8),
}

impl CardFault {
    // Beside From, so that a caller can ask a fault by a method.
    /// The fault's number, layer and place.
    pub fn refusal(self) -> Refusal
        ensures { result ≡ card_refusal self }
    {
        Refusal::from(self)
    }
}

impl From<CardFault> for Refusal {
    ghost from_gives = { λ fault r. r ≡ card_refusal fault };

    fn from(fault: CardFault) -> Refusal {
        let (number, place) = match fault {
            CardFault::Oversize => (14, 0),
            CardFault::NoSource(source) => (15, source),
            CardFault::NoRegister(register) => (16, register),
            CardFault::NoAccess(register) => (17, register),
            CardFault::BadLevel(level) => (18, level),
            CardFault::NoControl(control) => (20, control),
        };
        Layer::Card.refusal(number, place)
    }
}

// As a script prints it. Each fault has an impl of its own: one for all of them would be an orphan, since Display is std's.
impl fmt::Display for CardFault {
    ghost output = { λ e. Some (tabbed (refusal_fields (card_refusal e))) };

    fn fmt<W: fmt::Write>(&self, f: &mut fmt::Formatter<W>) -> fmt::Result {
        fmt::Display::fmt(&Refusal::from(*self), f)
    }
}

impl Error for CardFault {}
