ghost use Rattle.std.specs.Prelude.{◌≡◌, Some};
ghost use Rattle.card.specs.Fields.{texts, AreShort};
ghost use Rattle.card.specs.Words.{tabbed};
ghost use Rattle.rack.specs.Words.{side_word, reached_fields, outcome_fields};

use card::Field::{Number, Word};
use card::{Answer, Driven, Fields, Reply, Withdrawn};
use std::fmt;

/// A side of a rack: the handler's own sources and registers, or the chain's.
#[derive(Clone, Copy, PartialEq, Eq, Debug)]
pub enum Side {
    Local,
    Chain,
}

impl Side {
    // Beside Display, since a page is written without a formatter.
    /// The word that a script's output has for it.
    pub fn word(self) -> &'static str
        ensures { result.now ≡ side_word self }
    {
        match self {
            Side::Local => "local",
            Side::Chain => "chain",
        }
    }
}

// As a script prints it.
impl fmt::Display for Side {
    ghost output = { λ z. Some (side_word z) };

    fn fmt<W: fmt::Write>(&self, f: &mut fmt::Formatter<W>) -> fmt::Result {
        f.write_str(self.word())
    }
}

// Calls are data, and no closures: the law over every run is about lists of them.
/// A call of a rack.
#[derive(Clone, Copy, PartialEq, Eq, Debug)]
pub enum Call {
    Drive {
        side: Side,
        source: u8,
        asserted: bool,
    },
    Read {
        side: Side,
        register: u8,
    },
    Write {
        side: Side,
        register: u8,
        value: u8,
    },
    Mask {
        mask: u8,
    },
    Take,
    Acknowledge,
    Return {
        depth: u8,
    },
    Reset,
}

// Not a Result: a spurious acknowledge is no fault, and has a vector of its own.
/// Who answered an acknowledge.
#[derive(Clone, Copy, PartialEq, Eq, Debug)]
pub enum Reached {
    /// A source of a side, with its reply.
    At(Side, Answer),
    /// Nobody: the spurious vector comes, which is 24.
    Spurious(u8),
}

/// What a granted call gave.
#[derive(Clone, Copy, PartialEq, Eq, Debug)]
pub enum Outcome {
    /// What driving a wire did.
    Drove(Driven),
    /// What a register shows.
    Showed(u8),
    /// The sources whose held edge a write withdrew.
    Withdrew(Withdrawn),
    /// The mask is set.
    Masked,
    /// The level that was taken, if one was.
    Took(Option<u8>),
    /// Who answered an acknowledge.
    Answered(Reached),
    /// The mask that a return put back.
    Returned(u8),
    /// The sources whose held edge a reset withdrew: of the chain, and of the handler.
    Cleared(Withdrawn, Withdrawn),
}

impl Reached {
    /// The fields that a script's output has for it.
    #[tactic(auto, using(card::proofs::Numbers::number_short))]
    pub fn fields(self) -> Fields
        ensures texts { texts result ≡ reached_fields self }
        ensures short { AreShort result }
    {
        match self {
            Reached::At(side, answer) => {
                let place = Word(side.word());
                let source = Number(answer.source.into());
                match answer.reply {
                    Reply::Byte(vector) => {
                        Fields::Four(Word("vector"), place, source, Number(vector.into()))
                    }
                    Reply::Outside => Fields::Three(Word("outside"), place, source),
                }
            }
            Reached::Spurious(vector) => Fields::Two(Word("spurious"), Number(vector.into())),
        }
    }
}

impl Outcome {
    /// The fields that a script's output has for it.
    #[tactic(auto, using(card::proofs::Numbers::number_short))]
    pub fn fields(self) -> Fields
        ensures texts { texts result ≡ outcome_fields self }
        ensures short { AreShort result }
    {
        match self {
            Outcome::Drove(driven) => Fields::One(Word(driven.word())),
            Outcome::Showed(value) => Fields::Two(Word("byte"), Number(value.into())),
            Outcome::Withdrew(withdrawn) => {
                Fields::Two(Word("drop"), Number(withdrawn.first_word()))
            }
            Outcome::Masked => Fields::One(Word("ok")),
            Outcome::Took(None) => Fields::One(Word("none")),
            Outcome::Took(Some(level)) => Fields::Two(Word("level"), Number(level.into())),
            Outcome::Answered(reached) => reached.fields(),
            Outcome::Returned(mask) => Fields::Two(Word("mask"), Number(mask.into())),
            Outcome::Cleared(chain, local) => Fields::Three(
                Word("drop"),
                Number(chain.first_word()),
                Number(local.first_word()),
            ),
        }
    }
}

// As a script prints it: the fields parted by tabs. The first word goes out with its tab in one write, which a writer that is full in between can
// tell; through `Fields` it would be two.
impl fmt::Display for Reached {
    ghost output = { λ r. Some (tabbed (reached_fields r)) };

    fn fmt<W: fmt::Write>(&self, f: &mut fmt::Formatter<W>) -> fmt::Result {
        match *self {
            Reached::At(side, answer) => {
                let word = side.word();
                let source = answer.source;
                match answer.reply {
                    Reply::Byte(vector) => write!(f, "vector\t{word}\t{source}\t{vector}"),
                    Reply::Outside => write!(f, "outside\t{word}\t{source}"),
                }
            }
            Reached::Spurious(vector) => write!(f, "spurious\t{vector}"),
        }
    }
}

// By `write!`, as `Reached`.
impl fmt::Display for Outcome {
    ghost output = { λ o. Some (tabbed (outcome_fields o)) };

    fn fmt<W: fmt::Write>(&self, f: &mut fmt::Formatter<W>) -> fmt::Result {
        match *self {
            Outcome::Drove(driven) => {
                let word = driven.word();
                write!(f, "{word}")
            }
            Outcome::Showed(value) => write!(f, "byte\t{value}"),
            Outcome::Withdrew(withdrawn) => {
                let bits = withdrawn.first_word();
                write!(f, "drop\t{bits}")
            }
            Outcome::Masked => write!(f, "ok"),
            Outcome::Took(None) => write!(f, "none"),
            Outcome::Took(Some(level)) => write!(f, "level\t{level}"),
            Outcome::Answered(reached) => fmt::Display::fmt(&reached, f),
            Outcome::Returned(mask) => write!(f, "mask\t{mask}"),
            Outcome::Cleared(chain, local) => {
                let chain_bits = chain.first_word();
                let local_bits = local.first_word();
                write!(f, "drop\t{chain_bits}\t{local_bits}")
            }
        }
    }
}
