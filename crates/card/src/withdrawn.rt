ghost use Rattle.std.specs.Prelude.{◌≡◌};
ghost use Rattle.card.specs.Bits.{bit};
ghost use Rattle.card.specs.Withdrawing.{nobody, told, has, first_word, shifted, union};

/// The sources whose held edge a call withdrew. Only this file knows how they are stored.
#[derive(Clone, Copy, PartialEq, Eq, Debug)]
pub struct Withdrawn {
    bits: u64,
}

impl Withdrawn {
    /// No source.
    pub fn none() -> Withdrawn
        ensures { result ≡ nobody }
    {
        Withdrawn { bits: 0 }
    }

    // Not a From: a byte could as well be the number of one source.
    /// Those of sources 0 to 7 whose bit is set: bit s is source s.
    pub fn from_byte(sources: u8) -> Withdrawn
        ensures { result ≡ told (bit sources) 8 }
    {
        Withdrawn {
            bits: sources as u64,
        }
    }

    /// Whether a source is among them.
    pub fn contains(self, source: u8) -> bool
        ensures { result ≡ has self source }
    {
        source < 64 && self.bits >> source & 1 == 1
    }

    /// The same sources, each numbered higher by `by`.
    pub fn shifted(self, by: usize) -> Withdrawn
        ensures { result ≡ shifted by self }
    {
        if by >= 64 {
            return Withdrawn::none();
        }
        Withdrawn {
            bits: self.bits << by,
        }
    }

    /// These sources and the others.
    pub fn union(self, other: Withdrawn) -> Withdrawn
        ensures { result ≡ union self other }
    {
        Withdrawn {
            bits: self.bits | other.bits,
        }
    }

    // Not a From: the name says that more words may follow, for cards of more sources.
    /// Sources 0 to 63 as a number: bit s is source s.
    pub fn first_word(self) -> u64
        ensures { result ≡ first_word self }
    {
        let Withdrawn { bits: word } = self;
        word
    }
}
