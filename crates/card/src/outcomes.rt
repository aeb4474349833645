ghost use Rattle.std.specs.Prelude.{◌≡◌, Some};
ghost use Rattle.card.specs.Words.{drive_word};

use std::fmt;

/// What driving a source's wire did.
#[derive(Clone, Copy, PartialEq, Eq, Debug)]
pub enum Driven {
    /// A level source: it follows its wire.
    Follow,
    /// An edge of an armed source that held none: now it holds one.
    Latched,
    /// An edge of an armed source that held one already: the two are one.
    Merged,
    /// An edge of a source that is not armed: nothing is held for it.
    Lost,
    /// An edge source whose wire did not go from negated to asserted.
    Quiet,
}

impl Driven {
    // Beside Display, since a page is written without a formatter.
    /// The word that a script's output has for it.
    pub fn word(self) -> &'static str
        ensures { result.now ≡ drive_word self }
    {
        match self {
            Driven::Follow => "follow",
            Driven::Latched => "latched",
            Driven::Merged => "merged",
            Driven::Lost => "lost",
            Driven::Quiet => "quiet",
        }
    }
}

impl fmt::Display for Driven {
    ghost output = { λ d. Some (drive_word d) };

    fn fmt<W: fmt::Write>(&self, f: &mut fmt::Formatter<W>) -> fmt::Result {
        f.write_str(self.word())
    }
}

// Not an Option: a vector from outside is a reply as well.
/// What a source replies when it is answered.
#[derive(Clone, Copy, PartialEq, Eq, Debug)]
pub enum Reply {
    /// The card gives this vector.
    Byte(u8),
    /// The device behind the source gives a vector of its own.
    Outside,
}

/// The source that answered, and its reply.
#[derive(Clone, Copy, PartialEq, Eq, Debug)]
pub struct Answer {
    pub source: u8,
    pub reply: Reply,
}
