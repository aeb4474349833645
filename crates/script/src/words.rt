ghost use Rattle.std.specs.Prelude.{◌≡◌, ◌≤◌};
ghost use Rattle.script.specs.Parse.{word_of};
ghost use Rattle.script.specs.Format.{arity};

use crate::faults::ScriptFault;

/// The first field of a line.
#[derive(Clone, Copy, PartialEq, Eq, Debug)]
pub(crate) enum Word {
    Line,
    Local,
    Put,
    Get,
    LocalPut,
    LocalGet,
    Mask,
    Take,
    Ack,
    Back,
    Reset,
}

// The word that a text spells.
impl TryFrom<&[u8]> for Word {
    type Error = ScriptFault;

    ghost try_from_gives = { λ text r. r ≡ word_of text.now };

    fn try_from(text: &[u8]) -> Result<Word, ScriptFault> {
        match text {
            b"line" => Ok(Word::Line),
            b"local" => Ok(Word::Local),
            b"put" => Ok(Word::Put),
            b"get" => Ok(Word::Get),
            b"lput" => Ok(Word::LocalPut),
            b"lget" => Ok(Word::LocalGet),
            b"mask" => Ok(Word::Mask),
            b"take" => Ok(Word::Take),
            b"ack" => Ok(Word::Ack),
            b"back" => Ok(Word::Back),
            b"reset" => Ok(Word::Reset),
            _ => Err(ScriptFault::UnknownWord),
        }
    }
}

impl Word {
    // How many fields follow it.
    pub(crate) fn arity(self) -> usize
        ensures value { result ≡ arity self }
        ensures bound { result ≤ 2 }
    {
        match self {
            Word::Line | Word::Local | Word::Put | Word::LocalPut => 2,
            Word::Get | Word::LocalGet | Word::Mask | Word::Back => 1,
            Word::Take | Word::Ack | Word::Reset => 0,
        }
    }
}
