ghost use Rattle.std.specs.Prelude.{◌≡◌, ◌==◌, ◌+◌, ◌-◌, ◌<◌, if◌then◌else◌, Some, None};
ghost use Rattle.std.specs.Char.{is_ascii_digit};
ghost use Rattle.std.specs.Option.{ok_or};
ghost use Rattle.script.specs.declared.faults.ScriptFault.TheVariants.{BadField};
ghost use Rattle.script.specs.Format.{numeral};
ghost use Rattle.script.specs.Parse.{field_at, single, both, with, call_of, parsed};
ghost use Rattle.rack.specs.declared.calls.Call.TheVariants.{Drive, Read, Write};

use crate::cutting::LineFields;
use crate::faults::ScriptFault;
use crate::words::Word;
use rack::{Call, Side};

// The most bytes that a line may have.
const LONGEST_LINE: usize = 80;

// The value of a decimal digit.
fn digit(byte: u8) -> Option<u16>
    ensures { result ≡ (if is_ascii_digit byte then Some (byte - 48) else None) }
{
    match byte {
        b'0'..=b'9' => Some(u16::from(byte - b'0')),
        _ => None,
    }
}

// One to three digits, of a number up to `top`.
#[tactic(auto, unfolding(crate::specs::Format::numeral))]
fn numeral(digits: &[u8], top: u8) -> Option<u8>
    ensures { result ≡ numeral top digits.now }
{
    let value = match digits {
        [c] => digit(*c)?,
        [b, c] => digit(*b)? * 10 + digit(*c)?,
        [a, b, c] => digit(*a)? * 100 + digit(*b)? * 10 + digit(*c)?,
        _ => return None,
    };
    u8::try_from(value).ok().filter(|value| *value <= top)
}

impl LineFields<'_> {
    // The number in the field at this place, from 0. The place of a fault counts from 1.
    fn number(&self, place: u8, top: u8) -> Result<u8, ScriptFault>
        requires { place < 255 }
        ensures { result ≡ ok_or (numeral top (field_at self.now place)) (BadField (place + 1)) }
    {
        numeral(self.get(usize::from(place)), top).ok_or(ScriptFault::BadField(place + 1))
    }

    fn one_number(&self) -> Result<u8, ScriptFault>
        ensures { result ≡ single self.now }
    {
        self.number(1, u8::MAX)
    }

    fn two_numbers(&self, top: u8) -> Result<(u8, u8), ScriptFault>
        ensures { result ≡ both top self.now }
    {
        Ok((self.number(1, u8::MAX)?, self.number(2, top)?))
    }
}

// A match, and no table of functions: the words share the three functions below, with a side each.
fn call_of(word: Word, fields: &LineFields) -> Result<Call, ScriptFault>
    ensures { result ≡ call_of word fields.now }
{
    match word {
        Word::Line => drive(Side::Chain, fields),
        Word::Local => drive(Side::Local, fields),
        Word::Put => write(Side::Chain, fields),
        Word::Get => read(Side::Chain, fields),
        Word::LocalPut => write(Side::Local, fields),
        Word::LocalGet => read(Side::Local, fields),
        Word::Mask => Ok(Call::Mask {
            mask: fields.one_number()?,
        }),
        Word::Take => Ok(Call::Take),
        Word::Ack => Ok(Call::Acknowledge),
        Word::Back => Ok(Call::Return {
            depth: fields.one_number()?,
        }),
        Word::Reset => Ok(Call::Reset),
    }
}

fn drive(side: Side, fields: &LineFields) -> Result<Call, ScriptFault>
    ensures { result ≡ with (λ v. Drive side v.0 (v.1 == 1)) (both 1 fields.now) }
{
    let (source, wire) = fields.two_numbers(1)?;
    Ok(Call::Drive {
        side,
        source,
        asserted: wire == 1,
    })
}

fn write(side: Side, fields: &LineFields) -> Result<Call, ScriptFault>
    ensures { result ≡ with (λ v. Write side v.0 v.1) (both 255 fields.now) }
{
    let (register, value) = fields.two_numbers(u8::MAX)?;
    Ok(Call::Write {
        side,
        register,
        value,
    })
}

fn read(side: Side, fields: &LineFields) -> Result<Call, ScriptFault>
    ensures { result ≡ with (Read side) (single fields.now) }
{
    Ok(Call::Read {
        side,
        register: fields.one_number()?,
    })
}

/// The call that a line makes. The line's byte 10 is not part of it.
#[tactic(auto, unfolding(crate::specs::Parse::parsed))]
pub fn parse(text: &[u8]) -> Result<Call, ScriptFault>
    ensures { result ≡ parsed text.now }
{
    if text.len() > LONGEST_LINE {
        return Err(ScriptFault::LongLine);
    }
    let fields = LineFields::new(text);
    let word = Word::try_from(fields.get(0))?;
    if fields.count() != word.arity() + 1 {
        return Err(ScriptFault::WrongCount);
    }
    call_of(word, &fields)
}
