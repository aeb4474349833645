ghost use Rattle.std.specs.Prelude.{Some};
ghost use Rattle.card.specs.Fields.{field_text, texts};
ghost use Rattle.card.specs.Words.{tabbed};

use std::fmt;

// Not a Result: a word is printed as much as a number.
/// A field of a printed result: a word, or a number in decimal.
#[derive(Clone, Copy, PartialEq, Eq, Debug)]
pub enum Field {
    Word(&'static str),
    Number(u64),
}

impl fmt::Display for Field {
    ghost output = { λ f. Some (field_text f) };

    fn fmt<W: fmt::Write>(&self, f: &mut fmt::Formatter<W>) -> fmt::Result {
        match *self {
            Field::Word(word) => f.write_str(word),
            Field::Number(number) => write!(f, "{number}"),
        }
    }
}

// Not a vector of fixed capacity: with a variant for each number of fields, no call of `push` has to show that there is room.
// That they are short is said by each function that makes them: an enum can have no invariant.
/// The fields of a printed result, of which there are one to four.
#[derive(Clone, Copy, PartialEq, Eq, Debug)]
pub enum Fields {
    One(Field),
    Two(Field, Field),
    Three(Field, Field, Field),
    Four(Field, Field, Field, Field),
}

// As a script prints them: parted by tabs.
impl fmt::Display for Fields {
    ghost output = { λ fs. Some (tabbed (texts fs)) };

    fn fmt<W: fmt::Write>(&self, f: &mut fmt::Formatter<W>) -> fmt::Result {
        match *self {
            Fields::One(a) => write!(f, "{a}"),
            Fields::Two(a, b) => write!(f, "{a}\t{b}"),
            Fields::Three(a, b, c) => write!(f, "{a}\t{b}\t{c}"),
            Fields::Four(a, b, c, d) => write!(f, "{a}\t{b}\t{c}\t{d}"),
        }
    }
}
