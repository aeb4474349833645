ghost use Rattle.std.specs.Prelude.{◌≡◌, ◌+◌, ◌<◌, ◌≤◌, ◌∷◌, ◌++◌, length};
ghost use Rattle.arrayvec.specs.ArrayString.{array_string_len};
ghost use Rattle.card.specs.Fields.{field_text, texts, AreShort};
ghost use Rattle.card.specs.Words.{after};
ghost use Rattle.script.specs.Printing.{printed, room};

use crate::faults::ScriptFault;
use arrayvec::ArrayString;
use card::{Field, Fields, Refusal};
use itoa::Buffer;
use rack::Outcome;

/// The most bytes that a printed line takes.
pub(crate) const LINE_ROOM: usize = 128;

/// A printed line. It is not written by `write!` and `Display`, since no contract of theirs says that they succeed, and a line must print.
pub(crate) type Page = ArrayString<LINE_ROOM>;

// A field: a tab and its text.
fn push_field(page: &mut Page, field: Field)
    requires fits { array_string_len page.old + 21 ≤ 128 }
    requires short { length (field_text field) ≤ 20 }
    ensures text { page.new.bytes ≡ page.old.bytes ++ 9 ∷ field_text field }
    ensures bound { array_string_len page.new ≤ array_string_len page.old + 21 }
{
    page.push_str("\t");
    match field {
        Field::Word(word) => page.push_str(word),
        Field::Number(number) => page.push_str(Buffer::new().format(number)),
    }
}

fn push_fields(page: &mut Page, fields: Fields)
    requires fits { array_string_len page.old ≤ 20 }
    requires short { AreShort fields }
    ensures text { page.new.bytes ≡ after page.old.bytes (texts fields) }
    ensures bound { array_string_len page.new ≤ array_string_len page.old + 84 }
{
    match fields {
        Fields::One(a) => push_field(page, a),
        Fields::Two(a, b) => {
            push_field(page, a);
            push_field(page, b);
        }
        Fields::Three(a, b, c) => {
            push_field(page, a);
            push_field(page, b);
            push_field(page, c);
        }
        Fields::Four(a, b, c, d) => {
            push_field(page, a);
            push_field(page, b);
            push_field(page, c);
            push_field(page, d);
        }
    }
}

// The printed line of a result.
#[tactic(auto, unfolding(crate::specs::Printing::printed))]
pub(crate) fn show(number: u64, given: Result<Outcome, ScriptFault>) -> Page
    ensures text { result.bytes ≡ printed number given }
    ensures bound { length (printed number given) ≤ 128 }
    ensures short { number < 100000 → length (printed number given) ≤ room given }
{
    let fields = match given {
        Ok(outcome) => outcome.fields(),
        Err(fault) => Refusal::from(fault).fields(),
    };
    let mut page = Page::new();
    page.push_str(Buffer::new().format(number));
    push_fields(&mut page, fields);
    page.push_str("\n");
    page
}
