ghost use Rattle.std.specs.Prelude.{◌≡◌, ◌+◌, ◌<◌, ◌≤◌, length, IfSome};
ghost use Rattle.std.specs.Iterator.{at_most, YieldsFirstRef};
ghost use Rattle.script.specs.Pieces.{lines, fields};
ghost use Rattle.script.specs.Parse.{field_at};

use std::marker::Model;

// Tried: a `for` over std's `split_inclusive` in `run_lines`, which is generic. With a closure or the name of a function, the check makes an
// ill-typed helper (`iterator-loop-number`), also where the loop's invariant begins with `can_next`. With a function pointer, it stays open
// that the pointer may always be called.
/// The lines of a text, each without the byte that ends it.
#[derive(Drop)]
pub(crate) struct Lines<'a> {
    rest: &'a [u8],
}

impl<'a> Lines<'a> {
    pub(crate) fn new(text: &'a [u8]) -> Lines<'a>
        ensures { result.rest.now ≡ text.now }
    {
        Lines { rest: text }
    }
}

impl<'a> Iterator for Lines<'a> {
    type Item = &'a [u8];

    ghost next_gives = { λ s r t. YieldsFirstRef (λ z. lines z.rest.now) s r t
        × IfSome r (λ x. (length t.rest.now < length s.rest.now) × (length x.now + length t.rest.now ≤ length s.rest.now)) };

    ghost remaining = { λ s. at_most (length s.rest.now) };

    fn next(&mut self) -> Option<&'a [u8]> {
        if self.rest.is_empty() {
            return None;
        }
        let end = self
            .rest
            .iter()
            .position(|byte| *byte == b'\n')
            .unwrap_or(self.rest.len());
        let line = &self.rest[..end];
        self.rest = self.rest.get(end + 1..).unwrap_or_default();
        Some(line)
    }
}

/// The fields of a line, which bytes 9 part.
#[derive(Drop)]
pub(crate) struct LineFields<'a> {
    line: &'a [u8],
}

impl<'a> Model for LineFields<'a> {
    ghost use Rattle.std.specs.Prelude.{List, ℕ};

    ghost Value = { List (List ℕ) };

    ghost use Rattle.script.specs.Pieces.{fields};

    ghost view = { λ f. fields f.line.now };
}

impl<'a> LineFields<'a> {
    pub(crate) fn new(line: &'a [u8]) -> LineFields<'a>
        ensures { result ≡ fields line.now }
    {
        LineFields { line }
    }

    pub(crate) fn count(&self) -> usize
        ensures { result ≡ length self.now }
    {
        self.line.split(|byte| *byte == b'\t').count()
    }

    /// A field by its place from 0, or nothing where there are fewer.
    pub(crate) fn get(&self, place: usize) -> &'a [u8]
        ensures { result.now ≡ field_at self.now place }
    {
        self.line
            .split(|byte| *byte == b'\t')
            .nth(place)
            .unwrap_or_default()
    }
}
