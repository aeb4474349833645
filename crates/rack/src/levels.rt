// The presented level.
ghost use Rattle.std.specs.Prelude.{◌≡◌};
ghost use Rattle.bits.specs.Bytes.{byte};
ghost use Rattle.rack.specs.Machine.{parts, admitted, wants, presented};

use crate::rack::Rack;
use bits::{highest_set, with};
use card::{Card, Handler};

impl<H: Handler, C: Card> Rack<H, C> {
    // The levels that the handler admits, bit n for level n.
    fn admitted_levels(&self) -> u8
        ensures { result ≡ byte (admitted (parts H.Handler C.Card) self.now) }
    {
        (1..8u8).fold(0, |levels, level| {
            with(levels, level, self.handler.admits(level))
        })
    }

    // The levels at which a local source asks, or a chain source asks and the handler admits it.
    fn wanted_levels(&self) -> u8
        ensures { result ≡ byte (wants (parts H.Handler C.Card) self.now) }
    {
        self.handler.asked() | self.chain.asked() & self.admitted_levels()
    }

    // Not an Option: 0 is below every mask, so that a take compares it as it is.
    /// The highest level at which a local source asks, or a chain source asks and the handler admits it; 0 if there is none.
    pub fn presented_level(&self) -> u8
        ensures { result ≡ presented (parts H.Handler C.Card) self.now }
    {
        highest_set(self.wanted_levels())
    }
}
