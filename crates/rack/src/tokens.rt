// The calls by token. A token must be handed in: acknowledge and return spend it, and a refused call gives it back, the same.
ghost use Rattle.std.specs.Prelude.{◌≡◌, if◌then◌else◌, Ok};
ghost use Rattle.card.specs.declared.faults.CardFault.TheVariants.{Oversize};
ghost use Rattle.processor.specs.Tokens.{refused};
ghost use Rattle.rack.specs.declared.calls.Call.TheVariants.{Take};
ghost use Rattle.rack.specs.declared.faults.RackFault.TheVariants.{Card};
ghost use Rattle.rack.specs.Machine.{parts, oversized, rack_leaves};
ghost use Rattle.rack.specs.Tokens.{of_refused, token_take_gives, token_acknowledge_gives, token_acknowledge_exit, token_return_gives, token_return_exit};

use crate::calls::Reached;
use crate::faults::RackFault;
use crate::rack::Rack;
use card::{Card, Handler};
use processor::{ProcessorFault, Refused, ServiceToken, TakenToken};

impl<H: Handler, C: Card> Rack<H, C> {
    /// Takes the presented level, if it is above the mask, and hands out the token for it.
    pub fn take(&mut self) -> Result<Option<TakenToken>, RackFault>
        ensures result { result ≡ token_take_gives (parts H.Handler C.Card) self.old }
        ensures after { self.new ≡ rack_leaves (parts H.Handler C.Card) self.old Take }
    {
        Self::fits()?;
        let presented = self.presented_level();
        Ok(self.processor.take(presented)?)
    }

    /// Spends the token of the level taken: tells who answers, and hands out the token of the service that opens.
    pub fn acknowledge(
        &mut self,
        token: TakenToken,
    ) -> Result<(Reached, ServiceToken), Refused<RackFault, TakenToken>>
        ensures result { result ≡ token_acknowledge_gives (parts H.Handler C.Card) self.old token }
        ensures after { self.new ≡ token_acknowledge_exit (parts H.Handler C.Card) self.old token }
    {
        let token = Self::fitting(token)?;
        let (level, service) = self.processor.acknowledge(token).map_err(of_processor)?;
        Ok((self.answer_at(level), service))
    }

    /// Spends the token of the innermost service, closes it, and gives the mask that is put back.
    pub fn return_from(
        &mut self,
        token: ServiceToken,
    ) -> Result<u8, Refused<RackFault, ServiceToken>>
        ensures result { result ≡ token_return_gives (parts H.Handler C.Card) self.old token }
        ensures after { self.new ≡ token_return_exit (parts H.Handler C.Card) self.old token }
    {
        let token = Self::fitting(token)?;
        self.processor.return_from(token).map_err(of_processor)
    }

    // The token, if both sides are of a size that can be called; a refusal gives it back.
    fn fitting<T>(token: T) -> Result<T, Refused<RackFault, T>>
        ensures { result ≡ (if oversized (parts H.Handler C.Card) then refused (Card Oversize) token else Ok token) }
    {
        // A match, since `map` and `map_err` would each want the token.
        match Self::fits() {
            Ok(()) => Ok(token),
            Err(fault) => Err(Refused {
                fault: RackFault::Card(fault),
                token,
            }),
        }
    }
}

// A refusal of the processor, as the rack tells it. It can't be a `From`, as neither the trait nor `Refused` is of this crate.
fn of_processor<T>(refused: Refused<ProcessorFault, T>) -> Refused<RackFault, T>
    ensures { result ≡ of_refused refused }
{
    let Refused { fault, token } = refused;
    Refused {
        fault: RackFault::Processor(fault),
        token,
    }
}
