// The calls by token. Each makes `take_level`, `open_service` or `close_service`, and hands a token out or in.
ghost use Rattle.std.specs.Prelude.{◌≡◌, suc, length};
ghost use Rattle.processor.specs.declared.state.ProcessorCall.TheVariants.{Take};
ghost use Rattle.processor.specs.Steps.{gives, leaves};
ghost use Rattle.processor.specs.Tokens.{token_take, token_acknowledge, token_acknowledge_leaves, token_return, token_return_leaves, foreign_fault};

use crate::processor::Processor;
use crate::state::{ProcessorFault, State};
use crate::tokens::{OpenService, Refused, ServiceToken, TakenLevel, TakenToken, Token};

impl Processor {
    /// Takes the presented level, if it is above the mask, and hands out the token for it.
    pub fn take(&mut self, presented: u8) -> Result<Option<TakenToken>, ProcessorFault>
        ensures result { result ≡ token_take self.old (gives self.old (Take presented)) }
        ensures after { self.new ≡ leaves self.old (Take presented) }
    {
        let depth = self.next_depth();
        let taken = self.take_level(presented)?;
        Ok(taken.map(|level| Token::new(self.number, depth, TakenLevel { level })))
    }

    /// Spends the token of the level taken, opens its service, and gives that level and the token of the service.
    pub fn acknowledge(
        &mut self,
        token: TakenToken,
    ) -> Result<(u8, ServiceToken), Refused<ProcessorFault, TakenToken>>
        ensures result { result ≡ token_acknowledge self.old token }
        ensures after { self.new ≡ token_acknowledge_leaves self.old token }
    {
        let depth = self.next_depth();
        if token.number != self.number || token.depth != depth {
            return Err(Refused {
                fault: ProcessorFault::NothingTaken,
                token,
            });
        }
        let level = token.hand_in(self.open_service())?;
        Ok((level, Token::new(self.number, depth, OpenService)))
    }

    /// Spends the token of the innermost service, closes it, and gives the mask that is put back.
    pub fn return_from(
        &mut self,
        token: ServiceToken,
    ) -> Result<u8, Refused<ProcessorFault, ServiceToken>>
        ensures result { result ≡ token_return self.old token }
        ensures after { self.new ≡ token_return_leaves self.old token }
    {
        let depth = token.depth;
        if token.number != self.number {
            let fault = self.foreign_fault(depth);
            return Err(Refused { fault, token });
        }
        token.hand_in(self.close_service(depth))
    }

    // The depth of the service to come.
    fn next_depth(&self) -> u8
        ensures { result ≡ suc (length self.now.services) }
    {
        self.service_count() + 1
    }

    // Why a foreign service token is refused.
    fn foreign_fault(&self, depth: u8) -> ProcessorFault
        ensures { result ≡ foreign_fault self.now.state depth }
    {
        match self.state {
            State::Idle => ProcessorFault::NotInnermost(depth),
            State::Taken { level, .. } => ProcessorFault::LevelTaken(level),
        }
    }
}
