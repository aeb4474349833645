ghost use Rattle.std.specs.Prelude.{◌≡◌, ◌+◌, ◌≤◌, length, Ok, Err};
ghost use Rattle.std.specs.Result.{result_map_both};
ghost use Rattle.processor.specs.Steps.{fresh, wanted, if_idle, take_gives, return_gives, reset_gives, mask_gives, after, gives, leaves};
ghost use Rattle.processor.specs.declared.state.Done.TheVariants.{Took, Opened, Returned, Masked, WasReset};
ghost use Rattle.processor.specs.declared.state.ProcessorCall.TheVariants.{Take, Acknowledge, Return};
ghost use Rattle.processor.specs.declared.state.ProcessorFault.TheVariants.{LevelTaken};

use crate::processor::Processor;
use crate::state::{Done, ProcessorCall, ProcessorFault, State};
use arrayvec::ArrayVec;

// Why a mask is refused while a level is taken.
fn mask_fault(mask: u8, level: u8) -> ProcessorFault
    ensures { Err result ≡ mask_gives mask (Err (LevelTaken level)) }
{
    if mask > 7 {
        ProcessorFault::BadMask(mask)
    } else {
        ProcessorFault::LevelTaken(level)
    }
}

impl Processor {
    /// A processor as it is made: mask 7, nothing taken, nothing open.
    pub fn new(number: u32) -> Processor
        ensures { result ≡ fresh number }
    {
        Processor {
            number,
            mask: 7,
            state: State::Idle,
            masks: ArrayVec::new(),
        }
    }

    /// How many services are open: never over 16, and under 16 while a level is taken.
    pub fn service_count(&self) -> u8
        ensures count { result ≡ length self.now.services }
        ensures room { length self.now.services + wanted self.now.state ≤ 16 }
    {
        self.masks.len() as u8
    }

    /// Takes the presented level, if it is above the mask.
    pub fn take_level(&mut self, presented: u8) -> Result<Option<u8>, ProcessorFault>
        ensures result { result_map_both Took (λ e. e) result ≡ gives self.old (Take presented) }
        ensures after { self.new ≡ leaves self.old (Take presented) }
    {
        self.check_idle()?;
        self.take_up(presented)
    }

    /// Opens the service of the level taken, and gives that level.
    pub fn open_service(&mut self) -> Result<u8, ProcessorFault>
        ensures result { result_map_both Opened (λ e. e) result ≡ gives self.old Acknowledge }
        ensures after { self.new ≡ leaves self.old Acknowledge }
    {
        let State::Taken { level, found } = self.state else {
            return Err(ProcessorFault::NothingTaken);
        };
        self.masks.push(found);
        self.state = State::Idle;
        Ok(level)
    }

    /// Closes the service of this number, the innermost, and gives the mask that is put back.
    pub fn close_service(&mut self, depth: u8) -> Result<u8, ProcessorFault>
        ensures result { result_map_both Returned (λ e. e) result ≡ gives self.old (Return depth) }
        ensures after { self.new ≡ leaves self.old (Return depth) }
    {
        self.check_idle()?;
        self.close(depth)
    }

    /// Makes a call. A taken level allows only an acknowledge.
    pub fn step(&mut self, call: ProcessorCall) -> Result<Done, ProcessorFault>
        ensures result { result ≡ gives self.old call }
        ensures after { self.new ≡ leaves self.old call }
    {
        match (self.state, call) {
            (State::Idle, ProcessorCall::Take { presented }) => {
                Ok(Done::Took(self.take_up(presented)?))
            }
            (State::Idle, ProcessorCall::Acknowledge) => Err(ProcessorFault::NothingTaken),
            (State::Idle, ProcessorCall::Return { depth }) => {
                Ok(Done::Returned(self.close(depth)?))
            }
            (State::Idle, ProcessorCall::Mask { mask }) => {
                self.set_mask(mask)?;
                Ok(Done::Masked(mask))
            }
            (State::Idle, ProcessorCall::Reset) => {
                self.clear()?;
                Ok(Done::WasReset)
            }
            (State::Taken { .. }, ProcessorCall::Acknowledge) => {
                Ok(Done::Opened(self.open_service()?))
            }
            (State::Taken { level, .. }, ProcessorCall::Mask { mask }) => {
                Err(mask_fault(mask, level))
            }
            (
                State::Taken { level, .. },
                ProcessorCall::Take { .. } | ProcessorCall::Return { .. } | ProcessorCall::Reset,
            ) => Err(ProcessorFault::LevelTaken(level)),
        }
    }

    // Refuses while a level is taken.
    fn check_idle(&self) -> Result<(), ProcessorFault>
        ensures { result ≡ if_idle self.now.state (Ok tt) }
    {
        match self.state {
            State::Idle => Ok(()),
            State::Taken { level, .. } => Err(ProcessorFault::LevelTaken(level)),
        }
    }

    // Takes the presented level, if it is above the mask.
    fn take_up(&mut self, presented: u8) -> Result<Option<u8>, ProcessorFault>
        ensures result { result_map_both Took (λ e. e) result ≡ take_gives self.old presented }
        ensures after { self.new ≡ after self.old (take_gives self.old presented) }
    {
        if self.masks.is_full() {
            return Err(ProcessorFault::Full);
        }
        if presented <= self.mask {
            return Ok(None);
        }
        self.state = State::Taken {
            level: presented,
            found: self.mask,
        };
        self.mask = presented;
        Ok(Some(presented))
    }

    // Closes the service of this number, if it is the innermost. A return leaves a processor idle.
    fn close(&mut self, depth: u8) -> Result<u8, ProcessorFault>
        ensures result { result_map_both Returned (λ e. e) result ≡ return_gives self.old.services depth }
        ensures after { self.new ≡ after self.old (return_gives self.old.services depth) }
    {
        if depth as usize != self.masks.len() {
            return Err(ProcessorFault::NotInnermost(depth));
        }
        self.mask = self.masks.pop().ok_or(ProcessorFault::NotInnermost(depth))?;
        self.state = State::Idle;
        Ok(self.mask)
    }

    // Sets the mask.
    fn set_mask(&mut self, mask: u8) -> Result<(), ProcessorFault>
        ensures result { result_map_both (λ _. Masked mask) (λ e. e) result ≡ mask_gives mask (Ok (Masked mask)) }
        ensures after { self.new ≡ after self.old (mask_gives mask (Ok (Masked mask))) }
    {
        if mask > 7 {
            return Err(ProcessorFault::BadMask(mask));
        }
        self.mask = mask;
        Ok(())
    }

    // Sets the mask to 7, if no service is open.
    fn clear(&mut self) -> Result<(), ProcessorFault>
        ensures result { result_map_both (λ _. WasReset) (λ e. e) result ≡ reset_gives self.old.services }
        ensures after { self.new ≡ after self.old (reset_gives self.old.services) }
    {
        if !self.masks.is_empty() {
            return Err(ProcessorFault::ServicesOpen(self.service_count()));
        }
        self.mask = 7;
        Ok(())
    }
}
