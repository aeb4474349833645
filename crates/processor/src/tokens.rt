ghost use Rattle.std.specs.Prelude.{◌≡◌, true};
ghost use Rattle.std.specs.Result.{result_map_both};
ghost use Rattle.processor.specs.Tokens.{token, with_token};

/// A right that was handed out. It bears the number of the processor that handed it out and the depth of the service that it is for, and
/// must be handed in: only a spent token may be let go.
pub struct Token<R> {
    pub(crate) number: u32,
    pub(crate) depth: u8,
    pub(crate) right: R,
    // A rule of the project: `Drop` asks for this flag, so that the prover refuses a token that is lost.
    pub(crate) spent: bool,
}

/// The right to acknowledge a level that was taken.
#[derive(Drop)]
pub struct TakenLevel {
    pub(crate) level: u8,
}

/// The right to return from a service.
#[derive(Drop)]
pub struct OpenService;

/// The token of a level that was taken. Its depth is that of the service to come.
pub type TakenToken = Token<TakenLevel>;

/// The token of a service.
pub type ServiceToken = Token<OpenService>;

impl<R: Drop> Drop for Token<R> {
    fn drop(self)
        requires { self.spent ≡ true }
    {
        let Token {
            number: _,
            depth: _,
            right: _,
            spent: _,
        } = self;
    }
}

impl<R: Drop> Token<R> {
    // A token as it is handed out.
    pub(crate) fn new(number: u32, depth: u8, right: R) -> Token<R>
        ensures { result ≡ token number depth right }
    {
        Token {
            number,
            depth,
            right,
            spent: false,
        }
    }

    // Hands the token in for what its call did: spends it if the call was granted, and gives it back with the fault if not.
    pub(crate) fn hand_in<T, F>(self, done: Result<T, F>) -> Result<T, Refused<F, Token<R>>>
        ensures { result ≡ result_map_both (λ a. a) (with_token self) done }
    {
        // A match, since `map` and `map_err` would each want the token.
        match done {
            Ok(value) => {
                self.spend();
                Ok(value)
            }
            Err(fault) => Err(Refused { fault, token: self }),
        }
    }

    // Lets the token go, spent.
    fn spend(mut self) {
        self.spent = true;
    }
}

impl TakenToken {
    /// The level that was taken.
    pub fn level(&self) -> u8
        ensures { result ≡ self.now.right.level }
    {
        self.right.level
    }
}

/// A refused call: why, and the token back. It may be let go where its token may.
#[derive(Drop)]
pub struct Refused<F, T> {
    pub fault: F,
    pub token: T,
}
