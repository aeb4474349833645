// The worked examples, as one proved fact about the definitions that the cards' and the rack's contracts are stated in.
#![tactic(auto)]

ghost use Rattle.std.specs.Prelude.{◌≡◌};
ghost use Rattle.worked.specs.Worked.{WorkedExamples};

/// What the worked examples say holds of the cards and of the mill's rack. Gives how many there are.
pub fn worked_examples() -> u8
    ensures count { result ≡ 9 }
    ensures examples { WorkedExamples }
{
    9
}
