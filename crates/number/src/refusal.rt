// The numbers of refusals, as hosts are told them.
ghost use Rattle.std.specs.Prelude.{◌≡◌};
ghost use Rattle.format.specs.Refused.{number_or_0 as Refused·number_or_0, refusal_number as Refused·refusal_number};

use format::refusal::Refusal;

// The number of a refusal.
pub fn refusal_number(refusal: Refusal) -> u64
    ensures { result ≡ Refused·refusal_number refusal }
{
    refusal as u64
}

// What a call answers in numbers: that of the refusal, or 0.
pub fn number_or_0(answer: Result<(), Refusal>) -> u64
    ensures { result ≡ Refused·number_or_0 answer }
{
    match answer {
        Ok(()) => 0,
        Err(refusal) => refusal_number(refusal),
    }
}
