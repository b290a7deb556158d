//! That the numbers of messages are below the end of their type. The functions read numbers and answer nothing: their
//! contracts are what the type says.
ghost use Rattle.std.specs.Prelude.{◌<◌, ◌^◌};
ghost use Rattle.jh_talk.specs.Private.Sides.{AreNumbers};

/// A number of 64 bits is below 2^64.
fn number_is_typed(number: u64)
    ensures { number < 2 ^ 64 }
{}

/// Each of the numbers is below 2^64.
pub(crate) fn numbers_are_typed(numbers: &[u64])
    ensures { AreNumbers numbers.now }
{
    for number in numbers {
        number_is_typed(*number);
    }
}
