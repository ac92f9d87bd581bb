#![tactic(auto)]
// The calls as C sees them, on the bytes of the record: definitions and claims (specs/Interface.antt), and how an answer is put together.
ghost use Rattle.std.specs.Prelude.{◌≡◌};
ghost use Rattle.refusals.specs.Refusals.{refused};
ghost use Rattle.interface.specs.Interface.{answer_of};

use refusals::{Numbered, Refusal};

// A value has 16 bits.
pub const VALUE_BOUND: u32 = 65536;

// The refusal's number in the high half, the value in the low half.
pub fn answer(refusal: u8, value: u16) -> u32
    ensures { result ≡ answer_of (record { refusal = refusal; value = value }) }
{
    refusal as u32 * VALUE_BOUND + value as u32
}

pub fn refuse(refusal: Refusal) -> u32
    ensures { result ≡ answer_of (refused refusal) }
{
    answer(refusal.number(), refusal.value() as u16)
}
