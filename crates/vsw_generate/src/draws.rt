//! The numbers that packets are drawn from.

ghost use Rattle.std.specs.Prelude.{◌≡◌, ◌<◌, ◌^◌};
ghost use Rattle.vsw_generate.specs.Draws as spec;

/// The next state of the generator.
pub(crate) fn next_state(state: u32) -> u32
    ensures value { result ≡ spec.next_state state }
    ensures small { result < 2 ^ 31 }
{
    ((u64::from(state) * 1_103_515_245 + 12_345) % 0x8000_0000) as u32
}

/// The number that a state gives, of 15 bits.
pub(crate) fn drawn(state: u32) -> u32
    requires { state < 2 ^ 31 }
    ensures value { result ≡ spec.drawn state }
    ensures small { result < 2 ^ 15 }
{
    state / 0x1_0000
}
