//! The workload.

ghost use Rattle.std.specs.Prelude.{◌≡◌, ◌↔◌, ◌≤◌, ◌<◌, ◌^◌, ◌+◌, ◌*◌, ◌-◌, length, take, IsNone, IfSome, IfNone};
ghost use Rattle.vsw_generate.specs.Draws.{after};
ghost use Rattle.vsw_generate.specs.Packets.{bytes_of, len_of};
ghost use Rattle.vsw_generate.specs.Policy.{policy_text};

use crate::draws::{drawn, next_state};
use crate::frame::write_one;
use crate::policy::policy;
use std::marker::Model;
use vsw_base::Moment;

/// A packet that was made: when it comes, and its bytes.
#[derive(Drop)]
pub struct Made {
    pub moment: Moment,
    pub len: u32,
}

/// Packets still to be drawn. Contracts see the state of the generator, the packets given and those left.
#[derive(Drop)]
pub struct Workload {
    state: u32,
    given: u32,
    left: u32,
}

impl Model for Workload {
    ghost use Rattle.std.specs.Prelude.{ℕ, ◌<◌, ◌+◌, ◌^◌};

    ghost Value = { ℕ × ℕ × ℕ };

    ghost view = { λ s. (s.state, s.given, s.left) };

    ghost invariant = { λ s. (s.state < 2 ^ 31) × (s.given + s.left < 2 ^ 32) };
}

impl Workload {
    /// So many packets, drawn from this number.
    pub fn new(start: u32, packets: u32) -> Workload
        requires { start < 2 ^ 31 }
        ensures { result ≡ (start, 0, packets) }
    {
        Workload {
            state: start,
            given: 0,
            left: packets,
        }
    }

    /// The policy file that the packets are meant for, as text.
    pub fn policy() -> &'static [u8]
        ensures { result.now ≡ policy_text }
    {
        policy()
    }

    /// Writes the next packet at the front of the room; `None` where none is left.
    pub fn next(&mut self, out: &mut [u8]) -> Option<Made>
        requires { 200 ≤ length out.old }
        ensures none { IsNone result ↔ (self.old.2 ≡ 0) }
        ensures unchanged { IfNone result (self.new ≡ self.old) }
        ensures moment { IfSome result (λ made. made.moment ≡ 1000 * self.old.1) }
        ensures bytes { IfSome result (λ made. (made.len ≡ len_of self.old.0) × (take made.len out.new ≡ bytes_of self.old.0)) }
        ensures after { IfSome result (λ made. self.new ≡ (after self.old.0, self.old.1 + 1, self.old.2 - 1)) }
    {
        if self.left == 0 {
            return None;
        }
        let first = next_state(self.state);
        let second = next_state(first);
        let third = next_state(second);
        let flow = (drawn(first) % 256) as u8;
        let size = (drawn(third) % 64) as usize;
        let len = write_one(out, flow, drawn(second) % 4, size);
        let moment = Moment::of(u64::from(self.given) * 1_000);
        self.state = third;
        self.given += 1;
        self.left -= 1;
        Some(Made {
            moment,
            len: len as u32,
        })
    }
}
