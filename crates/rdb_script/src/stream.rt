//! The numbers from which the generated job is made. It touches nothing.

ghost use Rattle.std.specs.Prelude.{◌≡◌, ◌+◌, ◌^◌, ◌%◌, ◌<◌, ◌≤◌};
ghost use Rattle.rdb_script.specs.Stream.{next_state, draw};

/// A stream of numbers: a linear congruential generator modulo 2^64 with the multiplier and the increment of Knuth's
/// MMIX (The Art of Computer Programming, volume 2, section 3.3.4), of which the upper 31 bits are given.
#[derive(Clone, Copy, Debug, PartialEq, Eq)]
pub struct Stream {
    state: u64,
}

const MULTIPLIER: u64 = 6_364_136_223_846_793_005;

const INCREMENT: u64 = 1_442_695_040_888_963_407;

impl Stream {
    /// The stream that goes on from this state.
    pub fn of(state: u64) -> Stream
        ensures { result.state ≡ state }
    {
        Stream { state }
    }

    /// The next number of the stream, modulo the limit.
    #[tactic(auto, using(crate::proofs::StreamLemmas::wrapped), unfolding(crate::specs::Stream::next_state, crate::specs::Stream::draw))]
    pub fn draw(&mut self, limit: u32) -> u32
        requires { 0 < limit }
        ensures value { result ≡ draw limit self.old.state }
        ensures bound { result < limit }
        ensures next { self.new.state ≡ next_state self.old.state }
    {
        self.state = self.state.wrapping_mul(MULTIPLIER).wrapping_add(INCREMENT);
        let number = self.state >> 33;
        number as u32 % limit
    }
}
