//! A small generator of numbers.

use tests_aids::{Aided, found};

/// Numbers that look random: of a linear congruential generator, the highest byte.
#[derive(Drop)]
pub(crate) struct Dice {
    pub(crate) state: u64,
}

impl Dice {
    pub(crate) fn roll(&mut self) -> u8 {
        self.state = self
            .state
            .wrapping_mul(6_364_136_223_846_793_005)
            .wrapping_add(1_442_695_040_888_963_407);
        let [high, ..] = self.state.to_be_bytes();
        high
    }

    /// One of these texts.
    pub(crate) fn one_of(&mut self, rt: &impl Aided, all: &[&'static [u8]]) -> &'static [u8] {
        let place = usize::from(self.roll()).checked_rem(all.len());
        let place = found(rt, place, "some");
        *found(rt, all.get(place), "one")
    }

    /// The letter of a call whose answer arrives, or, in one of four cases, that of one whose answer gets lost.
    pub(crate) fn delivery(&mut self, arrives: u8, lost: u8) -> [u8; 1] {
        if self.roll() < 64 { [lost] } else { [arrives] }
    }
}
