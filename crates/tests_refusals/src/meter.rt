//! The memory of what is tried, of which one growth is refused in a run, and what is told of that.

use std::alloc::Global;
use tests_aids::{Aided, check, check_text, given};
use tests_refusing::Refusing;

/// The memory of what is tried. Devices, keys and what a test itself keeps lie in another one.
pub(crate) type Heap<'h> = &'h Refusing<Global>;

/// No course has so many growths.
pub(crate) const MOST: u64 = 10_000;

/// Counts the growths of a run of which one is refused, and notes what is told of that. A call is named by a letter.
#[derive(Drop)]
pub(crate) struct Meter<'h> {
    pub(crate) heap: Heap<'h>,
    number: u64,
    /// The call whose growth was refused.
    refused: Option<u8>,
    /// It told so.
    told: bool,
}

impl<'h> Meter<'h> {
    /// The growth of this number is refused from now on; none at 0.
    pub(crate) fn new(heap: Heap<'h>, number: u64) -> Meter<'h> {
        heap.refuse(number);
        Meter::after(heap, number)
    }

    /// The growth of this number was to be refused since it was counted.
    pub(crate) fn after(heap: Heap<'h>, number: u64) -> Meter<'h> {
        Meter {
            heap,
            number,
            refused: None,
            told: false,
        }
    }

    /// The call was made, and told that memory ran out or not: whether it is to be made once more. It tells so only
    /// where its own growth was refused.
    pub(crate) fn is_again(&mut self, rt: &impl Aided, call: u8, told: bool) -> bool {
        let was_refused = self.refused.is_some();
        if !was_refused && self.number != 0 && self.heap.asked(self.number) >= self.number {
            self.refused = Some(call);
        }
        if told {
            let is_own = !was_refused && self.refused.is_some();
            check(rt, is_own, "memory ran out, and none was refused");
            self.told = true;
        }
        told
    }
}

/// What came of the refusals.
#[derive(Drop)]
pub(crate) struct Swept {
    /// How many growths were refused, one a run.
    refused: u64,
    /// The calls whose growths were refused, and which didn't tell so.
    untold: Vec<u8>,
}

impl Swept {
    /// None was refused yet.
    pub(crate) fn new(rt: &impl Aided) -> Swept {
        Swept {
            refused: 0,
            untold: Vec::new(rt.alloc()),
        }
    }

    /// Notes what came of a run. True where it met no refusal.
    pub(crate) fn is_over(&mut self, rt: &impl Aided, meter: &Meter<'_>) -> bool {
        let Some(call) = meter.refused else {
            return true;
        };
        self.refused = self.refused.wrapping_add(1);
        if !meter.told {
            given(rt, self.untold.push(call), "memory");
        }
        false
    }

    /// So many growths were refused, and all but so many were told. Those are of these calls.
    pub(crate) fn is(&self, rt: &impl Aided, refused: u64, untold: usize, of: &[u8]) {
        let (found, swallowed) = (self.refused, self.untold.len());
        if found != refused || swallowed != untold {
            rt.fail(format_args!("{found} growths, {swallowed} untold"));
        }
        for call in &self.untold {
            check(rt, of.contains(call), "a call that has to tell so");
        }
    }

    /// So many growths were refused, and all were told but these calls', one after another.
    pub(crate) fn has_untold(&self, rt: &impl Aided, refused: u64, untold: &[u8]) {
        let found = self.refused;
        if found != refused {
            rt.fail(format_args!("{found} growths"));
        }
        check_text(rt, &self.untold, untold);
    }
}
