// Figures out of a record's payload, one after another. What the payload does not have is 0: the oracle leaves
// out none.
ghost use Rattle.std.specs.Prelude.{◌≤◌};

use entries::{Entry, Sheet};
use std::array;

// Never compared or printed.
#[derive(Clone, Copy)]
pub(crate) struct Figures<'a> {
    rest: &'a [u8],
}

impl<'a> Figures<'a> {
    pub(crate) fn new(payload: &'a [u8]) -> Self {
        Figures { rest: payload }
    }

    pub(crate) fn figure(&mut self) -> u32 {
        let Some((bytes, rest)) = self.rest.split_first_chunk() else {
            return 0;
        };
        self.rest = rest;
        u32::from_be_bytes(*bytes)
    }

    // An array by value asks for a bound of its size.
    pub(crate) fn entry<const N: usize, E: Entry<N>>(&mut self) -> E
        requires { N ≤ 7 }
    {
        E::with(array::from_fn(|_| self.figure()))
    }

    // A sheet with exactly these figures, whether a run leaves it or not. Each of the entries before the
    // count is stated where the figure ahead of it is not 0. (A usize is not From a u32.)
    pub(crate) fn sheet(&mut self) -> Sheet {
        let tank = (self.figure() != 0).then_some(self.entry());
        let site = (self.figure() != 0).then_some(self.entry());
        let anchors = (self.figure() != 0).then_some(self.entry());
        let count = self.figure() as usize;
        let courses = array::from_fn(|_| self.entry());
        Sheet {
            tank,
            site,
            anchors,
            courses,
            count,
        }
    }
}

// fill, fill + 1, .. below 256, over and over.
pub(crate) fn pattern(room: &mut [u8], fill: u8) {
    let mut next = fill;
    for byte in room.iter_mut() {
        *byte = next;
        next = next.wrapping_add(1);
    }
}
