// What a word measures under a channel, under the layers over it, and by each measure.
ghost use Rattle.desk.specs.Reports.{Quoted, Both, quote_text};

use channel::{Channel, measure_of};
use layers::{Erased, Marks, Shifted, WorstOf};
use measure::{Sum, Worst};
use pauli::Letters;
use std::fmt;

#[derive(Clone, Copy)]
pub struct Quote<M> {
    pub plain: M,
    pub erased: M,
    pub shifted: M,
    pub both: M,
}

// The four measures on one line.
impl<M: fmt::Display> fmt::Display for Quote<M> {
    ghost output = { quote_text M.output };

    fn fmt<W: fmt::Write>(&self, f: &mut fmt::Formatter<W>) -> fmt::Result {
        let Quote {
            plain,
            erased,
            shifted,
            both,
        } = self;
        write!(
            f,
            "{plain}, erased {erased}, shifted {shifted}, both {both}"
        )
    }
}

#[derive(Clone, Copy)]
pub struct Quotes {
    pub places: usize,
    pub sum: Quote<Sum>,
    pub worst: Quote<Worst>,
}

// What lies over a channel: the places that are marked, and the letters by which words are shifted.
#[derive(Clone, Copy)]
pub(super) struct Overlay {
    pub(super) marks: Marks,
    pub(super) shifts: Letters,
}

impl Overlay {
    // The channel and the word are the caller's, and neither owns the other, so they are handed in side by side.

    // A word of letter numbers under a channel, with marked places erased, with letters shifted, and with both.
    fn quote<C: Channel + Copy>(&self, channel: &C, word: &[u8]) -> Quote<C::Measure>
        ensures { Quoted C.Measure.scale (C.prices channel.now) self.now.marks.marks self.now.shifts.numbers word.now result }
    {
        let erased = Erased::new(*channel, self.marks);
        let shifted = Shifted::new(*channel, self.shifts);
        let both = Erased::new(shifted, self.marks);
        Quote {
            plain: measure_of(channel, word),
            erased: measure_of(&erased, word),
            shifted: measure_of(&shifted, word),
            both: measure_of(&both, word),
        }
    }

    // How many places a channel prices, and a word by the total of its prices and by the largest of them.
    pub(super) fn quotes<C: Channel<Measure = Sum> + Copy>(
        &self,
        channel: &C,
        word: &[u8],
    ) -> Quotes
        ensures { Both (C.prices channel.now) self.now.marks.marks self.now.shifts.numbers word.now result }
    {
        Quotes {
            places: channel.priced(),
            sum: self.quote(channel, word),
            worst: self.quote(&WorstOf::new(*channel), word),
        }
    }
}
