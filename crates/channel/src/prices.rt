// What every channel answers, and what it means.
ghost use Rattle.std.specs.Prelude.{◌≡◌, ◌≤◌};
ghost use Rattle.pauli.specs.Limits.{max_places};
ghost use Rattle.channel.specs.Prices.{Prices, asked};

use measure::Measure;

pub trait Channel {
    type Measure: Measure;

    ghost prices: { Self → Prices Self.Measure };

    // How many places are priced, from place 1.
    fn priced(&self) -> usize
        ensures { result ≡ (prices self.now).priced };

    // A channel is asked by numbers, which the cards' interface fixes, and any number has an answer; so no enum stands here or in an impl. A layer
    // answers of places and their bound what the channel below says; Flat and Table each test the place beside the index that this guards.

    // The price of a letter number at a place; the start value at a place that is not priced, and above 3.
    fn price(&self, place: usize, letter: u8) -> Self::Measure
        ensures { result ≡ asked Self.Measure.scale (prices self.now) place letter };

    ghost few: { (c : Self) → (prices c).priced ≤ max_places };
}
