// What a word measures.
ghost use Rattle.std.specs.Prelude.{◌≡◌, map};
ghost use Rattle.pauli.specs.Letters.{number};
ghost use Rattle.pauli.specs.Words.{Word};
ghost use Rattle.channel.specs.Prices.{measure_of, measure_of_numbers};

use super::prices::Channel;
use measure::Measure;

// The measure of a word of letter numbers: the start value, joined with the price of one letter after another from place 1. A number
// above 3 costs the start value. A channel does not own the words that are measured under it, so the two are handed in side by side.
#[tactic(auto, using(crate::proofs::Joined::joining))]
pub fn measure_of<C: Channel>(channel: &C, word: &[u8]) -> C::Measure
    ensures numbers { result ≡ measure_of_numbers C.Measure.scale (C.prices channel.now) word.now }
    ensures letters { (w : Word) → word.now ≡ map number w → result ≡ measure_of C.Measure.scale (C.prices channel.now) w }
{
    let mut total = C::Measure::start();
    for (i, &letter) in word.iter().enumerate() {
        total = total.join(channel.price(i + 1, letter));
    }
    total
}
