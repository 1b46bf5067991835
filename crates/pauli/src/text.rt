// Words as text.
ghost use Rattle.std.specs.Prelude.{◌≡◌, ◌≤◌, length, take};
ghost use Rattle.pauli.specs.Limits.{max_places};
ghost use Rattle.pauli.specs.Text.{padded, written, Lettered, Read, Reading};

use super::MAX_PLACES;
use super::letter::Letter;
use super::letters::Letters;

// A text is no word, and this is the first place that says so: no letter stands there, or there are too many.
#[derive(Clone, Copy, PartialEq, Eq, Debug)]
pub struct NoWord {
    pub place: usize,
}

// The letters of a text that is not too long, or the place of the first byte that is no letter.
#[tactic(auto, using(crate::proofs::Reading::none_read, crate::proofs::Reading::one_more, crate::proofs::Reading::no_letter, crate::proofs::Reading::all_read))]
fn spell(text: &[u8]) -> Result<Letters, NoWord>
    requires { length text.now ≤ max_places }
    ensures { Reading text.now result }
{
    let mut word = Letters::blank();
    // By index: tried with a zip, and after one over what is lent to be written a proof knows nothing of what was written.
    for (i, byte) in text.iter().enumerate() {
        let letter = Letter::named(*byte).ok_or(NoWord { place: i + 1 })?;
        word.numbers[i] = letter.number();
    }
    Ok(word)
}

// The letters that a text spells, with I after them, or the first place at which it is no word.
pub fn read_word(text: &[u8]) -> Result<Letters, NoWord>
    ensures { Reading text.now result }
{
    if text.len() > MAX_PLACES {
        return Err(NoWord {
            place: MAX_PLACES + 1,
        });
    }
    spell(text)
}

// Writes the bytes of a word's letters over the front of an output, as many as there is room for.
// An output of no more places than a word may have then reads back as its first letters.
pub fn write_word(word: &Letters, output: &mut [u8])
    ensures bytes { output.new ≡ written word.now.numbers output.old }
    ensures back { Lettered word.now.numbers → length output.old ≤ max_places
        → Read output.new (padded (take (length output.old) word.now.numbers)) }
{
    let room = output.len().min(MAX_PLACES);
    // By index, for the same reason.
    for (i, byte) in output[..room].iter_mut().enumerate() {
        *byte = Letter::of(word.numbers[i]).byte();
    }
}
