// Numbers in a text, with white space between them.
ghost use Rattle.std.specs.Prelude.{◌≡◌, IfOk, vec_items};
ghost use Rattle.std.specs.Option.{option_map};
ghost use Rattle.numerals.specs.Numbers.{prices_in, marks_in};

use super::words::Words;
use layers::Marks;
use measure::Sum;
use std::alloc::{AllocError, Global};

// The prices that a text writes. The heap is handed in where memory is asked for, here as everywhere. It is a loop, since a chain that collects
// says nothing of when it fails, and not the loop below too: this one fills memory and may run out of it.
#[tactic(auto, using(crate::proofs::Numerals::price_taken))]
pub fn prices_in(heap: Global, text: &str) -> Result<Option<Vec<Sum>>, AllocError>
    ensures { IfOk result (λ o. option_map vec_items o ≡ prices_in text.now) }
{
    let mut prices = Vec::new(heap);
    for word in Words(text) {
        let Ok(price) = word.parse::<u32>() else {
            return Ok(None);
        };
        prices.push(Sum(price))?;
    }
    Ok(Some(prices))
}

// The marks at the places that a text writes, and at no others.
#[tactic(auto, using(crate::proofs::Numerals::places_taken))]
pub fn marks_in(text: &str) -> Option<Marks>
    ensures { option_map (λ m. m.marks) result ≡ marks_in text.now }
{
    let mut marks = Marks::none();
    for word in Words(text) {
        marks.mark(word.parse::<usize>().ok()?);
    }
    Some(marks)
}
