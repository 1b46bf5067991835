// Asking any channel of totals, layered or not, and comparing what it answers.
use channel::{Channel, measure_of};
use measure::Sum;
use std::process::Abort;

// How many places the channel prices; then each place and letter number with the price that is due there.
pub fn check_prices<C: Channel<Measure = Sum>>(
    rt: &impl Abort,
    channel: &C,
    places: usize,
    prices: &[(usize, u8, u32)],
) {
    assert_eq!(rt; channel.priced(), places);
    for &(place, letter, price) in prices {
        assert_eq!(rt; channel.price(place, letter), Sum(price));
    }
}

// What a word of letter numbers measures.
pub fn check_total<C: Channel<Measure = Sum>>(
    rt: &impl Abort,
    channel: &C,
    word: &[u8],
    total: u32,
) {
    assert_eq!(rt; measure_of(channel, word), Sum(total));
}
