// Flat, Table and the measure of a word.
use super::asking::check_prices;
use super::fading::Fading;
use channel::{Channel, Flat, Table, measure_of};
use measure::{Sum, Worst};
use pauli::MAX_PLACES;
use std::array;

// Places and letter numbers, with what they cost where I, X, Y and Z cost 5, 6, 7 and 8 everywhere.
const FLAT: [(usize, u8, u32); 16] = [
    (1, 0, 5),
    (1, 1, 6),
    (1, 2, 7),
    (1, 3, 8),
    (1, 4, 0),
    (1, 255, 0),
    (2, 3, 8),
    (MAX_PLACES, 0, 5),
    (MAX_PLACES, 3, 8),
    (MAX_PLACES, 4, 0),
    (0, 0, 0),
    (0, 3, 0),
    (MAX_PLACES + 1, 0, 0),
    (MAX_PLACES + 1, 3, 0),
    (usize::MAX, 1, 0),
    (usize::MAX, 255, 0),
];

#[test]
fn flat_prices_every_place_alike_and_none_outside(rt: HostRuntime) {
    let flat = Flat::new([Sum(5), Sum(6), Sum(7), Sum(8)]);
    check_prices(&rt, &flat, MAX_PLACES, &FLAT);
}

// As many entries as a table uses at most, and more than that: 512 and 600.
const MOST: usize = 4 * MAX_PLACES;

const LONG: usize = MOST + 88;

// The lengths of tables, each with how many places it prices.
const LENGTHS: [(usize, usize); 8] = [
    (0, 0),
    (3, 0),
    (4, 1),
    (7, 1),
    (8, 2),
    (MOST - 1, MAX_PLACES - 1),
    (MOST, MAX_PLACES),
    (LONG, MAX_PLACES),
];

// Many entries, of which entry k costs 1000 + k.
fn counted() -> [Sum; LONG] {
    array::from_fn(|k| Sum(1000 + k as u32))
}

// The price of a letter at a place of such a table.
fn due(places: usize, place: usize, letter: u8) -> u32 {
    if !(1..=places).contains(&place) || letter > 3 {
        return 0;
    }
    let index = place.min(MAX_PLACES) - 1;
    1000 + 4 * index as u32 + letter as u32
}

#[test]
fn a_table_prices_a_quarter_of_its_length(rt: HostRuntime) {
    let entries = counted();
    for (length, places) in LENGTHS {
        let table = Table::new(&entries[..length.min(LONG)]);
        assert_eq!(rt; table.priced(), places);
        let last = places.min(MAX_PLACES);
        for place in [0, 1, 2, last, last + 1, MAX_PLACES, usize::MAX] {
            for letter in [0, 1, 2, 3, 4, 255] {
                assert_eq!(rt; table.price(place, letter), Sum(due(last, place, letter)));
            }
        }
    }
}

// Two places: 0, 1, 2 and 3 at the first, 0, 10, 20 and 30 at the second.
const NUMBERS: [u32; 8] = [0, 1, 2, 3, 0, 10, 20, 30];

// Words by their letter numbers, each with its total, its largest price, and its measure where earlier prices count double.
const WORDS: [(&[u8], u32, u32, u32); 7] = [
    (&[], 0, 0, 1),
    (&[1, 2], 21, 20, 26),
    (&[2, 1], 12, 10, 18),
    (&[3, 0], 3, 3, 10),
    (&[0, 4], 0, 0, 5),
    (&[255, 3], 30, 30, 36),
    (&[1, 2, 3], 21, 20, 53),
];

#[test]
fn a_word_measures_its_letters_from_place_one(rt: HostRuntime) {
    let sums = NUMBERS.map(Sum);
    let worsts = NUMBERS.map(Worst);
    let fadings = NUMBERS.map(Fading);
    for (word, total, largest, faded) in WORDS {
        assert_eq!(rt; measure_of(&Table::new(&sums), word), Sum(total));
        assert_eq!(rt; measure_of(&Table::new(&worsts), word), Worst(largest));
        assert_eq!(rt; measure_of(&Table::new(&fadings), word), Fading(faded));
    }
}
