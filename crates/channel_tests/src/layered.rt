// Layers alone, one over another, and over another measure.
use super::asking::{check_prices, check_total};
use channel::{Channel, Flat, Table, measure_of};
use layers::{Erased, Marks, Shifted, WorstOf};
use measure::{Sum, Worst};
use pauli::{Letters, MAX_PLACES};

// Two places: 5, 6, 7 and 8 at the first, 15, 16, 17 and 18 at the second.
const PRICES: [Sum; 8] = [
    Sum(5),
    Sum(6),
    Sum(7),
    Sum(8),
    Sum(15),
    Sum(16),
    Sum(17),
    Sum(18),
];

fn marked(places: &[usize]) -> Marks {
    let mut marks = Marks::none();
    for &place in places {
        marks.mark(place);
    }
    marks
}

fn shifts(numbers: &[(usize, u8)]) -> Letters {
    let mut letters = Letters::blank();
    for &(place, number) in numbers {
        letters.put(place, number);
    }
    letters
}

#[test]
fn marks_stand_at_their_places(rt: HostRuntime) {
    let marks = marked(&[0, 2, MAX_PLACES, MAX_PLACES + 1, usize::MAX]);
    for place in 0..MAX_PLACES + 3 {
        assert_eq!(rt; marks.has(place), place == 2 || place == MAX_PLACES);
    }
    assert!(rt; !marks.has(usize::MAX));
}

#[test]
fn letters_stand_at_their_places(rt: HostRuntime) {
    let letters = shifts(&[
        (0, 3),
        (2, 7),
        (MAX_PLACES, 1),
        (MAX_PLACES + 1, 3),
        (usize::MAX, 3),
    ]);
    for place in 0..MAX_PLACES + 3 {
        let number = match place {
            2 => 7,
            MAX_PLACES => 1,
            _ => 0,
        };
        assert_eq!(rt; letters.at(place), number);
    }
    assert_eq!(rt; letters.at(usize::MAX), 0);
}

// What place 2 costs when it is erased, or a place that is not priced.
const ERASED: [(usize, u8, u32); 12] = [
    (1, 0, 5),
    (1, 3, 8),
    (1, 4, 0),
    (2, 0, 0),
    (2, 1, 0),
    (2, 2, 0),
    (2, 3, 0),
    (2, 255, 0),
    (0, 1, 0),
    (3, 1, 0),
    (MAX_PLACES + 1, 1, 0),
    (usize::MAX, 1, 0),
];

#[test]
fn erased_places_cost_the_start_value(rt: HostRuntime) {
    let erased = Erased::new(Table::new(&PRICES), marked(&[2, 3]));
    check_prices(&rt, &erased, 2, &ERASED);
}

// A number at place 2 of the shifts, and what the letters I, X, Y and Z then cost there.
const SHIFTS: [(u8, [u32; 4]); 7] = [
    (0, [15, 16, 17, 18]),
    (1, [16, 15, 18, 17]),
    (2, [17, 18, 15, 16]),
    (3, [18, 17, 16, 15]),
    (4, [15, 16, 17, 18]),
    (6, [17, 18, 15, 16]),
    (255, [18, 17, 16, 15]),
];

// What costs the same however place 2 is shifted.
const UNSHIFTED: [(usize, u8, u32); 9] = [
    (1, 0, 5),
    (1, 3, 8),
    (2, 4, 0),
    (2, 255, 0),
    (0, 0, 0),
    (0, 3, 0),
    (3, 0, 0),
    (3, 3, 0),
    (usize::MAX, 1, 0),
];

#[test]
fn shifted_letters_cost_what_their_sum_costs(rt: HostRuntime) {
    for (number, prices) in SHIFTS {
        let table = shifts(&[(0, 3), (2, number), (3, number), (MAX_PLACES + 1, 3)]);
        let shifted = Shifted::new(Table::new(&PRICES), table);
        check_prices(&rt, &shifted, 2, &UNSHIFTED);
        for (letter, price) in (0..).zip(prices) {
            assert_eq!(rt; shifted.price(2, letter), Sum(price));
        }
    }
}

// The word IIIYI, where I is free and the others cost 1.
#[test]
fn layers_nest_in_any_order(rt: HostRuntime) {
    let word = [0, 0, 0, 2, 0];
    let flat = Flat::new([Sum(0), Sum(1), Sum(1), Sum(1)]);
    let marks = marked(&[4]);
    let letters = shifts(&[(4, 2), (5, 1)]);
    check_total(&rt, &flat, &word, 1);
    check_total(&rt, &Erased::new(flat, marks), &word, 0);
    check_total(&rt, &Shifted::new(flat, letters), &word, 1);
    check_total(
        &rt,
        &Erased::new(Shifted::new(flat, letters), marks),
        &word,
        1,
    );
    check_total(
        &rt,
        &Shifted::new(Erased::new(flat, marks), letters),
        &word,
        1,
    );
    let twice = Shifted::new(Shifted::new(flat, letters), letters);
    check_total(&rt, &twice, &word, 1);
    check_total(
        &rt,
        &Erased::new(Erased::new(twice, marked(&[5])), marks),
        &word,
        0,
    );
}

#[test]
fn a_layer_may_replace_the_measure(rt: HostRuntime) {
    let worst = WorstOf::new(Table::new(&PRICES));
    assert_eq!(rt; worst.priced(), 2);
    assert_eq!(rt; worst.price(3, 1), Worst(0));
    assert_eq!(rt; measure_of(&worst, &[3, 1]), Worst(16));
    assert_eq!(rt;
        measure_of(&Erased::new(worst, marked(&[2])), &[3, 1]),
        Worst(8)
    );
    let below = Erased::new(Table::new(&PRICES), marked(&[2]));
    assert_eq!(rt; measure_of(&WorstOf::new(below), &[3, 1]), Worst(8));
}
