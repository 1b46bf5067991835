// Codes: what they answer once built, what they refuse, and the largest.
use code::{Code, Refusal};
use pauli::{MAX_PLACES, MAX_ROWS, letter_byte};
use std::process::Abort;
use std::test::Fail;

// ---- what a code answers once it is built

// The code of so many places with these rows.
fn built(places: usize, rows: &[&[u8]]) -> Result<Code, Refusal> {
    let mut code = Code::bare();
    code.begin(places)?;
    for row in rows {
        code.add_row(row)?;
    }
    Ok(code)
}

// The code of five places that has a single error of one letter for each syndrome.
fn five() -> Result<Code, Refusal> {
    built(5, &[b"ZXIII", b"XZXII", b"IXZXI", b"IIXZX"])
}

// The syndrome of an error as a number, bit k for row k from 0.
fn syndrome_number(code: &Code, error: &[u8]) -> Result<u64, Refusal> {
    let syndrome = code.syndrome(error)?;
    let mut number = 0;
    for row in 0..16usize {
        if syndrome.bit(row) {
            number |= 1u64 << row;
        }
    }
    Ok(number)
}

#[test]
fn a_bare_code_has_one_place_and_no_rows(rt: HostRuntime) -> Result<(), Fail> {
    let code = Code::bare();
    assert_eq!(rt; code.places(), 1);
    assert_eq!(rt; code.rows(), 0);
    assert_eq!(rt; syndrome_number(&code, b"Y")?, 0);
    Ok(())
}

#[test]
fn rows_are_read_back_letter_by_letter(rt: HostRuntime) -> Result<(), Fail> {
    let code = five()?;
    assert_eq!(rt; code.places(), 5);
    assert_eq!(rt; code.rows(), 4);
    let rows = [b"ZXIII", b"XZXII", b"IXZXI", b"IIXZX"];
    for (r, row) in rows.iter().enumerate() {
        for (i, byte) in row.iter().enumerate() {
            assert_eq!(rt; letter_byte(code.letter_at(r, i)), *byte);
        }
    }
    assert_eq!(rt; code.letter_at(4, 0), 0);
    assert_eq!(rt; code.letter_at(0, 5), 0);
    assert_eq!(rt; code.letter_at(usize::MAX, usize::MAX), 0);
    Ok(())
}

#[test]
fn rows_clash_where_letters_differ(rt: HostRuntime) -> Result<(), Fail> {
    let code = built(2, &[b"XX", b"ZZ", b"YY"]);
    assert!(rt; code.is_err());
    let code = built(2, &[b"XX", b"ZZ"])?;
    assert_eq!(rt; code.against(0, 0), 0);
    assert_eq!(rt; code.against(0, 1), 2);
    assert_eq!(rt; code.against(0, 2), 3);
    assert_eq!(rt; code.against(1, 3), 1);
    assert_eq!(rt; code.against(2, 3), 0);
    Ok(())
}

// Errors of the five-place code, each with its syndrome as a number.
const SYNDROMES: [(&[u8], u64); 5] = [
    (b"IIIYI", 0b1100),
    (b"IIIXI", 0b1000),
    (b"IIIIY", 0b1000),
    (b"ZIIII", 0b0010),
    (b"ZXIII", 0),
];

#[test]
fn syndromes_of_the_five_place_code(rt: HostRuntime) -> Result<(), Fail> {
    let code = five()?;
    for (error, number) in SYNDROMES {
        assert_eq!(rt; syndrome_number(&code, error)?, number);
    }
    Ok(())
}

#[test]
fn every_syndrome_of_the_five_place_code_is_explained(rt: HostRuntime) -> Result<(), Fail> {
    let code = five()?;
    let mut seen = 0u64;
    for error in 0..1024u16 {
        let text = [0, 2, 4, 6, 8].map(|k| letter_byte((error.wrapping_shr(k) & 3) as u8));
        seen |= 1u64 << (syndrome_number(&code, &text)? & 15);
    }
    assert_eq!(rt; seen, 0xffff);
    Ok(())
}

#[test]
fn equal_codes_have_the_same_rows_in_the_same_order(rt: HostRuntime) -> Result<(), Fail> {
    assert!(rt; five()? == five()?);
    assert!(rt; built(2, &[b"XX", b"ZZ"])? != built(2, &[b"ZZ", b"XX"])?);
    assert!(rt; built(2, &[b"XX"])? != built(2, &[b"XX", b"ZZ"])?);
    assert!(rt; built(1, &[])? != built(2, &[])?);
    assert!(rt; built(1, &[])? == Code::bare());
    Ok(())
}

// ---- refusals, with number and place

// The number and place of the refusal that a call answers, after which the code is as before.
fn refused<F: FnOnce(&mut Code) -> Result<(), Refusal>>(
    rt: &impl Abort,
    code: &mut Code,
    call: F,
) -> Result<(u8, usize), Fail>
    requires { F.IsAlwaysCallable call }
{
    let before = *code;
    let Err(refusal) = call(code) else {
        return Err(Fail::new("the call was accepted"));
    };
    assert!(rt; *code == before);
    Ok((refusal.number(), refusal.place()))
}

#[test]
fn no_code_has_no_places_or_too_many(rt: HostRuntime) -> Result<(), Fail> {
    let mut code = five()?;
    assert_eq!(rt; refused(&rt, &mut code, |c| c.begin(0))?, (1, 0));
    assert_eq!(rt;
        refused(&rt, &mut code, |c| c.begin(MAX_PLACES + 1))?,
        (1, MAX_PLACES + 1)
    );
    assert_eq!(rt;
        refused(&rt, &mut code, |c| c.begin(usize::MAX))?,
        (1, usize::MAX)
    );
    code.begin(1)?;
    code.begin(MAX_PLACES)?;
    assert_eq!(rt; code.places(), MAX_PLACES);
    assert_eq!(rt; code.rows(), 0);
    Ok(())
}

// Rows that the five-place code refuses, each with the refusal's number and place.
const REFUSED: [(&[u8], u8, usize); 18] = [
    // the length is not that of the code, whatever the bytes are
    (b"", 3, 0),
    (b"IIII", 3, 4),
    (b"IIIIII", 3, 6),
    (b"????????", 3, 8),
    // a byte names no letter: the first of two, small letters, bytes above 127, and before any row is looked at
    (b"IIxIi", 4, 3),
    (b"IIII0", 4, 5),
    (b"I\xc3\x89II", 4, 2),
    (b"\xff\xff\xff\xff\xff", 4, 1),
    (b"ZZZZ?", 4, 5),
    // it clashes with a row: of rows 2 and 4 the lowest
    (b"IIIIZ", 5, 4),
    (b"XIIII", 5, 1),
    (b"IIZII", 5, 2),
    (b"IIYII", 5, 2),
    // it is a sum: of none, of one, of two neighbours, of the first and the last
    (b"IIIII", 6, 5),
    (b"ZXIII", 6, 5),
    (b"IIXZX", 6, 5),
    (b"YYXII", 6, 5),
    (b"ZXXZX", 6, 5),
];

#[test]
fn the_five_place_code_refuses_what_it_should(rt: HostRuntime) -> Result<(), Fail> {
    let mut code = five()?;
    for (row, number, place) in REFUSED {
        assert_eq!(rt;
            refused(&rt, &mut code, |c| c.add_row(row))?,
            (number, place)
        );
    }
    code.add_row(b"IIIIX")?;
    assert_eq!(rt; code.rows(), 5);
    Ok(())
}

#[test]
fn the_first_row_is_not_blank(rt: HostRuntime) -> Result<(), Fail> {
    assert_eq!(rt;
        refused(&rt, &mut Code::bare(), |c| c.add_row(b"I"))?,
        (6, 1)
    );
    Ok(())
}

// Whether a refusal says that the row clashes or is a sum.
fn clash_or_sum(refusal: Refusal) -> bool {
    matches!(refusal.number(), 5 | 6)
}

#[test]
fn a_code_with_as_many_rows_as_places_takes_no_more(rt: HostRuntime) -> Result<(), Fail> {
    let mut code = built(2, &[b"XX", b"ZZ"])?;
    for a in 0..4u8 {
        for b in 0..4u8 {
            let Err(refusal) = code.add_row(&[letter_byte(a), letter_byte(b)]) else {
                return Err(Fail::new("a row more"));
            };
            assert!(rt; clash_or_sum(refusal));
        }
    }
    assert_eq!(rt; code.rows(), 2);
    Ok(())
}

#[test]
fn an_error_is_a_word_of_the_code(rt: HostRuntime) -> Result<(), Fail> {
    let code = five()?;
    let Err(refusal) = code.syndrome(b"XXXXXX") else {
        return Err(Fail::new("too long"));
    };
    assert_eq!(rt; (refusal.number(), refusal.place()), (3, 6));
    let Err(refusal) = code.syndrome(&[b'X', 0x80, b'X', b'?', b'X']) else {
        return Err(Fail::new("no letters"));
    };
    assert_eq!(rt; (refusal.number(), refusal.place()), (4, 2));
    Ok(())
}

// ---- the most places and rows

// The text of a word that has one letter.
fn single(index: usize, letter: u8) -> [u8; MAX_PLACES] {
    let mut text = [b'I'; MAX_PLACES];
    if let Some(byte) = text.get_mut(index) {
        *byte = letter;
    }
    text
}

// The code of the most places with an X of its own in each of the most rows.
fn largest() -> Result<Code, Fail> {
    let mut code = Code::bare();
    code.begin(MAX_PLACES)?;
    for k in 0..MAX_ROWS {
        code.add_row(&single(k, b'X'))?;
    }
    Ok(code)
}

#[test]
fn a_full_code_refuses_every_row(rt: HostRuntime) -> Result<(), Fail> {
    let mut code = largest()?;
    assert_eq!(rt; code.rows(), MAX_ROWS);
    assert_eq!(rt;
        refused(&rt, &mut code, |c| c.add_row(&single(MAX_PLACES - 1, b'X')))?,
        (2, MAX_ROWS)
    );
    assert_eq!(rt;
        refused(&rt, &mut code, |c| c.add_row(&single(0, b'Z')))?,
        (2, MAX_ROWS)
    );
    assert_eq!(rt; refused(&rt, &mut code, |c| c.add_row(b""))?, (2, MAX_ROWS));
    assert_eq!(rt;
        refused(&rt, &mut code, |c| c.add_row(&[0xff; 3]))?,
        (2, MAX_ROWS)
    );
    Ok(())
}

#[test]
fn the_last_row_has_the_last_bit(rt: HostRuntime) -> Result<(), Fail> {
    let code = largest()?;
    let last = MAX_ROWS - 1;
    let syndrome = code.syndrome(&single(last, b'Z'))?;
    for row in 0..MAX_ROWS + 1 {
        assert_eq!(rt; syndrome.bit(row), row == last);
    }
    assert_eq!(rt; code.against(last, 2), 1u64 << last);
    assert_eq!(rt; code.letter_at(last, last), 1);
    Ok(())
}

#[test]
fn the_last_place_counts(rt: HostRuntime) -> Result<(), Fail> {
    let mut code = Code::bare();
    code.begin(MAX_PLACES)?;
    code.add_row(&single(MAX_PLACES - 1, b'Y'))?;
    assert_eq!(rt; code.letter_at(0, MAX_PLACES - 1), 2);
    assert_eq!(rt;
        refused(&rt, &mut code, |c| c.add_row(&single(MAX_PLACES - 1, b'Z')))?,
        (5, 1)
    );
    assert_eq!(rt;
        refused(&rt, &mut code, |c| c.add_row(&single(MAX_PLACES - 1, b'Y')))?,
        (6, 2)
    );
    assert_eq!(rt;
        refused(&rt, &mut code, |c| c.add_row(&single(MAX_PLACES - 1, b'y')))?,
        (4, MAX_PLACES)
    );
    code.add_row(&single(MAX_PLACES - 2, b'Z'))?;
    assert_eq!(rt; code.rows(), 2);
    Ok(())
}
