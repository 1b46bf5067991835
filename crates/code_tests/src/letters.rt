// Letters and words as text.
use pauli::{Letters, MAX_PLACES, letter_byte, letter_number, read_word, sum, write_word};
use std::test::Fail;

#[test]
fn four_bytes_name_letters(rt: HostRuntime) {
    for byte in 0..=255u8 {
        let expected = match byte {
            b'I' => Some(0),
            b'X' => Some(1),
            b'Y' => Some(2),
            b'Z' => Some(3),
            _ => None,
        };
        assert_eq!(rt; letter_number(byte), expected);
    }
}

#[test]
fn numbers_and_bytes_go_to_and_fro(rt: HostRuntime) {
    for number in 0..4u8 {
        assert_eq!(rt; letter_number(letter_byte(number)), Some(number));
    }
    assert_eq!(rt; letter_byte(255), b'Z');
}

#[test]
fn x_and_y_add_to_z(rt: HostRuntime) {
    assert_eq!(rt; sum(1, 2), 3);
    assert_eq!(rt; sum(2, 3), 1);
    assert_eq!(rt; sum(3, 1), 2);
    for number in 0..4u8 {
        assert_eq!(rt; sum(number, number), 0);
        assert_eq!(rt; sum(0, number), number);
    }
}

// The place at which a text is no word, if it is none.
fn fault(text: &[u8]) -> Option<usize> {
    read_word(text).err().map(|e| e.place)
}

#[test]
fn words_are_bytes_and_not_text(rt: HostRuntime) {
    assert_eq!(rt; fault(b"IXYZ"), None);
    assert_eq!(rt; fault(b""), None);
    assert_eq!(rt; fault(b"IXyZ"), Some(3));
    assert_eq!(rt; fault(&[b'I', 0xc3, 0x89, b'I', b'I']), Some(2));
    assert_eq!(rt; fault(&[b'I', b'I', 0xff]), Some(3));
    assert_eq!(rt; fault(&[0]), Some(1));
}

#[test]
fn a_word_may_be_as_long_as_the_limit(rt: HostRuntime) {
    assert_eq!(rt; fault(&[b'Y'; MAX_PLACES]), None);
    assert_eq!(rt; fault(&[b'Y'; 300]), Some(MAX_PLACES + 1));
}

#[test]
fn a_word_is_written_over_the_front(rt: HostRuntime) -> Result<(), Fail> {
    let Ok(word) = read_word(b"XYZ") else {
        return Err(Fail::new("no word"));
    };
    let mut output = [b'?'; 5];
    write_word(&word, &mut output[0..4]);
    assert_eq!(rt; output, *b"XYZI?");
    write_word(&Letters::blank(), &mut output[0..0]);
    assert_eq!(rt; output, *b"XYZI?");
    Ok(())
}
