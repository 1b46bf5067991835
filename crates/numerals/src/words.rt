// The words of a text, one after the other.
ghost use Rattle.std.specs.Iterator.{YieldsFirstRef, item_count};
ghost use Rattle.numerals.specs.Numbers.{words_in};

// The bytes of white space: space, tab, new line, form feed, carriage return.
const BLANKS: [char; 5] = [' ', '\t', '\n', '\x0c', '\r'];

// The words that a text has left. std's split_ascii_whitespace yields the same, but makes an empty part of each blank beyond the first: a line
// of aligned numbers takes it twice as long.
#[derive(Drop)]
pub(crate) struct Words<'a>(pub &'a str);

impl<'a> Iterator for Words<'a> {
    type Item = &'a str;

    ghost next_gives = { YieldsFirstRef (λ s. words_in s.0.now) };

    ghost remaining = { item_count (λ s. words_in s.0.now) };

    fn next(&mut self) -> Option<&'a str> {
        let text = self.0.trim_ascii_start();
        if text.is_empty() {
            self.0 = text;
            return None;
        }
        match text.split_once(BLANKS) {
            Some((word, left)) => {
                self.0 = left;
                Some(word)
            }
            None => {
                self.0 = "";
                Some(text)
            }
        }
    }
}
