// What a line is, and what stands after its name.
ghost use Rattle.std.specs.Prelude.{◌≡◌};
ghost use Rattle.desk.specs.Lines.{name_of, rest_of, Names, Parted};

// A setting, or a word to price.
#[derive(Clone, Copy)]
pub(super) enum Kind {
    Flat,
    Table,
    Marks,
    Shifts,
    Word,
}

// What a name names.
impl From<&str> for Kind {
    ghost from_gives = { λ name kind. Names kind name.now };

    fn from(name: &str) -> Kind {
        match name {
            "flat" => Kind::Flat,
            "table" => Kind::Table,
            "marks" => Kind::Marks,
            "shifts" => Kind::Shifts,
            _ => Kind::Word,
        }
    }
}

// The name before the first blank of a text, and what comes after that blank.
fn cut(text: &str) -> (&str, &str)
    ensures name { result.0.now ≡ name_of text.now }
    ensures rest { result.1.now ≡ rest_of text.now }
{
    text.split_once(' ').unwrap_or((text, ""))
}

// What a line is, and what stands after its name; a line that is no text is no setting.
pub(super) fn parted(line: &[u8]) -> (Kind, &str)
    ensures { Parted line.now result.0 result.1.now }
{
    let Ok(text) = std::str::from_utf8(line) else {
        return (Kind::Word, "");
    };
    let (name, rest) = cut(text);
    (Kind::from(name), rest)
}
