// A code: rows that commute, none a sum of those before it, kept by columns.
ghost use Rattle.std.specs.Prelude.{◌≡◌, ◌<◌, ◌≤◌, length};
ghost use Rattle.pauli.specs.Limits.{max_places, max_rows};
ghost use Rattle.independence.specs.Independence.{Commuting, Independent};
ghost use Rattle.columns.specs.Columns.{Within};
ghost use Rattle.code.specs.Table.{Unused, words_of};

use columns::Columns;

mod build;
mod check;
mod read;
mod size;

// A card allocates nothing, so the table has room for every place, and beside it stands how much of it is used.
#[derive(Clone, Copy)]
pub struct Code {
    places: usize,
    rows: usize,
    columns: Columns,
    ghost some: { 0 < places },
    ghost few: { places ≤ max_places },
    ghost room: { rows ≤ max_rows },
    ghost long: { length columns.table ≡ max_places },
    ghost within: { Within rows columns.table },
    ghost unused: { Unused places columns.table },
    ghost commute: { Commuting (words_of places rows columns.table) },
    ghost free: { Independent places (words_of places rows columns.table) },
}
