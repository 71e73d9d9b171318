// The factory shelf: a constant table of one sheet.
ghost use Rattle.std.specs.Prelude.{◌≡◌, ◌≤◌, true, length};
ghost use Rattle.shelf.specs.Rows.{most_rows};
ghost use Rattle.factory.specs.Rises.{rises};

use shelf::Row;

// The table is the list. Its order is shown once, over the whole table, and kept with it.
#[derive(Clone, Copy)]
pub struct FactoryShelf {
    rows: &'static [Row],
    ghost few: { length rows.now ≤ most_rows },
    ghost rising: { rises rows.now ≡ true },
}

pub mod as_shelf;
