// A table in text: rows are counted from 0, and a newline ends each.
ghost use Rattle.std.specs.Prelude.{◌≡◌};
ghost use Rattle.saying.specs.Text.{SaysBy};
ghost use Rattle.telling.specs.Rows.{row_of};

use lines::NEWLINE;

// The row of a table by its number; past the last one nothing.
fn row(table: &[u8], number: u8) -> &[u8]
    ensures { result.now ≡ row_of number table.now }
{
    table
        .split(|c| *c == NEWLINE)
        .nth(usize::from(number))
        .unwrap_or(&[])
}

// Adds a row of a table.
pub fn put(table: &[u8], number: u8, text: &mut [u8], at: usize) -> usize
    ensures { SaysBy (row_of number table.now) at text result }
{
    saying::text(text, at, row(table, number))
}
