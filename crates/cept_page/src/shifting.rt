ghost use Rattle.std.specs.Prelude.{◌≡◌, length};
ghost use Rattle.cept_codes.specs.Command.{IsArea};
ghost use Rattle.cept_codes.specs.Table.{entry, list_by_index};
ghost use Rattle.cept_profile.specs.Cells.{shifted};
ghost use Rattle.cept_page.specs.inside.ShiftedRows.{RowsFit};

use cept_codes::{Row, Up};

/// The entries of all rows after those of an area went one row up or down, with this one for the
/// row that came free.
pub fn shifted_rows<T: Copy>(first: u8, last: u8, way: Up, freed: T, rows: &[T; 24]) -> [T; 24]
    requires area { IsArea first last }
    requires rows { length rows.now ≡ 24 }
    requires fit { RowsFit T.row }
    ensures { result ≡ list_by_index 1 24 (shifted way first last freed (entry freed 1 rows.now)) }
{
    let mut moved = [freed; 24];
    for i in 0..24u8 {
        moved[usize::from(i)] = shifted_row(first, last, way, freed, rows, Row::numbered(i + 1));
    }
    moved
}

/// One of them.
fn shifted_row<T: Copy>(first: u8, last: u8, way: Up, freed: T, rows: &[T; 24], row: Row) -> T
    requires area { IsArea first last }
    requires rows { length rows.now ≡ 24 }
    requires fit { RowsFit T.row }
    ensures { result ≡ shifted way first last freed (entry freed 1 rows.now) row }
{
    let number = row.number();
    let index = row.index();
    if number < first || last < number {
        return rows[index];
    }
    match way {
        Up::Up => {
            if number == last {
                freed
            } else {
                rows[index + 1]
            }
        }
        Up::Down => {
            if number == first {
                freed
            } else {
                rows[index - 1]
            }
        }
    }
}
