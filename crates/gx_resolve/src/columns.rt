ghost use Rattle.std.specs.Prelude.{◌≡◌, ◌≤◌, length};
ghost use Rattle.gx_resolve.specs.Columns.{column_of};

use gx_tree::{Column, Kind, Txt};

/// The place and the kind of the column of this name, where there is one.
pub fn find_column(columns: &[Column], name: &Txt) -> Option<(u8, Kind)>
    requires { length columns.now ≤ 256 }
    ensures { result ≡ column_of name.now columns.now }
{
    let mut place = 0usize;
    for column in columns {
        if column.name == *name {
            return Some((place as u8, column.kind));
        }
        place += 1;
    }
    None
}
