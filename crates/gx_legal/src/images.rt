// Whether two values, rows or images are one.
ghost use Rattle.std.specs.Prelude.{◌≡◌, Some};
ghost use Rattle.gx_legal.specs.Images.{is_same_image as same_images, is_same_row as same_rows, is_same_value as same_values};

use gx_tree::{Row, Value};

pub fn is_same_image(a: &Option<Row>, b: &Option<Row>) -> bool
    ensures { result ≡ same_images a.now b.now }
{
    match (a, b) {
        (None, None) => true,
        (Some(a), Some(b)) => is_same_row(a.as_slice(), b.as_slice()),
        _ => false,
    }
}

pub(crate) fn is_same_row(a: &[Value], b: &[Value]) -> bool
    ensures { result ≡ same_rows a.now b.now }
{
    *a == *b
}

pub(crate) fn is_image(image: &Option<Row>, row: &Row) -> bool
    ensures { result ≡ same_images image.now (Some row.now) }
{
    match image {
        None => false,
        Some(image) => is_same_row(image.as_slice(), row.as_slice()),
    }
}
