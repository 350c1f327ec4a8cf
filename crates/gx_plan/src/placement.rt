ghost use Rattle.std.specs.Prelude.{◌≡◌, ◌≤◌, ◌<◌, ◌%◌, ◌+◌};
ghost use Rattle.gx_meaning.specs.Place.{IsWithin, remainder, row_place, value_place};

use crate::fnv::hash;
use gx_ids::{Node, Rid};
use gx_tree::{Dist, Row, Schema, Value};

/// The segment of a key among `n` segments, which are numbered from 1: a whole number goes by its remainder, a text by
/// the remainder of its hash.
pub fn place_value(key: &Value, n: u8) -> Node
    requires some { 1 ≤ n }
    requires few { n ≤ 16 }
    ensures place { result.0 ≡ value_place n key.now }
    ensures first { 1 ≤ result.0 }
    ensures last { result.0 ≤ n }
{
    match key {
        Value::Int(number) => Node(1 + number_remainder(*number, n)),
        Value::Text(text) => Node(1 + hash_remainder(hash(text.as_slice()), n)),
    }
}

/// The segment of a row among `n` segments: that of its key, or in a table distributed randomly the one that its
/// identity gives.
pub fn place(schema: &Schema, row: &Row, rid: Rid, n: u8) -> Node
    requires some { 1 ≤ n }
    requires few { n ≤ 16 }
    requires column { IsWithin schema.now.dist row.now }
    ensures place { result.0 ≡ row_place n schema.now.dist row.now rid }
    ensures first { 1 ≤ result.0 }
    ensures last { result.0 ≤ n }
{
    match schema.dist {
        Dist::By(column) => place_value(&row.as_slice()[column as usize], n),
        Dist::Randomly => Node(1 + rid_remainder(rid, n)),
    }
}

fn number_remainder(number: i64, n: u8) -> u8
    requires some { 1 ≤ n }
    requires few { n ≤ 16 }
    ensures value { result ≡ remainder number n }
    ensures below { result < n }
{
    number.rem_euclid(i64::from(n)) as u8
}

fn hash_remainder(hash: u64, n: u8) -> u8
    requires { 1 ≤ n }
    ensures value { result ≡ hash % n }
    ensures below { result < n }
{
    (hash % u64::from(n)) as u8
}

// A gxid may be the greatest u64, so the sum is taken in 128 bits.
fn rid_remainder(rid: Rid, n: u8) -> u8
    requires { 1 ≤ n }
    ensures value { result ≡ (rid.gxid.0 + rid.ordinal) % n }
    ensures below { result < n }
{
    let sum = u128::from(rid.gxid.0) + u128::from(rid.ordinal);
    (sum % u128::from(n)) as u8
}
