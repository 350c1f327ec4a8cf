ghost use Rattle.std.specs.Prelude.{◌≡◌, ◌≤◌, ◌∷◌, [], IfOk};
ghost use Rattle.std.specs.Option.{option_copied};
ghost use Rattle.gx_meaning.specs.Target.{target_of};
ghost use Rattle.gx_meaning.specs.declared.target.Target.TheVariants.{All as AllOfThem};
ghost use Rattle.gx_meaning.specs.Plan.{piece, pieces};

use crate::targets::target;
use gx_ids::{Duplicate, Mem, Node};
use gx_meaning::{Piece, Target};
use gx_tree::{Cond, Schema, Slice};
use std::alloc::Global;

// The slice for each segment of the condition's target.
pub fn send(
    alloc: Global,
    blank: Vec<Piece>,
    schema: &Schema,
    cond: Option<&Cond>,
    n: u8,
    slice: Slice,
) -> Mem<Vec<Piece>>
    requires blank { blank.items ≡ [] }
    requires some { 1 ≤ n }
    requires few { n ≤ 16 }
    ensures { IfOk result (λ found. found.items ≡ pieces n (target_of n schema.now.dist (option_copied cond.entry)) slice) }
{
    match target_alone(schema, cond, n) {
        Target::One(node) => send_to_one(blank, node, slice),
        Target::All => send_to_all(alloc, blank, n, slice),
    }
}

// The target, without what holds outside it.
fn target_alone(schema: &Schema, cond: Option<&Cond>, n: u8) -> Target
    requires some { 1 ≤ n }
    requires few { n ≤ 16 }
    ensures { result ≡ target_of n schema.now.dist (option_copied cond.entry) }
{
    target(schema, cond, n)
}

fn send_to_one(blank: Vec<Piece>, node: Node, slice: Slice) -> Mem<Vec<Piece>>
    requires { blank.items ≡ [] }
    ensures { IfOk result (λ found. found.items ≡ piece slice node ∷ []) }
{
    let mut found = blank;
    found.push(Piece { node, slice })?;
    Ok(found)
}

// The slice for each of the segments.
pub fn send_to_all(alloc: Global, blank: Vec<Piece>, n: u8, slice: Slice) -> Mem<Vec<Piece>>
    requires blank { blank.items ≡ [] }
    requires few { n ≤ 16 }
    ensures { IfOk result (λ found. found.items ≡ pieces n AllOfThem slice) }
{
    copies(alloc, blank, n, &slice)
}

fn copies(alloc: Global, blank: Vec<Piece>, n: u8, slice: &Slice) -> Mem<Vec<Piece>>
    requires blank { blank.items ≡ [] }
    requires few { n ≤ 16 }
    ensures { IfOk result (λ found. found.items ≡ pieces n AllOfThem slice.now) }
{
    let mut found = blank;
    found.reserve(usize::from(n))?;
    for number in 0..n {
        let slice = slice.copy(alloc)?;
        found.push(Piece {
            node: Node(number + 1),
            slice,
        })?;
    }
    Ok(found)
}
