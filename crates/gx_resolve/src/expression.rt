ghost use Rattle.std.specs.Prelude.{◌≡◌, ◌≤◌, length, IfOk};
ghost use Rattle.gx_resolve.specs.Typing.{typed_of};

use crate::columns::find_column;
use crate::node::{column, negation, number, operation, opposite, text};
use crate::typed::Typed;
use gx_grammar::Syn;
use gx_ids::Mem;
use gx_tree::Column;
use std::alloc::Global;

/// What a written expression is over these columns.
pub fn type_expression(alloc: Global, columns: &[Column], syn: &Syn) -> Mem<Typed>
    requires { length columns.now ≤ 256 }
    ensures { IfOk result (λ t. t ≡ typed_of columns.now syn.now) }
{
    match syn {
        Syn::Number(negative, size) => Ok(number(*negative, *size)),
        Syn::Text(content) => text(alloc, content),
        Syn::Column(name) => Ok(column(find_column(columns, name))),
        Syn::Neg(inner) => negation(alloc, type_expression(alloc, columns, inner.get())?),
        Syn::Not(inner) => opposite(alloc, type_expression(alloc, columns, inner.get())?),
        Syn::Bin(op, left, right) => {
            let left = type_expression(alloc, columns, left.get())?;
            match type_expression(alloc, columns, right.get()) {
                Ok(right) => operation(alloc, *op, left, right),
                Err(out) => {
                    drop(left);
                    Err(out)
                }
            }
        }
    }
}
