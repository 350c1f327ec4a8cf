ghost use Rattle.std.specs.Prelude.{Bool};
ghost use Rattle.gx_ids.specs.declared.ids.Gxid.{Gxid};
ghost use Rattle.gx_dtx.specs.declared.order.Order.{Order};
ghost use Rattle.gx_rules.specs.Segments.{Seg, local_of};
ghost use Rattle.gx_rules.specs.Shown.{kept_of};
ghost use Rattle.gx_node.specs.Changes.{Makes, change_of, turn_of};

/// What an order makes of a transaction is what a segment's rule makes of it, at every segment.
pub fn orders_follow_the_rule()
    ensures { (order : Order) (s : Seg) (g : Gxid) (fails : Bool) → Makes s g (turn_of order s g fails (local_of s g)) (change_of order s.node g (kept_of s g) fails (local_of s g)) }
{}
