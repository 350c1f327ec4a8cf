use gx_ids::Node;

/// The segments to which a statement goes: one, or all of them.
#[derive(Clone, Copy)]
pub enum Target {
    One(Node),
    All,
}
