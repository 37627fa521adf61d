use c_prog::NodeView;

/// What a search for the node with a number gives: the node, or the number without those of the
/// nodes that were passed.
#[derive(Clone, Copy)]
pub enum Found<'a> {
    Node(NodeView<'a>),
    Left(u32),
}
