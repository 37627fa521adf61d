//! How lists of tokens are read as the trees of the grammar, and the laws that follow from the
//! definitions alone: one tree, one depth for each token, and where reading stops.
#![tactic(auto)]

mod laws;

pub use laws::{
    a_file_has_one_tree, a_file_is_read_exactly, an_expression_has_one_tree,
    an_expression_is_read_exactly, tokens_fix_the_depths_of_a_file,
    tokens_fix_the_depths_of_an_expression,
};
