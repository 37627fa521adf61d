//! Laws of programs, each the contract of a function that does nothing.
#![tactic(auto)]

mod laws;

pub use laws::{
    a_program_is_patched_where_an_operation_stands, a_stripped_program_has_no_operation,
    accesses_count_from_zero, node_numbers_have_no_gap, stripping_keeps_the_accesses,
    stripping_keeps_the_nodes, stripping_twice_is_stripping_once,
};
