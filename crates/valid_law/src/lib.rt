//! What a file without faults spells is a valid program.
#![tactic(auto)]

mod laws;

pub use laws::a_file_without_faults_spells_a_valid_program;
