//! What a file declares: the declarators of its global variables, and the table of its names.
#![tactic(auto)]

mod declarator;
mod declare;
mod globals;
mod lists;
mod names;

pub use declarator::Declarator;
pub use globals::{is_main, note_no_main};
pub use lists::{note_list, push_list, spell_list};
pub use names::{declare_names, replacement_number};
