//! The laws of the canonical text, which follow from the definitions alone: each is the contract of
//! a function that does nothing.
ghost use Rattle.c_prog.specs.declared.tree.Tree.{Tree};
ghost use Rattle.c_prog.specs.Valid.{IsValid};
ghost use Rattle.c_print.specs.Text.Canonical.{canonical};
ghost use Rattle.print_law.specs.Grammatical.{IsGrammatical};
ghost use Rattle.print_law.specs.SpelledAgain.{SpellsProgram};

/// The canonical text of a valid program divides into the tokens of a file of the grammar, whatever
/// the number and the depth of its tokens.
pub fn the_canonical_text_is_a_file()
    ensures { (tree : Tree) → IsValid tree → IsGrammatical (canonical tree) }
{}

/// The canonical text of a valid program spells that program: the names of its file resolve to it,
/// and none of their faults is more than that a limit is passed.
pub fn the_canonical_text_spells_its_program()
    ensures { (tree : Tree) → IsValid tree → SpellsProgram (canonical tree) tree }
{}
