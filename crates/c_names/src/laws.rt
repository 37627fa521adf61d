//! The laws of the definitions: each is the contract of a function that does nothing.
ghost use Rattle.std.specs.Prelude.{ℕ, ◌≡◌, List};
ghost use Rattle.c_prog.specs.Lines.{SourceTree};
ghost use Rattle.c_names.specs.Sources.{source_of};
ghost use Rattle.c_names.specs.Texts.{Spells, Accepts};

/// A text spells at most one source.
pub fn a_text_spells_at_most_one_source()
    ensures { (text : List ℕ) (a b : SourceTree) → Spells text a → Spells text b → a ≡ b }
{}

/// An accepted text spells a source.
pub fn an_accepted_text_spells_a_source()
    ensures { (text : List ℕ) (accepted : Accepts text) → Spells text (source_of accepted.file) }
{}
