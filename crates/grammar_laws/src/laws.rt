//! The laws, each as the contract of a function that does nothing.
ghost use Rattle.std.specs.Prelude.{ℕ, ◌≡◌, List};
ghost use Rattle.c_grammar.specs.Token.{Token};
ghost use Rattle.c_grammar.specs.File.{File};
ghost use Rattle.c_reading.specs.Reader.{Out};
ghost use Rattle.grammar_laws.specs.Verdicts.{HasVerdict};

/// Each list of tokens is that of a file and nowhere too deep, or has a first token that is
/// unexpected or ends too early, or has a first token that is too deep, whatever the limit is.
pub fn each_list_of_tokens_has_a_verdict()
    ensures { (limit : ℕ) (tokens : List Token) → (verdict : Out Token File) × HasVerdict limit tokens verdict }
{}

/// Only one of these holds of a list of tokens, of one file or at one place.
pub fn a_list_of_tokens_has_one_verdict()
    ensures { (limit : ℕ) (tokens : List Token) (a b : Out Token File) → HasVerdict limit tokens a → HasVerdict limit tokens b → a ≡ b }
{}
