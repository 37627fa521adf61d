//! The law of words and signs: the contract of a function that does nothing.
ghost use Rattle.std.specs.Prelude.{◌≡◌};
ghost use Rattle.c_grammar.specs.declared.word.Word.{Word};
ghost use Rattle.c_grammar.specs.declared.sign.Sign.{Sign};
ghost use Rattle.c_grammar.specs.Token.{IsWord, IsSign};
ghost use Rattle.c_grammar.specs.Spelling.{word_text, word_kind, sign_text, sign_kind};

/// Words and signs are told apart by how they are spelled.
pub fn words_and_signs_are_told_by_their_spelling()
    ensures words { (x : Word) → word_kind (word_text x) ≡ IsWord x }
    ensures signs { (x : Sign) → sign_kind (sign_text x) ≡ IsSign x }
{}
