ghost use Rattle.std.specs.Prelude.{◌≡◌, IfOk, take, if◌then◌else◌};
ghost use Rattle.std.specs.List.{prefix_len};
ghost use Rattle.cfix_base.specs.Words.{is_name_byte, is_word_text};
ghost use Rattle.c_lex.specs.Pieces.{Identifier};
ghost use Rattle.c_lex.specs.Steps.{Tells};

use crate::byte::name_len;
use crate::bytes::copy;
use crate::step::Step;
use crate::token::Kind;
use cfix_base::{NoMemory, is_word};
use std::alloc::Global;

fn name_or_word(alloc: Global, text: &[u8]) -> Result<Kind, NoMemory>
    ensures { IfOk result (λ kind. kind ≡ (if is_word_text text.now then Kind.Word text.now else Kind.Name text.now)) }
{
    let bytes = copy(alloc, text)?;
    if is_word(text) {
        Ok(Kind::Word(bytes))
    } else {
        Ok(Kind::Name(bytes))
    }
}

/// The step at a letter or `_`.
pub fn identifier(alloc: Global, text: &[u8]) -> Result<Step, NoMemory>
    ensures { IfOk result (λ step. Tells step (Identifier (take (prefix_len is_name_byte text.now) text.now))) }
{
    let len = name_len(text);
    Ok(Step::Take(name_or_word(alloc, &text[..len])?, len))
}
