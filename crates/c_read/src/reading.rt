ghost use Rattle.std.specs.Prelude.{◌≡◌, ◌≤◌, ◌⊎◌, length, [], Ok, Err, IfOk, OnOk, IfErr};
ghost use Rattle.cfix_base.specs.declared.limits.TheConstants.{MAX_SOURCE_BYTES};
ghost use Rattle.c_lex.specs.Lexed.{Lexes, IsLexed};
ghost use Rattle.c_grammar.specs.Parsed.{IsParsed};
ghost use Rattle.c_names.specs.Files.{faults_of};
ghost use Rattle.c_names.specs.Sources.{source_of};
ghost use Rattle.c_parse.specs.Parsed.{Parses};
ghost use Rattle.c_prog.specs.Lines.{SourceTree};
ghost use Rattle.c_raw.specs.Files.{file_view};
ghost use Rattle.c_read.specs.declared.flaw.Flaw.{Flaw};
ghost use Rattle.c_read.specs.Reading.{Reads, HasBadToken, BreaksGrammar, BreaksNames, IsFlawed, FailsBy};

use crate::flaw::{ReadFault, grammar_answer, name_answer, token_answer};
use c_lex::{Tokens, lex};
use c_parse::parse;
use c_raw::Raw;
use c_source::Source;
use c_types::resolve;
use std::alloc::Global;

fn tokens_of(alloc: Global, text: &[u8]) -> Result<Tokens, ReadFault>
    requires { length text.now ≤ MAX_SOURCE_BYTES }
    ensures read { IfOk result (Lexes text.now) }
    ensures lexed { IfOk result (λ tokens. IsLexed tokens) }
    ensures flawed { IfErr result (FailsBy (HasBadToken text.now)) }
{
    match lex(alloc, text) {
        Ok(tokens) => Ok(tokens),
        Err(fault) => Err(token_answer(fault)),
    }
}

fn tree_of(alloc: Global, tokens: &Tokens) -> Result<Raw, ReadFault>
    requires { IsLexed tokens.now }
    ensures read { IfOk result (λ raw. Parses tokens.now raw) }
    ensures parsed { IfOk result (λ raw. IsParsed raw.end (file_view raw)) }
    ensures flawed { IfErr result (FailsBy (BreaksGrammar tokens.now)) }
{
    match parse(alloc, tokens) {
        Ok(raw) => Ok(raw),
        Err(fault) => Err(grammar_answer(fault)),
    }
}

fn source_of(alloc: Global, raw: &Raw) -> Result<Source, ReadFault>
    requires { IsParsed raw.now.end (file_view raw.now) }
    ensures spelled { IfOk result (λ source. source ≡ source_of (file_view raw.now)) }
    ensures clean { OnOk result (faults_of raw.now.end (file_view raw.now) ≡ []) }
    ensures flawed { IfErr result (FailsBy (BreaksNames (faults_of raw.now.end (file_view raw.now)))) }
{
    match resolve(alloc, raw) {
        Ok(source) => Ok(source),
        Err(fault) => Err(name_answer(fault)),
    }
}

fn read_text(alloc: Global, text: &[u8]) -> Result<Source, ReadFault>
    requires { length text.now ≤ MAX_SOURCE_BYTES }
    ensures read { IfOk result (Reads text.now) }
    ensures flawed { IfErr result (FailsBy (IsFlawed text.now)) }
{
    let tokens = tokens_of(alloc, text)?;
    let raw = tree_of(alloc, &tokens)?;
    match source_of(alloc, &raw) {
        Ok(source) => Ok(source),
        Err(fault) => Err(fault),
    }
}

/// The program that a text spells, with its lines, or what is wrong with the text.
pub fn read_source(alloc: Global, text: &[u8]) -> Result<Source, ReadFault>
    requires { length text.now ≤ MAX_SOURCE_BYTES }
    ensures read { IfOk result (Reads text.now) }
    ensures flawed { IfErr result (FailsBy (IsFlawed text.now)) }

    // Both ways: the text fixes the answer, but for want of memory.
    ensures reads { (source : SourceTree) → Reads text.now source → (result ≡ Ok source) ⊎ (result ≡ Err ReadFault.NoMemory) }
    ensures tells { (flaw : Flaw) → IsFlawed text.now flaw → (result ≡ Err (ReadFault.Flawed flaw)) ⊎ (result ≡ Err ReadFault.NoMemory) }
{
    read_text(alloc, text)
}
