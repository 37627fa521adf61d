ghost use Rattle.std.specs.Prelude.{◌≡◌};
ghost use Rattle.c_grammar.specs.Spelling.{word_text, sign_text, word_among, sign_among};
ghost use Rattle.c_grammar.specs.Lexical.{kind_read};
ghost use Rattle.c_cursor.specs.Seen.{look_of};

use c_grammar::{Sign, Word};
use c_lex::Kind;

/// What a token is, without the bytes that it carries. A word or a sign that the grammar does not
/// know is `Other`.
#[derive(Clone, Copy, Debug, PartialEq, Eq)]
pub enum Look {
    Name,
    Number(i32),
    Quoted,
    Word(Word),
    Other,
    Sign(Sign),
}

const WORDS: [Word; 34] = [
    Word::Break,
    Word::Continue,
    Word::Else,
    Word::For,
    Word::If,
    Word::Int,
    Word::Long,
    Word::Return,
    Word::Static,
    Word::Void,
    Word::Volatile,
    Word::While,
    Word::Null,
    Word::Printf,
    Word::Scanf,
    Word::Thread,
    Word::Mutex,
    Word::Create,
    Word::Join,
    Word::Lock,
    Word::Unlock,
    Word::MutexInitializer,
    Word::Cond,
    Word::CondWait,
    Word::Signal,
    Word::Broadcast,
    Word::CondInitializer,
    Word::Enter,
    Word::Leave,
    Word::Wait,
    Word::Done,
    Word::First,
    Word::Add,
    Word::Value,
];

const SIGNS: [Sign; 33] = [
    Sign::OpenParen,
    Sign::CloseParen,
    Sign::OpenBrace,
    Sign::CloseBrace,
    Sign::OpenBracket,
    Sign::CloseBracket,
    Sign::Semicolon,
    Sign::Comma,
    Sign::Assign,
    Sign::Plus,
    Sign::Minus,
    Sign::Star,
    Sign::Slash,
    Sign::Percent,
    Sign::Less,
    Sign::Greater,
    Sign::LessEqual,
    Sign::GreaterEqual,
    Sign::Equal,
    Sign::NotEqual,
    Sign::Not,
    Sign::AndAnd,
    Sign::OrOr,
    Sign::Ampersand,
    Sign::PlusPlus,
    Sign::MinusMinus,
    Sign::PlusAssign,
    Sign::MinusAssign,
    Sign::StarAssign,
    Sign::SlashAssign,
    Sign::PercentAssign,
    Sign::Hash,
    Sign::Dot,
];

fn spelled(word: Word) -> &'static [u8]
    ensures { result.now ≡ word_text word }
{
    match word {
        Word::Break => b"break",
        Word::Continue => b"continue",
        Word::Else => b"else",
        Word::For => b"for",
        Word::If => b"if",
        Word::Int => b"int",
        Word::Long => b"long",
        Word::Return => b"return",
        Word::Static => b"static",
        Word::Void => b"void",
        Word::Volatile => b"volatile",
        Word::While => b"while",
        Word::Null => b"NULL",
        Word::Printf => b"printf",
        Word::Scanf => b"scanf",
        Word::Thread => b"pthread_t",
        Word::Mutex => b"pthread_mutex_t",
        Word::Create => b"pthread_create",
        Word::Join => b"pthread_join",
        Word::Lock => b"pthread_mutex_lock",
        Word::Unlock => b"pthread_mutex_unlock",
        Word::MutexInitializer => b"PTHREAD_MUTEX_INITIALIZER",
        Word::Cond => b"pthread_cond_t",
        Word::CondWait => b"pthread_cond_wait",
        Word::Signal => b"pthread_cond_signal",
        Word::Broadcast => b"pthread_cond_broadcast",
        Word::CondInitializer => b"PTHREAD_COND_INITIALIZER",
        Word::Enter => b"cfix_enter",
        Word::Leave => b"cfix_leave",
        Word::Wait => b"cfix_wait",
        Word::Done => b"cfix_done",
        Word::First => b"cfix_first",
        Word::Add => b"cfix_add",
        Word::Value => b"cfix_value",
    }
}

fn written(sign: Sign) -> &'static [u8]
    ensures { result.now ≡ sign_text sign }
{
    match sign {
        Sign::OpenParen => b"(",
        Sign::CloseParen => b")",
        Sign::OpenBrace => b"{",
        Sign::CloseBrace => b"}",
        Sign::OpenBracket => b"[",
        Sign::CloseBracket => b"]",
        Sign::Semicolon => b";",
        Sign::Comma => b",",
        Sign::Assign => b"=",
        Sign::Plus => b"+",
        Sign::Minus => b"-",
        Sign::Star => b"*",
        Sign::Slash => b"/",
        Sign::Percent => b"%",
        Sign::Less => b"<",
        Sign::Greater => b">",
        Sign::LessEqual => b"<=",
        Sign::GreaterEqual => b">=",
        Sign::Equal => b"==",
        Sign::NotEqual => b"!=",
        Sign::Not => b"!",
        Sign::AndAnd => b"&&",
        Sign::OrOr => b"||",
        Sign::Ampersand => b"&",
        Sign::PlusPlus => b"++",
        Sign::MinusMinus => b"--",
        Sign::PlusAssign => b"+=",
        Sign::MinusAssign => b"-=",
        Sign::StarAssign => b"*=",
        Sign::SlashAssign => b"/=",
        Sign::PercentAssign => b"%=",
        Sign::Hash => b"#",
        Sign::Dot => b".",
    }
}

fn word_among(words: &[Word], text: &[u8]) -> Look
    ensures { result ≡ look_of (word_among words.now text.now) }
{
    for word in words {
        if text == spelled(*word) {
            return Look::Word(*word);
        }
    }
    Look::Other
}

fn sign_among(signs: &[Sign], text: &[u8]) -> Look
    ensures { result ≡ look_of (sign_among signs.now text.now) }
{
    for sign in signs {
        if text == written(*sign) {
            return Look::Sign(*sign);
        }
    }
    Look::Other
}

/// What a token of this kind is.
pub(crate) fn kind_look(kind: &Kind) -> Look
    ensures { result ≡ look_of (kind_read kind.now) }
{
    match kind {
        Kind::Name(_) => Look::Name,
        Kind::Word(text) => word_among(&WORDS, text.as_slice()),
        Kind::Number(value) => Look::Number(*value),
        Kind::Quoted(_) => Look::Quoted,
        Kind::Sign(text) => sign_among(&SIGNS, text.as_slice()),
    }
}
