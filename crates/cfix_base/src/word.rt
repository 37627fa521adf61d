ghost use Rattle.std.specs.Prelude.{◌≡◌};
ghost use Rattle.std.specs.List.{list_any, list_all};
ghost use Rattle.std.specs.Str.{bytes_eq};
ghost use Rattle.cfix_base.specs.Words.{is_keyword, is_library_word, is_word_text, is_identifier, is_name_text, is_reserved_text, is_name_byte, is_name_start};

/// The keywords of C11 (6.4.1 of ISO/IEC 9899:2011).
const KEYWORDS: [&[u8]; 44] = [
    b"auto",
    b"break",
    b"case",
    b"char",
    b"const",
    b"continue",
    b"default",
    b"do",
    b"double",
    b"else",
    b"enum",
    b"extern",
    b"float",
    b"for",
    b"goto",
    b"if",
    b"inline",
    b"int",
    b"long",
    b"register",
    b"restrict",
    b"return",
    b"short",
    b"signed",
    b"sizeof",
    b"static",
    b"struct",
    b"switch",
    b"typedef",
    b"union",
    b"unsigned",
    b"void",
    b"volatile",
    b"while",
    b"_Alignas",
    b"_Alignof",
    b"_Atomic",
    b"_Bool",
    b"_Complex",
    b"_Generic",
    b"_Imaginary",
    b"_Noreturn",
    b"_Static_assert",
    b"_Thread_local",
];

/// The names of the headers and the operations of CFix that are read as words.
const LIBRARY_WORDS: [&[u8]; 22] = [
    b"NULL",
    b"printf",
    b"scanf",
    b"pthread_t",
    b"pthread_mutex_t",
    b"pthread_create",
    b"pthread_join",
    b"pthread_mutex_lock",
    b"pthread_mutex_unlock",
    b"PTHREAD_MUTEX_INITIALIZER",
    b"pthread_cond_t",
    b"pthread_cond_wait",
    b"pthread_cond_signal",
    b"pthread_cond_broadcast",
    b"PTHREAD_COND_INITIALIZER",
    b"cfix_enter",
    b"cfix_leave",
    b"cfix_wait",
    b"cfix_done",
    b"cfix_first",
    b"cfix_add",
    b"cfix_value",
];

fn is_one_of(text: &[u8], words: &[&[u8]]) -> bool
    ensures { result ≡ list_any (λ word. bytes_eq text.now word.now) words.now }
{
    words.iter().any(|word| text == *word)
}

fn is_c_keyword(text: &[u8]) -> bool
    ensures { result ≡ is_keyword text.now }
{
    is_one_of(text, &KEYWORDS)
}

fn is_library_name(text: &[u8]) -> bool
    ensures { result ≡ is_library_word text.now }
{
    is_one_of(text, &LIBRARY_WORDS)
}

/// Whether `text` is a word, and so never a name.
pub fn is_word(text: &[u8]) -> bool
    ensures { result ≡ is_word_text text.now }
{
    is_c_keyword(text) || is_library_name(text)
}

/// Whether a name can begin with this byte: a letter or `_`.
pub fn is_name_start(byte: u8) -> bool
    ensures { result ≡ is_name_start byte }
{
    byte.is_ascii_alphabetic() || byte == b'_'
}

/// Whether a name can go on with this byte: a letter, a digit or `_`.
pub fn is_name_byte(byte: u8) -> bool
    ensures { result ≡ is_name_byte byte }
{
    byte.is_ascii_alphanumeric() || byte == b'_'
}

fn goes_on_a_name(text: &[u8]) -> bool
    ensures { result ≡ list_all is_name_byte text.now }
{
    text.iter().all(|byte| is_name_byte(*byte))
}

/// Whether `text` is a letter or `_` and then letters, digits and `_`: a name or a word.
pub fn is_identifier(text: &[u8]) -> bool
    ensures { result ≡ is_identifier text.now }
{
    match text.split_first() {
        None => false,
        Some((first, rest)) => is_name_start(*first) && goes_on_a_name(rest),
    }
}

/// Whether `text` is a name: an identifier that is no word.
pub fn is_name(text: &[u8]) -> bool
    ensures { result ≡ is_name_text text.now }
{
    is_identifier(text) && !is_word(text)
}

/// Whether `text` begins as no declared name may: with `cfix_`, `CFIX_`, `pthread_` or
/// `PTHREAD_`.
pub fn is_reserved(text: &[u8]) -> bool
    ensures { result ≡ is_reserved_text text.now }
{
    text.starts_with(b"cfix_")
        || text.starts_with(b"CFIX_")
        || text.starts_with(b"pthread_")
        || text.starts_with(b"PTHREAD_")
}
