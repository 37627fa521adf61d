/// A word of the grammar: a keyword of C (6.4.1 of ISO/IEC 9899:2011), a name of the headers
/// that is read as a word, or a word of CFix's operations.
#[derive(Clone, Copy, Debug, PartialEq, Eq)]
pub enum Word {
    /// `break`
    Break,
    /// `continue`
    Continue,
    /// `else`
    Else,
    /// `for`
    For,
    /// `if`
    If,
    /// `int`
    Int,
    /// `long`
    Long,
    /// `return`
    Return,
    /// `static`
    Static,
    /// `void`
    Void,
    /// `volatile`
    Volatile,
    /// `while`
    While,
    /// `NULL`
    Null,
    /// `printf`
    Printf,
    /// `scanf`
    Scanf,
    /// `pthread_t`
    Thread,
    /// `pthread_mutex_t`
    Mutex,
    /// `pthread_create`
    Create,
    /// `pthread_join`
    Join,
    /// `pthread_mutex_lock`
    Lock,
    /// `pthread_mutex_unlock`
    Unlock,
    /// `PTHREAD_MUTEX_INITIALIZER`
    MutexInitializer,
    /// `pthread_cond_t`
    Cond,
    /// `pthread_cond_wait`
    CondWait,
    /// `pthread_cond_signal`
    Signal,
    /// `pthread_cond_broadcast`
    Broadcast,
    /// `PTHREAD_COND_INITIALIZER`
    CondInitializer,
    /// `cfix_enter`
    Enter,
    /// `cfix_leave`
    Leave,
    /// `cfix_wait`
    Wait,
    /// `cfix_done`
    Done,
    /// `cfix_first`
    First,
    /// `cfix_add`
    Add,
    /// `cfix_value`
    Value,
}
