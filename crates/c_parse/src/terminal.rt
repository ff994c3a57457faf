use gob_tree::{BinOp, Place, Text, Width};

/// What a token is in the grammar: a number, a name, an operator, a mark, or a word of the profile.
#[derive(Drop)]
pub enum Kind {
    /// A number with the width that it is written in.
    Number(i64, Width),
    /// A word that is no keyword of C17 and none of the library words below.
    Name(Text),
    Plus,
    Minus,
    Star,
    /// `/ % < <= > >= == != && ||`
    Operator(BinOp),
    /// `+= -= *= /= %=`
    Update(BinOp),
    /// `++ --`
    Step(BinOp),
    Equals,
    Not,
    Ampersand,
    OpenParen,
    CloseParen,
    OpenBrace,
    CloseBrace,
    Comma,
    Semicolon,
    Int,
    Long,
    Void,
    Static,
    Extern,
    If,
    Else,
    While,
    Do,
    For,
    Break,
    Continue,
    Return,
    /// `NULL`
    Null,
    /// `assert`
    Assert,
    /// `pthread_t`
    Thread,
    /// `pthread_mutex_t`
    Mutex,
    /// `PTHREAD_MUTEX_INITIALIZER`
    Initializer,
    /// `pthread_create`
    Create,
    /// `pthread_join`
    Join,
    /// `pthread_mutex_lock`
    Lock,
    /// `pthread_mutex_unlock`
    Unlock,
    /// A keyword of C17 (6.4.1) that the grammar doesn't write.
    Keyword,
}

/// A token as the grammar sees it, with the place of its first byte.
#[derive(Drop)]
pub struct Terminal {
    pub kind: Kind,
    pub place: Place,
}
