//! The words of the profile and the other keywords of C17, each found by its first byte.

ghost use Rattle.std.specs.Prelude.{◌≡◌, ◌∷◌, ℕ, List, Some, None, if◌then◌else◌, map};
ghost use Rattle.std.specs.Str.{bytes_eq};
ghost use Rattle.c_parse.specs.Terminals as spec;

use crate::terminal::Kind;

/// The keywords of the letter `s` that the grammar doesn't write.
const WITH_S: [&[u8]; 5] = [b"short", b"signed", b"sizeof", b"struct", b"switch"];

/// The keywords that begin with `_`, none of which the grammar writes.
const UNDERSCORED: [&[u8]; 10] = [
    b"_Alignas",
    b"_Alignof",
    b"_Atomic",
    b"_Bool",
    b"_Complex",
    b"_Generic",
    b"_Imaginary",
    b"_Noreturn",
    b"_Static_assert",
    b"_Thread_local",
];

/// Whether two words have the same bytes. Most differ in the first.
fn is_word(word: &[u8], other: &[u8]) -> bool
    ensures { result ≡ bytes_eq word.now other.now }
{
    match (word, other) {
        ([first, ..], [wanted, ..]) => *first == *wanted && word == other,
        _ => word == other,
    }
}

fn is_one_of(words: &[&[u8]], word: &[u8]) -> bool
    ensures { result ≡ spec.is_one_of (map (λ w. w.now) words.now) word.now }
{
    let mut left = words;
    while let [first, rest @ ..] = left {
        if is_word(first, word) {
            return true;
        }
        left = rest;
    }
    false
}

/// The fixed word, if the word is that one.
fn only(word: &[u8], fixed: &[u8], kind: Kind) -> Option<Kind>
    ensures { result ≡ (if bytes_eq word.now fixed.now then Some kind else None) }
{
    if is_word(word, fixed) {
        return Some(kind);
    }
    None
}

/// The fixed word of the letter `a` that a word is, if it is one.
fn a_word(word: &[u8]) -> Option<Kind>
    ensures { (rest : List ℕ) → word.now ≡ 97 ∷ rest → result ≡ spec.fixed_word word.now }
{
    if is_word(word, b"assert") {
        return Some(Kind::Assert);
    }
    if is_word(word, b"auto") {
        return Some(Kind::Keyword);
    }
    None
}

/// The fixed word of the letter `c` that a word is, if it is one.
fn c_word(word: &[u8]) -> Option<Kind>
    ensures { (rest : List ℕ) → word.now ≡ 99 ∷ rest → result ≡ spec.fixed_word word.now }
{
    if is_word(word, b"case") {
        return Some(Kind::Keyword);
    }
    if is_word(word, b"char") {
        return Some(Kind::Keyword);
    }
    if is_word(word, b"const") {
        return Some(Kind::Keyword);
    }
    if is_word(word, b"continue") {
        return Some(Kind::Continue);
    }
    None
}

/// The fixed word of the letter `d` that a word is, if it is one.
fn d_word(word: &[u8]) -> Option<Kind>
    ensures { (rest : List ℕ) → word.now ≡ 100 ∷ rest → result ≡ spec.fixed_word word.now }
{
    if is_word(word, b"default") {
        return Some(Kind::Keyword);
    }
    if is_word(word, b"do") {
        return Some(Kind::Do);
    }
    if is_word(word, b"double") {
        return Some(Kind::Keyword);
    }
    None
}

/// The fixed word of the letter `e` that a word is, if it is one.
fn e_word(word: &[u8]) -> Option<Kind>
    ensures { (rest : List ℕ) → word.now ≡ 101 ∷ rest → result ≡ spec.fixed_word word.now }
{
    if is_word(word, b"else") {
        return Some(Kind::Else);
    }
    if is_word(word, b"enum") {
        return Some(Kind::Keyword);
    }
    if is_word(word, b"extern") {
        return Some(Kind::Extern);
    }
    None
}

/// The fixed word of the letter `f` that a word is, if it is one.
fn f_word(word: &[u8]) -> Option<Kind>
    ensures { (rest : List ℕ) → word.now ≡ 102 ∷ rest → result ≡ spec.fixed_word word.now }
{
    if is_word(word, b"float") {
        return Some(Kind::Keyword);
    }
    if is_word(word, b"for") {
        return Some(Kind::For);
    }
    None
}

/// The fixed word of the letter `g` that a word is, if it is one.
fn g_word(word: &[u8]) -> Option<Kind>
    ensures { (rest : List ℕ) → word.now ≡ 103 ∷ rest → result ≡ spec.fixed_word word.now }
{
    if is_word(word, b"goto") {
        return Some(Kind::Keyword);
    }
    None
}

/// The fixed word of the letter `i` that a word is, if it is one.
fn i_word(word: &[u8]) -> Option<Kind>
    ensures { (rest : List ℕ) → word.now ≡ 105 ∷ rest → result ≡ spec.fixed_word word.now }
{
    if is_word(word, b"if") {
        return Some(Kind::If);
    }
    if is_word(word, b"inline") {
        return Some(Kind::Keyword);
    }
    if is_word(word, b"int") {
        return Some(Kind::Int);
    }
    None
}

/// The fixed word of the letter `p` that a word is, if it is one.
fn p_word(word: &[u8]) -> Option<Kind>
    ensures { (rest : List ℕ) → word.now ≡ 112 ∷ rest → result ≡ spec.fixed_word word.now }
{
    if is_word(word, b"pthread_create") {
        return Some(Kind::Create);
    }
    if is_word(word, b"pthread_join") {
        return Some(Kind::Join);
    }
    if is_word(word, b"pthread_mutex_lock") {
        return Some(Kind::Lock);
    }
    if is_word(word, b"pthread_mutex_t") {
        return Some(Kind::Mutex);
    }
    if is_word(word, b"pthread_mutex_unlock") {
        return Some(Kind::Unlock);
    }
    if is_word(word, b"pthread_t") {
        return Some(Kind::Thread);
    }
    None
}

/// The fixed word of the letter `r` that a word is, if it is one.
fn r_word(word: &[u8]) -> Option<Kind>
    ensures { (rest : List ℕ) → word.now ≡ 114 ∷ rest → result ≡ spec.fixed_word word.now }
{
    if is_word(word, b"register") {
        return Some(Kind::Keyword);
    }
    if is_word(word, b"restrict") {
        return Some(Kind::Keyword);
    }
    if is_word(word, b"return") {
        return Some(Kind::Return);
    }
    None
}

/// The fixed word of the letter `s` that a word is, if it is one.
fn s_word(word: &[u8]) -> Option<Kind>
    ensures { (rest : List ℕ) → word.now ≡ 115 ∷ rest → result ≡ spec.fixed_word word.now }
{
    if is_word(word, b"static") {
        return Some(Kind::Static);
    }
    if is_one_of(&WITH_S, word) {
        return Some(Kind::Keyword);
    }
    None
}

/// The fixed word of the letter `t` that a word is, if it is one.
fn t_word(word: &[u8]) -> Option<Kind>
    ensures { (rest : List ℕ) → word.now ≡ 116 ∷ rest → result ≡ spec.fixed_word word.now }
{
    if is_word(word, b"typedef") {
        return Some(Kind::Keyword);
    }
    None
}

/// The fixed word of the letter `u` that a word is, if it is one.
fn u_word(word: &[u8]) -> Option<Kind>
    ensures { (rest : List ℕ) → word.now ≡ 117 ∷ rest → result ≡ spec.fixed_word word.now }
{
    if is_word(word, b"union") {
        return Some(Kind::Keyword);
    }
    if is_word(word, b"unsigned") {
        return Some(Kind::Keyword);
    }
    None
}

/// The fixed word of the letter `v` that a word is, if it is one.
fn v_word(word: &[u8]) -> Option<Kind>
    ensures { (rest : List ℕ) → word.now ≡ 118 ∷ rest → result ≡ spec.fixed_word word.now }
{
    if is_word(word, b"void") {
        return Some(Kind::Void);
    }
    if is_word(word, b"volatile") {
        return Some(Kind::Keyword);
    }
    None
}

/// The fixed word that begins with `_` that a word is, if it is one.
fn underscore_word(word: &[u8]) -> Option<Kind>
    ensures { (rest : List ℕ) → word.now ≡ 95 ∷ rest → result ≡ spec.fixed_word word.now }
{
    if is_one_of(&UNDERSCORED, word) {
        return Some(Kind::Keyword);
    }
    None
}

/// The word of the profile or the other keyword that a word is, if it is one. It is compared with
/// those of its first byte alone.
pub(crate) fn fixed_word(word: &[u8]) -> Option<Kind>
    ensures { result ≡ spec.fixed_word word.now }
{
    let [first, ..] = word else {
        return None;
    };
    match *first {
        b'a' => a_word(word),
        b'b' => only(word, b"break", Kind::Break),
        b'c' => c_word(word),
        b'd' => d_word(word),
        b'e' => e_word(word),
        b'f' => f_word(word),
        b'g' => g_word(word),
        b'i' => i_word(word),
        b'l' => only(word, b"long", Kind::Long),
        b'p' => p_word(word),
        b'r' => r_word(word),
        b's' => s_word(word),
        b't' => t_word(word),
        b'u' => u_word(word),
        b'v' => v_word(word),
        b'w' => only(word, b"while", Kind::While),
        b'N' => only(word, b"NULL", Kind::Null),
        b'P' => only(word, b"PTHREAD_MUTEX_INITIALIZER", Kind::Initializer),
        b'_' => underscore_word(word),
        _ => None,
    }
}
