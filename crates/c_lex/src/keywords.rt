//! Which keyword a word is. Words of one length are compared with the keywords of that length
//! alone.
ghost use Rattle.std.specs.Prelude.{◌≡◌};
ghost use Rattle.c_lex.specs.Keywords as spec;

use crate::token::Keyword;

/// The keyword that this word is, if any.
#[tactic(auto, unfolding(crate::specs::Keywords::keyword_of))]
pub(crate) fn keyword_of(word: &[u8]) -> Option<Keyword>
    ensures { result ≡ spec.keyword_of word.now }
{
    match word.len() {
        2 => keyword_of_two(word),
        3 => keyword_of_three(word),
        4 => keyword_of_four(word),
        5 => keyword_of_five(word),
        6 => keyword_of_six(word),
        7 => keyword_of_seven(word),
        8 => keyword_of_eight(word),
        10 => keyword_of_ten(word),
        _ => None,
    }
}

fn keyword_of_two(word: &[u8]) -> Option<Keyword>
    ensures { result ≡ spec.keyword_2 word.now }
{
    if word == b"if".as_slice() {
        return Some(Keyword::If);
    }
    if word == b"do".as_slice() {
        return Some(Keyword::Do);
    }
    None
}

fn keyword_of_three(word: &[u8]) -> Option<Keyword>
    ensures { result ≡ spec.keyword_3 word.now }
{
    if word == b"int".as_slice() {
        return Some(Keyword::Int);
    }
    if word == b"for".as_slice() {
        return Some(Keyword::For);
    }
    None
}

fn keyword_of_four(word: &[u8]) -> Option<Keyword>
    ensures { result ≡ spec.keyword_4 word.now }
{
    if word == b"void".as_slice() {
        return Some(Keyword::Void);
    }
    if word == b"else".as_slice() {
        return Some(Keyword::Else);
    }
    if word == b"auto".as_slice() {
        return Some(Keyword::Other);
    }
    if word == b"case".as_slice() {
        return Some(Keyword::Other);
    }
    if word == b"char".as_slice() {
        return Some(Keyword::Other);
    }
    if word == b"enum".as_slice() {
        return Some(Keyword::Other);
    }
    if word == b"goto".as_slice() {
        return Some(Keyword::Other);
    }
    if word == b"long".as_slice() {
        return Some(Keyword::Other);
    }
    None
}

fn keyword_of_five(word: &[u8]) -> Option<Keyword>
    ensures { result ≡ spec.keyword_5 word.now }
{
    if word == b"while".as_slice() {
        return Some(Keyword::While);
    }
    if word == b"break".as_slice() {
        return Some(Keyword::Break);
    }
    if word == b"const".as_slice() {
        return Some(Keyword::Other);
    }
    if word == b"float".as_slice() {
        return Some(Keyword::Other);
    }
    if word == b"short".as_slice() {
        return Some(Keyword::Other);
    }
    if word == b"union".as_slice() {
        return Some(Keyword::Other);
    }
    if word == b"_Bool".as_slice() {
        return Some(Keyword::Other);
    }
    None
}

fn keyword_of_six(word: &[u8]) -> Option<Keyword>
    ensures { result ≡ spec.keyword_6 word.now }
{
    if word == b"return".as_slice() {
        return Some(Keyword::Return);
    }
    if word == b"double".as_slice() {
        return Some(Keyword::Other);
    }
    if word == b"extern".as_slice() {
        return Some(Keyword::Other);
    }
    if word == b"inline".as_slice() {
        return Some(Keyword::Other);
    }
    if word == b"signed".as_slice() {
        return Some(Keyword::Other);
    }
    if word == b"sizeof".as_slice() {
        return Some(Keyword::Other);
    }
    if word == b"static".as_slice() {
        return Some(Keyword::Other);
    }
    if word == b"struct".as_slice() {
        return Some(Keyword::Other);
    }
    if word == b"switch".as_slice() {
        return Some(Keyword::Other);
    }
    None
}

fn keyword_of_seven(word: &[u8]) -> Option<Keyword>
    ensures { result ≡ spec.keyword_7 word.now }
{
    if word == b"default".as_slice() {
        return Some(Keyword::Other);
    }
    if word == b"typedef".as_slice() {
        return Some(Keyword::Other);
    }
    None
}

fn keyword_of_eight(word: &[u8]) -> Option<Keyword>
    ensures { result ≡ spec.keyword_8 word.now }
{
    if word == b"continue".as_slice() {
        return Some(Keyword::Continue);
    }
    if word == b"register".as_slice() {
        return Some(Keyword::Other);
    }
    if word == b"restrict".as_slice() {
        return Some(Keyword::Other);
    }
    if word == b"unsigned".as_slice() {
        return Some(Keyword::Other);
    }
    if word == b"volatile".as_slice() {
        return Some(Keyword::Other);
    }
    if word == b"_Complex".as_slice() {
        return Some(Keyword::Other);
    }
    None
}

fn keyword_of_ten(word: &[u8]) -> Option<Keyword>
    ensures { result ≡ spec.keyword_10 word.now }
{
    if word == b"_Imaginary".as_slice() {
        return Some(Keyword::Other);
    }
    None
}
