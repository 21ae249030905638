//! Parts of a line: what is in its words.
ghost use Rattle.std.specs.Prelude.{◌≡◌, ◌<◌, ◌↔◌, ◌++◌, true, ℕ, IsTrue, Bool, List, IfOk, drop, length};
ghost use Rattle.rx_text.specs.Formats.{IsUnambiguous, Reads, Skips, is_over};
ghost use Rattle.rx_words.specs.Lists.{ending_word};
ghost use Rattle.rx_words.specs.Words.{in_word, words};
ghost use Rattle.rx_logtext.specs.Lines.{ReadsAll, SkipsWhole};

use rx_cert::Cert;
use rx_cover::CoverTree;
use rx_inference::Side;
use rx_plain::{Items, NoMemory};
use rx_poly::Poly;
use rx_row::Row;
use rx_term::Equation;
use rx_term_words::{read_equation, read_tree};
use rx_text::{read_poly, read_row, skip_word};
use rx_words::{read_cert, read_certs, read_number, read_rows, read_subst};
use std::alloc::Global;

/// What is in words of a line.
pub(crate) trait Part: Drop {
    ghost text: { Self → List ℕ };

    ghost in_range: { Self → Bool };

    /// The part whose text is at the place, with the place after it; None exactly where no part in
    /// range has its text there.
    fn read_part(alloc: Global, bytes: &[u8], at: usize) -> Result<Option<(Self, usize)>, NoMemory>
        ensures { IfOk result (λ found. Reads (words text in_range) bytes.now at found) };

    ghost once: { IsUnambiguous (words text in_range) };
}

/// The part that the bytes from the place on are; None exactly where they are the text of none in
/// range.
pub(crate) fn read_rest<T: Part>(
    alloc: Global,
    bytes: &[u8],
    at: usize,
) -> Result<Option<T>, NoMemory>
    ensures { IfOk result (ReadsAll (words T.text T.in_range) (drop at bytes.now)) }
{
    match T::read_part(alloc, bytes, at)? {
        Some((part, end)) => {
            if end == bytes.len() {
                Ok(Some(part))
            } else {
                Ok(None)
            }
        }
        None => Ok(None),
    }
}

impl<A: Part, B: Part> Part for (A, B) {
    ghost use Rattle.rx_words.specs.Words as spec;
    ghost use Rattle.rx_words.proofs.Joined.{pairs_once};

    ghost text = { (spec.pairs (spec.words A.text A.in_range) (spec.words B.text B.in_range)).text };

    ghost in_range = { (spec.pairs (spec.words A.text A.in_range)
        (spec.words B.text B.in_range)).in_range };

    fn read_part(
        alloc: Global,
        bytes: &[u8],
        at: usize,
    ) -> Result<Option<((A, B), usize)>, NoMemory> {
        let Some((first, middle)) = A::read_part(alloc, bytes, at)? else {
            return Ok(None);
        };
        let Some(next) = skip_word(bytes, middle, b" ") else {
            return Ok(None);
        };
        let Some((second, end)) = B::read_part(alloc, bytes, next)? else {
            return Ok(None);
        };
        Ok(Some(((first, second), end)))
    }

    ghost once = { pairs_once A.text A.in_range B.text B.in_range A.once B.once };
}

/// Whether a word may end at the place: the bytes end there, or a space or a line feed follows.
fn ends_word(bytes: &[u8], at: usize) -> bool
    ensures { result ≡ is_over in_word (drop at bytes.now) }
{
    match bytes.get(at) {
        Some(byte) => !(*byte != b' ' && *byte != b'\n'),
        None => true,
    }
}

/// What was read, where a word ends after it; else None.
fn ending<T: Drop>(bytes: &[u8], found: Option<(T, usize)>) -> Option<(T, usize)>
    ensures { result ≡ ending_word bytes.now found }
{
    match found {
        Some((thing, end)) => {
            if ends_word(bytes, end) {
                Some((thing, end))
            } else {
                None
            }
        }
        None => None,
    }
}

/// The place after the word, where it is at the place as a whole word; None where it isn't.
fn skip_whole(bytes: &[u8], at: usize, word: &[u8]) -> Option<usize>
    requires { 0 < length word.now }
    ensures { SkipsWhole word.now bytes.now at result }
{
    match skip_word(bytes, at, word) {
        Some(end) => {
            if ends_word(bytes, end) {
                Some(end)
            } else {
                None
            }
        }
        None => None,
    }
}

/// Whether both begin with the same byte.
fn have_same_first(line: &[u8], word: &[u8]) -> bool
    requires { 0 < length word.now }
    ensures { (left : List ℕ) → line.now ≡ word.now ++ left → result ≡ true }
{
    match (line.first(), word.first()) {
        (Some(first), Some(other)) => *first == *other,
        _ => false,
    }
}

/// The place after the word, where the line begins with it; None where it doesn't. Most words are
/// known from the first byte of the line.
pub(crate) fn skip_beginning(line: &[u8], word: &[u8]) -> Option<usize>
    requires { 0 < length word.now }
    ensures { Skips word.now line.now 0 result }
{
    if have_same_first(line, word) {
        skip_word(line, 0, word)
    } else {
        None
    }
}

/// Whether the line is just that word.
pub(crate) fn is_word(line: &[u8], word: &[u8]) -> bool
    requires { 0 < length word.now }
    ensures { IsTrue result ↔ (line.now ≡ word.now) }
{
    match skip_beginning(line, word) {
        Some(end) => end == line.len(),
        None => false,
    }
}

impl Part for Side {
    ghost use Rattle.rx_logtext.specs.Steps as spec;
    ghost use Rattle.rx_logtext.specs.Once.{sides_once};

    ghost text = { spec.sides.text };

    ghost in_range = { spec.sides.in_range };

    fn read_part(
        _alloc: Global,
        bytes: &[u8],
        at: usize,
    ) -> Result<Option<(Side, usize)>, NoMemory> {
        if let Some(end) = skip_whole(bytes, at, b"l") {
            return Ok(Some((Side::Left, end)));
        }
        match skip_whole(bytes, at, b"r") {
            Some(end) => Ok(Some((Side::Right, end))),
            None => Ok(None),
        }
    }

    ghost once = { sides_once };
}

/// Whether an expanded goal is kept: `keep` or `drop`.
impl Part for bool {
    ghost use Rattle.rx_logtext.specs.Steps as spec;
    ghost use Rattle.rx_logtext.specs.Once.{keeps_once};

    ghost text = { spec.keeps.text };

    ghost in_range = { spec.keeps.in_range };

    fn read_part(
        _alloc: Global,
        bytes: &[u8],
        at: usize,
    ) -> Result<Option<(bool, usize)>, NoMemory> {
        if let Some(end) = skip_whole(bytes, at, b"keep") {
            return Ok(Some((true, end)));
        }
        match skip_whole(bytes, at, b"drop") {
            Some(end) => Ok(Some((false, end))),
            None => Ok(None),
        }
    }

    ghost once = { keeps_once };
}

impl Part for u32 {
    ghost use Rattle.rx_words.specs.Words as spec;
    ghost use Rattle.rx_words.proofs.Once.{numbers_once};

    ghost text = { spec.numbers.text };

    ghost in_range = { spec.numbers.in_range };

    fn read_part(
        _alloc: Global,
        bytes: &[u8],
        at: usize,
    ) -> Result<Option<(u32, usize)>, NoMemory> {
        Ok(read_number(bytes, at))
    }

    ghost once = { numbers_once };
}

impl Part for Cert {
    ghost use Rattle.rx_words.specs.Certificates as spec;
    ghost use Rattle.rx_words.proofs.CertLaws.{certificates_once};

    ghost text = { spec.certificates.text };

    ghost in_range = { spec.certificates.in_range };

    fn read_part(
        alloc: Global,
        bytes: &[u8],
        at: usize,
    ) -> Result<Option<(Cert, usize)>, NoMemory> {
        read_cert(alloc, bytes, at)
    }

    ghost once = { certificates_once 200 };
}

impl Part for Items<Cert> {
    ghost use Rattle.rx_words.specs.Certificates as spec;
    ghost use Rattle.rx_words.proofs.CertLaws.{certificate_lists_once};

    ghost text = { spec.certificate_lists.text };

    ghost in_range = { spec.certificate_lists.in_range };

    fn read_part(
        alloc: Global,
        bytes: &[u8],
        at: usize,
    ) -> Result<Option<(Items<Cert>, usize)>, NoMemory> {
        read_certs(alloc, bytes, at)
    }

    ghost once = { certificate_lists_once };
}

impl Part for Items<Row> {
    ghost use Rattle.rx_words.specs.Substitutions as spec;
    ghost use Rattle.rx_words.proofs.Once.{row_lists_once};

    ghost text = { spec.row_lists.text };

    ghost in_range = { spec.row_lists.in_range };

    fn read_part(
        alloc: Global,
        bytes: &[u8],
        at: usize,
    ) -> Result<Option<(Items<Row>, usize)>, NoMemory> {
        read_rows(alloc, bytes, at)
    }

    ghost once = { row_lists_once };
}

impl Part for Items<(u32, Poly)> {
    ghost use Rattle.rx_words.specs.Substitutions as spec;
    ghost use Rattle.rx_words.proofs.Once.{substitutions_once};

    ghost text = { spec.substitutions.text };

    ghost in_range = { spec.substitutions.in_range };

    fn read_part(
        alloc: Global,
        bytes: &[u8],
        at: usize,
    ) -> Result<Option<(Items<(u32, Poly)>, usize)>, NoMemory> {
        read_subst(alloc, bytes, at)
    }

    ghost once = { substitutions_once };
}

impl Part for Equation {
    ghost use Rattle.rx_term_words.specs.Equations as spec;
    ghost use Rattle.rx_term_words.proofs.EquationLaws.{equations_once};

    ghost text = { spec.equations.text };

    ghost in_range = { spec.equations.in_range };

    fn read_part(
        alloc: Global,
        bytes: &[u8],
        at: usize,
    ) -> Result<Option<(Equation, usize)>, NoMemory> {
        read_equation(alloc, bytes, at)
    }

    ghost once = { equations_once };
}

impl Part for Row {
    ghost use Rattle.rx_text.specs.Rows as spec;
    ghost use Rattle.rx_words.proofs.Once.{rows_once};

    ghost text = { spec.row_format.text };

    ghost in_range = { spec.row_format.in_range };

    fn read_part(alloc: Global, bytes: &[u8], at: usize) -> Result<Option<(Row, usize)>, NoMemory> {
        Ok(ending(bytes, read_row(alloc, bytes, at)?))
    }

    ghost once = { rows_once };
}

impl Part for Poly {
    ghost use Rattle.rx_text.specs.Polynomials as spec;
    ghost use Rattle.rx_words.proofs.Once.{polynomials_once};

    ghost text = { spec.polynomials.text };

    ghost in_range = { spec.polynomials.in_range };

    fn read_part(
        alloc: Global,
        bytes: &[u8],
        at: usize,
    ) -> Result<Option<(Poly, usize)>, NoMemory> {
        Ok(ending(bytes, read_poly(alloc, bytes, at)?))
    }

    ghost once = { polynomials_once };
}

impl Part for CoverTree {
    ghost use Rattle.rx_term_words.specs.Trees as spec;
    ghost use Rattle.rx_term_words.proofs.TreeWords.{trees_once};

    ghost text = { spec.trees.text };

    ghost in_range = { spec.trees.in_range };

    fn read_part(
        alloc: Global,
        bytes: &[u8],
        at: usize,
    ) -> Result<Option<(CoverTree, usize)>, NoMemory> {
        read_tree(alloc, bytes, at)
    }

    ghost once = { trees_once 200 };
}
