//! Certificates as words.
ghost use Rattle.std.specs.Prelude.{◌≡◌, ◌≤◌, ◌++◌, true, length, drop, IfOk, OnOk};
ghost use Rattle.rx_text.specs.Formats.{Reads, is_over};
ghost use Rattle.rx_words.specs.Certificates.{certificate_lists, certificates, certificates_within};
ghost use Rattle.rx_words.specs.Lists.{ReadsSpaced};
ghost use Rattle.rx_words.specs.Words.{in_word};

use crate::assembly::assembled;
use crate::heads::read_head;
use crate::lists::{push_list, read_list};
use crate::text::Text;
use crate::writing::push_cert;
use rx_cert::Cert;
use rx_plain::{Items, NoMemory};
use rx_text::skip_word;
use std::alloc::Global;

/// How deep a certificate may be that has a text.
const DEEPEST: u32 = 200;

/// The certificate at most so deep that is at the place.
#[cycle(certificates)]
fn read_within(
    alloc: Global,
    bytes: &[u8],
    at: usize,
    most: u32,
) -> Result<Option<(Cert, usize)>, NoMemory>
    ensures { IfOk result (λ found. Reads (certificates_within most) bytes.now at found) }
{
    if most == 0 {
        return Ok(None);
    }
    let Some((head, behind)) = read_head(alloc, bytes, at)? else {
        return Ok(None);
    };
    let count = head.inner_count();
    let Some((inner, end)) = read_inner(alloc, bytes, behind, count, most - 1)? else {
        return Ok(None);
    };
    match assembled(alloc, head, inner)? {
        Some(cert) => Ok(Some((cert, end))),
        None => Ok(None),
    }
}

/// That many certificates at most so deep that are at the place, each after a space.
#[cycle(certificates)]
fn read_inner(
    alloc: Global,
    bytes: &[u8],
    from: usize,
    count: u32,
    most: u32,
) -> Result<Option<(Items<Cert>, usize)>, NoMemory>
    requires within { from ≤ length bytes.now }
    requires over { is_over in_word (drop from bytes.now) ≡ true }
    ensures { IfOk result (λ found. ReadsSpaced (certificates_within most) count bytes.now from
        found) }
{
    let mut inner = Items::new(alloc);
    let mut at = from;
    for _turn in 0..count {
        let Some(next) = skip_word(bytes, at, b" ") else {
            return Ok(None);
        };
        let Some((cert, end)) = read_within(alloc, bytes, next, most)? else {
            return Ok(None);
        };
        inner.push(cert)?;
        at = end;
    }
    Ok(Some((inner, at)))
}

/// The certificate whose text is at the place, and the place after it. None exactly where no
/// certificate has its text there: one has that is at most 200 deep, with variables below
/// 1,000,000.
pub fn read_cert(alloc: Global, bytes: &[u8], at: usize) -> Result<Option<(Cert, usize)>, NoMemory>
    ensures { IfOk result (λ found. Reads certificates bytes.now at found) }
{
    read_within(alloc, bytes, at, DEEPEST)
}

impl Text for Cert {
    ghost use Rattle.rx_words.specs.Certificates as spec;

    ghost text = { spec.certificates.text };

    ghost in_range = { spec.certificates.in_range };

    fn read(alloc: Global, bytes: &[u8], at: usize) -> Result<Option<(Cert, usize)>, NoMemory> {
        read_cert(alloc, bytes, at)
    }

    fn push_text(&self, out: &mut Vec<u8>) -> Result<(), NoMemory> {
        push_cert(self, out)
    }
}

/// The list of certificates whose text is at the place, how many and then each of them, and the
/// place after it. None exactly where no list of certificates has its text there.
pub fn read_certs(
    alloc: Global,
    bytes: &[u8],
    at: usize,
) -> Result<Option<(Items<Cert>, usize)>, NoMemory>
    ensures { IfOk result (λ found. Reads certificate_lists bytes.now at found) }
{
    read_list(alloc, bytes, at)
}

/// Writes the text of the certificates after what was written before: how many, and then each of
/// them. Fails only when out of memory, and then some of the text may have been written.
pub fn push_certs(certs: &Items<Cert>, out: &mut Vec<u8>) -> Result<(), NoMemory>
    ensures { OnOk result (out.new.items ≡ out.old.items ++ certificate_lists.text certs.now) }
{
    push_list(certs.as_slice(), out)
}
