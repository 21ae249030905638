//! Certificates.
ghost use Rattle.std.specs.Prelude.{◌≡◌};
ghost use Rattle.std.specs.List.{list_all};
ghost use Rattle.rx_words.specs.Certificates.{certificate_lists, certificates, is_readable_cert};

use crate::lists::{is_count, parts_have_text};
use crate::polynomials::{poly_has_text, row_has_text};
use crate::ranges_depth::is_within;
use crate::substitutions::is_variable;
use rx_cert::Cert;

/// How deep a certificate is at most.
const DEEPEST: u32 = 200;

/// Whether all in the certificate has a text. It is walked as deep as it is.
fn is_readable(cert: &Cert) -> bool
    ensures { result ≡ is_readable_cert cert.now }
{
    match cert {
        Cert::Sum(parts) => parts_have_text(parts.as_slice()),
        Cert::Cut { parts, div, rest } => {
            let _div = *div;
            parts_have_text(parts.as_slice()) && is_readable(rest.get())
        }
        Cert::Split { row, yes, no } => {
            row_has_text(row) && is_readable(yes.get()) && is_readable(no.get())
        }
        Cert::Differ { at, pos, neg } => {
            let _at = *at;
            is_readable(pos.get()) && is_readable(neg.get())
        }
        Cert::Solve {
            first,
            second,
            var,
            rest,
        } => {
            let (_first, _second) = (*first, *second);
            is_variable(*var) && is_readable(rest.get())
        }
        Cert::DivFacts { num, den, pos, neg } => {
            let _den = *den;
            poly_has_text(num) && is_readable(pos.get()) && is_readable(neg.get())
        }
    }
}

/// Whether the certificate has a text: whether it is at most 200 deep, its variables are below
/// 1,000,000, its polynomials have a text, and its lists are short enough. Nothing deeper is walked.
pub fn cert_has_text(cert: &Cert) -> bool
    ensures { result ≡ certificates.in_range cert.now }
{
    is_within(cert, DEEPEST) && is_readable(cert)
}

/// Whether all of the certificates have a text.
fn each_cert_has_text(certs: &[Cert]) -> bool
    ensures { result ≡ list_all certificates.in_range certs.now }
{
    for cert in certs {
        if !cert_has_text(cert) {
            return false;
        }
    }
    true
}

/// Whether the list of certificates has a text: whether each of them has, and they are few enough.
pub fn certs_have_text(certs: &[Cert]) -> bool
    ensures { result ≡ certificate_lists.in_range certs.now }
{
    is_count(certs.len()) && each_cert_has_text(certs)
}
