//! Laws of the refuter.
ghost use Rattle.std.specs.Prelude.{◌≡◌, ℕ, ℤ, List};
ghost use Rattle.rx_cert.specs.Findings.{Yes};
ghost use Rattle.rx_cert.specs.Showing.{all_shown};
ghost use Rattle.rx_cert.specs.declared.cert.Cert.{Cert};
ghost use Rattle.rx_row.specs.Holds.{AllHold};
ghost use Rattle.rx_row.specs.declared.row.Row.{Row};
ghost use Rattle.rx_solve.specs.Answers.{IsCertificate};
ghost use Rattle.rx_solve.specs.Refuter.{refuted};

/// Rows that are refuted have a certificate, at most 174 deep and with no variables but theirs; so
/// no integers meet them.
pub fn refuted_rows_have_a_certificate()
    ensures certificate { (rows : List Row) → refuted rows ≡ Yes → (cert : Cert) ×
        IsCertificate 174 rows cert }
    ensures unmet { (rows : List Row) → refuted rows ≡ Yes → (a : ℕ → ℤ) → ¬ (AllHold a rows) }
{}

/// Rows that the refuter shows hold wherever the given ones do.
pub fn shown_rows_hold()
    ensures { (given rows : List Row) → all_shown refuted given rows ≡ Yes → (a : ℕ → ℤ) →
        AllHold a given → AllHold a rows }
{}
