//! A law of rows that are shown.
ghost use Rattle.std.specs.Prelude.{◌≡◌, List, Some};
ghost use Rattle.rx_cert.specs.Conditions.{conditions};
ghost use Rattle.rx_cert.specs.Findings.{Said, Yes};
ghost use Rattle.rx_cert.specs.Showing.{HasCertificates, all_shown};
ghost use Rattle.rx_cert.specs.declared.cert.Cert.{Cert};
ghost use Rattle.rx_cert.specs.declared.conditions.ConditionsAnswer.TheVariants.{Shown};
ghost use Rattle.rx_row.specs.declared.row.Row.{Row};

/// Where what is said to be refuted has certificates, rows that are all shown have a list of them
/// that makes the condition list shown.
#[tactic(auto, using(crate::proofs::ShowingLaws::shown_have_certificates))]
pub fn shown_rows_have_certificates()
    ensures { (says : List Row → Said) → HasCertificates says → (given rows : List Row) →
        all_shown says given rows ≡ Yes →
        (certs : List Cert) × (conditions given (Some rows) certs ≡ Some Shown) }
{}
