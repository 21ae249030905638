//! Each text has one reading: bytes begin with at most one thing, and it ends at one place.
ghost use Rattle.rx_term_words.specs.Equations.{equations};
ghost use Rattle.rx_term_words.specs.Terms.{terms};
ghost use Rattle.rx_text.specs.Formats.{IsUnambiguous};

/// This is so of terms.
pub fn terms_have_one_reading()
    ensures { IsUnambiguous terms }
{}

/// This is so of equations.
pub fn equations_have_one_reading()
    ensures { IsUnambiguous equations }
{}
