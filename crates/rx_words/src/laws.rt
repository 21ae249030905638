//! Each text has one reading: bytes begin with at most one thing, and it ends at one place.
ghost use Rattle.rx_text.specs.Formats.{IsUnambiguous};
ghost use Rattle.rx_words.specs.Certificates.{certificate_lists, certificates, part_lists};
ghost use Rattle.rx_words.specs.Substitutions.{row_lists, substitutions};
ghost use Rattle.rx_words.specs.Words.{numbers};

/// This is so of numbers of u32.
pub fn numbers_have_one_reading()
    ensures { IsUnambiguous numbers }
{}

/// This is so of the parts of sums.
pub fn parts_have_one_reading()
    ensures { IsUnambiguous part_lists }
{}

/// This is so of certificates.
pub fn certificates_have_one_reading()
    ensures { IsUnambiguous certificates }
{}

/// This is so of lists of certificates.
pub fn certificate_lists_have_one_reading()
    ensures { IsUnambiguous certificate_lists }
{}

/// This is so of lists of rows.
pub fn row_lists_have_one_reading()
    ensures { IsUnambiguous row_lists }
{}

/// This is so of substitutions.
pub fn substitutions_have_one_reading()
    ensures { IsUnambiguous substitutions }
{}
