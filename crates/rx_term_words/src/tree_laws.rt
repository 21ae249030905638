//! The text has one reading: bytes begin with at most one tree, and it ends at one place.
ghost use Rattle.rx_text.specs.Formats.{IsUnambiguous};
ghost use Rattle.rx_term_words.specs.Trees.{trees};

/// This is so of cover trees.
pub fn trees_have_one_reading()
    ensures { IsUnambiguous trees }
{}
