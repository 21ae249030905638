//! The law of lemmas: a function with an empty body.
ghost use Rattle.rx_find_lemmas.specs.AllLemmas.{GeneralisationsAreLemmas};

/// Over well made rules the lemmas of an equation are all of its generalisations: the step to each
/// applies, and nothing passes the limits there.
pub fn generalisations_of_equations_are_lemmas()
    ensures { GeneralisationsAreLemmas }
{}
