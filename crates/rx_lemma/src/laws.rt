//! Laws of naming.
ghost use Rattle.rx_lemma.specs.Shapes.{NamingKeepsShapes, NamingSubstitutes};

/// Naming keeps the shapes of both sides of a goal.
pub fn naming_keeps_shapes()
    ensures { NamingKeepsShapes }
{}

/// What naming says of its new variables is a substitution, as a step asks.
pub fn naming_substitutes()
    ensures { NamingSubstitutes }
{}
