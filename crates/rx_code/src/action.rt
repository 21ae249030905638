//! What is done at points.
use crate::point::Point;
use rx_plain::Items;
use rx_poly::Poly;
use rx_row::Row;

/// The two results of a division.
#[derive(Clone, Copy, Debug, PartialEq, Eq)]
pub enum Division {
    /// The quotient, of `/`.
    Quotient,
    /// The remainder, of `%`.
    Remainder,
}

/// What is done at a point, or at a frame. Its polynomials are over the point's variables.
#[derive(Debug, Drop, PartialEq, Eq)]
pub enum Action {
    /// On to another point.
    Go(Point),
    /// A variable becomes the polynomial's value; then on to the point.
    Set(u32, Poly, Point),
    /// On to the first point where the row holds, and to the second where it doesn't.
    Test(Row, Point, Point),
    /// The failure of a result out of range where the row holds; otherwise on to the point.
    Exclude(Row, Point),
    /// A failure where the second polynomial is 0; otherwise on to the point, which has the result
    /// of the division as one variable more.
    Divide(Division, Poly, Poly, Point),
    /// A call of the function at that place in the program, with those arguments; the frame waits
    /// for what it returns.
    Call(u32, Items<Poly>, Point),
    /// At a frame: what was returned becomes one variable more of the point. A failure stays what
    /// it is.
    Resume(Point),
    /// The value of the polynomial is returned.
    Return(Poly),
}

/// An action, with where it is done.
#[derive(Debug, Drop, PartialEq, Eq)]
pub struct Instruction {
    /// The point, or the frame.
    pub at: Point,
    /// What is done there.
    pub action: Action,
}
