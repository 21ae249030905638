//! That a text is read in one way by an order of lines, and which line of it is the first bad one.
ghost use Rattle.std.specs.Prelude.{◌≡◌, ◌++◌, ◌∷◌, [], ℕ, suc, true, List, length};
ghost use Rattle.rx_lines.specs.Orders.{IsFirstBad, IsLineOrder, LeadsTo, MayCome};
ghost use Rattle.rx_lines.specs.Texts.{ended, is_one_line};

/// An order of lines.
pub trait LineOrder {
    ghost use Rattle.rx_lines.specs.Orders.{Order};

    // A line, with what stands in it.
    ghost Line: { Type 0 };

    // What the order knows of the lines that have come.
    ghost Place: { Type 0 };

    ghost order: { Order Line Place };
}

/// A text is that of one list of lines at most, or it has one first bad line at most, and never
/// both: what is read of a text is settled by the text alone. It does nothing: its contract is the
/// law.
pub fn a_text_has_one_reading<O: LineOrder>()
    requires { IsLineOrder O.order }
    ensures one_list { (xs ys : List (List ℕ)) → LeadsTo O.order xs O.order.end →
        LeadsTo O.order ys O.order.end → ended xs ≡ ended ys → xs ≡ ys }
    ensures one_place { (texts : List (List ℕ)) (p q : O.Place) → LeadsTo O.order texts p →
        LeadsTo O.order texts q → p ≡ q }
    ensures never_both { (texts : List (List ℕ)) (number : ℕ) → LeadsTo O.order texts O.order.end →
        ¬ (IsFirstBad O.order (ended texts) number) }
    ensures one_bad_line { (text : List ℕ) (m n : ℕ) → IsFirstBad O.order text m →
        IsFirstBad O.order text n → m ≡ n }
{}

/// Where lines lead to a place and the next one, ended by a line feed, may not come there, it is
/// the first bad one, whatever is after it. Where nothing more is ended by a line feed, and
/// something is left or the place isn't the end, the next line is the first bad one, since it is
/// missing. It does nothing: its contract is the law.
pub fn first_bad_lines_are_found<O: LineOrder>()
    requires { IsLineOrder O.order }
    ensures bad_at { (texts : List (List ℕ)) (place : O.Place) (next rest : List ℕ) →
        LeadsTo O.order texts place → is_one_line next ≡ true → ¬ (MayCome O.order place next) →
        IsFirstBad O.order (ended texts ++ (next ++ 10 ∷ rest)) (suc (length texts)) }
    ensures missing_at { (texts : List (List ℕ)) (place : O.Place) (left : List ℕ) →
        LeadsTo O.order texts place → is_one_line left ≡ true →
        (left ≡ [] → ¬ (place ≡ O.order.end)) →
        IsFirstBad O.order (ended texts ++ left) (suc (length texts)) }
{}
