//! Laws of the table. The functions do nothing; each contract is a law.
ghost use Rattle.std.specs.Prelude.{◌≡◌, [], ◌∷◌};
ghost use Rattle.c_ast.specs.declared.integers.Integers.TheVariants.{Unbounded, Bits32};
ghost use Rattle.rx_code.specs.Example as sample;
ghost use Rattle.rx_code.specs.Preconditions.{pre_rows};
ghost use Rattle.rx_code.specs.Programs.{program_code};
ghost use Rattle.rx_code.specs.Rules.{parts_of, symbol};
ghost use Rattle.rx_code.specs.Translation.{IsBeyond, IsTranslation};

/// What small programs are compiled to, symbol by symbol and rule by rule: a loop and a recursion
/// (`sums`), a division that may fail (`division`), and most of the other forms of statements and
/// expressions (`forms`, `walks`); operators of 32-bit integers, whose results are tested
/// (`ranges`); and the rows of a precondition (`rows`).
pub fn small_programs_are_compiled_so()
    ensures sums { parts_of Unbounded (program_code Unbounded sample.sums (0 ∷ 1 ∷ [])).form ≡
        sample.sums_parts }
    ensures division { parts_of Unbounded
        (program_code Unbounded sample.division (0 ∷ 1 ∷ [])).form ≡ sample.division_parts }
    ensures forms { parts_of Unbounded (program_code Unbounded sample.forms (0 ∷ [])).form ≡
        sample.forms_parts }
    ensures walks { parts_of Unbounded (program_code Unbounded sample.walks (1 ∷ 2 ∷ [])).form ≡
        sample.walks_parts }
    ensures ranges { parts_of Bits32 (program_code Bits32 sample.ranges (0 ∷ 1 ∷ [])).form ≡
        sample.ranges_parts }
    ensures rows { (pre_rows sample.between).form ≡ sample.between_rows }
{}

/// A program whose second function calls the third: these two are reached, and both have a rule set
/// within the limits (`met`). A function with 129 parameters has none (`beyond`).
pub fn there_are_translations()
    ensures met { IsTranslation Unbounded sample.calls 1 2 sample.calls_parts
        (symbol 0) (symbol 4) }
    ensures beyond { IsBeyond Unbounded sample.crowded 0 0 }
{}
