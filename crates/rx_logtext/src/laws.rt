//! That a log is given by its lines, and that a text has one reading, however it is cut.
ghost use Rattle.std.specs.Prelude.{◌≡◌, ◌++◌, ℕ, List, Result};
ghost use Rattle.rx_log.specs.declared.log.Log.{Log};
ghost use Rattle.rx_logtext.specs.Logs.{HasLines, IsFirstBad, IsLog, ReadsLog};
ghost use Rattle.rx_logtext.specs.Readers.{Finishes, HasTakenAll, IsReadAlike, StandsFor};
ghost use Rattle.rx_logtext.specs.declared.log_end.LogEnd.{LogEnd};
ghost use Rattle.rx_logtext.specs.declared.reader.LogReader.{LogReader};

/// No two logs have the same lines. It does nothing: its contract is the law.
pub fn no_two_logs_have_the_same_lines()
    ensures { (texts : List (List ℕ)) (a b : Log) → HasLines a texts → HasLines b texts → a ≡ b }
{}

/// A text is that of one log at most, or it has one first bad line at most, and never both: what
/// is read of a text is settled by the text alone. It does nothing: its contract is the law.
pub fn a_text_has_one_reading()
    ensures one_log { (text : List ℕ) (a b : Log) → IsLog text a → IsLog text b → a ≡ b }
    ensures never_both { (text : List ℕ) (log : Log) (number : ℕ) →
        IsLog text log → ¬ (IsFirstBad text number) }
    ensures one_bad_line { (text : List ℕ) (m n : ℕ) →
        IsFirstBad text m → IsFirstBad text n → m ≡ n }
{}

/// However a text is cut into pieces, a reader that has taken them answers what `read_log` answers,
/// except when out of memory. It has taken all of the text, or as far as a line with which no log
/// begins: after that it takes nothing. It does nothing: its contract is the law.
pub fn each_cut_is_read_alike()
    ensures { (reader : LogReader) (log : Log) (bytes behind : List ℕ)
        (answer : Result (Unit {0}) LogEnd) (read : Result Log LogEnd) →
        StandsFor reader log bytes → HasTakenAll reader behind → Finishes log bytes answer →
        ReadsLog (bytes ++ behind) read → IsReadAlike log answer read }
{}
