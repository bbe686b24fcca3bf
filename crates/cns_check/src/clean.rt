ghost use Rattle.std.specs.Prelude.{◌≡◌, ◌↔◌, [], ℕ, List};
ghost use Rattle.cns_trades.specs.Openings.{opening_of};
ghost use Rattle.cns_trades.specs.Records.{Fields};
ghost use Rattle.cns_trades.specs.Rows.{trade_of};
ghost use Rattle.cns_check.specs.Clean.{IsClean, IsFirst};
ghost use Rattle.cns_check.specs.Findings.{against_opening, against_trade, all_against, in_text};

/// A law, by a call that does nothing: nothing is found in a text exactly where it has its sections, each
/// table is empty or begins with its header, each row of trades is a trade, each row of openings is an opening
/// that stands, and no line of the script is bad.
pub fn clean_texts_alone_have_no_findings()
    ensures { (text : List ℕ) → (in_text text ≡ []) ↔ IsClean text }
{}

/// A law, by a call that does nothing: the first fault that is found in a row is the one for which a run
/// refuses the row, and nothing is found in the fields of a row that a run takes.
pub fn first_fault_is_that_of_a_run()
    ensures trades { (fields : Fields) → IsFirst (trade_of fields) (all_against (against_trade fields)) }
    ensures openings { (fields : Fields) → IsFirst (opening_of fields) (all_against (against_opening fields)) }
{}
