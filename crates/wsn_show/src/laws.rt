//! Laws of what is printed of a capture. The functions do nothing when called; their contracts are proved.

ghost use Rattle.std.specs.Prelude.{◌≡◌, ℕ, Option, List};
ghost use Rattle.wsn_rules.specs.Limits.{Limits, InRange};
ghost use Rattle.wsn_rules.specs.Entries.{Entry};
ghost use Rattle.wsn_rules.specs.TextLines.{AreLines};
ghost use Rattle.wsn_rules.specs.declared.closing_handshake.Report.{Report};
ghost use Rattle.wsn_capture.specs.LineFaults.{AreAcceptedLines};
ghost use Rattle.wsn_capture.specs.declared.ended_by.EndedBy.{EndedBy};
ghost use Rattle.wsn_print.specs.declared.style.Style.{Style};
ghost use Rattle.wsn_capture.specs.EndedBy.{IsEndedBy};
ghost use Rattle.wsn_show.specs.Showing.{IsWholeText};

/// A capture whose lines are accepted has exactly one report and, in each style, one text; at most one answer says who
/// ended the connection.
pub fn law_one_capture_text()
    ensures some { (limits : Limits) (style : Style) (came : List ℕ) (lines : List (List ℕ)) (entries : List Entry) →
        InRange limits → AreLines came lines → AreAcceptedLines limits lines entries →
        (report : Report) × (text : List ℕ) × IsWholeText limits style came report text }
    ensures ended_by { (lines : List (List ℕ)) (entries : List Entry) (report : Report) (ended_by other : Option EndedBy) →
        IsEndedBy lines entries report ended_by → IsEndedBy lines entries report other → ended_by ≡ other }
    ensures text { (limits : Limits) (style : Style) (came : List ℕ) (report other : Report) (text others : List ℕ) →
        IsWholeText limits style came report text → IsWholeText limits style came other others →
        (report ≡ other) × (text ≡ others) }
{}
