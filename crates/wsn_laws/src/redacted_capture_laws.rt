//! Laws of the redaction of captures, as `wsn_redact/specs/RedactedCaptures.antt` defines it. The functions do nothing when
//! called; their contracts are proved.

ghost use Rattle.std.specs.Prelude.{◌≡◌, ◌↔◌, ℕ, Option, List, length};
ghost use Rattle.wsn_rules.specs.Limits.{Limits, InRange};
ghost use Rattle.wsn_rules.specs.Entries.{Entry, AreEntries};
ghost use Rattle.wsn_rules.specs.ClosingHandshake.{IsReport};
ghost use Rattle.wsn_rules.specs.declared.closing_handshake.Report.{Report};
ghost use Rattle.wsn_capture.specs.LineFaults.{AreAcceptedLines};
ghost use Rattle.wsn_capture.specs.declared.ended_by.EndedBy.{EndedBy};
ghost use Rattle.wsn_capture.specs.EndedBy.{IsEndedBy};
ghost use Rattle.wsn_redact.specs.RedactedCaptures.{IsRedactedNothing, IsRedactedCapture};
ghost use Rattle.wsn_laws.specs.AlikeCaptures.{AreAlikeLines};
ghost use Rattle.wsn_redact.specs.RedactingCaptures.{IsWholeText};

/// What becomes of an empty line or of a comment is determined.
pub fn law_one_redacted_comment()
    ensures { (text redacted other : List ℕ) → IsRedactedNothing text redacted → IsRedactedNothing text other →
        redacted ≡ other }
{}

/// A capture whose lines are accepted has exactly one redaction, with as many lines.
pub fn law_one_redacted_capture()
    ensures some { (limits : Limits) (lines : List (List ℕ)) (entries : List Entry) → InRange limits →
        AreAcceptedLines limits lines entries → (redacted : List (List ℕ)) × IsRedactedCapture limits lines redacted }
    ensures one { (limits : Limits) (lines redacted others : List (List ℕ)) →
        IsRedactedCapture limits lines redacted → IsRedactedCapture limits lines others → redacted ≡ others }
    ensures size { (limits : Limits) (lines redacted : List (List ℕ)) →
        IsRedactedCapture limits lines redacted → length redacted ≡ length lines }
{}

/// A capture's text has one redaction at most: its last line has an LF just if the capture's has.
pub fn law_one_whole_text()
    ensures { (limits : Limits) (came text other : List ℕ) → IsWholeText limits came text →
        IsWholeText limits came other → text ≡ other }
{}

/// The lines of a redacted capture are accepted, and each is like the capture's: as many bytes of the same endpoint or the
/// same end mark, the same time or none, and the same of a reset.
pub fn law_redacted_lines_are_alike()
    ensures accepted { (limits : Limits) (lines redacted : List (List ℕ)) → IsRedactedCapture limits lines redacted →
        (entries : List Entry) × AreAcceptedLines limits redacted entries }
    ensures alike { (limits : Limits) (lines redacted : List (List ℕ)) → IsRedactedCapture limits lines redacted →
        AreAlikeLines lines redacted }
{}

/// The report on a capture and that on its redaction are the same, and so is what is said of who ended the connection.
pub fn law_redacted_capture_has_the_same_report()
    ensures report { (limits : Limits) (lines redacted : List (List ℕ)) (report : Report) →
        IsRedactedCapture limits lines redacted → IsReport limits lines report ↔ IsReport limits redacted report }
    ensures ended_by { (limits : Limits) (lines redacted : List (List ℕ)) (entries others : List Entry) (report : Report)
        (ended_by : Option EndedBy) → IsRedactedCapture limits lines redacted → AreEntries lines entries →
        AreEntries redacted others →
        IsEndedBy lines entries report ended_by ↔ IsEndedBy redacted others report ended_by }
{}

/// Redacting a comment or a capture twice is redacting it once.
pub fn law_redacted_capture_twice_is_once()
    ensures comment { (text redacted : List ℕ) → IsRedactedNothing text redacted → IsRedactedNothing redacted redacted }
    ensures capture { (limits : Limits) (lines redacted : List (List ℕ)) → IsRedactedCapture limits lines redacted →
        IsRedactedCapture limits redacted redacted }
{}
