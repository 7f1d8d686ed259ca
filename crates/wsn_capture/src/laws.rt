//! Laws that follow from the definitions in `specs/`. Each function does nothing: its contract is the law.

ghost use Rattle.std.specs.Prelude.{◌≡◌, ℕ, ◌+◌, ◌≤◌, ◌⊎◌, ◌↔◌, List, [], ◌∷◌, ◌++◌, length, Result, Ok, Err};
ghost use Rattle.std.specs.List.{AllByRecursion};
ghost use Rattle.wsn_rules.specs.declared.detail.Detail.{Detail};
ghost use Rattle.wsn_rules.specs.ShownCapture.{ShownLine, LeftAtEnd, IsShownCapture};
ghost use Rattle.wsn_rules.specs.TextLines.{IsLine, ended, AreLines, lines_of};
ghost use Rattle.wsn_capture.specs.CaptureAnswers.{IsFaulty, IsCaptureAnswerOf};
ghost use Rattle.wsn_capture.specs.LineFaults.{AreAcceptedLines, IsFaultAfter, IsFirstLineFault, IsAcceptedLine};
ghost use Rattle.wsn_capture.specs.SideTexts.{lines_giving, entry_after, sentinel, sent_in_lines, side_most, sent_in};
ghost use Rattle.wsn_wire.specs.declared.endpoint.Role.{Role};
ghost use Rattle.wsn_rules.specs.Limits.{Limits, InRange};
ghost use Rattle.wsn_rules.specs.Entries.{Entry, IsEntry, AreEntries};
ghost use Rattle.wsn_rules.specs.ClosingHandshake.{IsReport, SendAlike};
ghost use Rattle.wsn_capture.specs.declared.line_fault.LineFault.{LineFault};
ghost use Rattle.wsn_rules.specs.declared.closing_handshake.Report.{Report};
ghost use Rattle.wsn_capture.specs.declared.capture_report.CaptureReport.{CaptureReport};
ghost use Rattle.wsn_capture.specs.declared.capture_stop.CaptureStop.{CaptureStop};
ghost use Rattle.wsn_rules.specs.Sides.{sent};

/// A line has at most one entry, and lines have at most one list of entries.
pub fn law_one_entry()
    ensures line { (line : List ℕ) (entry other : Entry) → IsEntry line entry → IsEntry line other → entry ≡ other }
    ensures lines { (lines : List (List ℕ)) (entries others : List Entry) →
        AreEntries lines entries → AreEntries lines others → entries ≡ others }
{}

/// After given entries a line is accepted or has exactly one first fault, and never both.
pub fn law_taken_or_faulty()
    ensures either { (limits : Limits) (given : List Entry) (line : List ℕ) →
        ((entry : Entry) × IsAcceptedLine limits given line entry)
        ⊎ ((fault : LineFault) × IsFirstLineFault limits given line fault) }
    ensures one { (limits : Limits) (given : List Entry) (line : List ℕ) (fault other : LineFault) →
        IsFirstLineFault limits given line fault → IsFirstLineFault limits given line other → fault ≡ other }
    ensures not_both { (limits : Limits) (given : List Entry) (line : List ℕ) (entry : Entry) (fault : LineFault) →
        IsAcceptedLine limits given line entry → IsFirstLineFault limits given line fault → ⊥ }
{}

/// Lines have at most one report.
pub fn law_one_report()
    ensures { (limits : Limits) (lines : List (List ℕ)) (report other : Report) →
        IsReport limits lines report → IsReport limits lines other → report ≡ other }
{}

/// The division of bytes into lines affects only `first`: the rest of a report depends on the two streams, and on which
/// of them have their end mark.
pub fn law_any_lines()
    ensures { (limits : Limits) (lines others : List (List ℕ)) (report other : Report) →
        SendAlike lines others → IsReport limits lines report → IsReport limits others other →
        other ≡ record report { first = other.first } }
{}

/// Lines with entries have a report, and are shown in each detail, if the limits are in range.
pub fn law_every_capture_is_shown()
    ensures { (detail : Detail) (limits : Limits) (lines : List (List ℕ)) (entries : List Entry) →
        InRange limits → AreEntries lines entries →
        (shown : List ShownLine) × (client server : LeftAtEnd) × (report : Report)
        × IsShownCapture detail limits lines shown client server report }
{}

/// A text has exactly one correct answer: the report of its lines, the number of bytes after each Close and the lines
/// with the offending bytes of refused streams; or its first line that isn't accepted, with that line's first fault.
pub fn law_one_capture_answer()
    ensures some { (limits : Limits) (text : List ℕ) → InRange limits →
        (answer : Result CaptureReport CaptureStop) × IsCaptureAnswerOf limits text answer }
    ensures one { (limits : Limits) (text : List ℕ) (answer other : Result CaptureReport CaptureStop) →
        IsCaptureAnswerOf limits text answer → IsCaptureAnswerOf limits text other → answer ≡ other }
{}

/// After accepted lines, `entry_after` is the entry of a line that is accepted, and the first fault of any other line.
/// The input limit allows 1,000,000 lines of 4,096 bytes, so no line exceeds it.
pub fn law_entry_after()
    ensures accepted { (limits : Limits) (lines : List (List ℕ)) (given : List Entry) (line : List ℕ) (entry : Entry) →
        side_most ≤ limits.input → AreAcceptedLines limits lines given →
        (entry_after (lines_giving given) line ≡ Ok entry) ↔ IsAcceptedLine limits given line entry }
    ensures faulty { (limits : Limits) (lines : List (List ℕ)) (given : List Entry) (line : List ℕ) (fault : LineFault) →
        side_most ≤ limits.input → AreAcceptedLines limits lines given →
        (entry_after (lines_giving given) line ≡ Err fault) ↔ IsFirstLineFault limits given line fault }
{}

/// An endpoint's side of a text is its bytes in the text's lines, joined. If a line isn't accepted, it is the bytes in
/// the lines before the first such line, and then a sentinel, which shows the line's number and its fault.
pub fn law_side_of_text()
    ensures accepted { (role : Role) (limits : Limits) (text : List ℕ) (lines : List (List ℕ)) (given : List Entry) →
        side_most ≤ limits.input → AreLines text lines → AreAcceptedLines limits lines given →
        sent_in role text ≡ sent role given }
    ensures faulty { (role : Role) (limits : Limits) (text : List ℕ) (number : ℕ) (fault : LineFault) →
        side_most ≤ limits.input → (is : IsFaulty limits text number fault) →
        sent_in role text ≡ sent role is.is.given ++ sentinel number fault ∷ [] }
    ensures sentinel { (role : Role) (limits : Limits) (text came : List ℕ) (number : ℕ) (fault : LineFault) →
        side_most ≤ limits.input → sent_in role text ≡ came ++ sentinel number fault ∷ [] →
        IsFaulty limits text number fault }
{}

/// A sentinel is no byte, and different lines and faults have different sentinels.
pub fn law_sentinel()
    ensures no_byte { (number : ℕ) (fault : LineFault) → 256 ≤ sentinel number fault }
    ensures one { (number other : ℕ) (fault another : LineFault) →
        sentinel number fault ≡ sentinel other another → (number ≡ other) × (fault ≡ another) }
{}

/// The side of a longer text: accepted lines that have ended give the same bytes whatever follows them, and after the
/// first line that isn't accepted nothing comes, whatever follows it.
pub fn law_longer_side()
    ensures accepted { (role : Role) (limits : Limits) (lines : List (List ℕ)) (given : List Entry) (later : List ℕ) →
        side_most ≤ limits.input → AllByRecursion IsLine lines → AreAcceptedLines limits lines given →
        sent_in role (ended lines ++ later) ≡ sent role given ++ sent_in_lines role (lines_giving given) (lines_of later) }
    ensures faulty { (role : Role) (limits : Limits) (lines : List (List ℕ)) (line : List ℕ) (fault : LineFault)
        (later : List ℕ) →
        side_most ≤ limits.input → AllByRecursion IsLine (lines ++ line ∷ []) → (is : IsFaultAfter limits lines line fault) →
        sent_in role (ended (lines ++ line ∷ []) ++ later)
        ≡ sent role is.given ++ sentinel (length lines + 1) fault ∷ [] }
{}
