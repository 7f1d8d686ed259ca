//! The laws of the JSON objects that `wsn_print`, `wsn_shown_text` and `wsn_show` write: what a program that reads the
//! lines of `wsn` with `--json` can rely on.
//!
//! Two different answers never print the same object, so an object says all that its answer does
//! ([`law_answer_objects`]): a verdict ([`law_verdict_objects`]), a frame's head ([`law_frame_objects`]), a report of
//! `closing` ([`law_report_objects`]) or a comparison ([`law_comparison_objects`]). `specs/Answers.antt` says which
//! answers the laws are about. The object of a shown item says all of the item that its view shows
//! ([`law_item_objects`], `specs/ShownItems.antt`), and that of two streams that differ says so of both events, and
//! where their payloads differ ([`law_difference_objects`], `specs/ShownDifferences.antt`). That of an end mark says
//! all of it ([`law_end_objects`]), and so do that of a comment ([`law_comment_objects`]) and that of who ended a
//! connection ([`law_ended_by_objects`]).
//!
//! Each of these objects is JSON with distinct names ([`law_objects_are_json`]). `specs/JsonText.antt` says which bytes
//! are JSON, and of which value, by the grammar of RFC 8259. No bytes are a text of two values ([`law_one_value`]), and
//! [`law_what_is_not_json`] has texts that the grammar refuses. Which character two escaped surrogates are,
//! [`law_surrogates_are_a_character`] determines.
//!
//! The definitions of the objects are those of `wsn_print` (`specs/Objects.antt`), of `wsn_shown_text`
//! (`specs/ShownObjects.antt`, `DifferenceText.antt`) and of `wsn_show` (`specs/EndedByTexts.antt`), whose functions
//! write them. Each function here does nothing: its contract is the law.

ghost use Rattle.std.specs.Prelude.{◌≡◌, ◌≢◌, ◌≤◌, ◌⊎◌, ℕ, Option, None, Some, List, [], ◌∷◌, ◌++◌, codes};
ghost use Rattle.std.specs.Char.{IsScalar};
ghost use Rattle.wsn_wire.specs.declared.endpoint.Role.{Role};
ghost use Rattle.wsn_wire.specs.declared.refusal.Reason.TheVariants.{TextBad};
ghost use Rattle.wsn_wire.specs.Frame.{Frame, IsBytes};
ghost use Rattle.wsn_rules.specs.declared.compared.Compared.{Compared};
ghost use Rattle.wsn_rules.specs.declared.head_info.HeadInfo.{HeadInfo};
ghost use Rattle.wsn_rules.specs.declared.closing_handshake.Report.{Report};
ghost use Rattle.wsn_rules.specs.declared.verdict.Summary.{Summary};
ghost use Rattle.wsn_rules.specs.declared.verdict.Verdict.{Verdict};
ghost use Rattle.wsn_rules.specs.Limits.{Limits};
ghost use Rattle.wsn_rules.specs.ShownStream.{Item};
ghost use Rattle.wsn_rules.specs.ShownStream.Item.{RefusedFrame};
ghost use Rattle.wsn_rules.specs.Verdict.{IsVerdict};
ghost use Rattle.wsn_print.specs.Objects.{verdict_object, frame_object, report_object, comparison_object};
ghost use Rattle.wsn_shown_text.specs.DifferenceText.{difference_object};
ghost use Rattle.wsn_shown_text.specs.QuotedTexts.{IsOfSurrogates, ShowsTextReason};
ghost use Rattle.wsn_print.specs.ShownParts.{EntryPosition};
ghost use Rattle.wsn_shown_text.specs.ShownObjects.{item_object, end_object, comment_object};
ghost use Rattle.wsn_capture.specs.declared.ended_by.EndedBy.{EndedBy};
ghost use Rattle.wsn_show.specs.EndedByTexts.{ended_by_object};
ghost use Rattle.wsn_laws.specs.JsonText.{Value, String, Object, Members, Member, IsValue, HasDistinctNames, IsJsonLine, IsObjectLine};
ghost use Rattle.wsn_laws.specs.ShownItems.{IsPositionInRange, IsItemInRange, LookAlike};
ghost use Rattle.wsn_laws.specs.ShownDifferences.{IsDifferenceInRange, DifferAlike};
ghost use Rattle.wsn_laws.specs.Answers.{IsInU64, IsVerdictInRange, IsPrintedWhole, IsHeadInRange, IsReportInRange, IsComparisonInRange, IsComparisonPrintedWhole, Answer, answer_object, IsAnswerInRange, IsAnswerPrintedWhole};

/// A line is the JSON text of one value at most, so whoever reads it by the grammar reads what was written.
pub fn law_one_value()
    ensures { (value other : Value) (line : List ℕ) → IsJsonLine value line → IsJsonLine other line → value ≡ other }
{}

/// Each character beyond U+FFFF has one high and one low surrogate, and any two are those of one. The example of RFC 8259,
/// section 7, is the G clef, U+1D11E.
pub fn law_surrogates_are_a_character()
    ensures pair { (c : ℕ) → IsScalar c → 0x10000 ≤ c → (high : ℕ) × (low : ℕ) × IsOfSurrogates high low c }
    ensures one_pair { (high low other_high other_low c : ℕ) → IsOfSurrogates high low c →
        IsOfSurrogates other_high other_low c → (high ≡ other_high) × (low ≡ other_low) }
    ensures character { (high low c : ℕ) → IsOfSurrogates high low c → IsScalar c × (0x10000 ≤ c) }
    ensures clef { IsValue (String (0x1d11e ∷ [])) (codes "\"\\uD834\\uDD1E\"") }
{}

/// The grammar refuses what isn't JSON. An object's text is no text if bytes follow it, or if its last bytes are missing.
/// No value has any of these texts, and two members with one name don't have distinct names. The last three texts escape a
/// surrogate without its partner, which readers take differently (RFC 8259, section 8.2).
pub fn law_what_is_not_json()
    ensures object_ends { (members : Members) (other : Value) (text more : List ℕ) →
        IsValue (Object members) text → IsValue other (text ++ more) → more ≡ [] }
    ensures object_not_cut { (members : Members) (other : Value) (text more : List ℕ) →
        IsValue (Object members) (text ++ more) → IsValue other text → more ≡ [] }
    ensures empty { (value : Value) → ¬ (IsValue value []) }
    ensures bare_name { (value : Value) → ¬ (IsValue value (codes "{a:1}")) }
    ensures without_colon { (value : Value) → ¬ (IsValue value (codes "{\"a\" 1}")) }
    ensures without_value { (value : Value) → ¬ (IsValue value (codes "{\"a\":}")) }
    ensures last_comma { (value : Value) → ¬ (IsValue value (codes "{\"a\":1,}")) }
    ensures leading_zero { (value : Value) → ¬ (IsValue value (codes "{\"a\":01}")) }
    ensures plus { (value : Value) → ¬ (IsValue value (codes "{\"a\":+1}")) }
    ensures bare_point { (value : Value) → ¬ (IsValue value (codes "{\"a\":1.}")) }
    ensures bare_fraction { (value : Value) → ¬ (IsValue value (codes "{\"a\":.5}")) }
    ensures bare_exponent { (value : Value) → ¬ (IsValue value (codes "{\"a\":1e}")) }
    ensures same_name { (name : List ℕ) (value other : Value) (others : Members) →
        ¬ (HasDistinctNames (Object (Member name value (Member name other others)))) }
    ensures line_feed { (value : Value) → ¬ (IsValue value (codes "{\"a\":\"\n\"}")) }
    ensures lone_surrogate { (value : Value) → ¬ (IsValue value (codes "\"\\ud83d\"")) }
    ensures turned_surrogates { (value : Value) → ¬ (IsValue value (codes "\"\\ude00\\ud83d\"")) }
    ensures surrogate_and_letter { (value : Value) → ¬ (IsValue value (codes "\"\\ud83d\\u0041\"")) }
{}

/// The objects of answers, of two streams that differ, of shown items, end marks, comments and ends are JSON: one object
/// and an LF. No name occurs twice in it, nor in an object inside it.
pub fn law_objects_are_json()
    ensures verdict { (verdict : Verdict) → IsVerdictInRange verdict → IsObjectLine (verdict_object verdict) }
    ensures frame { (head : HeadInfo) → IsHeadInRange head → IsObjectLine (frame_object head) }
    ensures report { (report : Report) → IsReportInRange report → IsObjectLine (report_object report) }
    ensures comparison { (compared : Compared) → IsComparisonInRange compared →
        IsObjectLine (comparison_object compared) }
    ensures difference { (n : ℕ) (role : Role) (k : ℕ) (one other : Option Item) → IsDifferenceInRange k one other →
        IsObjectLine (difference_object n role k one other) }
    ensures item { (n : ℕ) (role : Role) (position : EntryPosition) (item : Item) →
        IsPositionInRange position → IsItemInRange item → ShowsTextReason item →
        IsObjectLine (item_object n role position item) }
    ensures end_mark { (role : Role) (position : EntryPosition) (sent : ℕ) →
        IsPositionInRange position → IsInU64 sent → IsObjectLine (end_object role position sent) }
    ensures comment { (line : ℕ) (text : List ℕ) → IsInU64 line → IsBytes text →
        IsObjectLine (comment_object line text) }
    ensures ended_by { (by : EndedBy) → IsObjectLine (ended_by_object by) }
{}

/// Two different answers never print the same object, also where one is a verdict and the other a report, say. So an
/// object determines the answer that it was printed for.
pub fn law_answer_objects()
    ensures { (answer other : Answer) → IsAnswerInRange answer → IsAnswerInRange other →
        IsAnswerPrintedWhole answer → IsAnswerPrintedWhole other → answer_object answer ≡ answer_object other →
        answer ≡ other }
{}

/// Two different verdicts never print the same object: it says all that the verdict does. The object of `cut` leaves out
/// the tail and the Close, which a stream that is cut doesn't have.
pub fn law_verdict_objects()
    ensures differ { (verdict other : Verdict) → IsVerdictInRange verdict → IsVerdictInRange other →
        IsPrintedWhole verdict → IsPrintedWhole other → verdict_object verdict ≡ verdict_object other →
        verdict ≡ other }
    ensures stream { (role : Role) (limits : Limits) (bytes : List ℕ) (fs : List Frame) (verdict : Verdict) →
        IsVerdict role limits bytes fs verdict → IsPrintedWhole verdict }
    ensures left_out { (s : Summary) (tail : ℕ) (close : Option (Option ℕ)) →
        verdict_object (Verdict.Cut (record s { tail = tail; close = close })) ≡ verdict_object (Verdict.Cut s) }
{}

/// Two different heads of frames never print the same object.
pub fn law_frame_objects()
    ensures { (head other : HeadInfo) → IsHeadInRange head → IsHeadInRange other →
        frame_object head ≡ frame_object other → head ≡ other }
{}

/// Two different reports of `closing` never print the same object.
pub fn law_report_objects()
    ensures { (report other : Report) → IsReportInRange report → IsReportInRange other →
        report_object report ≡ report_object other → report ≡ other }
{}

/// Two different comparisons never print the same object. It says which event differs, or which stream isn't accepted
/// and all that its verdict says.
pub fn law_comparison_objects()
    ensures { (compared other : Compared) → IsComparisonInRange compared → IsComparisonInRange other →
        IsComparisonPrintedWhole compared → IsComparisonPrintedWhole other →
        comparison_object compared ≡ comparison_object other → compared ≡ other }
{}

/// The object of two streams that differ says which event differs, and of each stream the event up to the bytes that its
/// view leaves out, or that there is none. It says where the payloads differ, if they do, and all that the views around
/// that byte show. If it has an event, it also says which endpoint sent the streams.
pub fn law_difference_objects()
    ensures { (n : ℕ) (role other_role : Role) (k other_k : ℕ) (one two other_one other_two : Option Item) →
        IsDifferenceInRange k one two → IsDifferenceInRange other_k other_one other_two →
        difference_object n role k one two ≡ difference_object n other_role other_k other_one other_two →
        (k ≡ other_k) × DifferAlike n one two other_one other_two
        × ((one ≢ None) ⊎ (two ≢ None) → role ≡ other_role) }
{}

/// The object of an end mark says which endpoint sent how many bytes, in which line it is and at which time.
pub fn law_end_objects()
    ensures { (role other : Role) (position other_position : EntryPosition) (sent other_sent : ℕ) →
        IsPositionInRange position → IsPositionInRange other_position → IsInU64 sent → IsInU64 other_sent →
        end_object role position sent ≡ end_object other other_position other_sent →
        (role ≡ other) × (position ≡ other_position) × (sent ≡ other_sent) }
{}

/// The object that says who ended a connection says which endpoint, and whether by a reset.
pub fn law_ended_by_objects()
    ensures { (by other : EndedBy) → ended_by_object by ≡ ended_by_object other → by ≡ other }
{}

/// The object of a comment says in which line it is, and all of its bytes: it begins with `#`, and what follows is there as
/// a text, or in hexadecimal if it isn't UTF-8.
pub fn law_comment_objects()
    ensures { (line other_line : ℕ) (text other : List ℕ) → IsInU64 line → IsInU64 other_line → IsBytes text →
        IsBytes other → comment_object line (codes "#" ++ text) ≡ comment_object other_line (codes "#" ++ other) →
        (line ≡ other_line) × (text ≡ other) }
{}

/// The object of a shown item says which endpoint sent it, in which line and at which time, and the item up to the bytes
/// that its view leaves out. Of a refused text it says whether there is a bad character, where it is, and which bytes it
/// has; the bytes only if the view isn't 0.
pub fn law_item_objects()
    ensures shown { (n : ℕ) (role other_role : Role) (position other_position : EntryPosition) (item other : Item) →
        IsPositionInRange position → IsPositionInRange other_position → IsItemInRange item → IsItemInRange other →
        ShowsTextReason item → ShowsTextReason other →
        item_object n role position item ≡ item_object n other_role other_position other →
        (role ≡ other_role) × (position ≡ other_position) × LookAlike n item other }
    ensures unseen { (role : Role) (position : EntryPosition) →
        item_object 0 role position (RefusedFrame 0 (record { offset = 2; reason = TextBad }) (0xfc ∷ [])
        (Some (record { offset = 2; in_payload = 0; bytes = 0xfc ∷ []; earlier = [] })))
        ≡ item_object 0 role position (RefusedFrame 0 (record { offset = 2; reason = TextBad }) (0xff ∷ [])
        (Some (record { offset = 2; in_payload = 0; bytes = 0xff ∷ []; earlier = [] }))) }
{}
