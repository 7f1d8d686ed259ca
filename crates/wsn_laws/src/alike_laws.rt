//! What a redaction leaves: laws of `specs/AlikeStreams.antt`, `specs/AlikeItems.antt` and `specs/AlikeCaptures.antt`. The
//! functions do nothing when called; their contracts are proved.

ghost use Rattle.std.specs.Prelude.{◌≡◌, ℕ, List, [], ◌∷◌, length};
ghost use Rattle.std.specs.List.{AllByRecursion};
ghost use Rattle.wsn_wire.specs.declared.endpoint.Role.{Role};
ghost use Rattle.wsn_wire.specs.Frame.{Frame, IsBytes};
ghost use Rattle.wsn_text.specs.Utf8.{◌–◌};
ghost use Rattle.wsn_rules.specs.Limits.{Limits, InRange};
ghost use Rattle.wsn_redact.specs.StandIns.{IsRedacted};
ghost use Rattle.wsn_redact.specs.Redaction.{IsRedaction};
ghost use Rattle.wsn_redact.specs.RedactedCaptures.{IsRedactedCapture};
ghost use Rattle.wsn_laws.specs.AlikeCaptures.{AreAlikeCaptures};
ghost use Rattle.wsn_rules.specs.declared.detail.Detail.{Detail};
ghost use Rattle.wsn_rules.specs.declared.head_info.HeadInfo.{HeadInfo};
ghost use Rattle.wsn_rules.specs.declared.verdict.Verdict.{Verdict};
ghost use Rattle.wsn_rules.specs.Heads.{AreHeads};
ghost use Rattle.wsn_rules.specs.Recut.{plan_of};
ghost use Rattle.wsn_rules.specs.ShownStream.{Item, Shown, IsShownStream, IsLeftOver};
ghost use Rattle.wsn_rules.specs.Verdict.{IsVerdict};
ghost use Rattle.wsn_laws.specs.AlikeItems.{AreShownAlike, AreAlikeInTurn};
ghost use Rattle.wsn_laws.specs.AlikeStreams.{IsIn, AreAlikeTexts, AreAlikeStreams};

/// Nothing else is left: texts that are alike have one redaction, and so have streams that are alike. Who reads a
/// redaction learns no more of a stream than which streams are alike to it.
pub fn law_alike_streams_have_one_redaction()
    ensures texts { (text other redacted other_redacted : List ℕ) → AreAlikeTexts text other →
        IsRedacted text redacted → IsRedacted other other_redacted → redacted ≡ other_redacted }
    ensures streams { (role : Role) (limits : Limits) (bytes other redacted other_redacted : List ℕ) →
        AreAlikeStreams role limits bytes other → IsRedaction role limits bytes redacted →
        IsRedaction role limits other other_redacted → redacted ≡ other_redacted }
{}

/// Nothing else is lost: streams of bytes with one redaction are alike, and so are texts. So `AreAlikeStreams` says
/// exactly which streams a redaction may be of.
pub fn law_streams_with_one_redaction_are_alike()
    ensures texts { (text other redacted : List ℕ) → IsRedacted text redacted → IsRedacted other redacted →
        AreAlikeTexts text other }
    ensures streams { (role : Role) (limits : Limits) (bytes other redacted : List ℕ) → IsBytes bytes → IsBytes other →
        IsRedaction role limits bytes redacted → IsRedaction role limits other redacted →
        AreAlikeStreams role limits bytes other }
{}

/// A stream and its redaction are alike, and so are a text and its own.
pub fn law_redaction_is_alike()
    ensures texts { (text redacted : List ℕ) → IsRedacted text redacted → AreAlikeTexts text redacted }
    ensures streams { (role : Role) (limits : Limits) (bytes redacted : List ℕ) → IsBytes bytes →
        IsRedaction role limits bytes redacted → AreAlikeStreams role limits bytes redacted }
{}

/// Of streams of bytes, being alike is an equivalence.
pub fn law_alike_is_an_equivalence()
    ensures same { (role : Role) (limits : Limits) (bytes : List ℕ) → InRange limits → IsBytes bytes →
        AreAlikeStreams role limits bytes bytes }
    ensures back { (role : Role) (limits : Limits) (bytes other : List ℕ) → InRange limits → IsBytes bytes →
        IsBytes other → AreAlikeStreams role limits bytes other → AreAlikeStreams role limits other bytes }
    ensures onward { (role : Role) (limits : Limits) (bytes other third : List ℕ) → InRange limits → IsBytes bytes →
        IsBytes other → IsBytes third → AreAlikeStreams role limits bytes other →
        AreAlikeStreams role limits other third → AreAlikeStreams role limits bytes third }
{}

/// Any two texts of as many small letters are alike: of a password of small letters only its length is left.
pub fn law_small_letters_are_alike()
    ensures { (text other : List ℕ) → AllByRecursion (IsIn ((0x61 – 0x7A) ∷ [])) text →
        AllByRecursion (IsIn ((0x61 – 0x7A) ∷ [])) other → length text ≡ length other → AreAlikeTexts text other }
{}

/// Captures have one redaction exactly if they are alike: nothing else of a capture is left, and nothing else is lost.
/// A capture and its redaction are alike.
pub fn law_alike_captures_have_one_redaction()
    ensures one { (limits : Limits) (lines others redacted also : List (List ℕ)) →
        AreAlikeCaptures limits lines others → IsRedactedCapture limits lines redacted →
        IsRedactedCapture limits others also → redacted ≡ also }
    ensures alike { (limits : Limits) (lines others redacted : List (List ℕ)) →
        IsRedactedCapture limits lines redacted → IsRedactedCapture limits others redacted →
        AreAlikeCaptures limits lines others }
    ensures own { (limits : Limits) (lines redacted : List (List ℕ)) → IsRedactedCapture limits lines redacted →
        AreAlikeCaptures limits lines redacted }
{}

/// What is shown of streams that are alike is alike: the same heads and the same plan; and the same events, refusals and
/// bytes that are left over, at the same offsets, of the same kinds and sizes, of as many frames, and each with as many
/// bytes of the stream. So it is of a stream and its redaction.
pub fn law_alike_streams_are_shown_alike()
    ensures heads { (role : Role) (limits : Limits) (bytes other : List ℕ) (fs gs : List Frame)
        (verdict other_verdict : Verdict) (heads other_heads : List HeadInfo) →
        AreAlikeStreams role limits bytes other → IsVerdict role limits bytes fs verdict →
        IsVerdict role limits other gs other_verdict → AreHeads role limits bytes fs heads →
        AreHeads role limits other gs other_heads → heads ≡ other_heads }
    ensures plan { (role : Role) (limits : Limits) (bytes other : List ℕ) (fs gs : List Frame)
        (verdict other_verdict : Verdict) → AreAlikeStreams role limits bytes other →
        IsVerdict role limits bytes fs verdict → IsVerdict role limits other gs other_verdict →
        plan_of fs ≡ plan_of gs }
    ensures shown { (detail : Detail) (role : Role) (limits : Limits) (bytes other : List ℕ) (shown others : List Shown) →
        AreAlikeStreams role limits bytes other → IsShownStream detail role limits bytes shown →
        IsShownStream detail role limits other others → AreShownAlike shown others }
    ensures left { (role : Role) (limits : Limits) (bytes other : List ℕ) (items others : List Item) →
        AreAlikeStreams role limits bytes other → IsLeftOver role limits bytes items →
        IsLeftOver role limits other others → AreAlikeInTurn items others }
{}
