//! Laws of what is shown of a stream and of a capture. The functions do nothing when called; their contracts are proved.

ghost use Rattle.std.specs.Prelude.{◌≡◌, ℕ, ◌<◌, ◌≤◌, Option, List, [], ◌++◌, length, map, slice_get};
ghost use Rattle.std.specs.List.{AllByRecursion};
ghost use Rattle.wsn_wire.specs.declared.endpoint.Role.{Role};
ghost use Rattle.wsn_wire.specs.Frame.{Frame, IsBytes};
ghost use Rattle.wsn_rules.specs.Limits.{Limits, InRange};
ghost use Rattle.wsn_rules.specs.declared.verdict.Verdict.{Verdict};
ghost use Rattle.wsn_rules.specs.Verdict.{IsVerdict};
ghost use Rattle.wsn_rules.specs.Meaning.{meaning};
ghost use Rattle.wsn_rules.specs.declared.detail.Detail.{Detail};
ghost use Rattle.wsn_rules.specs.declared.detail.Detail.TheVariants.{Events, Frames};
ghost use Rattle.wsn_rules.specs.declared.head_info.HeadInfo.{HeadInfo};
ghost use Rattle.wsn_rules.specs.declared.without.Without.{Without};
ghost use Rattle.wsn_rules.specs.Entries.{Entry, AreEntries};
ghost use Rattle.wsn_rules.specs.Heads.{AreHeads};
ghost use Rattle.wsn_rules.specs.LeftOut.{events_without};
ghost use Rattle.wsn_rules.specs.ClosingHandshake.{IsReportOf};
ghost use Rattle.wsn_rules.specs.Sides.{sent};
ghost use Rattle.wsn_rules.specs.ShownStream.{Item, Shown, shown_after, IsShownStream, IsLeftOver, events_shown, heads_shown};
ghost use Rattle.wsn_rules.specs.ShownOffsets.{AreInPlace, AreHeadsInPlace};
ghost use Rattle.wsn_rules.specs.ShownEvents.{IsShownAt, ShowsEvent};
ghost use Rattle.wsn_rules.specs.declared.closing_handshake.Report.{Report};
ghost use Rattle.wsn_rules.specs.ShownCapture.{beyond, ShownLine, IsTimeAfter, AreShownAfter, items_with_bytes, IsTimeOfLast, LeftAtEnd, IsShownCapture};

/// One list of items is shown of a stream in each detail. Its events are the meaning of the stream's frames, in order;
/// its heads are those that are reported of the stream, in order.
pub fn law_shown_stream()
    ensures one { (detail : Detail) (role : Role) (limits : Limits) (bytes : List ℕ) (shown other : List Shown) →
        IsShownStream detail role limits bytes shown → IsShownStream detail role limits bytes other → shown ≡ other }
    ensures events { (role : Role) (limits : Limits) (bytes : List ℕ) (fs : List Frame) (verdict : Verdict)
        (shown : List Shown) →
        IsVerdict role limits bytes fs verdict → IsShownStream Events role limits bytes shown → events_shown shown
        ≡ meaning fs }
    ensures heads { (role : Role) (limits : Limits) (bytes : List ℕ) (fs : List Frame) (verdict : Verdict)
        (heads : List HeadInfo) (shown : List Shown) →
        IsVerdict role limits bytes fs verdict → AreHeads role limits bytes fs heads →
        IsShownStream Frames role limits bytes shown → heads_shown shown ≡ heads }
{}

/// One event at most is shown with an index, and it is the event with this index in the meaning of the stream's frames,
/// without those that are left out.
pub fn law_shown_event()
    ensures one { (without : Without) (role : Role) (limits : Limits) (bytes : List ℕ) (k : ℕ) (item other : Option Item) →
        IsShownAt without role limits bytes k item → IsShownAt without role limits bytes k other → item ≡ other }
    ensures meant { (without : Without) (role : Role) (limits : Limits) (bytes : List ℕ) (fs : List Frame)
        (verdict : Verdict) (k : ℕ) (item : Option Item) →
        IsVerdict role limits bytes fs verdict → IsShownAt without role limits bytes k item →
        ShowsEvent item (slice_get (events_without without (meaning fs)) k) }
{}

/// Every byte of a stream is in exactly one of its items: those that are shown of it in the detail of events, and those
/// that are left over where it ends. Each of these items is where it says. The first of its bytes is at its offset; its
/// frames, their number and the number of bytes that it lacks are exact; a refused frame ends with the offending byte and
/// shows the evidence in its bytes. Each is shown with its last byte, in order; a message that isn't complete, with what
/// interrupts it. In the detail of frames each head is at its offset, and shown with its last byte.
pub fn law_shown_offsets()
    ensures events { (role : Role) (limits : Limits) (bytes : List ℕ) (shown : List Shown) (left : List Item) →
        IsShownStream Events role limits bytes shown → IsLeftOver role limits bytes left →
        AreInPlace bytes (shown ++ shown_after (length bytes) left) }
    ensures heads { (role : Role) (limits : Limits) (bytes : List ℕ) (shown : List Shown) →
        IsShownStream Frames role limits bytes shown → AreHeadsInPlace bytes shown }
{}

/// With more bytes a stream shows the same items and perhaps more, which are shown with the new bytes.
pub fn law_shown_goes_on()
    ensures { (detail : Detail) (role : Role) (limits : Limits) (bytes more : List ℕ) (shown longer : List Shown) →
        IsShownStream detail role limits bytes shown → IsShownStream detail role limits (bytes ++ more) longer →
        (extra : List Shown) × (longer ≡ shown ++ extra)
        × AllByRecursion (λ s. s.after ≤ length bytes) shown × AllByRecursion (λ s. length bytes < s.after) extra
        × (beyond (length bytes) longer ≡ map (λ s. s.item) extra) }
{}

/// The lines of a capture show the items of each endpoint's stream, in order. So how the bytes of a stream are cut into
/// lines changes only in which line an item is shown.
pub fn law_shown_lines()
    ensures { (detail : Detail) (role : Role) (limits : Limits) (lines : List (List ℕ)) (entries : List Entry)
        (shown : List ShownLine) →
        AreShownAfter detail limits [] [] lines entries shown →
        (all : List Shown) × IsShownStream detail role limits (sent role entries) all
        × (items_with_bytes role entries shown ≡ map (λ s. s.item) all) }
{}

/// At most one list is left over of a stream, at most one time holds after lines, and at most one held when an endpoint's
/// last bytes came. At most one list of lines, with what is left over of both streams and a report, is shown of a capture.
pub fn law_one_shown_capture()
    ensures left { (role : Role) (limits : Limits) (bytes : List ℕ) (items others : List Item) →
        IsLeftOver role limits bytes items → IsLeftOver role limits bytes others → items ≡ others }
    ensures time { (lines : List (List ℕ)) (time other : Option (List ℕ)) →
        IsTimeAfter lines time → IsTimeAfter lines other → time ≡ other }
    ensures last_time { (role : Role) (lines : List (List ℕ)) (entries : List Entry) (time other : Option (List ℕ)) →
        IsTimeOfLast role lines entries time → IsTimeOfLast role lines entries other → time ≡ other }
    ensures lines { (detail : Detail) (limits : Limits) (before : List (List ℕ)) (given : List Entry)
        (lines : List (List ℕ)) (entries : List Entry) (shown others : List ShownLine) →
        AreShownAfter detail limits before given lines entries shown →
        AreShownAfter detail limits before given lines entries others → shown ≡ others }
    ensures capture { (detail : Detail) (limits : Limits) (lines : List (List ℕ)) (shown others : List ShownLine)
        (client server other_client other_server : LeftAtEnd) (report other : Report) →
        IsShownCapture detail limits lines shown client server report →
        IsShownCapture detail limits lines others other_client other_server other →
        (shown ≡ others) × (client ≡ other_client) × (server ≡ other_server) × (report ≡ other) }
{}

/// Every stream of bytes has a list of items in each detail, and one that is left over, if the limits are in range. So
/// does a capture of such streams that has a report.
pub fn law_every_stream_is_shown()
    ensures shown { (detail : Detail) (role : Role) (limits : Limits) (bytes : List ℕ) → InRange limits → IsBytes bytes →
        (shown : List Shown) × IsShownStream detail role limits bytes shown }
    ensures left { (role : Role) (limits : Limits) (bytes : List ℕ) → InRange limits → IsBytes bytes →
        (items : List Item) × IsLeftOver role limits bytes items }
    ensures capture { (detail : Detail) (limits : Limits) (lines : List (List ℕ)) (entries : List Entry)
        (report : Report) → InRange limits →
        AreEntries lines entries → ((role : Role) → IsBytes (sent role entries)) → IsReportOf limits entries report →
        (shown : List ShownLine) × (client server : LeftAtEnd)
        × IsShownCapture detail limits lines shown client server report }
{}
