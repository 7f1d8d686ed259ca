//! Laws about this crate's answers and definitions. Each function does nothing: its contract is the law.

ghost use Rattle.std.specs.Prelude.{◌≡◌, ℕ, ◌+◌, false, None, Some, Result, List, length};
ghost use Rattle.wsn_wire.specs.Frame.{Frame, IsBytes};
ghost use Rattle.wsn_wire.specs.declared.endpoint.Role.{Role};
ghost use Rattle.wsn_io.specs.Transfer.{Incoming};
ghost use Rattle.wsn_rules.specs.Limits.{Limits};
ghost use Rattle.wsn_rules.specs.declared.verdict.Verdict.{Verdict};
ghost use Rattle.wsn_io.specs.declared.stop.Stop.{Stop};
ghost use Rattle.wsn_scan.specs.declared.frame_reader.FrameReader.{FrameReader};
ghost use Rattle.wsn_scan.specs.Positions.{Position, InFrame, IsTakenOf, IsPositionIn, IsPayloadSoFar};
ghost use Rattle.wsn_scan.specs.FrameReaders.{HasTaken};
ghost use Rattle.wsn_scan.specs.Judging.{IsJudged};
ghost use Rattle.wsn_scan.specs.declared.scan.Scan.{Scan};
ghost use Rattle.wsn_scan.specs.Scans.{HasScanned, refusal_in, room_of, ScanCall, IsAnswered};
ghost use Rattle.wsn_rules.specs.declared.head_info.HeadInfo.{HeadInfo};
ghost use Rattle.wsn_scan.specs.Parts.{FindsByCase};

/// [`judge`](crate::judge) has one right answer for an input whose bytes are known, in whatever chunks they come,
/// unless a read fails.
pub fn law_one_answer()
    ensures { (role : Role) (limits : Limits) (old new other : Incoming) (all : List ℕ)
        (result same : Result Verdict Stop) →
        old.remaining ≡ Some all → new.failed ≡ false → other.failed ≡ false →
        IsJudged role limits old new result → IsJudged role limits old other same → result ≡ same }
{}

/// Where a scan is in the bytes that it has consumed, in whatever chunks they came. They begin with the frames that it
/// has taken, which are lawful, and it has taken all their heads. If another frame has begun, it has taken a prefix of
/// its payload, unmasked: unless it has refused, all of the payload that came. The room and the bytes consumed are the
/// input limit together.
pub fn law_positions()
    ensures taken { (role : Role) (limits : Limits) (scan : Scan) (bytes : List ℕ) (fs : List Frame) (rest : List ℕ)
        (at : Position) →
        HasScanned role limits scan bytes fs rest at → IsPositionIn role limits bytes fs rest at }
    ensures all { (role : Role) (limits : Limits) (scan : Scan) (bytes : List ℕ) (fs : List Frame) (rest : List ℕ)
        (at : Position) (head : HeadInfo) (payload : List ℕ) →
        HasScanned role limits scan bytes fs rest at → refusal_in scan ≡ None → at ≡ InFrame head payload →
        IsPayloadSoFar fs bytes head payload }
    ensures room { (role : Role) (limits : Limits) (scan : Scan) (bytes : List ℕ) (fs : List Frame) (rest : List ℕ)
        (at : Position) →
        HasScanned role limits scan bytes fs rest at → room_of scan + length bytes ≡ limits.input }
{}

/// What a call of [`Scan::next`](crate::Scan::next) finds: after a refusal the refusal again, and no bytes; after a Close
/// all of the chunk; otherwise part of a head, a part of a frame, or a refusal, and how many bytes that consumes.
pub fn law_next_by_case()
    ensures { (role : Role) (limits : Limits) (bytes : List ℕ) (fs : List Frame) (rest : List ℕ) (at : Position)
        (call : ScanCall) →
        HasScanned role limits call.before bytes fs rest at → IsBytes call.chunk → IsAnswered call →
        FindsByCase fs (refusal_in call.before) (length call.chunk) call.count call.found call.part }
{}

/// What a [`FrameReader`](crate::FrameReader) has taken is in the bytes that came. They begin with its frames, which are
/// lawful. If another frame has begun, its head comes next, valid so far, and then the payload that was taken.
pub fn law_taken_frames()
    ensures { (role : Role) (limits : Limits) (reader : FrameReader) (came : List ℕ) (fs : List Frame)
        (at : Position) →
        HasTaken role limits reader came fs at → IsTakenOf role limits came fs at }
{}
