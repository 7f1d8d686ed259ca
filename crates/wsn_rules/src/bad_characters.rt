//! The law of the bad character that is shown of a refused text. The function does nothing when called; its contract is
//! proved.

ghost use Rattle.std.specs.Prelude.{◌≡◌, ℕ, ◌+◌, ◌<◌, ◌≤◌, None, Some, List, [], ◌∷◌, ◌++◌, length};
ghost use Rattle.wsn_wire.specs.declared.refusal.Reason.TheVariants.{TextBad};
ghost use Rattle.wsn_wire.specs.Frame.{stream, Frame, IsBytes};
ghost use Rattle.wsn_wire.specs.declared.endpoint.Role.{Role};
ghost use Rattle.wsn_rules.specs.Limits.{Limits};
ghost use Rattle.wsn_rules.specs.declared.detail.Detail.{Detail};
ghost use Rattle.wsn_rules.specs.declared.head_info.HeadInfo.{HeadInfo};
ghost use Rattle.wsn_rules.specs.declared.verdict.Refusal.{Refusal};
ghost use Rattle.wsn_rules.specs.Group.{unfinished, payload_of};
ghost use Rattle.wsn_rules.specs.Verdict.{IsRefused};
ghost use Rattle.wsn_rules.specs.BadCharacter.{BadCharacter, GoesWrongWith, IsPayloadByte, IsEarlierEnd, bytes_of, message_payload};
ghost use Rattle.wsn_rules.specs.ShownStream.{Shown, IsShownRefusal};
ghost use Rattle.wsn_rules.specs.ShownStream.Item.{RefusedFrame};

/// A text that is refused for a bad byte is shown with the character with which it goes wrong: the payload of the
/// message so far is whole characters and then the bytes of this one, the last of which is the offending byte. Its
/// offset is that of its first byte, in the refused frame or an earlier one. With it comes the end of the payload of the
/// message in earlier frames. Any other refusal is shown without one.
///
/// The payload determines the character's bytes, and the frames its offset. Without offsets, the payload so far is that
/// of the open message and then the part of this frame's.
pub fn law_bad_character()
    ensures text_bad { (detail : Detail) (role : Role) (limits : Limits) (bytes : List ℕ) (fs : List Frame)
        (refusal : Refusal) (shown : List Shown) →
        IsBytes bytes → IsRefused role limits bytes fs refusal.offset refusal.reason → refusal.reason ≡ TextBad →
        IsShownRefusal detail role limits bytes fs refusal shown →
        (earlier : List Shown) × (evidence : List ℕ) × (character : BadCharacter)
        × (shown ≡ earlier ++ record {
          after = refusal.offset + 1;
          item = RefusedFrame (length (stream fs)) refusal evidence (Some character);
        } ∷ [])
        × GoesWrongWith (payload_of (unfinished fs) ++ evidence) character
        × IsEarlierEnd (payload_of (unfinished fs)) character.earlier
        × (length character.bytes ≤ length evidence →
        character.offset + length character.bytes ≡ refusal.offset + 1)
        × (length evidence < length character.bytes → IsPayloadByte fs character.in_payload character.offset) }
    ensures other { (detail : Detail) (role : Role) (limits : Limits) (bytes : List ℕ) (fs : List Frame)
        (refusal : Refusal) (shown : List Shown) →
        ¬ (refusal.reason ≡ TextBad) → IsShownRefusal detail role limits bytes fs refusal shown →
        (earlier : List Shown) × (evidence : List ℕ)
        × (shown ≡ earlier ++ record {
          after = refusal.offset + 1;
          item = RefusedFrame (length (stream fs)) refusal evidence None;
        } ∷ []) }
    ensures one { (payload : List ℕ) (character other : BadCharacter) →
        GoesWrongWith payload character → GoesWrongWith payload other →
        (character.in_payload ≡ other.in_payload) × (character.bytes ≡ other.bytes) }
    ensures one_offset { (fs : List Frame) (index offset other : ℕ) →
        IsPayloadByte fs index offset → IsPayloadByte fs index other → offset ≡ other }
    ensures payload { (fs : List Frame) (info : HeadInfo) (part : List ℕ) →
        bytes_of (message_payload fs info part) ≡ payload_of (unfinished fs) ++ part }
{}
