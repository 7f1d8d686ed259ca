//! Examples of verdicts, computed from the definitions in `wsn_rules/specs/`: for each reason, inputs that are refused
//! for it, with the offset, and similar inputs that aren't.

ghost use Rattle.std.specs.Prelude.{None, Some, [], ◌∷◌};
ghost use Rattle.wsn_wire.specs.declared.endpoint.Role.TheVariants.{Client, Server};
ghost use Rattle.wsn_wire.specs.declared.length_encoding.Lengths.TheVariants.{Any};
ghost use Rattle.wsn_wire.specs.declared.refusal.Reason.TheVariants.{CloseCode, CloseOneByte, CloseReason, ControlNotFinal, ControlTooLong, LengthNotMinimal, LengthTopBit, MaskMissing, MaskPresent, MessageOpen, MessageTooBig, NothingToContinue, ReservedBits, ReservedOpcode, TextBad, TextCut, TooManyFrames};
ghost use Rattle.wsn_rules.specs.Examples.{Judged, greatest, RefusedAt, CutAt, AcceptedTo};

/// An RSV bit.
pub fn reserved_bits()
    ensures rsv1 { Judged Server greatest (0xc1 ∷ []) (RefusedAt 0 ReservedBits) }
    ensures rsv2 { Judged Server greatest (0xa1 ∷ []) (RefusedAt 0 ReservedBits) }
    ensures rsv3 { Judged Server greatest (0x91 ∷ []) (RefusedAt 0 ReservedBits) }
    ensures after_a_frame { Judged Server greatest (0x89 ∷ 0x00 ∷ 0xf0 ∷ []) (RefusedAt 2 ReservedBits) }
    ensures near { Judged Server greatest (0x81 ∷ 0x00 ∷ []) (AcceptedTo 2 0 None) }
{}

/// A reserved opcode.
pub fn reserved_opcode()
    ensures three { Judged Server greatest (0x83 ∷ []) (RefusedAt 0 ReservedOpcode) }
    ensures seven { Judged Server greatest (0x87 ∷ []) (RefusedAt 0 ReservedOpcode) }
    ensures eleven { Judged Server greatest (0x8b ∷ []) (RefusedAt 0 ReservedOpcode) }
    ensures fifteen { Judged Server greatest (0x8f ∷ []) (RefusedAt 0 ReservedOpcode) }
    ensures before_fin { Judged Server greatest (0x0b ∷ []) (RefusedAt 0 ReservedOpcode) }
    ensures near_two { Judged Server greatest (0x82 ∷ 0x00 ∷ []) (AcceptedTo 2 0 None) }
    ensures near_eight { Judged Server greatest (0x88 ∷ 0x00 ∷ []) (AcceptedTo 2 0 None) }
    ensures near_ten { Judged Server greatest (0x8a ∷ 0x00 ∷ []) (AcceptedTo 2 0 None) }
{}

/// A control frame without FIN.
pub fn control_not_final()
    ensures ping { Judged Server greatest (0x09 ∷ 0x00 ∷ []) (RefusedAt 0 ControlNotFinal) }
    ensures close { Judged Server greatest (0x08 ∷ []) (RefusedAt 0 ControlNotFinal) }
    ensures pong { Judged Server greatest (0x0a ∷ []) (RefusedAt 0 ControlNotFinal) }
    ensures near_final { Judged Server greatest (0x89 ∷ 0x00 ∷ []) (AcceptedTo 2 0 None) }
    ensures near_data { Judged Server greatest (0x02 ∷ []) (CutAt 1) }
{}

/// Opcode 0 while no message is open.
pub fn nothing_to_continue()
    ensures last { Judged Server greatest (0x80 ∷ []) (RefusedAt 0 NothingToContinue) }
    ensures more { Judged Server greatest (0x00 ∷ 0x00 ∷ []) (RefusedAt 0 NothingToContinue) }
    ensures finished { Judged Server greatest (0x81 ∷ 0x00 ∷ 0x80 ∷ []) (RefusedAt 2 NothingToContinue) }
    ensures near { Judged Server greatest (0x01 ∷ 0x00 ∷ 0x80 ∷ 0x00 ∷ []) (AcceptedTo 4 0 None) }
{}

/// Opcode 1 or 2 while a message is open.
pub fn message_open()
    ensures text { Judged Server greatest (0x01 ∷ 0x00 ∷ 0x81 ∷ []) (RefusedAt 2 MessageOpen) }
    ensures binary { Judged Server greatest (0x01 ∷ 0x00 ∷ 0x82 ∷ []) (RefusedAt 2 MessageOpen) }
    ensures after_a_ping { Judged Server greatest (0x01 ∷ 0x00 ∷ 0x89 ∷ 0x00 ∷ 0x01 ∷ []) (RefusedAt 4 MessageOpen) }
    ensures near_finished { Judged Server greatest (0x81 ∷ 0x00 ∷ 0x81 ∷ 0x00 ∷ []) (AcceptedTo 4 0 None) }
    ensures near_ping { Judged Server greatest (0x01 ∷ 0x00 ∷ 0x89 ∷ 0x00 ∷ 0x80 ∷ 0x00 ∷ []) (AcceptedTo 6 0 None) }
{}

/// A client's frame without MASK.
pub fn mask_missing()
    ensures text { Judged Client greatest (0x81 ∷ 0x05 ∷ []) (RefusedAt 1 MaskMissing) }
    ensures before_the_length { Judged Client greatest (0x88 ∷ 0x01 ∷ []) (RefusedAt 1 MaskMissing) }
    ensures near_masked { Judged Client greatest (0x81 ∷ 0x80 ∷ 0x00 ∷ 0x00 ∷ 0x00 ∷ 0x00 ∷ []) (AcceptedTo 6 0 None) }
    ensures near_server { Judged Server greatest (0x81 ∷ 0x05 ∷ []) (CutAt 2) }
{}

/// A server's frame with MASK.
pub fn mask_present()
    ensures text { Judged Server greatest (0x81 ∷ 0x85 ∷ []) (RefusedAt 1 MaskPresent) }
    ensures near_bare { Judged Server greatest (0x81 ∷ 0x05 ∷ []) (CutAt 2) }
    ensures near_client { Judged Client greatest (0x81 ∷ 0x85 ∷ []) (CutAt 2) }
{}

/// A length field of 126 or 127 in a control frame.
pub fn control_too_long()
    ensures two { Judged Server greatest (0x89 ∷ 0x7e ∷ []) (RefusedAt 1 ControlTooLong) }
    ensures eight { Judged Server greatest (0x8a ∷ 0x7f ∷ []) (RefusedAt 1 ControlTooLong) }
    ensures close { Judged Server greatest (0x88 ∷ 0x7e ∷ []) (RefusedAt 1 ControlTooLong) }
    ensures any_length { Judged Server (record greatest { lengths = Any }) (0x89 ∷ 0x7e ∷ [])
        (RefusedAt 1 ControlTooLong) }
    ensures near_125 { Judged Server greatest (0x89 ∷ 0x7d ∷ []) (CutAt 2) }
    ensures near_data { Judged Server greatest (0x82 ∷ 0x7e ∷ []) (CutAt 2) }
{}

/// A Close whose length is 1.
pub fn close_one_byte()
    ensures one { Judged Server greatest (0x88 ∷ 0x01 ∷ []) (RefusedAt 1 CloseOneByte) }
    ensures masked { Judged Client greatest (0x88 ∷ 0x81 ∷ []) (RefusedAt 1 CloseOneByte) }
    ensures near_none { Judged Server greatest (0x88 ∷ 0x00 ∷ []) (AcceptedTo 2 0 None) }
    ensures near_two { Judged Server greatest (0x88 ∷ 0x02 ∷ []) (CutAt 2) }
    ensures near_ping { Judged Server greatest (0x89 ∷ 0x01 ∷ 0x41 ∷ []) (AcceptedTo 3 0 None) }
{}

/// A length of 2^63 or more.
pub fn length_top_bit()
    ensures least { Judged Server greatest (0x82 ∷ 0x7f ∷ 0x80 ∷ 0x00 ∷ 0x00 ∷ 0x00 ∷ 0x00 ∷ 0x00 ∷ 0x00 ∷ 0x00 ∷ [])
        (RefusedAt 9 LengthTopBit) }
    ensures any_length { Judged Server (record greatest { lengths = Any })
        (0x82 ∷ 0x7f ∷ 0xff ∷ 0xff ∷ 0xff ∷ 0xff ∷ 0xff ∷ 0xff ∷ 0xff ∷ 0xff ∷ []) (RefusedAt 9 LengthTopBit) }
    ensures near_below { Judged Server greatest
        (0x82 ∷ 0x7f ∷ 0x7f ∷ 0xff ∷ 0xff ∷ 0xff ∷ 0xff ∷ 0xff ∷ 0xff ∷ 0xff ∷ []) (RefusedAt 9 MessageTooBig) }
    ensures near_cut { Judged Server greatest (0x82 ∷ 0x7f ∷ 0x80 ∷ []) (CutAt 3) }
{}

/// A length that fewer bytes could hold, if only the shortest encoding is accepted.
pub fn length_not_minimal()
    ensures two { Judged Server greatest (0x82 ∷ 0x7e ∷ 0x00 ∷ 0x7d ∷ []) (RefusedAt 3 LengthNotMinimal) }
    ensures eight { Judged Server greatest (0x82 ∷ 0x7f ∷ 0x00 ∷ 0x00 ∷ 0x00 ∷ 0x00 ∷ 0x00 ∷ 0x00 ∷ 0xff ∷ 0xff ∷ [])
        (RefusedAt 9 LengthNotMinimal) }
    ensures near_two { Judged Server greatest (0x82 ∷ 0x7e ∷ 0x00 ∷ 0x7e ∷ []) (CutAt 4) }
    ensures near_eight { Judged Server greatest
        (0x82 ∷ 0x7f ∷ 0x00 ∷ 0x00 ∷ 0x00 ∷ 0x00 ∷ 0x00 ∷ 0x01 ∷ 0x00 ∷ 0x00 ∷ []) (CutAt 10) }
    ensures near_before { Judged Server greatest (0x82 ∷ 0x7f ∷ 0x00 ∷ 0x00 ∷ 0x00 ∷ 0x00 ∷ 0x00 ∷ 0x00 ∷ [])
        (CutAt 8) }
    ensures any_two { Judged Server (record greatest { lengths = Any }) (0x82 ∷ 0x7e ∷ 0x00 ∷ 0x7d ∷ []) (CutAt 4) }
    ensures any_eight { Judged Server (record greatest { lengths = Any })
        (0x82 ∷ 0x7f ∷ 0x00 ∷ 0x00 ∷ 0x00 ∷ 0x00 ∷ 0x00 ∷ 0x00 ∷ 0xff ∷ 0xff ∷ []) (CutAt 10) }
    ensures any_whole { Judged Server (record greatest { lengths = Any }) (0x82 ∷ 0x7e ∷ 0x00 ∷ 0x01 ∷ 0xff ∷ [])
        (AcceptedTo 5 0 None) }
{}

/// A message that is longer than its limit, by the lengths in the heads of its frames.
pub fn message_too_big()
    ensures joined { Judged Server (record greatest { message = 4 })
        (0x01 ∷ 0x03 ∷ 0x48 ∷ 0x65 ∷ 0x6c ∷ 0x80 ∷ 0x02 ∷ []) (RefusedAt 6 MessageTooBig) }
    ensures at_once { Judged Server (record greatest { message = 0 }) (0x81 ∷ 0x01 ∷ []) (RefusedAt 1 MessageTooBig) }
    ensures two { Judged Server (record greatest { message = 126 }) (0x82 ∷ 0x7e ∷ 0x00 ∷ 0x7f ∷ [])
        (RefusedAt 3 MessageTooBig) }
    ensures eight { Judged Server (record greatest { message = 65536 })
        (0x82 ∷ 0x7f ∷ 0x00 ∷ 0x00 ∷ 0x00 ∷ 0x00 ∷ 0x00 ∷ 0x01 ∷ 0x00 ∷ 0x01 ∷ []) (RefusedAt 9 MessageTooBig) }
    ensures near_joined { Judged Server (record greatest { message = 5 })
        (0x01 ∷ 0x03 ∷ 0x48 ∷ 0x65 ∷ 0x6c ∷ 0x80 ∷ 0x02 ∷ 0x6c ∷ 0x6f ∷ []) (AcceptedTo 9 0 None) }
    ensures near_empty { Judged Server (record greatest { message = 0 }) (0x81 ∷ 0x00 ∷ []) (AcceptedTo 2 0 None) }
    ensures near_two { Judged Server (record greatest { message = 126 }) (0x82 ∷ 0x7e ∷ 0x00 ∷ 0x7e ∷ []) (CutAt 4) }
    ensures near_ping { Judged Server (record greatest { message = 0 }) (0x89 ∷ 0x01 ∷ 0x41 ∷ [])
        (AcceptedTo 3 0 None) }
    ensures near_next { Judged Server (record greatest { message = 1 }) (0x81 ∷ 0x01 ∷ 0x41 ∷ 0x81 ∷ 0x01 ∷ 0x41 ∷ [])
        (AcceptedTo 6 0 None) }
{}

/// A code that a Close may not have.
pub fn close_code()
    ensures below { Judged Server greatest (0x88 ∷ 0x02 ∷ 0x03 ∷ 0xe7 ∷ []) (RefusedAt 3 CloseCode) }
    ensures reserved { Judged Server greatest (0x88 ∷ 0x02 ∷ 0x03 ∷ 0xec ∷ []) (RefusedAt 3 CloseCode) }
    ensures not_sent { Judged Server greatest (0x88 ∷ 0x02 ∷ 0x03 ∷ 0xee ∷ []) (RefusedAt 3 CloseCode) }
    ensures tls { Judged Server greatest (0x88 ∷ 0x02 ∷ 0x03 ∷ 0xf7 ∷ []) (RefusedAt 3 CloseCode) }
    ensures before_libraries { Judged Server greatest (0x88 ∷ 0x02 ∷ 0x0b ∷ 0xb7 ∷ []) (RefusedAt 3 CloseCode) }
    ensures past { Judged Server greatest (0x88 ∷ 0x02 ∷ 0x13 ∷ 0x88 ∷ []) (RefusedAt 3 CloseCode) }
    ensures swapped { Judged Server greatest (0x88 ∷ 0x02 ∷ 0xe8 ∷ 0x03 ∷ []) (RefusedAt 3 CloseCode) }
    ensures near_1000 { Judged Server greatest (0x88 ∷ 0x02 ∷ 0x03 ∷ 0xe8 ∷ []) (AcceptedTo 4 0 None) }
    ensures near_1003 { Judged Server greatest (0x88 ∷ 0x02 ∷ 0x03 ∷ 0xeb ∷ []) (AcceptedTo 4 0 None) }
    ensures near_1007 { Judged Server greatest (0x88 ∷ 0x02 ∷ 0x03 ∷ 0xef ∷ []) (AcceptedTo 4 0 None) }
    ensures near_1014 { Judged Server greatest (0x88 ∷ 0x02 ∷ 0x03 ∷ 0xf6 ∷ []) (AcceptedTo 4 0 None) }
    ensures near_3000 { Judged Server greatest (0x88 ∷ 0x02 ∷ 0x0b ∷ 0xb8 ∷ []) (AcceptedTo 4 0 None) }
    ensures near_4999 { Judged Server greatest (0x88 ∷ 0x02 ∷ 0x13 ∷ 0x87 ∷ []) (AcceptedTo 4 0 None) }
{}

/// A Close's reason that isn't UTF-8.
pub fn close_reason()
    ensures bad { Judged Server greatest (0x88 ∷ 0x03 ∷ 0x03 ∷ 0xe8 ∷ 0xff ∷ []) (RefusedAt 4 CloseReason) }
    ensures inside { Judged Server greatest (0x88 ∷ 0x03 ∷ 0x03 ∷ 0xe8 ∷ 0xe2 ∷ []) (RefusedAt 4 CloseReason) }
    ensures second { Judged Server greatest (0x88 ∷ 0x05 ∷ 0x03 ∷ 0xe8 ∷ 0xe2 ∷ 0x28 ∷ []) (RefusedAt 5 CloseReason) }
    ensures before_the_reason { Judged Server greatest (0x88 ∷ 0x03 ∷ 0x03 ∷ 0xec ∷ 0xff ∷ []) (RefusedAt 3 CloseCode) }
    ensures near_text { Judged Server greatest (0x88 ∷ 0x03 ∷ 0x03 ∷ 0xe8 ∷ 0x41 ∷ []) (AcceptedTo 5 0 None) }
    ensures near_cut { Judged Server greatest (0x88 ∷ 0x05 ∷ 0x03 ∷ 0xe8 ∷ 0xe2 ∷ 0x82 ∷ []) (CutAt 6) }
    ensures near_ping { Judged Server greatest (0x89 ∷ 0x03 ∷ 0x03 ∷ 0xe8 ∷ 0xff ∷ []) (AcceptedTo 5 0 None) }
{}

/// A first bad byte in the text of a message.
pub fn text_bad()
    ensures no_lead { Judged Server greatest (0x81 ∷ 0x02 ∷ 0xc0 ∷ 0x80 ∷ []) (RefusedAt 2 TextBad) }
    ensures surrogate { Judged Server greatest (0x81 ∷ 0x03 ∷ 0xed ∷ 0xa0 ∷ 0x80 ∷ []) (RefusedAt 3 TextBad) }
    ensures past_the_last { Judged Server greatest (0x81 ∷ 0x04 ∷ 0xf4 ∷ 0x90 ∷ 0x80 ∷ 0x80 ∷ [])
        (RefusedAt 3 TextBad) }
    ensures overlong { Judged Server greatest (0x81 ∷ 0x03 ∷ 0xe0 ∷ 0x9f ∷ 0xbf ∷ []) (RefusedAt 3 TextBad) }
    ensures before_the_end { Judged Server greatest (0x81 ∷ 0x7e ∷ 0x01 ∷ 0x00 ∷ 0xff ∷ []) (RefusedAt 4 TextBad) }
    ensures next_frame { Judged Server greatest (0x01 ∷ 0x01 ∷ 0xe2 ∷ 0x80 ∷ 0x01 ∷ 0x28 ∷ []) (RefusedAt 5 TextBad) }
    ensures masked { Judged Client greatest (0x81 ∷ 0x81 ∷ 0xff ∷ 0x00 ∷ 0x00 ∷ 0x00 ∷ 0x00 ∷ [])
        (RefusedAt 6 TextBad) }
    ensures near_binary { Judged Server greatest (0x82 ∷ 0x01 ∷ 0xff ∷ []) (AcceptedTo 3 0 None) }
    ensures near_two { Judged Server greatest (0x81 ∷ 0x02 ∷ 0xc3 ∷ 0xa9 ∷ []) (AcceptedTo 4 0 None) }
    ensures near_four { Judged Server greatest (0x81 ∷ 0x04 ∷ 0xf4 ∷ 0x8f ∷ 0xbf ∷ 0xbf ∷ []) (AcceptedTo 6 0 None) }
    ensures near_ping { Judged Server greatest
        (0x01 ∷ 0x01 ∷ 0xe2 ∷ 0x89 ∷ 0x01 ∷ 0xff ∷ 0x80 ∷ 0x02 ∷ 0x82 ∷ 0xac ∷ []) (AcceptedTo 10 0 None) }
    ensures near_masked { Judged Client greatest (0x81 ∷ 0x81 ∷ 0xff ∷ 0x00 ∷ 0x00 ∷ 0x00 ∷ 0xbe ∷ [])
        (AcceptedTo 7 0 None) }
{}

/// A text whose final frame ends inside a character.
pub fn text_cut()
    ensures one_frame { Judged Server greatest (0x81 ∷ 0x01 ∷ 0xe2 ∷ []) (RefusedAt 2 TextCut) }
    ensures empty_frame { Judged Server greatest (0x01 ∷ 0x01 ∷ 0xe2 ∷ 0x80 ∷ 0x00 ∷ []) (RefusedAt 4 TextCut) }
    ensures masked_empty_frame { Judged Client greatest
        (0x01 ∷ 0x81 ∷ 0x00 ∷ 0x00 ∷ 0x00 ∷ 0x00 ∷ 0xe2 ∷ 0x80 ∷ 0x80 ∷ 0x01 ∷ 0x02 ∷ 0x03 ∷ 0x04 ∷ [])
        (RefusedAt 12 TextCut) }
    ensures near_more { Judged Server greatest (0x01 ∷ 0x01 ∷ 0xe2 ∷ []) (CutAt 3) }
    ensures near_whole { Judged Server greatest (0x01 ∷ 0x01 ∷ 0xe2 ∷ 0x80 ∷ 0x02 ∷ 0x82 ∷ 0xac ∷ [])
        (AcceptedTo 7 0 None) }
    ensures near_three_frames { Judged Server greatest
        (0x01 ∷ 0x01 ∷ 0xe2 ∷ 0x00 ∷ 0x01 ∷ 0x82 ∷ 0x80 ∷ 0x01 ∷ 0xac ∷ []) (AcceptedTo 9 0 None) }
    ensures near_binary { Judged Server greatest (0x02 ∷ 0x01 ∷ 0xe2 ∷ 0x80 ∷ 0x00 ∷ []) (AcceptedTo 5 0 None) }
{}

/// One frame more than the limit, in one message.
pub fn too_many_frames()
    ensures one { Judged Server (record greatest { frames = Some 1 }) (0x01 ∷ 0x00 ∷ 0x00 ∷ [])
        (RefusedAt 2 TooManyFrames) }
    ensures last { Judged Server (record greatest { frames = Some 1 }) (0x01 ∷ 0x00 ∷ 0x80 ∷ [])
        (RefusedAt 2 TooManyFrames) }
    ensures two { Judged Server (record greatest { frames = Some 2 }) (0x01 ∷ 0x00 ∷ 0x00 ∷ 0x00 ∷ 0x80 ∷ [])
        (RefusedAt 4 TooManyFrames) }
    ensures after_reserved_bits { Judged Server (record greatest { frames = Some 1 }) (0x01 ∷ 0x00 ∷ 0xc0 ∷ [])
        (RefusedAt 2 ReservedBits) }
    ensures near_two { Judged Server (record greatest { frames = Some 2 }) (0x01 ∷ 0x00 ∷ 0x80 ∷ 0x00 ∷ [])
        (AcceptedTo 4 0 None) }
    ensures near_next { Judged Server (record greatest { frames = Some 1 }) (0x81 ∷ 0x00 ∷ 0x81 ∷ 0x00 ∷ [])
        (AcceptedTo 4 0 None) }
    ensures near_ping { Judged Server (record greatest { frames = Some 2 })
        (0x01 ∷ 0x00 ∷ 0x89 ∷ 0x00 ∷ 0x80 ∷ 0x00 ∷ []) (AcceptedTo 6 0 None) }
    ensures near_no_limit { Judged Server greatest (0x01 ∷ 0x00 ∷ 0x00 ∷ 0x00 ∷ 0x80 ∷ 0x00 ∷ [])
        (AcceptedTo 6 0 None) }
{}

/// An earlier offset has precedence; at one offset, the reason with the least number has.
pub fn order_of_reasons()
    ensures opcode_after_bits { Judged Server greatest (0xc3 ∷ []) (RefusedAt 0 ReservedBits) }
    ensures control_after_bits { Judged Server greatest (0x49 ∷ []) (RefusedAt 0 ReservedBits) }
    ensures continue_after_bits { Judged Server greatest (0xc0 ∷ []) (RefusedAt 0 ReservedBits) }
    ensures open_after_bits { Judged Server greatest (0x01 ∷ 0x00 ∷ 0xc1 ∷ []) (RefusedAt 2 ReservedBits) }
    ensures long_after_mask { Judged Client greatest (0x89 ∷ 0x7e ∷ []) (RefusedAt 1 MaskMissing) }
    ensures big_after_mask { Judged Client (record greatest { message = 0 }) (0x81 ∷ 0x01 ∷ [])
        (RefusedAt 1 MaskMissing) }
    ensures long_after_no_mask { Judged Server greatest (0x89 ∷ 0xfe ∷ []) (RefusedAt 1 MaskPresent) }
    ensures one_byte_after_no_mask { Judged Server greatest (0x88 ∷ 0x81 ∷ []) (RefusedAt 1 MaskPresent) }
    ensures big_after_no_mask { Judged Server (record greatest { message = 0 }) (0x81 ∷ 0x81 ∷ [])
        (RefusedAt 1 MaskPresent) }
    ensures big_after_not_minimal { Judged Server (record greatest { message = 0 }) (0x82 ∷ 0x7e ∷ 0x00 ∷ 0x7d ∷ [])
        (RefusedAt 3 LengthNotMinimal) }
    ensures mask_at_a_later_offset { Judged Client greatest (0x09 ∷ 0x05 ∷ []) (RefusedAt 0 ControlNotFinal) }
    ensures code_before_reason { Judged Server greatest (0x88 ∷ 0x04 ∷ 0x03 ∷ 0xed ∷ 0xff ∷ 0xff ∷ [])
        (RefusedAt 3 CloseCode) }
    ensures bad_before_cut { Judged Server greatest (0x81 ∷ 0x02 ∷ 0xc0 ∷ 0xe2 ∷ []) (RefusedAt 2 TextBad) }
{}
