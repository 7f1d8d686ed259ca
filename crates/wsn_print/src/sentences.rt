//! Sentences that say what a report means.
ghost use Rattle.std.specs.Prelude.{◌≡◌, ◌≤◌, length};
ghost use Rattle.wsn_print.specs.Sentences.{reason_sentence};

use wsn_wire::Reason;

/// Why a byte is refused: the first sentence of the reason's explanation, without a full stop.
pub(crate) fn reason_sentence(reason: Reason) -> &'static str
    ensures text { result.now ≡ reason_sentence reason }
    ensures short { length result.now ≤ 96 }
{
    match reason {
        Reason::ReservedBits => {
            "a reserved bit (hex 40, 20 or 10) is set in the byte where a frame should begin"
        }
        Reason::ReservedOpcode => {
            "the opcode, the low four bits of a frame's first byte, is 3 to 7 or 11 to 15"
        }
        Reason::ControlNotFinal => {
            "a Close, ping or pong (opcode 8, 9 or 10) without FIN, so its first byte is hex 08, 09 or 0a"
        }
        Reason::NothingToContinue => "a continuation (opcode 0), but no message is open",
        Reason::MessageOpen => {
            "a text or binary frame begins a message, but the message before it has no final frame yet"
        }
        Reason::MaskMissing => {
            "a client's frame without a masking key: the top bit of its second byte is 0"
        }
        Reason::MaskPresent => {
            "a server's frame with a masking key: the top bit of its second byte is 1"
        }
        Reason::ControlTooLong => {
            "a Close, ping or pong whose length field, the low seven bits of its second byte, is 126 or 127"
        }
        Reason::CloseOneByte => "a Close with a payload of one byte",
        Reason::LengthTopBit => {
            "a length in eight bytes has its highest bit set, so it is 2^63 or more"
        }
        Reason::LengthNotMinimal => "a length is encoded in two or eight bytes and fits in fewer",
        Reason::MessageTooBig => "with this frame's length the message exceeds the limit",
        Reason::CloseCode => "a Close has a code that may not be sent",
        Reason::CloseReason => "the reason in a Close isn't UTF-8",
        Reason::TextBad => {
            "the offending byte is the first that can't follow what came before in UTF-8"
        }
        Reason::TextCut => "a text message ends inside a character",
        Reason::TooManyFrames => {
            "a continuation, but its message already has as many frames as --frames allows"
        }
    }
}
