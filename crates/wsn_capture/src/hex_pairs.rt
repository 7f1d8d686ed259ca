ghost use Rattle.std.specs.Prelude.{◌≡◌, ◌<◌, ◌*◌, MatchBool, Ok, length, unwrap_or};
ghost use Rattle.hex.specs.Hex.{decode_of, hex_digit_value, is_hex_digit};
ghost use Rattle.wsn_capture.specs.LineEntries.{HasNoHex};

use crate::hex_blocks::{BLOCK, decode_blocks};

/// Decodes pairs of hexadecimal digits, of either case, into `bytes`, and returns whether all are digits. If not, the
/// contents of `bytes` are unspecified.
#[tactic(none)]
pub fn decode_pairs(digits: &[u8], bytes: &mut [u8]) -> bool
    requires { length digits.now ≡ 2 * length bytes.old }
    ensures { MatchBool result (decode_of digits.now ≡ Ok bytes.new) (HasNoHex digits.now) }
{
    match bytes.len().checked_sub(BLOCK) {
        Some(last) => decode_blocks(digits, bytes, last),
        None => decode_each(digits, bytes),
    }
}

/// Decodes pair by pair what is shorter than a block.
///
/// There is no branch on a digit, which couldn't be predicted.
#[tactic(none)]
fn decode_each(digits: &[u8], bytes: &mut [u8]) -> bool
    requires { length digits.now ≡ 2 * length bytes.old }
    ensures { MatchBool result (decode_of digits.now ≡ Ok bytes.new) (HasNoHex digits.now) }
{
    let mut valid = true;
    for i in 0..bytes.len() {
        let high = digits[2 * i];
        let low = digits[2 * i + 1];
        valid = valid & is_digit(high) & is_digit(low);
        bytes[i] = digit_value(high) * 16 + digit_value(low);
    }
    valid
}

/// The entry of `DIGIT_VALUES` for a byte that isn't a digit.
const NO: u8 = 0xf0;

/// The value of each byte as a digit, or `NO`.
const DIGIT_VALUES: [u8; 256] = [
    NO, NO, NO, NO, NO, NO, NO, NO, NO, NO, NO, NO, NO, NO, NO, NO, NO, NO, NO, NO, NO, NO, NO, NO,
    NO, NO, NO, NO, NO, NO, NO, NO, NO, NO, NO, NO, NO, NO, NO, NO, NO, NO, NO, NO, NO, NO, NO, NO,
    0, 1, 2, 3, 4, 5, 6, 7, 8, 9, NO, NO, NO, NO, NO, NO, NO, 10, 11, 12, 13, 14, 15, NO, NO, NO,
    NO, NO, NO, NO, NO, NO, NO, NO, NO, NO, NO, NO, NO, NO, NO, NO, NO, NO, NO, NO, NO, NO, NO, 10,
    11, 12, 13, 14, 15, NO, NO, NO, NO, NO, NO, NO, NO, NO, NO, NO, NO, NO, NO, NO, NO, NO, NO, NO,
    NO, NO, NO, NO, NO, NO, NO, NO, NO, NO, NO, NO, NO, NO, NO, NO, NO, NO, NO, NO, NO, NO, NO, NO,
    NO, NO, NO, NO, NO, NO, NO, NO, NO, NO, NO, NO, NO, NO, NO, NO, NO, NO, NO, NO, NO, NO, NO, NO,
    NO, NO, NO, NO, NO, NO, NO, NO, NO, NO, NO, NO, NO, NO, NO, NO, NO, NO, NO, NO, NO, NO, NO, NO,
    NO, NO, NO, NO, NO, NO, NO, NO, NO, NO, NO, NO, NO, NO, NO, NO, NO, NO, NO, NO, NO, NO, NO, NO,
    NO, NO, NO, NO, NO, NO, NO, NO, NO, NO, NO, NO, NO, NO, NO, NO, NO, NO, NO, NO, NO, NO, NO, NO,
    NO, NO, NO, NO, NO, NO, NO, NO, NO, NO, NO, NO, NO, NO,
];

#[tactic(none)]
fn is_digit(byte: u8) -> bool
    ensures { result ≡ is_hex_digit byte }
{
    DIGIT_VALUES[byte as usize] != NO
}

/// The value of a digit; 0 for any other byte.
#[tactic(none)]
fn digit_value(byte: u8) -> u8
    ensures value { result ≡ unwrap_or (hex_digit_value byte) 0 }
    ensures small { result < 16 }
{
    DIGIT_VALUES[byte as usize] & 0xf
}
