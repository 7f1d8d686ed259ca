ghost use Rattle.std.specs.Prelude.{◌≡◌, ◌↔◌, ◌≤◌, IsTrue, length};
ghost use Rattle.std.specs.List.{AllByRecursion};
ghost use Rattle.wsn_rules.specs.Limits.{Limits};
ghost use Rattle.wsn_hint.specs.Hints.{HintFits, IsFirstFit, Begins, BeginsByte, BeginsGroup, BeginsHexDump, BeginsHttp, BeginsOffsetDump, BeginsPcap, BeginsSpacedByte, BeginsTls, IsHexByte, IsHexDigit, IsHexText, after_digits, digits_at_start, format_hints, marked_hints, written_hints};

use crate::hint::Hint;

/// The file format or text that begins with these bytes, other than a capture. `None` if they begin no known one.
pub fn format_of(first: &[u8]) -> Option<Hint>
    ensures { (limits : Limits) → IsFirstFit (HintFits limits first.now) format_hints result }
{
    match marked_format_of(first) {
        Some(hint) => Some(hint),
        None => written_format_of(first),
    }
}

/// The format whose mark is at the front.
fn marked_format_of(first: &[u8]) -> Option<Hint>
    ensures { (limits : Limits) → IsFirstFit (HintFits limits first.now) marked_hints result }
{
    match first {
        _ if begins(first, b"\xef\xbb\xbf") => Some(Hint::ByteOrderMark),
        _ if is_pcap(first) => Some(Hint::Pcap),
        _ if begins(first, b"\n\r\r\n") => Some(Hint::PcapNg),
        _ if begins(first, b"\x1f\x8b\x08") => Some(Hint::Gzip),
        _ if is_tls(first) => Some(Hint::Tls),
        _ => None,
    }
}

/// Whether these bytes begin with the mark of a pcap file.
fn is_pcap(first: &[u8]) -> bool
    ensures { IsTrue result ↔ BeginsPcap first.now }
{
    match first {
        _ if begins(first, b"\xa1\xb2\xc3\xd4") => true,
        _ if begins(first, b"\xd4\xc3\xb2\xa1") => true,
        _ if begins(first, b"\xa1\xb2\x3c\x4d") => true,
        _ => begins(first, b"\x4d\x3c\xb2\xa1"),
    }
}

/// Whether these bytes begin with the head of a TLS record.
fn is_tls(first: &[u8]) -> bool
    ensures { IsTrue result ↔ BeginsTls first.now }
{
    matches!(first, [0x14..=0x17, 3, 0..=4, ..])
}

/// The format of a text that begins with these bytes: the head of an HTTP message, a dump or hexadecimal digits.
fn written_format_of(first: &[u8]) -> Option<Hint>
    ensures { (limits : Limits) → IsFirstFit (HintFits limits first.now) written_hints result }
{
    match first {
        _ if is_http_head(first) => Some(Hint::HttpHead),
        _ if is_hex_dump(first) => Some(Hint::HexDump),
        _ if is_offset_dump(first) => Some(Hint::OffsetDump),
        _ if is_hexadecimal(first) => Some(Hint::Hexadecimal),
        _ => None,
    }
}

/// Whether these bytes begin as the first line of an HTTP request or response does.
fn is_http_head(first: &[u8]) -> bool
    ensures { IsTrue result ↔ BeginsHttp first.now }
{
    match first {
        _ if begins(first, b"HTTP/1.") => true,
        _ if begins(first, b"GET ") => true,
        _ if begins(first, b"HEAD ") => true,
        _ if begins(first, b"POST ") => true,
        _ if begins(first, b"PUT ") => true,
        _ if begins(first, b"DELETE ") => true,
        _ if begins(first, b"CONNECT ") => true,
        _ if begins(first, b"OPTIONS ") => true,
        _ if begins(first, b"TRACE ") => true,
        _ => begins(first, b"PATCH "),
    }
}

/// Whether these bytes begin with this mark.
fn begins(first: &[u8], mark: &[u8]) -> bool
    ensures { IsTrue result ↔ Begins mark.now first.now }
{
    first.starts_with(mark)
}

/// Whether these bytes begin with an offset of eight digits, a colon, a space and a digit.
fn is_hex_dump(first: &[u8]) -> bool
    ensures { IsTrue result ↔ BeginsHexDump first.now }
{
    digits_at_start(first) == 8 && is_xxd_gap(after_digits(first))
}

fn is_xxd_gap(rest: &[u8]) -> bool
    ensures { IsTrue result ↔ BeginsGroup rest.now }
{
    match rest {
        [b':', b' ', digit, ..] => digit.is_ascii_hexdigit(),
        _ => false,
    }
}

/// Whether these bytes begin with an offset of six to eight digits, one or two spaces and a byte in two digits.
fn is_offset_dump(first: &[u8]) -> bool
    ensures { IsTrue result ↔ BeginsOffsetDump first.now }
{
    matches!(digits_at_start(first), 6..=8) && is_dumped_gap(after_digits(first))
}

/// Whether these bytes begin with one or two spaces and a byte.
fn is_dumped_gap(rest: &[u8]) -> bool
    ensures { IsTrue result ↔ BeginsSpacedByte rest.now }
{
    match rest {
        [b' ', b' ', byte @ ..] => is_dumped_byte(byte),
        [b' ', byte @ ..] => is_dumped_byte(byte),
        _ => false,
    }
}

/// Whether these bytes begin with a byte in two digits, and a space or an LF.
fn is_dumped_byte(byte: &[u8]) -> bool
    ensures { IsTrue result ↔ BeginsByte byte.now }
{
    match byte {
        [high, low, b' ', ..] => is_pair(*high, *low),
        [high, low, b'\n', ..] => is_pair(*high, *low),
        _ => false,
    }
}

fn is_pair(high: u8, low: u8) -> bool
    ensures { IsTrue result ↔ (IsHexDigit high × IsHexDigit low) }
{
    high.is_ascii_hexdigit() && low.is_ascii_hexdigit()
}

/// Whether these bytes begin with digits, two for each byte, and are digits, spaces, colons and line ends.
fn is_hexadecimal(first: &[u8]) -> bool
    ensures { IsTrue result ↔ IsHexText first.now }
{
    let digits = digits_at_start(first);
    match first {
        [digit, _, _, _, ..] if digits % 2 == 0 || digits == first.len() => {
            digit.is_ascii_hexdigit() && are_hex_bytes(first)
        }
        _ => false,
    }
}

fn are_hex_bytes(bytes: &[u8]) -> bool
    ensures { IsTrue result ↔ AllByRecursion IsHexByte bytes.now }
{
    bytes.iter().all(|byte| is_hex_byte(*byte))
}

fn is_hex_byte(byte: u8) -> bool
    ensures { IsTrue result ↔ IsHexByte byte }
{
    byte.is_ascii_hexdigit() || matches!(byte, b' ' | b':' | b'\t' | b'\r' | b'\n')
}

/// What follows the hexadecimal digits that these bytes begin with.
pub fn after_digits(first: &[u8]) -> &[u8]
    ensures { result.now ≡ after_digits first.now }
{
    &first[digits_at_start(first)..]
}

/// The number of hexadecimal digits that these bytes begin with.
pub fn digits_at_start(first: &[u8]) -> usize
    ensures count { result ≡ digits_at_start first.now }
    ensures within { result ≤ length first.now }
{
    first
        .iter()
        .take_while(|byte| byte.is_ascii_hexdigit())
        .count()
}
