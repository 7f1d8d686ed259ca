ghost use Rattle.std.specs.Prelude.{◌≡◌, ◌≤◌, ◌+◌, ◌++◌, length, take};
ghost use Rattle.wsn_redact.specs.declared.extension_names.Within.TheVariants.{Name};
ghost use Rattle.wsn_redact.specs.ExtensionNames.{is_of_token, is_separator, is_of_names, within_after, is_kept, names_in};

use crate::redacted_line::LINE_ROOM;

/// What a byte of a list of extensions is within.
#[derive(Clone, Copy)]
pub enum Within {
    /// A name, or what is between names.
    Name,
    /// A parameter's value, or what follows a name that is no token.
    Value,
    /// A quoted string.
    Quoted,
    /// A quoted string, after a backslash.
    Escaped,
}

impl Within {
    /// What the byte after this one is within.
    #[tactic(none)]
    fn after(self, byte: u8) -> Within
        ensures { result ≡ within_after self byte }
    {
        match (self, byte) {
            (Within::Escaped, _) => Within::Quoted,
            (Within::Quoted, b'\\') => Within::Escaped,
            (Within::Quoted, b'"') => Within::Value,
            (Within::Quoted, _) | (_, b'"') => Within::Quoted,
            (Within::Name, _) if is_of_names(byte) => Within::Name,
            (Within::Value, _) if is_separator(byte) => Within::Name,
            (Within::Name | Within::Value, _) => Within::Value,
        }
    }

    /// Whether a byte stays.
    #[tactic(none)]
    fn keeps(self, byte: u8) -> bool
        ensures { result ≡ is_kept self byte }
    {
        match self {
            Within::Name => is_of_names(byte) || byte == b'=',
            Within::Value => is_separator(byte),
            Within::Quoted | Within::Escaped => false,
        }
    }
}

/// Puts what is left of a list of extensions after the first `front` bytes, and returns the length of both.
pub fn put_names(list: &[u8], into: &mut [u8; LINE_ROOM], front: usize) -> usize
    requires { front + length list.now ≤ 8194 }
    ensures within { result ≤ front + length list.now }
    ensures names { take result into.new ≡ take front into.old ++ names_in Name list.now }
{
    let mut count = front;
    let mut within = Within::Name;
    for i in 0..list.len() {
        let byte = list[i];
        let stays = within.keeps(byte);
        within = within.after(byte);
        if !stays {
            continue;
        }
        into[count] = byte;
        count += 1;
    }
    count
}

/// Whether a byte is of a name or between names.
fn is_of_names(byte: u8) -> bool
    ensures { result ≡ is_of_names byte }
{
    is_of_token(byte) || is_separator(byte) || byte == b' ' || byte == b'\t'
}

/// Whether a byte ends a name and its value.
fn is_separator(byte: u8) -> bool
    ensures { result ≡ is_separator byte }
{
    byte == b';' || byte == b','
}

/// Whether a byte may be in a token (RFC 7230 section 3.2.6).
fn is_of_token(byte: u8) -> bool
    ensures { result ≡ is_of_token byte }
{
    byte.is_ascii_alphanumeric()
        || matches!(
            byte,
            b'!' | b'#'..=b'\'' | b'*' | b'+' | b'-' | b'.' | b'^' | b'_' | b'`' | b'|' | b'~'
        )
}
