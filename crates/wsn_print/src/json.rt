ghost use Rattle.std.specs.Prelude.{◌≡◌, ◌+◌, ◌≤◌, ◌++◌, length, codes};
ghost use Rattle.wsn_print.specs.Json.{number_or_null, field, string_field, number_field, number_or_null_field};

use crate::line::Line;

/// Appends a member with this value.
pub(crate) fn push_field<const MAX: usize>(line: &mut Line<MAX>, key: &str, value: &str)
    requires { length line.old + length key.now + length value.now + 4 ≤ MAX }
    ensures text { line.new ≡ line.old ++ field key.now value.now }
    ensures len { length line.new ≤ length line.old + length key.now + length value.now + 4 }
{
    push_key(line, key);
    line.push(value);
}

/// Appends a member whose value is a word.
pub fn push_string_field<const MAX: usize>(line: &mut Line<MAX>, key: &str, word: &str)
    requires { length line.old + length key.now + length word.now + 6 ≤ MAX }
    ensures text { line.new ≡ line.old ++ string_field key.now word.now }
    ensures len { length line.new ≤ length line.old + length key.now + length word.now + 6 }
{
    push_key(line, key);
    line.push("\"");
    line.push(word);
    line.push("\"");
}

/// Appends a member whose value is a number.
pub fn push_number_field<const MAX: usize>(line: &mut Line<MAX>, key: &str, n: u64)
    requires { length line.old + length key.now + 24 ≤ MAX }
    ensures text { line.new ≡ line.old ++ number_field key.now n }
    ensures len { length line.new ≤ length line.old + length key.now + 24 }
{
    push_key(line, key);
    line.push_number(n);
}

/// Appends a member whose value is a number, or null for `None`.
pub fn push_number_or_null_field<const MAX: usize>(line: &mut Line<MAX>, key: &str, n: Option<u64>)
    requires { length line.old + length key.now + 24 ≤ MAX }
    ensures text { line.new ≡ line.old ++ number_or_null_field key.now n }
    ensures len { length line.new ≤ length line.old + length key.now + 24 }
{
    push_key(line, key);
    push_number_or_null(line, n);
}

/// Appends a number, or null for `None`.
pub(crate) fn push_number_or_null<const MAX: usize>(line: &mut Line<MAX>, n: Option<u64>)
    requires { length line.old + 20 ≤ MAX }
    ensures text { line.new ≡ line.old ++ number_or_null n }
    ensures len { length line.new ≤ length line.old + 20 }
{
    match n {
        Some(n) => line.push_number(n),
        None => line.push("null"),
    }
}

/// Appends what is in front of the value of a member.
fn push_key<const MAX: usize>(line: &mut Line<MAX>, key: &str)
    requires { length line.old + length key.now + 4 ≤ MAX }
    ensures text { line.new ≡ line.old ++ codes ",\"" ++ key.now ++ codes "\":" }
    ensures len { length line.new ≡ length line.old + length key.now + 4 }
{
    line.push(",\"");
    line.push(key);
    line.push("\":");
}
