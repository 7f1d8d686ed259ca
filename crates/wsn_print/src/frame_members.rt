//! The members of a frame's object after its offset, written from the first to the last.
ghost use Rattle.std.specs.Prelude.{◌≡◌, ◌+◌, ◌≤◌, ◌++◌, codes, length, take};
ghost use Rattle.wsn_print.specs.Json.{field, string_field, boolean};
ghost use Rattle.wsn_print.specs.HeadText.{op_word};
ghost use Rattle.wsn_print.specs.Objects.{key_value, form_word, head_members};

use crate::parts::{put, put_key_digits, put_number};
use wsn_rules::HeadInfo;
use wsn_wire::{Form, Op};

/// Writes the members after the offset, and the end of the object with its LF, at most 97 bytes, at `at`, and returns
/// where they end.
#[inline(always)]
pub(crate) fn put_members(head: &HeadInfo, text: &mut [u8], at: usize) -> usize
    requires { at + 97 ≤ length text.old }
    ensures end { (at ≤ result) × (result ≤ at + 97) }
    ensures written { take result text.new ≡ take at text.old ++ (head_members head.now ++ codes "}\n") }
{
    let at = put_fin(head.fin, text, at);
    let at = put_opcode(head.op, text, at);
    let at = put_key_member(head.key, text, at);
    let at = put(*b",\"length\":", text, at);
    let at = put_number(head.len, text, at);
    put_form_and_end(head.form, text, at)
}

/// Writes the member of FIN, at most 12 bytes, at `at`, and returns where it ends.
#[inline(always)]
fn put_fin(fin: bool, text: &mut [u8], at: usize) -> usize
    requires { at + 12 ≤ length text.old }
    ensures end { (at ≤ result) × (result ≤ at + 12) }
    ensures written { take result text.new ≡ take at text.old ++ field (codes "fin") (boolean fin) }
{
    if fin {
        put(*b",\"fin\":true", text, at)
    } else {
        put(*b",\"fin\":false", text, at)
    }
}

/// Writes the member of an opcode, at most 18 bytes, at `at`, and returns where it ends.
#[inline(always)]
fn put_opcode(op: Op, text: &mut [u8], at: usize) -> usize
    requires { at + 18 ≤ length text.old }
    ensures end { (at ≤ result) × (result ≤ at + 18) }
    ensures written { take result text.new ≡ take at text.old ++ string_field (codes "opcode") (op_word op) }
{
    match op {
        Op::Continue => put(*b",\"opcode\":\"cont\"", text, at),
        Op::Text => put(*b",\"opcode\":\"text\"", text, at),
        Op::Binary => put(*b",\"opcode\":\"binary\"", text, at),
        Op::Close => put(*b",\"opcode\":\"close\"", text, at),
        Op::Ping => put(*b",\"opcode\":\"ping\"", text, at),
        Op::Pong => put(*b",\"opcode\":\"pong\"", text, at),
    }
}

/// Writes the member of a key, at most 17 bytes, at `at`, and returns where it ends.
#[inline(always)]
fn put_key_member(key: Option<[u8; 4]>, text: &mut [u8], at: usize) -> usize
    requires { at + 17 ≤ length text.old }
    ensures end { (at ≤ result) × (result ≤ at + 17) }
    ensures written { take result text.new ≡ take at text.old ++ field (codes "key") (key_value key) }
{
    match key {
        None => put(*b",\"key\":null", text, at),
        Some(key) => {
            let at = put(*b",\"key\":\"", text, at);
            let at = put_key_digits(key, text, at);
            put(*b"\"", text, at)
        }
    }
}

/// Writes the member of a length's form, the end of the object and the LF, at most 20 bytes, at `at`, and returns where
/// they end.
#[inline(always)]
fn put_form_and_end(form: Form, text: &mut [u8], at: usize) -> usize
    requires { at + 20 ≤ length text.old }
    ensures end { (at ≤ result) × (result ≤ at + 20) }
    ensures written { take result text.new
        ≡ take at text.old ++ (string_field (codes "form") (form_word form) ++ codes "}\n") }
{
    match form {
        Form::Shortest => put(*b",\"form\":\"shortest\"}\n", text, at),
        Form::Two => put(*b",\"form\":\"two\"}\n", text, at),
        Form::Eight => put(*b",\"form\":\"eight\"}\n", text, at),
    }
}
