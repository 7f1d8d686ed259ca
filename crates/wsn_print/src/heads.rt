//! The fields of a frame's head, as they are written in a line.

ghost use Rattle.std.specs.Prelude.{◌≡◌, ◌+◌, ◌≤◌, ◌++◌, length, take, codes};
ghost use Rattle.wsn_print.specs.HeadText.{fin_word, op_word, head_fields};

use crate::parts::{put, put_form, put_key, put_number};
use wsn_rules::HeadInfo;
use wsn_wire::Op;

/// Writes a space, the fields of a head and the LF, at most 49 bytes, at `at`, and returns where they end.
#[inline(always)]
pub(crate) fn put_fields(head: &HeadInfo, text: &mut [u8], at: usize) -> usize
    requires { at + 49 ≤ length text.old }
    ensures end { (at ≤ result) × (result ≤ at + 49) }
    ensures written { take result text.new ≡ take at text.old ++ (codes " " ++ head_fields head.now ++ codes "\n") }
{
    let at = put_fin(head.fin, text, at);
    let at = put_op(head.op, text, at);
    let at = put_key(head.key, text, at);
    let at = put(*b" ", text, at);
    let at = put_number(head.len, text, at);
    put_form(head.form, text, at)
}

/// Writes a space and whether a frame has FIN, at most 5 bytes, at `at`, and returns where they end.
#[inline(always)]
fn put_fin(fin: bool, text: &mut [u8], at: usize) -> usize
    requires { at + 5 ≤ length text.old }
    ensures end { (at ≤ result) × (result ≤ at + 5) }
    ensures written { take result text.new ≡ take at text.old ++ (codes " " ++ fin_word fin) }
{
    if fin {
        put(*b" fin", text, at)
    } else {
        put(*b" more", text, at)
    }
}

/// Writes the word for an opcode between two spaces, at most 8 bytes, at `at`, and returns where they end.
#[inline(always)]
fn put_op(op: Op, text: &mut [u8], at: usize) -> usize
    requires { at + 8 ≤ length text.old }
    ensures end { (at ≤ result) × (result ≤ at + 8) }
    ensures written { take result text.new ≡ take at text.old ++ (codes " " ++ op_word op ++ codes " ") }
{
    match op {
        Op::Continue => put(*b" cont ", text, at),
        Op::Text => put(*b" text ", text, at),
        Op::Binary => put(*b" binary ", text, at),
        Op::Close => put(*b" close ", text, at),
        Op::Ping => put(*b" ping ", text, at),
        Op::Pong => put(*b" pong ", text, at),
    }
}

/// The word for an opcode.
pub fn op_word(op: Op) -> &'static str
    ensures word { result.now ≡ op_word op }
    ensures short { length result.now ≤ 6 }
{
    match op {
        Op::Continue => "cont",
        Op::Text => "text",
        Op::Binary => "binary",
        Op::Close => "close",
        Op::Ping => "ping",
        Op::Pong => "pong",
    }
}
