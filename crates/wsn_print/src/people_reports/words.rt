//! What the sentences of a report share: the words for an endpoint and for a code, and the command to type next.
ghost use Rattle.std.specs.Prelude.{◌≡◌, ◌+◌, ◌≤◌, ◌++◌, codes, length};
ghost use Rattle.wsn_rules.specs.ClosingHandshake.{other_endpoint};
ghost use Rattle.wsn_print.specs.PeopleReport.{endpoint_word, with_code, explain_line};

use crate::line::Line;
use wsn_wire::Role;

/// The space for the sentences in bytes: two refused streams, with offsets of twenty digits, fit.
pub(super) const MEANING_MAX: usize = 560;

/// The word for an endpoint.
pub(super) fn endpoint_word(role: Role) -> &'static str
    ensures text { result.now ≡ endpoint_word role }
    ensures short { length result.now ≤ 6 }
{
    match role {
        Role::Client => "client",
        Role::Server => "server",
    }
}

/// The other endpoint.
pub(super) fn other_endpoint(role: Role) -> Role
    ensures { result ≡ other_endpoint role }
{
    match role {
        Role::Client => Role::Server,
        Role::Server => Role::Client,
    }
}

/// Appends the line with `wsn explain` and a word, at most 19 bytes.
pub(super) fn push_explain(lines: &mut Line<MEANING_MAX>, word: &str)
    requires word { length word.now ≤ 19 }
    requires room { length lines.old + 38 ≤ MEANING_MAX }
    ensures text { lines.new ≡ lines.old ++ explain_line word.now }
    ensures len { length lines.new ≤ length lines.old + 38 }
{
    lines.push("Next: wsn explain ");
    lines.push(word);
    lines.push("\n");
}

/// Appends the code of a Close.
pub(super) fn push_code(lines: &mut Line<MEANING_MAX>, code: Option<u16>)
    requires { length lines.old + 30 ≤ MEANING_MAX }
    ensures text { lines.new ≡ lines.old ++ with_code code }
    ensures len { length lines.new ≤ length lines.old + 30 }
{
    match code {
        Some(code) => {
            lines.push("with code ");
            lines.push_number(u64::from(code));
        }
        None => lines.push("without a code"),
    }
}
