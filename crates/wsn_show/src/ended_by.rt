ghost use Rattle.std.specs.Prelude.{◌≡◌};
ghost use Rattle.wsn_show.specs.EndedByTexts.{ended_by_line, ended_by_object, ended_by_text};

use wsn_capture::EndedBy;
use wsn_print::Format;
use wsn_wire::Role;

/// Who ended a connection, in a format, with its LF, such as `ended-by server reset`; empty for `None`.
pub fn text_of(format: Format, ended_by: Option<EndedBy>) -> &'static [u8]
    ensures { result.now ≡ ended_by_text format ended_by }
{
    match (format, ended_by) {
        (_, None) => b"",
        (Format::Text | Format::People, Some(ended_by)) => line_of(ended_by),
        (Format::Json, Some(ended_by)) => object_of(ended_by),
    }
}

fn line_of(ended_by: EndedBy) -> &'static [u8]
    ensures { result.now ≡ ended_by_line ended_by }
{
    match (ended_by.role, ended_by.reset) {
        (Role::Client, false) => b"ended-by client\n",
        (Role::Client, true) => b"ended-by client reset\n",
        (Role::Server, false) => b"ended-by server\n",
        (Role::Server, true) => b"ended-by server reset\n",
    }
}

fn object_of(ended_by: EndedBy) -> &'static [u8]
    ensures { result.now ≡ ended_by_object ended_by }
{
    match (ended_by.role, ended_by.reset) {
        (Role::Client, false) => b"{\"type\":\"ended-by\",\"side\":\"client\",\"reset\":false}\n",
        (Role::Client, true) => b"{\"type\":\"ended-by\",\"side\":\"client\",\"reset\":true}\n",
        (Role::Server, false) => b"{\"type\":\"ended-by\",\"side\":\"server\",\"reset\":false}\n",
        (Role::Server, true) => b"{\"type\":\"ended-by\",\"side\":\"server\",\"reset\":true}\n",
    }
}
