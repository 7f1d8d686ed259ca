//! The options and other arguments of the commands, but for those of `recut` alone.

use crate::argument::{Argument, Form, Kind};

/// `--role`, which every command over streams requires.
pub const ROLE: Argument = Argument {
    name: "role",
    form: ROLES,
    is_required: true,
    conflict: None,
    help: "The endpoint that sent the stream",
};

/// `--role` of a command that reads captures without it.
pub const STREAM_ROLE: Argument = Argument {
    name: "role",
    form: ROLES,
    is_required: false,
    conflict: None,
    help: "The input is no capture, but the stream that\nthis endpoint sent",
};

const ROLES: Form = Form::Option {
    value: "client|server",
    kind: Kind::OneOf(&["client", "server"]),
};

/// `--capture`.
pub const CAPTURE: Argument = Argument {
    name: "capture",
    form: Form::Flag,
    is_required: false,
    conflict: None,
    help: "The input is a capture: read what --role's\nendpoint sent in it",
};

/// The file that is read in place of standard input.
pub const FILE: Argument = Argument {
    name: "file",
    form: Form::One { value: "FILE" },
    is_required: false,
    conflict: None,
    help: "The file to read, or - for standard input\n[default: -]",
};

/// The files that are read in place of standard input.
pub const FILES: Argument = Argument {
    name: "file",
    form: Form::Several { value: "FILE" },
    is_required: false,
    conflict: None,
    help: "The files to read, or - for standard input; of\nseveral, a line for each\n[default: -]",
};

/// `--each`.
pub const EACH: Argument = Argument {
    name: "each",
    form: Form::Flag,
    is_required: false,
    conflict: None,
    help: "Print a line for each FILE, also if it is one",
};

/// The first file of two.
pub const FIRST: Argument = Argument {
    name: "first",
    form: Form::One { value: "FIRST" },
    is_required: true,
    conflict: None,
    help: "The file with the first stream, or - for standard input",
};

/// The second file of two.
pub const SECOND: Argument = Argument {
    name: "second",
    form: Form::One { value: "SECOND" },
    is_required: true,
    conflict: None,
    help: "The file with the second stream, or - for standard input",
};

/// The words to be explained.
pub const WORDS: Argument = Argument {
    name: "words",
    form: Form::Several { value: "WORD" },
    is_required: false,
    conflict: None,
    help: "A word that wsn prints, such as text-bad",
};

/// `--at`.
pub const AT: Argument = Argument {
    name: "at",
    form: Form::Option {
        value: "OFFSET",
        kind: Kind::Any,
    },
    is_required: true,
    conflict: None,
    help: "Where the event's first frame begins: the OFFSET\nthat show prints",
};

/// `--view`.
pub const VIEW: Argument = Argument {
    name: "view",
    form: Form::Option {
        value: "BYTES|all",
        kind: Kind::Any,
    },
    is_required: false,
    conflict: None,
    help: "Maximum bytes of a payload to show, 0 to 4096;\nin hexadecimal, half as many; all for whole\npayloads [default: 48]",
};

/// `--view` of a comparison, which shows no events without it.
pub const EVENTS_VIEW: Argument = Argument {
    name: "view",
    form: Form::Option {
        value: "BYTES",
        kind: Kind::Number(0, 4_096),
    },
    is_required: false,
    conflict: None,
    help: "Also show the first events that differ, and at\nmost BYTES of a payload, 0 to 4096; in\nhexadecimal, half as many",
};

/// `--wire`.
pub const WIRE: Argument = Argument {
    name: "wire",
    form: Form::Flag,
    is_required: false,
    conflict: None,
    help: "Show frames, as frames lists them, in place of\nevents",
};

/// `--layout`, which isn't for JSON.
pub const LAYOUT: Argument = Argument {
    name: "layout",
    form: Form::Option {
        value: "lines|people",
        kind: Kind::OneOf(&["lines", "people"]),
    },
    is_required: false,
    conflict: Some("json"),
    help: "Print entries as lines of words, or for people\nin columns\n[default: people on a terminal with colours,\nelse lines]",
};

/// `--without`.
pub const WITHOUT: Argument = Argument {
    name: "without",
    form: Form::Option {
        value: "KINDS",
        kind: Kind::SomeOf(&["ping", "pong", "close"]),
    },
    is_required: false,
    conflict: None,
    help: "Leave these out of both, such as ping,pong:\nping, pong, close",
};

/// `--json`.
pub const JSON: Argument = Argument {
    name: "json",
    form: Form::Flag,
    is_required: false,
    conflict: None,
    help: "Print JSON objects, one a line",
};

/// `--color` of a command that may print JSON, which has no colours.
pub const COLOR: Argument = Argument {
    name: "color",
    form: COLORS,
    is_required: false,
    conflict: None,
    help: "Colour all but JSON: auto (on a terminal with\ncolours, unless NO_COLOR is set), always, never\n[default: auto]",
};

/// `--color` of a command that prints an explanation.
pub const TEXT_COLOR: Argument = Argument {
    name: "color",
    form: COLORS,
    is_required: false,
    conflict: None,
    help: "Print in colours: auto (on a terminal with\ncolours, unless NO_COLOR is set), always, never\n[default: auto]",
};

const COLORS: Form = Form::Option {
    value: "WHEN",
    kind: Kind::OneOf(&["auto", "always", "never"]),
};

/// `--limit`.
pub const LIMIT: Argument = Argument {
    name: "limit",
    form: Form::Option {
        value: "BYTES",
        kind: Kind::Number(0, 16_777_216),
    },
    is_required: false,
    conflict: None,
    help: "Maximum bytes of a message, 0 to 16777216\n[default: 16777216]",
};

/// `--frames`.
pub const FRAMES: Argument = Argument {
    name: "frames",
    form: Form::Option {
        value: "COUNT",
        kind: Kind::Number(1, 4_294_967_295),
    },
    is_required: false,
    conflict: None,
    help: "Maximum frames of a message, 1 to 4294967295\n[default: no maximum]",
};

/// `--lengths`.
pub const LENGTHS: Argument = Argument {
    name: "lengths",
    form: Form::Option {
        value: "shortest|any",
        kind: Kind::OneOfOr(&["shortest", "any"], "shortest"),
    },
    is_required: false,
    conflict: None,
    help: "Which encodings of a length are accepted\n[default: shortest]",
};
