//! The options of `recut` alone.

use crate::argument::{Argument, Form, Kind};

/// `--plan`. Exactly one of this and `--size` is required.
pub const PLAN: Argument = Argument {
    name: "plan",
    form: Form::Option {
        value: "PLAN",
        kind: Kind::Any,
    },
    is_required: false,
    conflict: None,
    help: "Split by the plan in this file, or - for\nstandard input",
};

/// `--size`.
pub const SIZE: Argument = Argument {
    name: "size",
    form: Form::Option {
        value: "BYTES",
        kind: Kind::Number(1, 4_294_967_295),
    },
    is_required: false,
    conflict: None,
    help: "Split messages into frames of BYTES bytes,\n1 to 4294967295",
};

/// `--weave`, which requires `--size`.
pub const WEAVE: Argument = Argument {
    name: "weave",
    form: Form::Flag,
    is_required: false,
    conflict: None,
    help: "With --size: control frames directly before a\nsplit message go after its first frame",
};

/// `--key`, which requires `--size`.
pub const KEY: Argument = Argument {
    name: "key",
    form: Form::Option {
        value: "HEX",
        kind: Kind::Any,
    },
    is_required: false,
    conflict: None,
    help: "With --size, for a client: each frame's key,\n8 hexadecimal digits [default: 00000000]",
};
