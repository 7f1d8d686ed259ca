ghost use Rattle.std.specs.Prelude.{◌≤◌, IfSome};
ghost use Rattle.std.proofs.Props.{props};

use wsn_print::{Format, ViewLimit};
use wsn_rules::{Limits, Without};
use wsn_wire::Role;

/// How two streams are compared, and how the answer is printed.
#[derive(Clone, Copy)]
pub struct Comparison {
    /// The endpoint that sent the streams.
    pub role: Role,
    /// The limits for reading each of them.
    pub limits: Limits,
    /// The controls that are left out of both meanings.
    pub without: Without,
    /// The format of the answer.
    pub format: Format,
    /// The most bytes of a payload that are shown of the first events that differ; `None` if these aren't shown.
    pub view: Option<ViewLimit>,
    ghost in_range: { IfSome view (λ n. n ≤ 4096) } by { Prim.hlevel props },
}
