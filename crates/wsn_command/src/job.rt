ghost use Rattle.std.specs.Prelude.{◌≡◌, ◌↔◌, ◌⊎◌, None, IsSome, IfSome};
ghost use Rattle.wsn_wire.specs.declared.endpoint.Role.TheVariants.{Server};
ghost use Rattle.wsn_command.specs.Jobs.{MayRecut, key_by_size};
ghost use Rattle.wsn_command.specs.declared.job.How.TheVariants.{BySize};

use std::alloc::{Allocator, Global};
use wsn_plan_text::Plan;
use wsn_print::{Format, Style};
use wsn_rules::Limits;
use wsn_wire::Role;

/// The work of one command over one input, and the format in which it prints its answer, if it has one.
#[derive(Drop)]
pub enum Job<A: Allocator = Global> {
    /// Print the verdict on the stream that this endpoint sent.
    Judge(Role, Limits, Format),
    /// Print a line for each of the stream's frames, and then the verdict.
    Frames(Role, Limits, Format),
    /// Write the normal form of the stream's meaning.
    Normal(Role, Limits),
    /// Write the stream without what was said: its redaction.
    Redact(Role, Limits),
    /// Print the plan of the stream's own frames.
    Plan(Role, Limits),
    /// Write the stream's meaning in other frames.
    Recut(Role, Limits, How<A>),
    /// Write the payload of the event whose first frame begins at this offset.
    Payload(Role, Limits, u64),
    /// Print how the connection closed, from a capture of both sides.
    Closing(Limits, Format),
    /// Print what the stream that this endpoint sent says, in order and in this style, and then the verdict.
    ShowStream(Role, Limits, Style),
    /// Print what both sides of a capture said, in order and in this style, and how the connection closed.
    Show(Limits, Style),
    /// Write a capture without what was said: its redaction.
    RedactCapture(Limits),
}

impl<A: Allocator> Job<A> {
    ghost use Rattle.wsn_command.specs.Jobs.{job_role};

    /// The endpoint whose stream the job reads. `None` for `Closing`, `Show` and `RedactCapture`, which read the
    /// streams of both.
    #[tactic(none)]
    pub fn role(&self) -> Option<Role>
        ensures { result ≡ job_role self.now }
    {
        match self {
            Job::Judge(role, _, _)
            | Job::Frames(role, _, _)
            | Job::Normal(role, _)
            | Job::Redact(role, _)
            | Job::Plan(role, _)
            | Job::Recut(role, _, _)
            | Job::Payload(role, _, _)
            | Job::ShowStream(role, _, _) => Some(*role),
            Job::Closing(_, _) | Job::Show(_, _) | Job::RedactCapture(_) => None,
        }
    }
}

/// How a stream is recut.
#[derive(Drop)]
pub enum How<A: Allocator = Global> {
    /// By the steps of a plan.
    ByPlan(Plan<A>),
    /// Into frames of `size` bytes, and a last frame with the rest of each message, all with this key. With `weave`,
    /// the first of a message's several frames comes before the controls directly before the message.
    BySize {
        size: u32,
        weave: bool,
        key: Option<[u8; 4]>,
    },
}

impl<A: Allocator> How<A> {
    /// A recut into frames of `size` bytes. A client's frames have this key, or a key of zeros; a server's have none
    /// (RFC 6455 section 5.1).
    ///
    /// `None` for a size of 0, and for a server with a key.
    #[tactic(none)]
    pub fn by_size(role: Role, size: u32, weave: bool, key: Option<[u8; 4]>) -> Option<Self>
        ensures may { IfSome result (MayRecut role) }
        ensures how { IfSome result (λ how. how ≡ BySize size weave (key_by_size role key)) }
        ensures none { result ≡ None ↔ ((size ≡ 0) ⊎ ((role ≡ Server) × IsSome key)) }
    {
        let key = match (role, key) {
            (Role::Client, None) => Some([0; 4]),
            (Role::Client, Some(key)) => Some(key),
            (Role::Server, None) => None,
            (Role::Server, Some(_)) => return None,
        };
        if size == 0 {
            return None;
        }
        Some(How::BySize { size, weave, key })
    }
}
