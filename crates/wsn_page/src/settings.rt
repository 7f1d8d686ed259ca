use wsn_print::{Format, VIEW_MAX, ViewLimit};
use wsn_rules::{Detail, INPUT_MAX, Limits, MESSAGE_MAX};
use wsn_show::Style;
use wsn_wire::{Lengths, Role};

/// How a session is read, and what is shown of it. Every number has a meaning.
#[repr(C)]
#[derive(Clone, Copy)]
pub struct Settings {
    /// The maximum number of bytes in a message. A greater number than 16,777,216 means 16,777,216.
    pub limit: u32,
    /// The maximum number of frames in a message; 0 for any number.
    pub frames: u32,
    /// Which encodings of a length are accepted: 0 for the shortest alone, another number for any.
    pub lengths: u8,
    /// What is shown: 0 for events, another number for frames.
    pub detail: u8,
    /// The endpoint that sent a stream: 0 for the client, another number for the server.
    pub role: u8,
}

impl Settings {
    ghost use Rattle.std.specs.Prelude.{◌≡◌};
    ghost use Rattle.wsn_page.specs.Asking.{IsStyleAsked, limits_asked, role_asked};

    /// The limits for reading the session.
    pub(crate) fn limits(&self) -> Limits
        ensures { result ≡ limits_asked self.now }
    {
        let Some(limits) = Limits::new(self.limit.min(MESSAGE_MAX), INPUT_MAX) else {
            unreachable!();
        };
        let limits = limits.with_lengths(if self.lengths == 0 {
            Lengths::Shortest
        } else {
            Lengths::Any
        });
        limits.with_frames(self.frames).unwrap_or(limits)
    }

    /// How the session is shown.
    pub(crate) fn style(&self) -> Style
        ensures { IsStyleAsked self.now result }
    {
        let Some(view) = ViewLimit::new(VIEW_MAX) else {
            unreachable!();
        };
        let detail = if self.detail == 0 {
            Detail::Events
        } else {
            Detail::Frames
        };
        Style {
            view,
            detail,
            format: Format::Json,
        }
    }

    /// The endpoint that sent the stream.
    pub(crate) fn role(&self) -> Role
        ensures { result ≡ role_asked self.now }
    {
        if self.role == 0 {
            Role::Client
        } else {
            Role::Server
        }
    }
}
