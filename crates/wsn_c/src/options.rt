ghost use Rattle.std.specs.Prelude.{◌≡◌, ◌≤◌, ◌↔◌, IsSome, IfSome};
ghost use Rattle.wsn_c.specs.Numbers.{detail_number, flag_number, format_number, role_number};

use wsn_job::{Format, Without};
use wsn_print::ViewLimit;
use wsn_rules::{Detail, INPUT_MAX, Limits};
use wsn_show::Style;
use wsn_wire::{Lengths, Role};

/// The view that means whole payloads.
const VIEW_ALL: u16 = 65_535;

/// How a command reads its input and prints its answer. `wsn.h` has names for the numbers.
#[repr(C)]
#[derive(Clone, Copy)]
pub struct Options {
    /// The endpoint that sent the stream: 0 for the client, 1 for the server.
    pub role: u8,
    /// 0 for lines of words, 1 for JSON objects.
    pub format: u8,
    /// Which encodings of a length are accepted: 0 for the shortest alone, 1 for any.
    pub lengths: u8,
    /// What is shown of a stream: 0 for events, 1 for frames.
    pub detail: u8,
    /// Whether a comparison leaves out pings: 0 for no, 1 for yes.
    pub without_pings: u8,
    /// Whether it leaves out pongs.
    pub without_pongs: u8,
    /// Whether it leaves out Closes.
    pub without_closes: u8,
    /// The maximum number of bytes of a payload that are shown, at most 4,096; 65,535 for whole payloads.
    pub view: u16,
    /// The maximum number of bytes in a message, at most 16,777,216.
    pub limit: u32,
    /// The maximum number of frames in a message; 0 for any number.
    pub frames: u32,
}

/// What options ask for.
#[derive(Clone, Copy)]
pub struct Asked {
    /// The endpoint that sent the stream.
    pub role: Role,
    /// The limits for reading it.
    pub limits: Limits,
    /// The controls that a comparison leaves out.
    pub without: Without,
    /// How a capture is shown, and the format of every answer.
    pub style: Style,
}

impl Options {
    ghost use Rattle.wsn_c.specs.Asking.{AreInRange, AreFlagsInRange, AreLimitsAsked, IsAsked, IsViewInRange, IsWithoutAsked, view_asked};

    /// What the options ask for. `None` exactly if one of them is out of range.
    pub(crate) fn asked(&self) -> Option<Asked>
        ensures in_range { IsSome result ↔ AreInRange self.now }
        ensures value { IfSome result (IsAsked self.now) }
    {
        let role = self.role()?;
        let limits = self.limits()?;
        let without = self.without()?;
        let view = self.view(limits)?;
        let detail = self.detail()?;
        let format = self.format()?;
        let style = Style {
            view,
            detail,
            format,
        };
        Some(Asked {
            role,
            limits,
            without,
            style,
        })
    }

    fn role(&self) -> Option<Role>
        ensures in_range { IsSome result ↔ (self.now.role ≤ 1) }
        ensures value { IfSome result (λ role. self.now.role ≡ role_number role) }
    {
        match self.role {
            0 => Some(Role::Client),
            1 => Some(Role::Server),
            _ => None,
        }
    }

    fn format(&self) -> Option<Format>
        ensures in_range { IsSome result ↔ (self.now.format ≤ 1) }
        ensures value { IfSome result (λ format. self.now.format ≡ format_number format) }
    {
        match self.format {
            0 => Some(Format::Text),
            1 => Some(Format::Json),
            _ => None,
        }
    }

    fn detail(&self) -> Option<Detail>
        ensures in_range { IsSome result ↔ (self.now.detail ≤ 1) }
        ensures value { IfSome result (λ detail. self.now.detail ≡ detail_number detail) }
    {
        match self.detail {
            0 => Some(Detail::Events),
            1 => Some(Detail::Frames),
            _ => None,
        }
    }

    fn without(&self) -> Option<Without>
        ensures in_range { IsSome result ↔ AreFlagsInRange self.now }
        ensures value { IfSome result (IsWithoutAsked self.now) }
    {
        Some(Without {
            ping: flag(self.without_pings)?,
            pong: flag(self.without_pongs)?,
            close: flag(self.without_closes)?,
        })
    }

    /// How much of a payload is shown of a stream under these limits.
    fn view(&self, limits: Limits) -> Option<ViewLimit>
        ensures in_range { IsSome result ↔ IsViewInRange self.now.view }
        ensures value { IfSome result (λ view. view ≡ view_asked self.now.view limits) }
    {
        if self.view == VIEW_ALL {
            Some(ViewLimit::whole(limits))
        } else {
            ViewLimit::new(self.view)
        }
    }

    fn limits(&self) -> Option<Limits>
        ensures in_range { IsSome result ↔ ((self.now.limit ≤ 16777216) × (self.now.lengths ≤ 1)) }
        ensures value { IfSome result (AreLimitsAsked self.now) }
    {
        let lengths = match self.lengths {
            0 => Lengths::Shortest,
            1 => Lengths::Any,
            _ => return None,
        };
        let limits = Limits::new(self.limit, INPUT_MAX)?.with_lengths(lengths);
        if self.frames == 0 {
            return Some(limits);
        }
        limits.with_frames(self.frames)
    }
}

/// A flag. `None` for a number over 1.
pub(crate) fn flag(number: u8) -> Option<bool>
    ensures in_range { IsSome result ↔ (number ≤ 1) }
    ensures value { IfSome result (λ yes. number ≡ flag_number yes) }
{
    match number {
        0 => Some(false),
        1 => Some(true),
        _ => None,
    }
}
