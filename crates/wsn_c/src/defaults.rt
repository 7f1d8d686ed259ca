ghost use Rattle.std.specs.Prelude.{◌≡◌};
ghost use Rattle.wsn_c.specs.Asking.{defaults};

use crate::options::Options;

/// The program's options by default, for a stream that a client sent.
#[unsafe(no_mangle)]
pub extern "C" fn wsn_defaults() -> Options
    ensures { result ≡ defaults }
{
    Options {
        role: 0,
        format: 0,
        lengths: 0,
        detail: 0,
        without_pings: 0,
        without_pongs: 0,
        without_closes: 0,
        view: 48,
        limit: 16_777_216,
        frames: 0,
    }
}
