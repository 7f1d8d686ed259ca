//! Assertions. The context of a failure is the last argument.
ghost use Rattle.std.specs.Prelude.{◌≡◌, true};

use std::fmt::Debug;
use std::process::Abort;

/// Fails unless this holds.
pub fn expect(rt: &impl Abort, holds: bool)
    ensures { holds ≡ true }
{
    assert!(rt; holds);
}

/// Fails unless this holds, and prints the context.
pub fn expect_of(rt: &impl Abort, holds: bool, of: &impl Debug) {
    assert!(rt; holds, "{of:?}");
}
