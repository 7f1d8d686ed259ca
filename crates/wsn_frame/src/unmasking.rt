ghost use Rattle.std.specs.Prelude.{◌≡◌, ◌+◌, ◌<◌, ◌^◌, length};
ghost use Rattle.wsn_frame.specs.Payloads.{unmasked_by};

use wsn_wire::mask;

/// Masks or unmasks bytes of a payload in place, if there is a key (RFC 6455 section 5.3). `start` is the offset of the
/// first of them in the payload, from 0.
#[inline(always)]
#[tactic(none)]
pub fn unmask(key: Option<[u8; 4]>, start: u64, bytes: &mut [u8])
    requires { start + length bytes.old < 2 ^ 64 }
    ensures { bytes.new ≡ unmasked_by key start bytes.old }
{
    if let Some(key) = key {
        mask(key, start, bytes);
    }
}
