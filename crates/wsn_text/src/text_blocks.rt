ghost use Rattle.std.specs.Prelude.{◌≡◌, ◌-◌, ◌<◌, ◌∷◌, ◌++◌, length, replicate, IsTrue};
ghost use Rattle.wsn_text.specs.Utf8.{IsText};

use simdutf8::Checker;
use std::simd::prelude::*;

/// The number of bytes in a block.
const BLOCK: usize = 64;

/// Whether a byte and the bytes after it are text, by blocks of 64.
#[tactic(none)]
pub(crate) fn is_text_after(first: u8, bytes: &[u8]) -> bool
    ensures { IsTrue result → IsText (first ∷ bytes.now) }
{
    let mut at = bytes.len() % BLOCK;
    let mut block = first_block(first, &bytes[..at]);
    let mut checker = Checker::new();
    loop {
        checker = checker.step(block);
        if at == bytes.len() {
            return checker.finish();
        }
        block = u8x64::from_slice(&bytes[at..]);
        at += BLOCK;
    }
}

/// A byte and the bytes after it, at the end of a block of zeros.
#[inline(always)]
#[tactic(none)]
fn first_block(first: u8, bytes: &[u8]) -> u8x64
    requires { length bytes.now < BLOCK }
    ensures { result ≡ replicate (BLOCK - 1 - length bytes.now) 0 ++ (first ∷ bytes.now) }
{
    let mut block = [0; BLOCK];
    let start = BLOCK - bytes.len();
    block[start - 1] = first;
    block[start..].copy_from_slice(bytes);
    u8x64::from_array(block)
}
