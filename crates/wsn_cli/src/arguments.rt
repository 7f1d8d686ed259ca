ghost use Rattle.std.specs.Prelude.{◌≤◌, IfOk, IfSome, vec_len};

use crate::mistake::Mistake;
use crate::request::Usage;
use std::alloc::Global;
use std::env::FillError;
use std::rt::Env;
use std::str;

/// The number of bytes that a word is first given room for.
const WORD: usize = 4_096;

/// The words of the command line, with `wsn` instead of the name by which the program was called. The error is
/// `NotUtf8` for a word that isn't UTF-8.
pub fn words<E: Env>(alloc: Global, env: &E) -> Result<Vec<String>, Usage> {
    let mut words = Vec::new(alloc);
    words.push(String::from_str(alloc, "wsn")?)?;
    let mut bytes = vec![in alloc; 0; WORD]?;
    for place in 1..usize::MAX {
        let Some(len) = read_word(env, place, &mut bytes)? else {
            break;
        };
        let Ok(word) = str::from_utf8(&bytes[..len]) else {
            return Err(Usage::Own(Mistake::NotUtf8));
        };
        words.push(String::from_str(alloc, word)?)?;
    }
    Ok(words)
}

/// Reads the word with this index into the first bytes of `bytes`, which grow until the word fits, and returns its
/// length; `None` after the last word.
fn read_word<E: Env>(env: &E, place: usize, bytes: &mut Vec<u8>) -> Result<Option<usize>, Usage>
    ensures { IfOk result (λ found. IfSome found (λ len. len ≤ vec_len bytes.new)) }
{
    for _ in 0..usize::BITS {
        match env.arg(place, bytes.as_mut_slice()) {
            Ok(len) => return Ok(Some(len)),
            Err(FillError::NotPresent) => return Ok(None),
            Err(FillError::TooLong) => bytes.resize(bytes.len().saturating_mul(2), 0)?,
        }
    }
    Err(Usage::Memory)
}
