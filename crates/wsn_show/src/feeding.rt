//! What a scan of a stream completes, call by call.

ghost use Rattle.std.specs.Prelude.{◌≡◌, ℕ, ◌+◌, ◌<◌, ◌≤◌, ◌^◌, List, ◌++◌, length, take, drop, None};
ghost use Rattle.wsn_wire.specs.declared.endpoint.Role.{Role};
ghost use Rattle.wsn_rules.specs.Limits.{Limits};
ghost use Rattle.wsn_rules.specs.ShownStream.{Shown};
ghost use Rattle.wsn_scan.specs.Scans.{room_of, refusal_in};
ghost use Rattle.wsn_show.specs.ShownSoFar.{HasShown, HasShownFrames, ShowsMore, IsShowing};

use crate::entry_context::EntryContext;
use crate::following::TakenPart;
use crate::stream_parts::StreamParts;
use std::io::Write;
use wsn_io::Output;
use wsn_scan::{Part, Scan, Taken};

/// Lets the scan consume the chunk, and prints what it completes. Bytes after a refusal are kept, but not read.
pub fn feed<W: Write>(
    scan: &mut Scan,
    parts: &mut StreamParts<'_>,
    chunk: &mut [u8],
    output: &mut Output<W>,
    context: &EntryContext<'_>,
)
    requires begun { refusal_in scan.old ≡ None →
        IsShowing context.now.style scan.old parts.old }
    requires fits { refusal_in scan.old ≡ None → length chunk.old ≤ room_of scan.old }
    ensures { (role : Role) (limits : Limits) (came : List ℕ) (shown : List Shown) →
        length came + length chunk.old < 2 ^ 64 →
        HasShown context.now.style role limits scan.old parts.old came shown →
        ShowsMore role limits scan.new parts.new context.now output.old output.new
        (came ++ chunk.old) shown }
{
    match scan.refusal() {
        Some(_) => parts.rest.add(chunk),
        None => {
            let read = feed_unrefused(scan, parts, chunk, output, context);
            parts.rest.add(&chunk[read..]);
        }
    }
}

/// Lets the scan consume the chunk, all of it or the bytes up to a refusal, and prints what it completes. Returns the
/// number of bytes that it consumed.
fn feed_unrefused<W: Write>(
    scan: &mut Scan,
    parts: &mut StreamParts<'_>,
    chunk: &mut [u8],
    output: &mut Output<W>,
    context: &EntryContext<'_>,
) -> usize
    requires begun { IsShowing context.now.style scan.old parts.old }
    requires fits { length chunk.old ≤ room_of scan.old }
    ensures within { result ≤ length chunk.old }
    ensures kept { drop result chunk.new ≡ drop result chunk.old }
    ensures shows { (role : Role) (limits : Limits) (came : List ℕ) (shown : List Shown) →
        HasShownFrames context.now.style role limits scan.old parts.old came shown →
        ShowsMore role limits scan.new parts.new context.now output.old output.new
        (came ++ take result chunk.old) shown }
    ensures all { refusal_in scan.new ≡ None → result ≡ length chunk.old }
{
    let mut at = 0;
    while at < chunk.len() {
        at += step(scan, parts, &mut chunk[at..], output, context);
        if let Some(_) = scan.refusal() {
            return at;
        }
    }
    at
}

/// Calls the scan once, and prints what it completes. Returns the number of bytes that it consumed.
fn step<W: Write>(
    scan: &mut Scan,
    parts: &mut StreamParts<'_>,
    chunk: &mut [u8],
    output: &mut Output<W>,
    context: &EntryContext<'_>,
) -> usize
    requires fits { length chunk.old ≤ room_of scan.old }
    requires some { 0 < length chunk.old }
    ensures within { result ≤ length chunk.old }
    ensures kept { drop result chunk.new ≡ drop result chunk.old }
    ensures room { room_of scan.new + result ≡ room_of scan.old }
    ensures shows { (role : Role) (limits : Limits) (came : List ℕ) (shown : List Shown) →
        HasShownFrames context.now.style role limits scan.old parts.old came shown →
        ShowsMore role limits scan.new parts.new context.now output.old output.new
        (came ++ take result chunk.old) shown }
    ensures progress { IsShowing context.now.style scan.old parts.old →
        refusal_in scan.new ≡ None → 0 < result }
{
    let mut part = Part::new();
    let (count, found) = scan.follow(chunk, &mut part);
    let bytes = &chunk[..count];
    match found {
        Taken::More => parts.add_bytes(bytes),
        Taken::Closed => parts.add_bytes(bytes),
        Taken::Part => {
            let taken = TakenPart {
                part: &part,
                payload: &bytes[part.start..],
                size: count,
            };
            parts.take(&taken, output, context);
        }
        Taken::Refused => {
            if let Some(refusal) = scan.refusal() {
                parts.refuse(&refusal, bytes, output, context);
            }
        }
    }
    count
}
