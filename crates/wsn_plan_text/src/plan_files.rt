ghost use Rattle.std.specs.Prelude.{◌≡◌, Err, IfErr, IfOk, false};
ghost use Rattle.wsn_plan_text.specs.PlanFiles.{IsPlanFileRead, IsTextRead};

use crate::plan::Plan;
use crate::plan_fault::PlanFault;
use crate::reading_plans::read_plan;
use std::alloc::{AllocError, Allocator};
use std::io::Read;
use wsn_io::Input;

/// The maximum size of a plan file in bytes.
const FILE_MAX: usize = 67_108_864;

/// The maximum number of bytes that one read returns.
const CHUNK: usize = 4_096;

/// Why a plan file gives no plan.
#[derive(Drop)]
pub enum PlanFileFault {
    /// A read failed.
    Unread,
    /// The file has more than 67,108,864 bytes.
    TooLong,
    /// Its text encodes no plan, or an allocation failed.
    Faulty(PlanFault),
}

impl From<AllocError> for PlanFileFault {
    ghost use Rattle.std.specs.Prelude.{◌≡◌};
    ghost use Rattle.wsn_plan_text.specs.declared.plan_fault.PlanFault.TheVariants.{Memory};
    ghost use Rattle.wsn_plan_text.specs.declared.plan_files.PlanFileFault.TheVariants.{Faulty};

    ghost from_gives = { λ _ fault. fault ≡ Faulty Memory };

    fn from(_: AllocError) -> Self {
        PlanFileFault::Faulty(PlanFault::Memory)
    }
}

/// Reads a plan file to its end, and returns the plan that its text encodes. All of the text is held in memory beside
/// the plan.
///
/// Errors: `Unread` if a read fails; `TooLong` once 67,108,865 bytes have come; `Faulty` if the text has a faulty line,
/// or if an allocation fails after the file's first byte.
pub fn read_plan_file<A: Allocator + Copy, R: Read>(
    alloc: A,
    file: &mut Input<R>,
) -> Result<Plan<A>, PlanFileFault>
    requires readable { file.old.failed ≡ false }
    ensures { IsPlanFileRead file.old file.new result }
{
    let text = read_text(alloc, file)?;
    match read_plan(alloc, text.as_slice()) {
        Ok(plan) => Ok(plan),
        Err(fault) => Err(PlanFileFault::Faulty(fault)),
    }
}

/// The bytes of a file, if they are at most the maximum.
#[tactic(none)]
fn read_text<A: Allocator, R: Read>(
    alloc: A,
    file: &mut Input<R>,
) -> Result<Vec<u8, A>, PlanFileFault>
    requires readable { file.old.failed ≡ false }
    ensures text { IfOk result (λ text. IsTextRead file.old file.new text.items) }
    ensures fault { IfErr result (λ fault. IsPlanFileRead file.old file.new (Err fault)) }
{
    let mut text = Vec::new(alloc);
    let mut chunk = [0; CHUNK];
    while text.len() <= FILE_MAX {
        let wanted = (FILE_MAX + 1 - text.len()).min(CHUNK);
        let Some(count) = file.read(&mut chunk[..wanted]) else {
            return Err(PlanFileFault::Unread);
        };
        if count == 0 {
            return Ok(text);
        }
        text.extend_from_slice(&chunk[..count])?;
    }
    Err(PlanFileFault::TooLong)
}
