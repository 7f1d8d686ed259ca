//! Laws about this crate's definitions. Each function does nothing: its contract is the law.

ghost use Rattle.std.specs.Prelude.{◌≡◌, Result, true, false};
ghost use Rattle.std.specs.declared.alloc.Global.{Global};
ghost use Rattle.wsn_io.specs.declared.stop.Stop.{Stop};
ghost use Rattle.wsn_rules.specs.declared.compared.Compared.{Compared};
ghost use Rattle.wsn_command.specs.declared.answered.Ran.{Ran};
ghost use Rattle.wsn_command.specs.declared.comparison.Comparison.{Comparison};
ghost use Rattle.wsn_command.specs.declared.job.Job.{Job};
ghost use Rattle.wsn_job.specs.Channels.{Channels};
ghost use Rattle.wsn_job.specs.Comparisons.{ComparedChannels, IsComparisonPrinted};
ghost use Rattle.wsn_job.specs.Work.{IsRun};

/// In no run over bytes in memory does a read fail, whatever is asked.
pub fn law_lent_bytes_are_read()
    ensures run { (job : Job Global) (before after : Channels) (ran : Ran) → IsRun job before after ran →
        before.input.lent ≡ true → before.input.failed ≡ false → after.input.failed ≡ false }
    ensures comparison { (comparison : Comparison) (before after : ComparedChannels) (answer : Result Compared Stop) →
        IsComparisonPrinted comparison before after answer → before.first.lent ≡ true → before.first.failed ≡ false →
        before.second.lent ≡ true → before.second.failed ≡ false →
        (after.first.failed ≡ false) × (after.second.failed ≡ false) }
{}
