//! Examples of exit statuses, and of what is reported where a capture has no report, computed from the definitions in
//! `specs/`.

ghost use Rattle.std.specs.Prelude.{◌≡◌, ℕ, List, Result, Ok, Err, codes};
ghost use Rattle.wsn_io.specs.declared.stop.Stop.{Stop};
ghost use Rattle.wsn_rules.specs.declared.step.Step.{Step};
ghost use Rattle.wsn_rules.specs.declared.verdict.Verdict.{Verdict};
ghost use Rattle.wsn_rules.specs.declared.why.Why.{Why};
ghost use Rattle.wsn_rules.specs.declared.closing_handshake.Outcome.TheVariants.{Failed, Clean, Complete, Abnormal, Half, Live};
ghost use Rattle.wsn_plan.specs.declared.planning.PlanAnswer.{PlanAnswer};
ghost use Rattle.wsn_plan.specs.declared.planning.PlanAnswer.TheVariants as plans;
ghost use Rattle.wsn_plan.specs.declared.recutting.RecutAnswer.TheVariants.{Done, NotAccepted, Fault};
ghost use Rattle.wsn_capture.specs.declared.capture_report.CaptureReport.{CaptureReport};
ghost use Rattle.wsn_capture.specs.declared.line_fault.LineFault.TheVariants.{TooManyLines, AfterEnd};
ghost use Rattle.wsn_capture.specs.declared.capture_stop.CaptureStop.TheVariants.{Read, Line};
ghost use Rattle.wsn_show.specs.declared.showing.ShowStop.{ShowStop};
ghost use Rattle.wsn_show.specs.declared.showing.ShowStop.TheVariants.{Capture, Write};
ghost use Rattle.wsn_job.specs.Plans.{plan_status};
ghost use Rattle.wsn_job.specs.Recuts.{recut_status};
ghost use Rattle.wsn_job.specs.Closings.{closing_status, closing_stop_line};

/// The exit statuses of `plan`.
pub fn of_plans()
    ensures plan { (plan : List Step) → plan_status {A = Unit {0}} (Ok (plans.Plan plan)) ≡ 0 }
    ensures not_accepted { (verdict : Verdict) → plan_status {A = Unit {0}} (Ok (plans.NotAccepted verdict)) ≡ 1 }
    ensures unfinished { plan_status {A = Unit {0}} (Ok plans.Unfinished) ≡ 1 }
    ensures stop { (stopped : Stop) → plan_status {A = Unit {0}} (Err stopped) ≡ 2 }
{}

/// The exit statuses of `recut`.
pub fn of_recuts()
    ensures done { recut_status (Ok Done) ≡ 0 }
    ensures not_accepted { (verdict : Verdict) → recut_status (Ok (NotAccepted verdict)) ≡ 1 }
    ensures fault { (step : ℕ) (why : Why) → recut_status (Ok (Fault step why)) ≡ 1 }
    ensures stop { (stopped : Stop) → recut_status (Err stopped) ≡ 2 }
{}

/// The exit statuses of `closing`, by the outcome.
pub fn of_closings()
    ensures clean { (r : CaptureReport) → closing_status (Ok (record r { report = record r.report { outcome = Clean } })) ≡ 0 }
    ensures complete { (r : CaptureReport) → closing_status (Ok (record r { report = record r.report { outcome = Complete } })) ≡ 0 }
    ensures failed { (r : CaptureReport) → closing_status (Ok (record r { report = record r.report { outcome = Failed } })) ≡ 1 }
    ensures abnormal { (r : CaptureReport) → closing_status (Ok (record r { report = record r.report { outcome = Abnormal } })) ≡ 1 }
    ensures half { (r : CaptureReport) → closing_status (Ok (record r { report = record r.report { outcome = Half } })) ≡ 1 }
    ensures open_streams { (r : CaptureReport) → closing_status (Ok (record r { report = record r.report { outcome = Live } })) ≡ 1 }
    ensures stop { (stopped : ShowStop) → closing_status (Err stopped) ≡ 2 }
{}

/// The lines of a capture's stops.
pub fn of_capture_stops()
    ensures read { closing_stop_line (Capture Read) ≡ codes "read failed\n" }
    ensures line { closing_stop_line (Capture (Line 3 AfterEnd)) ≡ codes "line 3: after-end\n" }
    ensures many { closing_stop_line (Capture (Line 1000001 TooManyLines)) ≡ codes "line 1000001: too-many-lines\n" }
    ensures write { closing_stop_line Write ≡ codes "write failed\n" }
{}
