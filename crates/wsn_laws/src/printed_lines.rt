//! Examples of printed lines and of exit statuses, computed from the definitions in `wsn_print/specs/`.

ghost use Rattle.std.specs.Prelude.{◌≡◌, ℕ, true, false, None, Some, Ok, Err, [], ◌∷◌, codes};
ghost use Rattle.wsn_wire.specs.declared.endpoint.Role.TheVariants.{Server};
ghost use Rattle.wsn_wire.specs.declared.opcode.Op.TheVariants.{Continue, Text, Binary, Close, Ping, Pong};
ghost use Rattle.wsn_wire.specs.declared.length_encoding.Form.TheVariants.{Shortest, Two, Eight};
ghost use Rattle.wsn_wire.specs.declared.refusal.Reason.TheVariants as reason;
ghost use Rattle.wsn_wire.specs.declared.refusal.Reason.TheVariants.{TextBad, LengthTopBit};
ghost use Rattle.wsn_rules.specs.Examples.{greatest};
ghost use Rattle.wsn_rules.specs.declared.verdict.Summary.{Summary};
ghost use Rattle.wsn_laws.specs.HeadExamples.{Lists};
ghost use Rattle.wsn_print.specs.HeadText.{head_line};
ghost use Rattle.wsn_print.specs.VerdictText.{verdict_line, comparison_line};
ghost use Rattle.wsn_rules.specs.declared.verdict.Refusal.{Refusal};
ghost use Rattle.wsn_rules.specs.declared.verdict.Verdict.TheVariants.{Accepted, Cut, Refused};
ghost use Rattle.wsn_rules.specs.declared.compared.Compared.TheVariants.{Equal, Different, NotAccepted};
ghost use Rattle.wsn_rules.specs.declared.why.Why.TheVariants as why;
ghost use Rattle.wsn_rules.specs.declared.closing_handshake.Outcome.TheVariants as outcome;
ghost use Rattle.wsn_rules.specs.declared.verdict.Verdict.{Verdict};
ghost use Rattle.wsn_io.specs.declared.stop.Stop.{Stop};
ghost use Rattle.wsn_io.specs.declared.stop.Stop.TheVariants as stop;
ghost use Rattle.wsn_print.specs.FaultText.{recut_fault_line, unfinished_line, line_fault_line, stop_line};
ghost use Rattle.wsn_print.specs.Statuses.{verdict_status, comparison_status, outcome_status};

/// The lines of verdicts, whatever the summary's other counts are.
pub fn of_verdicts()
    ensures accepted { (s : Summary) → verdict_line (Accepted (record s { used = 11; tail = 0; unfinished = None }))
        ≡ codes "accepted 11 tail 0 unfinished -\n" }
    ensures unfinished { (s : Summary) → verdict_line (Accepted (record s { used = 9; tail = 0; unfinished = Some 3 }))
        ≡ codes "accepted 9 tail 0 unfinished 3\n" }
    ensures unfinished_empty { (s : Summary) →
        verdict_line (Accepted (record s { used = 2; tail = 0; unfinished = Some 0 }))
        ≡ codes "accepted 2 tail 0 unfinished 0\n" }
    ensures tail { (s : Summary) → verdict_line (Accepted (record s {
      used = 8;
      tail = 1099511627768;
      unfinished = None;
    })) ≡ codes "accepted 8 tail 1099511627768 unfinished -\n" }
    ensures cut { (s : Summary) → verdict_line (Cut (record s { used = 2 })) ≡ codes "cut 2\n" }
    ensures refused { verdict_line (Refused (record { offset = 5; reason = TextBad }))
        ≡ codes "refused 5 text-bad 1007\n" }
    ensures refused_late { verdict_line (Refused (record { offset = 65545; reason = LengthTopBit }))
        ≡ codes "refused 65545 length-top-bit 1002\n" }
{}

/// The lines of heads.
pub fn of_heads()
    ensures masked { head_line (record {
      offset = 0;
      fin = true;
      op = Text;
      key = Some (0x37 ∷ 0xfa ∷ 0x21 ∷ 0x3d ∷ []);
      form = Shortest;
      len = 5;
    }) ≡ codes "0 fin text 37fa213d 5\n" }
    ensures small_key { head_line (record {
      offset = 13;
      fin = true;
      op = Ping;
      key = Some
          (0x00 ∷ 0x00 ∷ 0x00 ∷ 0x01 ∷ []);
      form = Shortest;
      len = 0;
    }) ≡ codes "13 fin ping 00000001 0\n" }
    ensures not_final { head_line (record { offset = 0; fin = false; op = Text; key = None; form = Shortest; len = 3 })
        ≡ codes "0 more text - 3\n" }
    ensures continued { head_line (record {
      offset = 7;
      fin = true;
      op = Continue;
      key = None;
      form = Shortest;
      len = 2;
    }) ≡ codes "7 fin cont - 2\n" }
    ensures two { head_line (record { offset = 0; fin = true; op = Binary; key = None; form = Two; len = 0 })
        ≡ codes "0 fin binary - 0 two\n" }
    ensures eight { head_line (record { offset = 0; fin = true; op = Binary; key = None; form = Eight; len = 65535 })
        ≡ codes "0 fin binary - 65535 eight\n" }
    ensures close { head_line (record { offset = 300; fin = true; op = Close; key = None; form = Shortest; len = 2 })
        ≡ codes "300 fin close - 2\n" }
    ensures pong { head_line (record { offset = 2; fin = true; op = Pong; key = None; form = Shortest; len = 125 })
        ≡ codes "2 fin pong - 125\n" }
{}

/// The lines of a stream's heads: one for each frame, in order; none for a head that is incomplete, is evidence for a
/// refusal, or comes after a Close.
pub fn of_streams()
    ensures ping_between { Lists Server greatest
        (0x01 ∷ 0x01 ∷ 0x48 ∷ 0x89 ∷ 0x00 ∷ 0x80 ∷ 0x01 ∷ 0x69 ∷ 0x81 ∷ [])
        (codes "0 more text - 1\n3 fin ping - 0\n5 fin cont - 1\n") }
    ensures refused_in_a_payload { Lists Server greatest (0x89 ∷ 0x00 ∷ 0x81 ∷ 0x02 ∷ 0x41 ∷ 0xff ∷ [])
        (codes "0 fin ping - 0\n2 fin text - 2\n") }
    ensures refused_in_a_head { Lists Server greatest (0x81 ∷ 0x01 ∷ 0x41 ∷ 0xc1 ∷ 0x00 ∷ [])
        (codes "0 fin text - 1\n") }
    ensures cut_by_an_empty_frame { Lists Server greatest (0x01 ∷ 0x01 ∷ 0xe2 ∷ 0x80 ∷ 0x00 ∷ [])
        (codes "0 more text - 1\n") }
    ensures ended_by_an_empty_frame { Lists Server greatest (0x01 ∷ 0x01 ∷ 0x41 ∷ 0x80 ∷ 0x00 ∷ 0x81 ∷ [])
        (codes "0 more text - 1\n3 fin cont - 0\n") }
    ensures after_a_close { Lists Server greatest (0x88 ∷ 0x00 ∷ 0x81 ∷ 0x00 ∷ []) (codes "0 fin close - 0\n") }
{}

/// The line of a refusal for each reason, with its word and its close code.
pub fn of_refusals()
    ensures reserved_bits { verdict_line (Refused (record { offset = 0; reason = reason.ReservedBits }))
        ≡ codes "refused 0 reserved-bits 1002\n" }
    ensures reserved_opcode { verdict_line (Refused (record { offset = 0; reason = reason.ReservedOpcode }))
        ≡ codes "refused 0 reserved-opcode 1002\n" }
    ensures control_not_final { verdict_line (Refused (record { offset = 2; reason = reason.ControlNotFinal }))
        ≡ codes "refused 2 control-not-final 1002\n" }
    ensures nothing_to_continue { verdict_line (Refused (record { offset = 0; reason = reason.NothingToContinue }))
        ≡ codes "refused 0 nothing-to-continue 1002\n" }
    ensures message_open { verdict_line (Refused (record { offset = 2; reason = reason.MessageOpen }))
        ≡ codes "refused 2 message-open 1002\n" }
    ensures mask_missing { verdict_line (Refused (record { offset = 1; reason = reason.MaskMissing }))
        ≡ codes "refused 1 mask-missing 1002\n" }
    ensures mask_present { verdict_line (Refused (record { offset = 1; reason = reason.MaskPresent }))
        ≡ codes "refused 1 mask-present 1002\n" }
    ensures control_too_long { verdict_line (Refused (record { offset = 1; reason = reason.ControlTooLong }))
        ≡ codes "refused 1 control-too-long 1002\n" }
    ensures close_one_byte { verdict_line (Refused (record { offset = 1; reason = reason.CloseOneByte }))
        ≡ codes "refused 1 close-one-byte 1002\n" }
    ensures length_top_bit { verdict_line (Refused (record { offset = 9; reason = reason.LengthTopBit }))
        ≡ codes "refused 9 length-top-bit 1002\n" }
    ensures length_not_minimal { verdict_line (Refused (record { offset = 3; reason = reason.LengthNotMinimal }))
        ≡ codes "refused 3 length-not-minimal 1002\n" }
    ensures message_too_big { verdict_line (Refused (record { offset = 6; reason = reason.MessageTooBig }))
        ≡ codes "refused 6 message-too-big 1009\n" }
    ensures close_code { verdict_line (Refused (record { offset = 3; reason = reason.CloseCode }))
        ≡ codes "refused 3 close-code 1002\n" }
    ensures close_reason { verdict_line (Refused (record { offset = 4; reason = reason.CloseReason }))
        ≡ codes "refused 4 close-reason 1007\n" }
    ensures text_bad { verdict_line (Refused (record { offset = 5; reason = reason.TextBad }))
        ≡ codes "refused 5 text-bad 1007\n" }
    ensures text_cut { verdict_line (Refused (record { offset = 2; reason = reason.TextCut }))
        ≡ codes "refused 2 text-cut 1007\n" }
    ensures too_many_frames { verdict_line (Refused (record { offset = 4; reason = reason.TooManyFrames }))
        ≡ codes "refused 4 too-many-frames 1008\n" }
{}

/// The lines of comparisons: which stream isn't accepted comes before the line of its verdict.
pub fn of_comparisons()
    ensures equal { comparison_line Equal ≡ codes "equal\n" }
    ensures at_once { comparison_line (Different 0) ≡ codes "different 0\n" }
    ensures later { comparison_line (Different 12) ≡ codes "different 12\n" }
    ensures first_cut { (s : Summary) → comparison_line (NotAccepted false (Cut (record s { used = 1 })))
        ≡ codes "first cut 1\n" }
    ensures second_cut { (s : Summary) → comparison_line (NotAccepted true (Cut (record s { used = 5 })))
        ≡ codes "second cut 5\n" }
    ensures first_refused { comparison_line (NotAccepted false (Refused (record { offset = 5; reason = TextBad })))
        ≡ codes "first refused 5 text-bad 1007\n" }
    ensures second_refused { comparison_line (NotAccepted true (Refused (record { offset = 0; reason = reason.ReservedBits })))
        ≡ codes "second refused 0 reserved-bits 1002\n" }
{}

/// The line of a plan's fault for each reason: steps are numbered from 0. And the line for a stream without a plan.
pub fn of_recut_faults()
    ensures key_mismatch { recut_fault_line 0 why.KeyMismatch ≡ codes "fault 0 key-mismatch\n" }
    ensures steps_left { recut_fault_line 2 why.StepsLeft ≡ codes "fault 2 steps-left\n" }
    ensures no_message { recut_fault_line 0 why.NoMessage ≡ codes "fault 0 no-message\n" }
    ensures piece_too_long { recut_fault_line 1 why.PieceTooLong ≡ codes "fault 1 piece-too-long\n" }
    ensures too_many_pieces { recut_fault_line 1 why.TooManyPieces ≡ codes "fault 1 too-many-pieces\n" }
    ensures not_a_control { recut_fault_line 1 why.NotAControl ≡ codes "fault 1 not-a-control\n" }
    ensures not_a_message { recut_fault_line 0 why.NotAMessage ≡ codes "fault 0 not-a-message\n" }
    ensures wrong_form { recut_fault_line 3 why.WrongForm ≡ codes "fault 3 wrong-form\n" }
    ensures events_left { recut_fault_line 10 why.EventsLeft ≡ codes "fault 10 events-left\n" }
    ensures unfinished { unfinished_line ≡ codes "unfinished\n" }
{}

/// The lines of faulty lines of a text.
pub fn of_line_faults()
    ensures first { line_fault_line 1 (codes "bad-hex") ≡ codes "line 1: bad-hex\n" }
    ensures later { line_fault_line 27 (codes "after-end") ≡ codes "line 27: after-end\n" }
    ensures after_the_most { line_fault_line 1000001 (codes "too-many-lines") ≡ codes "line 1000001: too-many-lines\n" }
{}

/// The lines of stops.
pub fn of_stops()
    ensures read { stop_line stop.Read ≡ codes "read failed\n" }
    ensures input_limit { stop_line stop.InputLimit ≡ codes "input limit\n" }
    ensures memory { stop_line stop.Memory ≡ codes "out of memory\n" }
    ensures write { stop_line stop.Write ≡ codes "write failed\n" }
{}

/// The exit statuses of verdicts, and of a stop before one.
pub fn statuses_of_verdicts()
    ensures accepted { (s : Summary) → verdict_status (Ok (Accepted s)) ≡ 0 }
    ensures cut { (s : Summary) → verdict_status (Ok (Cut s)) ≡ 1 }
    ensures refused { (refusal : Refusal) → verdict_status (Ok (Refused refusal)) ≡ 1 }
    ensures stop { (stopped : Stop) → verdict_status (Err stopped) ≡ 2 }
{}

/// The exit statuses of comparisons, and of a stop before one.
pub fn statuses_of_comparisons()
    ensures equal { comparison_status (Ok Equal) ≡ 0 }
    ensures different { (k : ℕ) → comparison_status (Ok (Different k)) ≡ 1 }
    ensures first { (verdict : Verdict) → comparison_status (Ok (NotAccepted false verdict)) ≡ 1 }
    ensures second { (verdict : Verdict) → comparison_status (Ok (NotAccepted true verdict)) ≡ 1 }
    ensures stop { (stopped : Stop) → comparison_status (Err stopped) ≡ 2 }
{}

/// The exit statuses of outcomes.
pub fn statuses_of_outcomes()
    ensures clean { outcome_status outcome.Clean ≡ 0 }
    ensures complete { outcome_status outcome.Complete ≡ 0 }
    ensures failed { outcome_status outcome.Failed ≡ 1 }
    ensures abnormal { outcome_status outcome.Abnormal ≡ 1 }
    ensures half { outcome_status outcome.Half ≡ 1 }
    ensures open_streams { outcome_status outcome.Live ≡ 1 }
{}
