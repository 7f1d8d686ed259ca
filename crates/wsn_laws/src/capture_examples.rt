//! Examples of captures, computed from the definitions in `wsn_rules/specs/`: the lines of texts, the entries of lines,
//! what becomes of each stream, the outcome of both, and whole reports.

ghost use Rattle.std.specs.Prelude.{◌≡◌, ℕ, Bool, true, false, Option, None, Some, [], ◌∷◌, ◌++◌, codes};
ghost use Rattle.wsn_wire.specs.declared.endpoint.Role.TheVariants.{Client, Server};
ghost use Rattle.wsn_wire.specs.declared.refusal.Reason.TheVariants.{ReservedBits, CloseCode};
ghost use Rattle.wsn_rules.specs.declared.verdict.Refusal.{Refusal};
ghost use Rattle.wsn_rules.specs.declared.verdict.Summary.{Summary};
ghost use Rattle.wsn_rules.specs.declared.verdict.Verdict.TheVariants as verdicts;
ghost use Rattle.wsn_rules.specs.declared.closing_handshake.Side.{Side};
ghost use Rattle.wsn_rules.specs.declared.closing_handshake.Side.TheVariants.{Closed, Refused, Ended, Cut, Running};
ghost use Rattle.wsn_rules.specs.declared.closing_handshake.Outcome.TheVariants.{Failed, Clean, Complete, Abnormal, Half, Live};
ghost use Rattle.wsn_rules.specs.TextLines.{AreLines};
ghost use Rattle.wsn_rules.specs.Entries.{IsEntry, Nothing, Bytes, Mark};
ghost use Rattle.wsn_rules.specs.Sides.{sent, has_ended, side_of};
ghost use Rattle.wsn_rules.specs.ClosingHandshake.{echo_of, seen_of, IsOutcome, IsReport};
ghost use Rattle.wsn_rules.specs.Examples.{greatest};

/// The lines of texts: each ends with LF, and the last one may lack it.
pub fn lines()
    ensures none { AreLines [] [] }
    ensures one { AreLines (codes "C.") (codes "C." ∷ []) }
    ensures one_ended { AreLines (codes "C.\n") (codes "C." ∷ []) }
    ensures two { AreLines (codes "S.\nC.") (codes "S." ∷ codes "C." ∷ []) }
    ensures two_ended { AreLines (codes "S.\nC.\n") (codes "S." ∷ codes "C." ∷ []) }
    ensures empty { AreLines (codes "\n") ([] ∷ []) }
    ensures two_empty { AreLines (codes "\n\n") ([] ∷ [] ∷ []) }
    ensures empty_between { AreLines (codes "S.\n\nC.") (codes "S." ∷ [] ∷ codes "C." ∷ []) }
    ensures cr_is_kept { AreLines (codes "S." ++ 13 ∷ 10 ∷ []) ((codes "S." ++ 13 ∷ []) ∷ []) }
{}

/// The entries of lines: bytes of an endpoint, its end mark, or nothing.
pub fn entries()
    ensures client_bytes { IsEntry (codes "C 8180") (Bytes Client (0x81 ∷ 0x80 ∷ [])) }
    ensures server_bytes { IsEntry (codes "S 8100") (Bytes Server (0x81 ∷ 0x00 ∷ [])) }
    ensures all_digits { IsEntry (codes "S 0123456789") (Bytes Server (0x01 ∷ 0x23 ∷ 0x45 ∷ 0x67 ∷ 0x89 ∷ [])) }
    ensures lower_case { IsEntry (codes "C abcdef") (Bytes Client (0xab ∷ 0xcd ∷ 0xef ∷ [])) }
    ensures upper_case { IsEntry (codes "C ABCDEF") (Bytes Client (0xab ∷ 0xcd ∷ 0xef ∷ [])) }
    ensures either_case { IsEntry (codes "S aBcD") (Bytes Server (0xab ∷ 0xcd ∷ [])) }
    ensures client_mark { IsEntry (codes "C.") (Mark Client) }
    ensures server_mark { IsEntry (codes "S.") (Mark Server) }
    ensures comment { IsEntry (codes "# C 81") Nothing }
    ensures short_comment { IsEntry (codes "#") Nothing }
    ensures empty { IsEntry [] Nothing }
    ensures cr { IsEntry (13 ∷ []) Nothing }
    ensures bytes_and_cr { IsEntry (codes "C 8180" ++ 13 ∷ []) (Bytes Client (0x81 ∷ 0x80 ∷ [])) }
    ensures mark_and_cr { IsEntry (codes "S." ++ 13 ∷ []) (Mark Server) }
    ensures comment_and_cr { IsEntry (codes "# S." ++ 13 ∷ 13 ∷ []) Nothing }
{}

/// The stream of each endpoint, and whether it has ended.
pub fn streams()
    ensures of_client { sent Client (Bytes Client (1 ∷ 2 ∷ []) ∷ Bytes Server (3 ∷ []) ∷ Nothing ∷ Bytes Client (4 ∷ []) ∷ Mark Client ∷ [])
        ≡ 1 ∷ 2 ∷ 4 ∷ [] }
    ensures of_server { sent Server (Bytes Client (1 ∷ 2 ∷ []) ∷ Bytes Server (3 ∷ []) ∷ Nothing ∷ Bytes Client (4 ∷ []) ∷ Mark Client ∷ [])
        ≡ 3 ∷ [] }
    ensures client_ended { has_ended Client (Bytes Client (1 ∷ []) ∷ Mark Client ∷ Bytes Server (2 ∷ []) ∷ []) ≡ true }
    ensures server_not { has_ended Server (Bytes Server (1 ∷ []) ∷ Mark Client ∷ Nothing ∷ []) ≡ false }
    ensures server_ended { has_ended Server (Mark Server ∷ []) ≡ true }
    ensures client_not { has_ended Client (Mark Server ∷ []) ≡ false }
{}

/// What became of a stream, by its verdict and whether it has ended. The end mark counts only without a Close and
/// without a refusal.
pub fn sides()
    ensures closed { (s : Summary) (ended : Bool) →
        side_of (verdicts.Accepted (record s { close = Some (Some 1000) })) ended ≡ Closed (Some 1000) }
    ensures closed_without_code { (s : Summary) (ended : Bool) →
        side_of (verdicts.Accepted (record s { close = Some None })) ended ≡ Closed None }
    ensures ended { (s : Summary) → side_of (verdicts.Accepted (record s { close = None })) true ≡ Ended }
    ensures accepted_so_far { (s : Summary) → side_of (verdicts.Accepted (record s { close = None })) false ≡ Running }
    ensures cut { (s : Summary) → side_of (verdicts.Cut s) true ≡ Cut }
    ensures cut_so_far { (s : Summary) → side_of (verdicts.Cut s) false ≡ Running }
    ensures refused { (ended : Bool) → side_of (verdicts.Refused (record { offset = 3; reason = CloseCode })) ended
        ≡ Refused (record { offset = 3; reason = CloseCode }) }
{}

/// The status code that the other endpoint sees.
pub fn codes_seen()
    ensures code { seen_of (Closed (Some 1000)) ≡ Some 1000 }
    ensures other_code { seen_of (Closed (Some 4999)) ≡ Some 4999 }
    ensures no_code { seen_of (Closed None) ≡ Some 1005 }
    ensures refused { (refusal : Refusal) → seen_of (Refused refusal) ≡ Some 1006 }
    ensures ended { seen_of Ended ≡ Some 1006 }
    ensures cut { seen_of Cut ≡ Some 1006 }
    ensures running { seen_of Running ≡ None }
{}

/// Whether both Closes have the same code, or both none.
pub fn echoes()
    ensures same { echo_of (Closed (Some 1000)) (Closed (Some 1000)) ≡ Some true }
    ensures other { echo_of (Closed (Some 1000)) (Closed (Some 1001)) ≡ Some false }
    ensures both_without { echo_of (Closed None) (Closed None) ≡ Some true }
    ensures client_without { echo_of (Closed None) (Closed (Some 1000)) ≡ Some false }
    ensures server_without { echo_of (Closed (Some 1005)) (Closed None) ≡ Some false }
    ensures client_alone { echo_of (Closed (Some 1000)) Running ≡ None }
    ensures server_alone { echo_of Ended (Closed (Some 1000)) ≡ None }
    ensures neither { echo_of Running Running ≡ None }
    ensures refused { (refusal : Refusal) → echo_of (Closed None) (Refused refusal) ≡ None }
{}

/// The outcome `failed`: a stream is refused, whatever became of the other.
pub fn failed()
    ensures client { (refusal : Refusal) (side : Side) (c s : Bool) → IsOutcome (Refused refusal) side c s Failed }
    ensures server { (refusal : Refusal) (side : Side) (c s : Bool) → IsOutcome side (Refused refusal) c s Failed }
{}

/// Both endpoints sent a Close: `clean` if both streams have ended, otherwise `complete`.
pub fn both_closed()
    ensures clean { (code other : Option ℕ) → IsOutcome (Closed code) (Closed other) true true Clean }
    ensures server_open { (code other : Option ℕ) → IsOutcome (Closed code) (Closed other) true false Complete }
    ensures client_open { (code other : Option ℕ) → IsOutcome (Closed code) (Closed other) false true Complete }
    ensures both_open { (code other : Option ℕ) → IsOutcome (Closed code) (Closed other) false false Complete }
{}

/// The outcome `abnormal`: a stream ended without a Close, and none is refused.
pub fn abnormal()
    ensures client_ended { (c s : Bool) → IsOutcome Ended Running c s Abnormal }
    ensures server_ended { (c s : Bool) → IsOutcome Running Ended c s Abnormal }
    ensures client_cut { (c s : Bool) → IsOutcome Cut Running c s Abnormal }
    ensures server_cut { (c s : Bool) → IsOutcome Running Cut c s Abnormal }
    ensures both_ended { (c s : Bool) → IsOutcome Ended Ended c s Abnormal }
    ensures both_cut { (c s : Bool) → IsOutcome Cut Cut c s Abnormal }
    ensures ended_and_cut { (c s : Bool) → IsOutcome Ended Cut c s Abnormal }
    ensures cut_and_ended { (c s : Bool) → IsOutcome Cut Ended c s Abnormal }
    ensures client_closed { (code : Option ℕ) (c s : Bool) → IsOutcome (Closed code) Ended c s Abnormal }
    ensures server_closed { (code : Option ℕ) (c s : Bool) → IsOutcome Ended (Closed code) c s Abnormal }
    ensures closed_and_cut { (code : Option ℕ) (c s : Bool) → IsOutcome (Closed code) Cut c s Abnormal }
    ensures cut_and_closed { (code : Option ℕ) (c s : Bool) → IsOutcome Cut (Closed code) c s Abnormal }
{}

/// The outcomes `half`, where one endpoint sent a Close and the other may send more, and `open`, where both may.
pub fn half_and_open()
    ensures client { (code : Option ℕ) (c s : Bool) → IsOutcome (Closed code) Running c s Half }
    ensures server { (code : Option ℕ) (c s : Bool) → IsOutcome Running (Closed code) c s Half }
    ensures open_streams { (c s : Bool) → IsOutcome Running Running c s Live }
{}

/// Whole reports of captures in which both endpoints sent a Close.
pub fn closed_captures()
    ensures clean { IsReport greatest (codes "C 88820000000003e8" ∷ codes "S 880203e8" ∷ codes "S." ∷ codes "C." ∷ [])
        (record {
          client = Closed (Some 1000);
          server = Closed (Some 1000);
          first = Some Client;
          echo = Some true;
          client_sees = Some 1000;
          server_sees = Some 1000;
          outcome = Clean;
        }) }
    ensures no_end_marks { IsReport greatest (codes "C 88820000000003e8" ∷ codes "S 880203e8" ∷ [])
        (record {
          client = Closed (Some 1000);
          server = Closed (Some 1000);
          first = Some Client;
          echo = Some true;
          client_sees = Some 1000;
          server_sees = Some 1000;
          outcome = Complete;
        }) }
    ensures other_code { IsReport greatest (codes "C 88820000000003e8" ∷ codes "S 880203e9" ∷ [])
        (record {
          client = Closed (Some 1000);
          server = Closed (Some 1001);
          first = Some Client;
          echo = Some false;
          client_sees = Some 1001;
          server_sees = Some 1000;
          outcome = Complete;
        }) }
    ensures no_codes { IsReport greatest (codes "# closed" ∷ codes "S 8800" ∷ codes "C 888000000000" ∷ codes "C." ∷ [])
        (record {
          client = Closed None;
          server = Closed None;
          first = Some Server;
          echo = Some true;
          client_sees = Some 1005;
          server_sees = Some 1005;
          outcome = Complete;
        }) }
    ensures in_parts { IsReport greatest (codes "S 8802" ∷ codes "C 888000000000" ∷ codes "S 03E8" ∷ [])
        (record {
          client = Closed None;
          server = Closed (Some 1000);
          first = Some Client;
          echo = Some false;
          client_sees = Some 1000;
          server_sees = Some 1005;
          outcome = Complete;
        }) }
{}

/// Whole reports of captures in which one endpoint, or none, sent a Close.
pub fn other_captures()
    ensures ended { IsReport greatest (codes "S." ∷ [])
        (record {
          client = Running;
          server = Ended;
          first = None;
          echo = None;
          client_sees = Some 1006;
          server_sees = None;
          outcome = Abnormal;
        }) }
    ensures cut { IsReport greatest (codes "S 8105" ∷ codes "S." ∷ [])
        (record {
          client = Running;
          server = Cut;
          first = None;
          echo = None;
          client_sees = Some 1006;
          server_sees = None;
          outcome = Abnormal;
        }) }
    ensures half { IsReport greatest (codes "S 8800" ∷ [])
        (record {
          client = Running;
          server = Closed None;
          first = Some Server;
          echo = None;
          client_sees = Some 1005;
          server_sees = None;
          outcome = Half;
        }) }
    ensures refused { IsReport greatest (codes "S c1" ∷ [])
        (record {
          client = Running;
          server = Refused (record { offset = 0; reason = ReservedBits });
          first = None;
          echo = None;
          client_sees = Some 1006;
          server_sees = None;
          outcome = Failed;
        }) }
    ensures nothing { IsReport greatest []
        (record {
          client = Running;
          server = Running;
          first = None;
          echo = None;
          client_sees = None;
          server_sees = None;
          outcome = Live;
        }) }
    ensures refused_after_a_close { IsReport greatest (codes "C 888000000000" ∷ codes "S 880203ec" ∷ codes "S." ∷ [])
        (record {
          client = Closed None;
          server = Refused (record { offset = 3; reason = CloseCode });
          first = Some Client;
          echo = None;
          client_sees = Some 1006;
          server_sees = Some 1005;
          outcome = Failed;
        }) }
    ensures cut_client { IsReport greatest (codes "C 8185" ∷ codes "S 8100" ∷ codes "C." ∷ codes "S." ∷ [])
        (record {
          client = Cut;
          server = Ended;
          first = None;
          echo = None;
          client_sees = Some 1006;
          server_sees = Some 1006;
          outcome = Abnormal;
        }) }
{}
