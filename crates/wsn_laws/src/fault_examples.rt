//! Examples of plans, computed from the definitions in `wsn_rules/specs/`: their faults, plans that fit, and uniform
//! plans.

ghost use Rattle.std.specs.Prelude.{◌≡◌, true, false, None, Some, [], ◌∷◌, replicate};
ghost use Rattle.wsn_wire.specs.declared.endpoint.Role.TheVariants.{Client, Server};
ghost use Rattle.wsn_wire.specs.declared.opcode.Op.TheVariants.{Close, Ping, Pong};
ghost use Rattle.wsn_wire.specs.declared.opcode.Kind.TheVariants as kind;
ghost use Rattle.wsn_wire.specs.declared.length_encoding.Form.TheVariants.{Shortest, Two, Eight};
ghost use Rattle.wsn_wire.specs.declared.length_encoding.Lengths.TheVariants.{Any};
ghost use Rattle.wsn_rules.specs.declared.step.Step.TheVariants.{Piece, Last, Control};
ghost use Rattle.wsn_rules.specs.declared.why.Why.TheVariants.{KeyMismatch, StepsLeft, NoMessage, PieceTooLong, TooManyPieces, NotAControl, NotAMessage, WrongForm, EventsLeft};
ghost use Rattle.wsn_rules.specs.Meaning.{Message};
ghost use Rattle.wsn_rules.specs.Fitting.{Fits};
ghost use Rattle.wsn_rules.specs.Fault.{IsFault};
ghost use Rattle.wsn_rules.specs.UniformPlan.{uniform_plan};
ghost use Rattle.wsn_rules.specs.Examples.{greatest};
ghost use Rattle.wsn_laws.specs.PlanExamples.{bare_piece, bare_last, bare_control, zeros, ping_and_hello, two_letters, frames_of, any_length};
ghost use Rattle.wsn_rules.specs.Meaning as meant;

/// A key for a server's frame, or no key for a client's: before any other reason.
pub fn keys()
    ensures server { IsFault Server greatest (Control zeros ∷ []) ping_and_hello 0 KeyMismatch }
    ensures client { IsFault Client greatest (bare_control ∷ []) ping_and_hello 0 KeyMismatch }
    ensures later { IsFault Client greatest (Control zeros ∷ bare_last ∷ []) ping_and_hello 1 KeyMismatch }
    ensures first { IsFault Client greatest (bare_last ∷ []) [] 0 KeyMismatch }
    ensures near { Fits Client greatest (Control zeros ∷ Last zeros Shortest ∷ []) ping_and_hello }
{}

/// Ends of a plan that are for the wrong events or for none, and events without an end.
pub fn ends()
    ensures not_a_message { IsFault Server greatest (bare_last ∷ []) ping_and_hello 0 NotAMessage }
    ensures not_a_control { IsFault Server greatest (bare_control ∷ bare_control ∷ []) ping_and_hello 1 NotAControl }
    ensures in_pieces { IsFault Server greatest (bare_control ∷ bare_piece 1 ∷ bare_control ∷ [])
        ping_and_hello 2 NotAControl }
    ensures steps_left { IsFault Server greatest (bare_control ∷ bare_last ∷ bare_last ∷ [])
        ping_and_hello 2 StepsLeft }
    ensures piece_left { IsFault Server greatest (bare_control ∷ bare_last ∷ bare_piece 0 ∷ [])
        ping_and_hello 2 StepsLeft }
    ensures no_message { IsFault Server greatest (bare_last ∷ []) (meant.Control Ping [] ∷ []) 0 NoMessage }
    ensures no_piece { IsFault Server greatest (bare_piece 0 ∷ []) (meant.Control Ping [] ∷ []) 0 NoMessage }
    ensures none_of_two { IsFault Server greatest [] ping_and_hello 0 EventsLeft }
    ensures one_of_two { IsFault Server greatest (bare_control ∷ []) ping_and_hello 1 EventsLeft }
    ensures unended { IsFault Server greatest (bare_control ∷ bare_piece 5 ∷ []) ping_and_hello 2 EventsLeft }
    ensures near { Fits Server greatest (bare_control ∷ bare_last ∷ []) ping_and_hello }
    ensures nothing { Fits Server greatest [] [] }
{}

/// Pieces that are longer than their message, alone and together. Controls may come between them.
pub fn pieces()
    ensures alone { IsFault Server greatest (bare_piece 6 ∷ []) ping_and_hello 0 PieceTooLong }
    ensures together { IsFault Server greatest (bare_control ∷ bare_piece 3 ∷ bare_piece 3 ∷ bare_last ∷ [])
        ping_and_hello 2 PieceTooLong }
    ensures over_a_control { IsFault Server greatest (bare_piece 3 ∷ bare_control ∷ bare_piece 3 ∷ [])
        ping_and_hello 2 PieceTooLong }
    ensures next_message { Fits Server greatest (bare_piece 1 ∷ bare_last ∷ bare_piece 1 ∷ bare_last ∷ []) two_letters }
    ensures not_the_next { IsFault Server greatest (bare_piece 1 ∷ bare_piece 1 ∷ bare_last ∷ [])
        two_letters 1 PieceTooLong }
    ensures whole_before_a_control { Fits Server greatest (bare_piece 5 ∷ bare_control ∷ bare_last ∷ [])
        ping_and_hello }
    ensures over_a_control_all { Fits Server greatest (bare_piece 3 ∷ bare_control ∷ bare_piece 2 ∷ bare_last ∷ [])
        ping_and_hello }
    ensures empty { Fits Server greatest (bare_piece 0 ∷ bare_control ∷ bare_piece 0 ∷ bare_piece 5 ∷
        bare_piece 0 ∷ bare_last ∷ [])
        ping_and_hello }
{}

/// Pieces leave one frame of the limit for the last frame of the message.
pub fn frames()
    ensures second { IsFault Server (frames_of 2) (bare_piece 1 ∷ bare_piece 1 ∷ []) ping_and_hello 1 TooManyPieces }
    ensures first { IsFault Server (frames_of 1) (bare_piece 0 ∷ []) ping_and_hello 0 TooManyPieces }
    ensures over_a_control { IsFault Server (frames_of 2) (bare_piece 1 ∷ bare_control ∷ bare_piece 1 ∷ [])
        ping_and_hello 2 TooManyPieces }
    ensures too_long_first { IsFault Server (frames_of 2) (bare_piece 1 ∷ bare_piece 9 ∷ [])
        ping_and_hello 1 PieceTooLong }
    ensures form_later { IsFault Server (frames_of 1) (Piece 1 None Two ∷ []) ping_and_hello 0 TooManyPieces }
    ensures near { Fits Server (frames_of 2) (bare_piece 1 ∷ bare_control ∷ bare_last ∷ []) ping_and_hello }
    ensures for_each_message { Fits Server (frames_of 2) (bare_piece 1 ∷ bare_last ∷ bare_piece 1 ∷ bare_last ∷ [])
        two_letters }
    ensures uniform { IsFault Server (frames_of 2) (uniform_plan 2 false None ping_and_hello)
        ping_and_hello 2 TooManyPieces }
    ensures uniform_near { Fits Server (frames_of 2) (uniform_plan 3 false None ping_and_hello) ping_and_hello }
{}

/// Lengths that a form may not encode.
pub fn forms()
    ensures shortest_two { IsFault Server greatest (Last None Two ∷ [])
        (Message kind.Text (0x41 ∷ []) ∷ []) 0 WrongForm }
    ensures shortest_eight { IsFault Server greatest (Last None Eight ∷ [])
        (Message kind.Text (0x41 ∷ []) ∷ []) 0 WrongForm }
    ensures shortest_piece { IsFault Server greatest (bare_control ∷ Piece 1 None Two ∷ []) ping_and_hello 1 WrongForm }
    ensures not_a_message_first { IsFault Server greatest (Last None Two ∷ []) ping_and_hello 0 NotAMessage }
    ensures too_long_first { IsFault Server greatest (Piece 6 None Two ∷ []) ping_and_hello 0 PieceTooLong }
    ensures two_of_126 { IsFault Server any_length (Last None Two ∷ [])
        (Message kind.Binary (replicate 126 0x2a) ∷ []) 0 WrongForm }
    ensures piece_of_126 { IsFault Server any_length (Piece 126 None Two ∷ [])
        (Message kind.Binary (replicate 126 0x2a) ∷ []) 0 WrongForm }
    ensures near_two { Fits Server any_length (Last None Two ∷ []) (Message kind.Text (0x41 ∷ []) ∷ []) }
    ensures near_eight { Fits Server any_length (Last None Eight ∷ []) (Message kind.Text (0x41 ∷ []) ∷ []) }
    ensures near_125 { Fits Server any_length (Last None Two ∷ []) (Message kind.Binary (replicate 125 0x2a) ∷ []) }
    ensures rest_of_125 { Fits Server any_length (bare_piece 1 ∷ Last None Two ∷ [])
        (Message kind.Binary (replicate 126 0x2a) ∷ []) }
    ensures eight_of_126 { Fits Server any_length (Last None Eight ∷ [])
        (Message kind.Binary (replicate 126 0x2a) ∷ []) }
{}

/// Uniform plans.
pub fn uniform_plans()
    ensures interleaved { uniform_plan 3 true None ping_and_hello ≡ bare_piece 3 ∷ bare_control ∷ bare_last ∷ [] }
    ensures in_turn { uniform_plan 3 false None ping_and_hello ≡ bare_control ∷ bare_piece 3 ∷ bare_last ∷ [] }
    ensures interleaved_once { uniform_plan 2 true None ping_and_hello
        ≡ bare_piece 2 ∷ bare_control ∷ bare_piece 2 ∷ bare_last ∷ [] }
    ensures whole { uniform_plan 5 true None ping_and_hello ≡ bare_control ∷ bare_last ∷ [] }
    ensures masked { uniform_plan 2 false (Some (1 ∷ 2 ∷ 3 ∷ 4 ∷ [])) (Message kind.Text (0x48 ∷ 0x65 ∷ 0x6c ∷
        0x6c ∷ 0x6f ∷ []) ∷ [])
        ≡ Piece 2 (Some (1 ∷ 2 ∷ 3 ∷ 4 ∷ [])) Shortest ∷ Piece 2 (Some (1 ∷ 2 ∷ 3 ∷ 4 ∷ [])) Shortest ∷ Last (Some (1 ∷
        2 ∷ 3 ∷ 4 ∷ [])) Shortest ∷ [] }
    ensures two_of_four { uniform_plan 2 false None (Message kind.Binary (1 ∷ 2 ∷ 3 ∷ 4 ∷ []) ∷ [])
        ≡ bare_piece 2 ∷ bare_last ∷ [] }
    ensures empty { uniform_plan 1 true None (meant.Control Ping [] ∷ Message kind.Text [] ∷ [])
        ≡ bare_control ∷ bare_last ∷ [] }
    ensures runs { uniform_plan 1 true None (meant.Control Ping [] ∷ meant.Control Pong [] ∷
        Message kind.Binary (1 ∷ 2 ∷ 3 ∷ []) ∷ meant.Control Ping [] ∷ Message kind.Binary (4 ∷ 5 ∷ []) ∷
        meant.Control Close [] ∷ [])
        ≡ bare_piece 1 ∷ bare_control ∷ bare_control ∷ bare_piece 1 ∷ bare_last ∷ bare_piece 1 ∷ bare_control ∷
        bare_last ∷ bare_control ∷ [] }
    ensures nothing { uniform_plan 1 true None [] ≡ [] }
{}
