//! Examples of streams, computed from the definitions in `wsn_rules/specs/`: how they end, what is counted, and what
//! they mean.

ghost use Rattle.std.specs.Prelude.{◌≡◌, true, false, None, Some, [], ◌∷◌, replicate};
ghost use Rattle.wsn_wire.specs.declared.endpoint.Role.TheVariants.{Client, Server};
ghost use Rattle.wsn_wire.specs.declared.opcode.Op.TheVariants.{Close, Ping, Pong};
ghost use Rattle.wsn_wire.specs.declared.opcode.Kind.TheVariants as kind;
ghost use Rattle.wsn_wire.specs.declared.length_encoding.Lengths.TheVariants.{Any};
ghost use Rattle.wsn_rules.specs.Meaning.{Message, Control};
ghost use Rattle.wsn_rules.specs.LeftOut.{events_without};
ghost use Rattle.wsn_rules.specs.Examples.{Judged, Means, greatest, CutAt, AcceptedTo, Counts};

/// How a stream may end.
pub fn ends_of_streams()
    ensures empty { Judged Server greatest [] (AcceptedTo 0 0 None) }
    ensures in_a_message { Judged Server greatest (0x01 ∷ 0x00 ∷ []) (CutAt 2) }
    ensures in_a_head { Judged Server greatest (0x81 ∷ []) (CutAt 1) }
    ensures tail { Judged Server greatest (0x88 ∷ 0x02 ∷ 0x03 ∷ 0xe8 ∷ 0x81 ∷ 0x01 ∷ 0x41 ∷ []) (AcceptedTo 4 3 None) }
    ensures two_closes { Judged Server greatest (0x88 ∷ 0x00 ∷ 0x88 ∷ 0x00 ∷ []) (AcceptedTo 2 2 None) }
    ensures close_in_a_message { Judged Server greatest
        (0x01 ∷ 0x03 ∷ 0x48 ∷ 0x65 ∷ 0x6c ∷ 0x88 ∷ 0x02 ∷ 0x03 ∷ 0xe8 ∷ []) (AcceptedTo 9 0 (Some 3)) }
    ensures close_in_an_empty_message { Judged Server greatest (0x01 ∷ 0x00 ∷ 0x88 ∷ 0x00 ∷ [])
        (AcceptedTo 4 0 (Some 0)) }
    ensures masked { Judged Client greatest
        (0x81 ∷ 0x85 ∷ 0x37 ∷ 0xfa ∷ 0x21 ∷ 0x3d ∷ 0x7f ∷ 0x9f ∷ 0x4d ∷ 0x51 ∷ 0x58 ∷ []) (AcceptedTo 11 0 None) }
    ensures ping_between { Judged Server greatest
        (0x01 ∷ 0x03 ∷ 0x48 ∷ 0x65 ∷ 0x6c ∷ 0x89 ∷ 0x00 ∷ 0x80 ∷ 0x02 ∷ 0x6c ∷ 0x6f ∷ []) (AcceptedTo 11 0 None) }
{}

/// The counts in a summary: frames, messages, pings, pongs, and the close.
pub fn summaries()
    ensures each { Judged Server greatest
        (0x01 ∷ 0x00 ∷ 0x89 ∷ 0x00 ∷ 0x80 ∷ 0x00 ∷ 0x8a ∷ 0x00 ∷ 0x82 ∷ 0x00 ∷ 0x89 ∷ 0x00 ∷ 0x88 ∷ 0x02 ∷ 0x03 ∷ 0xe8 ∷
        []) (Counts 7 2 2 1 (Some (Some 1000))) }
    ensures empty_close { Judged Server greatest (0x88 ∷ 0x00 ∷ 0x89 ∷ 0x00 ∷ []) (Counts 1 0 0 0 (Some None)) }
    ensures no_close { Judged Server greatest (0x81 ∷ 0x00 ∷ []) (Counts 1 1 0 0 None) }
{}

/// The meaning of a stream: the message of each group, in the order in which they end.
pub fn meanings()
    ensures ping_between { Means Server greatest
        (0x01 ∷ 0x03 ∷ 0x48 ∷ 0x65 ∷ 0x6c ∷ 0x89 ∷ 0x00 ∷ 0x80 ∷ 0x02 ∷ 0x6c ∷ 0x6f ∷ [])
        (Control Ping [] ∷ Message kind.Text (0x48 ∷ 0x65 ∷ 0x6c ∷ 0x6c ∷ 0x6f ∷ []) ∷ []) }
    ensures masked { Means Client greatest
        (0x82 ∷ 0x85 ∷ 0x37 ∷ 0xfa ∷ 0x21 ∷ 0x3d ∷ 0x7f ∷ 0x9f ∷ 0x4d ∷ 0x51 ∷ 0x58 ∷ [])
        (Message kind.Binary (0x48 ∷ 0x65 ∷ 0x6c ∷ 0x6c ∷ 0x6f ∷ []) ∷ []) }
    ensures unfinished { Means Server greatest
        (0x01 ∷ 0x03 ∷ 0x48 ∷ 0x65 ∷ 0x6c ∷ 0x8a ∷ 0x01 ∷ 0x41 ∷ 0x88 ∷ 0x02 ∷ 0x03 ∷ 0xe8 ∷ [])
        (Control Pong (0x41 ∷ []) ∷ Control Close (0x03 ∷ 0xe8 ∷ []) ∷ []) }
    ensures before_a_refusal { Means Server greatest (0x81 ∷ 0x01 ∷ 0x41 ∷ 0x82 ∷ 0x01 ∷ 0x42 ∷ 0xc1 ∷ [])
        (Message kind.Text (0x41 ∷ []) ∷ Message kind.Binary (0x42 ∷ []) ∷ []) }
    ensures empty { Means Server greatest (0x01 ∷ 0x00 ∷ 0x00 ∷ 0x00 ∷ 0x80 ∷ 0x00 ∷ []) (Message kind.Text [] ∷ []) }
    ensures nothing { Means Server greatest [] [] }
{}

/// What is left of events without pings, without pongs, and without Closes.
pub fn left_out()
    ensures pings { events_without (record { ping = true; pong = false; close = false })
        (Control Ping [] ∷ Message kind.Text (0x41 ∷ []) ∷ Control Pong [] ∷ Control Ping (0x42 ∷ []) ∷ [])
        ≡ Message kind.Text (0x41 ∷ []) ∷ Control Pong [] ∷ [] }
    ensures pongs { events_without (record { ping = false; pong = true; close = false })
        (Control Pong [] ∷ Control Ping [] ∷ Control Pong (0x42 ∷ []) ∷ Control Close [] ∷ [])
        ≡ Control Ping [] ∷ Control Close [] ∷ [] }
    ensures closes { events_without (record { ping = false; pong = false; close = true })
        (Message kind.Binary [] ∷ Control Close (0x03 ∷ 0xe8 ∷ []) ∷ [])
        ≡ Message kind.Binary [] ∷ [] }
    ensures controls { events_without (record { ping = true; pong = true; close = true })
        (Control Pong [] ∷ Message kind.Text [] ∷ Control Ping [] ∷ Control Close [] ∷ []) ≡ Message kind.Text [] ∷ [] }
    ensures nothing { events_without (record { ping = false; pong = false; close = false })
        (Control Pong [] ∷ Message kind.Text [] ∷ Control Ping [] ∷ Control Close [] ∷ [])
        ≡ Control Pong [] ∷ Message kind.Text [] ∷ Control Ping [] ∷ Control Close [] ∷ [] }
{}

/// The longest payload whose length fits in the second byte, with that encoding and with two length bytes; and the
/// shortest payload that requires two length bytes.
pub fn long_frames()
    ensures ping { Judged Server greatest (0x89 ∷ 0x7d ∷ replicate 125 0xfe) (AcceptedTo 127 0 None) }
    ensures longer_form { Judged Server (record greatest { lengths = Any })
        (0x82 ∷ 0x7e ∷ 0x00 ∷ 0x7d ∷ replicate 125 0x2a) (AcceptedTo 129 0 None) }
    ensures two { Judged Server greatest (0x82 ∷ 0x7e ∷ 0x00 ∷ 0x7e ∷ replicate 126 0x2a) (AcceptedTo 130 0 None) }
{}
