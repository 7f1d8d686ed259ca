//! Examples of normal forms, computed from the definition in `wsn_rules/specs/NormalForm.antt`.

ghost use Rattle.std.specs.Prelude.{◌≡◌, [], ◌∷◌, ◌++◌, replicate};
ghost use Rattle.wsn_wire.specs.declared.endpoint.Role.TheVariants.{Client, Server};
ghost use Rattle.wsn_wire.specs.declared.opcode.Op.TheVariants.{Close, Ping, Pong};
ghost use Rattle.wsn_wire.specs.declared.opcode.Kind.TheVariants.{Text, Binary};
ghost use Rattle.wsn_rules.specs.Meaning.{Message, Control};
ghost use Rattle.wsn_rules.specs.NormalForm.{normal_form};

/// Normal forms, byte for byte: a client's key of zeros, a server's frames without a key, every opcode, events in
/// order, and a length in two bytes.
pub fn normal_forms()
    ensures client_text { normal_form Client (Message Text (0x48 ∷ 0x65 ∷ 0x6c ∷ 0x6c ∷ 0x6f ∷ []) ∷ [])
        ≡ 0x81 ∷ 0x85 ∷ 0x00 ∷ 0x00 ∷ 0x00 ∷ 0x00 ∷ 0x48 ∷ 0x65 ∷ 0x6c ∷ 0x6c ∷ 0x6f ∷ [] }
    ensures client_binary { normal_form Client (Message Binary (0xff ∷ []) ∷ [])
        ≡ 0x82 ∷ 0x81 ∷ 0x00 ∷ 0x00 ∷ 0x00 ∷ 0x00 ∷ 0xff ∷ [] }
    ensures client_ping { normal_form Client (Control Ping (0x21 ∷ []) ∷ [])
        ≡ 0x89 ∷ 0x81 ∷ 0x00 ∷ 0x00 ∷ 0x00 ∷ 0x00 ∷ 0x21 ∷ [] }
    ensures client_pong { normal_form Client (Control Pong [] ∷ []) ≡ 0x8a ∷ 0x80 ∷ 0x00 ∷ 0x00 ∷ 0x00 ∷ 0x00 ∷ [] }
    ensures client_close { normal_form Client (Control Close (0x03 ∷ 0xe8 ∷ []) ∷ [])
        ≡ 0x88 ∷ 0x82 ∷ 0x00 ∷ 0x00 ∷ 0x00 ∷ 0x00 ∷ 0x03 ∷ 0xe8 ∷ [] }
    ensures server_in_order { normal_form Server
        (Control Ping [] ∷ Message Text (0x41 ∷ []) ∷ Control Pong (0x42 ∷ []) ∷ Message Binary [] ∷ Control Close [] ∷
        [])
        ≡ 0x89 ∷ 0x00 ∷ 0x81 ∷ 0x01 ∷ 0x41 ∷ 0x8a ∷ 0x01 ∷ 0x42 ∷ 0x82 ∷ 0x00 ∷ 0x88 ∷ 0x00 ∷ [] }
    ensures longest_short { normal_form Server (Message Binary (replicate 125 0x2a) ∷ [])
        ≡ 0x82 ∷ 0x7d ∷ replicate 125 0x2a }
    ensures two_bytes { normal_form Server (Message Binary (replicate 126 0x2a) ∷ [])
        ≡ 0x82 ∷ 0x7e ∷ 0x00 ∷ 0x7e ∷ replicate 126 0x2a }
    ensures nothing { normal_form Client [] ≡ [] }
{}
