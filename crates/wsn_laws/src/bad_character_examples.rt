//! Examples of the character with which a text goes wrong, computed from the definitions in `wsn_rules/specs/`.

ghost use Rattle.std.specs.Prelude.{◌≡◌, true, false, None, Some, [], ◌∷◌, ◌++◌, codes};
ghost use Rattle.wsn_wire.specs.declared.opcode.Op.TheVariants.{Continue, Text, Ping};
ghost use Rattle.wsn_wire.specs.declared.length_encoding.Form.TheVariants.{Shortest};
ghost use Rattle.wsn_wire.specs.declared.refusal.Reason.TheVariants.{TextBad, TextCut, CloseReason};
ghost use Rattle.wsn_rules.specs.BadCharacter.{placed, open_payload, message_payload, earlier_end, bad_character, character_of};
ghost use Rattle.wsn_laws.specs.PlanExamples.{server_frame};

/// The character at the end of a payload: its bytes, and the offsets of the first one in the stream and in the payload.
pub fn characters()
    ensures latin { bad_character [] (placed 6 (codes "{\"name\":\"Ren" ++ 0xe9 ∷ 0x20 ∷ []))
        ≡ record { offset = 18; in_payload = 12; bytes = 0xe9 ∷ 0x20 ∷ []; earlier = [] } }
    ensures alone { bad_character [] (placed 2 (0x61 ∷ 0xfc ∷ []))
        ≡ record { offset = 3; in_payload = 1; bytes = 0xfc ∷ []; earlier = [] } }
    ensures first { bad_character [] (placed 2 (0x80 ∷ [])) ≡ record { offset = 2; in_payload = 0; bytes = 0x80 ∷ []; earlier = [] } }
    ensures in_two_frames { bad_character [] (placed 2 (0xe2 ∷ 0x82 ∷ []) ++ placed 6 (0x20 ∷ []))
        ≡ record { offset = 2; in_payload = 0; bytes = 0xe2 ∷ 0x82 ∷ 0x20 ∷ []; earlier = [] } }
    ensures four_bytes { bad_character [] (placed 2 (0x61 ∷ 0xf0 ∷ []) ++ placed 9 (0x9f ∷ 0x98 ∷ 0x41 ∷ []))
        ≡ record { offset = 3; in_payload = 1; bytes = 0xf0 ∷ 0x9f ∷ 0x98 ∷ 0x41 ∷ []; earlier = [] } }
    ensures surrogate { bad_character [] (placed 2 (0xc3 ∷ 0xa9 ∷ 0xed ∷ 0xa0 ∷ []))
        ≡ record { offset = 4; in_payload = 2; bytes = 0xed ∷ 0xa0 ∷ []; earlier = [] } }
{}

/// The payload of the message so far, of frames before the one that is refused and of a part of that one's payload.
pub fn payloads()
    ensures ping_between { open_payload
        (server_frame false Text (0xe2 ∷ []) ∷ server_frame true Ping (codes "x") ∷ server_frame false Continue (0x82 ∷ []) ∷ [])
        ≡ placed 2 (0xe2 ∷ []) ++ placed 8 (0x82 ∷ []) }
    ensures with_a_part { message_payload
        (server_frame false Text (0xe2 ∷ 0x82 ∷ []) ∷ server_frame true Ping [] ∷ [])
        (record { offset = 6; fin = true; op = Continue; key = None; form = Shortest; len = 5 }) (0x20 ∷ [])
        ≡ placed 2 (0xe2 ∷ 0x82 ∷ []) ++ placed 8 (0x20 ∷ []) }
    ensures after_a_message { open_payload (server_frame true Text (codes "A") ∷ server_frame false Text (codes "B") ∷ [])
        ≡ placed 5 (codes "B") }
    ensures none_open { open_payload (server_frame true Text (codes "A") ∷ []) ≡ [] }
    ensures masked { message_payload []
        (record { offset = 0; fin = true; op = Text; key = Some (1 ∷ 2 ∷ 3 ∷ 4 ∷ []); form = Shortest; len = 5 }) (codes "Hi")
        ≡ placed 6 (codes "Hi") }
    ensures earlier { earlier_end
        (server_frame false Text (codes "ab") ∷ server_frame true Ping (codes "x") ∷ server_frame false Continue (codes "cd") ∷ [])
        ≡ codes "abcd" }
    ensures earlier_message { earlier_end
        (server_frame true Text (codes "A") ∷ server_frame false Text (codes "B") ∷ [])
        ≡ codes "B" }
    ensures earlier_of_fifty { earlier_end
        (server_frame false Text (codes "01234567890123456789012345678901234567890123456789") ∷ [])
        ≡ codes "234567890123456789012345678901234567890123456789" }
{}

/// Only a text with a bad byte has a bad character.
pub fn reasons()
    ensures text_bad { character_of TextBad []
        (record { offset = 7; fin = true; op = Text; key = None; form = Shortest; len = 5 }) (0xfc ∷ [])
        ≡ Some (record { offset = 9; in_payload = 0; bytes = 0xfc ∷ []; earlier = [] }) }
    ensures text_cut { character_of TextCut []
        (record { offset = 7; fin = true; op = Text; key = None; form = Shortest; len = 1 }) (0xe2 ∷ [])
        ≡ None }
    ensures close_reason { character_of CloseReason []
        (record { offset = 7; fin = true; op = Text; key = None; form = Shortest; len = 3 }) (0xfc ∷ [])
        ≡ None }
{}
