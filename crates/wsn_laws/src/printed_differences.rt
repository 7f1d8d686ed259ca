//! Examples of what is printed of two streams that differ, computed from the definitions in `wsn_shown_text/specs/`.

ghost use Rattle.std.specs.Prelude.{◌≡◌, None, Some, [], ◌∷◌, ◌++◌, codes};
ghost use Rattle.wsn_wire.specs.declared.endpoint.Role.TheVariants.{Client, Server};
ghost use Rattle.wsn_wire.specs.declared.opcode.Kind.TheVariants as kind;
ghost use Rattle.wsn_wire.specs.declared.opcode.Op.TheVariants.{Ping};
ghost use Rattle.wsn_rules.specs.Meaning.{Message, Control};
ghost use Rattle.wsn_rules.specs.ShownStream.Item.{Event};
ghost use Rattle.wsn_shown_text.specs.DifferenceText.{difference_lines, difference_object};
ghost use Rattle.wsn_shown_text.specs.DifferingText.{differ_line, differ_field};

/// The lines of where two payloads differ.
pub fn of_places()
    ensures character { differ_line 48 (Some (Event 0 (Message kind.Text (codes "Hello")) 1)) (Some (Event 0 (Message kind.Text (codes "Hell" ++ (0xd0 ∷ 0xbe ∷ []))) 1)) ≡ codes "differ-at 4 \"Hello\" \"Hell\\u043e\"\n" }
    ensures later { differ_line 4 (Some (Event 0 (Message kind.Text (codes "0123456789a")) 1)) (Some (Event 0 (Message kind.Text (codes "0123456789b")) 1)) ≡ codes "differ-at 10 ..\"23456789a\" ..\"23456789b\"\n" }
    ensures after_8 { differ_line 4 (Some (Event 0 (Message kind.Text (codes "01234567a")) 1)) (Some (Event 0 (Message kind.Text (codes "01234567b")) 1)) ≡ codes "differ-at 8 \"01234567a\" \"01234567b\"\n" }
    ensures whole_characters { differ_line 48 (Some (Event 0 (Message kind.Text ((0xe2 ∷ 0x82 ∷ 0xac ∷ []) ++ codes "1234567x")) 1)) (Some (Event 0 (Message kind.Text ((0xe2 ∷ 0x82 ∷ 0xac ∷ []) ++ codes "1234567y")) 1)) ≡ codes "differ-at 10 \"\\u20ac1234567x\" \"\\u20ac1234567y\"\n" }
    ensures beginning { differ_line 48 (Some (Event 0 (Message kind.Text (codes "Hi")) 1)) (Some (Event 0 (Message kind.Text (codes "Hi!")) 1)) ≡ codes "differ-at 2 \"Hi\" \"Hi!\"\n" }
    ensures no_text { differ_line 48 (Some (Event 0 (Message kind.Text ([])) 1)) (Some (Event 0 (Message kind.Text (codes "A")) 1)) ≡ codes "differ-at 0 \"\" \"A\"\n" }
    ensures more { differ_line 2 (Some (Event 0 (Message kind.Text (codes "ab")) 1)) (Some (Event 0 (Message kind.Text (codes "cdefgh")) 1)) ≡ codes "differ-at 0 \"ab\" \"cd\" ..\n" }
    ensures surrogates { differ_line 1 (Some (Event 0 (Message kind.Text (0xf0 ∷ 0x9f ∷ 0x98 ∷ 0x80 ∷ [])) 1)) (Some (Event 0 (Message kind.Text (0xf0 ∷ 0x9f ∷ 0x98 ∷ 0x81 ∷ [])) 1)) ≡ codes "differ-at 3 \"\\ud83d\\ude00\" \"\\ud83d\\ude01\"\n" }
    ensures last_surrogates { differ_line 4 (Some (Event 0 (Message kind.Text (0xf4 ∷ 0x8f ∷ 0xbf ∷ 0xbf ∷ [])) 1)) (Some (Event 0 (Message kind.Text (0xef ∷ 0xbf ∷ 0xbf ∷ [])) 1)) ≡ codes "differ-at 0 \"\\udbff\\udfff\" \"\\uffff\"\n" }
    ensures marks { differ_line 48 (Some (Event 0 (Message kind.Text (codes "a\"")) 1)) (Some (Event 0 (Message kind.Text (codes "a\\")) 1)) ≡ codes "differ-at 1 \"a\\\"\" \"a\\\\\"\n" }
    ensures controls { differ_line 48 (Some (Event 0 (Message kind.Text (0x7f ∷ [])) 1)) (Some (Event 0 (Message kind.Text (0x1f ∷ [])) 1)) ≡ codes "differ-at 0 \"\\u007f\" \"\\u001f\"\n" }
    ensures printable { differ_line 48 (Some (Event 0 (Message kind.Text (0x7e ∷ [])) 1)) (Some (Event 0 (Message kind.Text (0x20 ∷ [])) 1)) ≡ codes "differ-at 0 \"~\" \" \"\n" }
    ensures binary { differ_line 4 (Some (Event 7 (Message kind.Binary (0x00 ∷ 0x01 ∷ [])) 2)) (Some (Event 7 (Message kind.Binary (0x00 ∷ 0x02 ∷ 0x03 ∷ 0x04 ∷ [])) 2)) ≡ codes "differ-at 1 0001 000203 ..\n" }
    ensures binary_later { differ_line 2 (Some (Event 7 (Message kind.Binary (0x00 ∷ 0x00 ∷ 0x00 ∷ 0x00 ∷ 0x00 ∷ 0x00 ∷ 0x00 ∷ 0x00 ∷ 0x00 ∷ 0x00 ∷ [])) 2)) (Some (Event 7 (Message kind.Binary (0x00 ∷ 0x00 ∷ 0x00 ∷ 0x00 ∷ 0x00 ∷ 0x00 ∷ 0x00 ∷ 0x00 ∷ 0x00 ∷ 0x01 ∷ [])) 2)) ≡ codes "differ-at 9 ..000000000000000000 ..000000000000000001\n" }
    ensures no_bytes { differ_line 48 (Some (Event 3 (Control Ping ([])) 1)) (Some (Event 3 (Control Ping (codes "a")) 1)) ≡ codes "differ-at 0 - 61\n" }
    ensures other_kind { differ_line 48 (Some (Event 0 (Message kind.Text (codes "A")) 1)) (Some (Event 7 (Message kind.Binary (0x41 ∷ 0x42 ∷ [])) 2)) ≡ codes "differ-at 1 \"A\" 4142\n" }
    ensures view_of_0 { differ_line 0 (Some (Event 0 (Message kind.Text (codes "Ab")) 1)) (Some (Event 0 (Message kind.Text (codes "Ac")) 1)) ≡ codes "differ-at 1 - -\n" }
    ensures view_of_1 { differ_line 1 (Some (Event 7 (Message kind.Binary (0x41 ∷ [])) 2)) (Some (Event 7 (Message kind.Binary (0x42 ∷ [])) 2)) ≡ codes "differ-at 0 - .. - ..\n" }
    ensures same_payload { differ_line 48 (Some (Event 0 (Message kind.Text (codes "A")) 1)) (Some (Event 7 (Message kind.Binary (0x41 ∷ [])) 2)) ≡ [] }
    ensures one_event { differ_line 48 (Some (Event 0 (Message kind.Text (codes "A")) 1)) None ≡ [] }
    ensures no_event { differ_line 48 None (Some (Event 3 (Control Ping ([])) 1)) ≡ [] }
{}

/// The members of where two payloads differ.
pub fn of_members()
    ensures character { differ_field 48 (Some (Event 0 (Message kind.Text (codes "Hello")) 1)) (Some (Event 0 (Message kind.Text (codes "Hell" ++ (0xd0 ∷ 0xbe ∷ []))) 1)) ≡ codes ",\"differ_at\":{\"in_payload\":4,\"first\":{\"from\":0,\"text\":\"Hello\"},\"second\":{\"from\":0,\"text\":\"Hell\\u043e\"}}" }
    ensures later { differ_field 4 (Some (Event 0 (Message kind.Text (codes "0123456789a")) 1)) (Some (Event 0 (Message kind.Text (codes "0123456789bcdef")) 1)) ≡ codes ",\"differ_at\":{\"in_payload\":10,\"first\":{\"from\":2,\"text\":\"23456789a\"},\"second\":{\"from\":2,\"text\":\"23456789bcde\",\"truncated\":true}}" }
    ensures binary { differ_field 4 (Some (Event 7 (Message kind.Binary (0x00 ∷ 0x01 ∷ [])) 2)) (Some (Event 7 (Message kind.Binary (0x00 ∷ 0x02 ∷ 0x03 ∷ 0x04 ∷ [])) 2)) ≡ codes ",\"differ_at\":{\"in_payload\":1,\"first\":{\"from\":0,\"hex\":\"0001\"},\"second\":{\"from\":0,\"hex\":\"000203\",\"truncated\":true}}" }
    ensures no_bytes { differ_field 48 (Some (Event 3 (Control Ping ([])) 1)) (Some (Event 3 (Control Ping (codes "a")) 1)) ≡ codes ",\"differ_at\":{\"in_payload\":0,\"first\":{\"from\":0,\"hex\":\"\"},\"second\":{\"from\":0,\"hex\":\"61\"}}" }
    ensures view_of_0 { differ_field 0 (Some (Event 0 (Message kind.Text (codes "Ab")) 1)) (Some (Event 0 (Message kind.Text (codes "Ac")) 1)) ≡ codes ",\"differ_at\":{\"in_payload\":1,\"first\":null,\"second\":null}" }
    ensures same_payload { differ_field 48 (Some (Event 0 (Message kind.Text (codes "A")) 1)) (Some (Event 7 (Message kind.Binary (0x41 ∷ [])) 2)) ≡ codes ",\"differ_at\":null" }
    ensures one_event { differ_field 48 (Some (Event 0 (Message kind.Text (codes "A")) 1)) None ≡ codes ",\"differ_at\":null" }
{}

/// All that is printed of two streams.
pub fn of_differences()
    ensures lines { difference_lines 48 Client 0 (Some (Event 0 (Message kind.Text (codes "Hello")) 1)) (Some (Event 0 (Message kind.Text (codes "Hell" ++ (0xd0 ∷ 0xbe ∷ []))) 1)) ≡ codes "different 0\nfirst C - 0 text 5 1 \"Hello\"\nsecond C - 0 text 6 1 \"Hell" ++ (0xd0 ∷ 0xbe ∷ []) ++ codes "\"\ndiffer-at 4 \"Hello\" \"Hell\\u043e\"\n" }
    ensures lines_of_one { difference_lines 48 Server 2 (Some (Event 0 (Message kind.Text (codes "A")) 1)) None ≡ codes "different 2\nfirst S - 0 text 1 1 \"A\"\nsecond -\n" }
    ensures object_of_one { difference_object 48 Server 2 (Some (Event 0 (Message kind.Text (codes "A")) 1)) None ≡ codes "{\"type\":\"comparison\",\"answer\":\"different\",\"event\":2,\"first\":{\"type\":\"event\",\"side\":\"server\",\"offset\":0,\"event\":\"text\",\"bytes\":1,\"frames\":1,\"text\":\"A\"},\"second\":null,\"differ_at\":null}\n" }
    ensures object { difference_object 48 Client 0 (Some (Event 0 (Message kind.Text (codes "A")) 1)) (Some (Event 0 (Message kind.Text (codes "B")) 1)) ≡ codes "{\"type\":\"comparison\",\"answer\":\"different\",\"event\":0,\"first\":{\"type\":\"event\",\"side\":\"client\",\"offset\":0,\"event\":\"text\",\"bytes\":1,\"frames\":1,\"text\":\"A\"},\"second\":{\"type\":\"event\",\"side\":\"client\",\"offset\":0,\"event\":\"text\",\"bytes\":1,\"frames\":1,\"text\":\"B\"},\"differ_at\":{\"in_payload\":0,\"first\":{\"from\":0,\"text\":\"A\"},\"second\":{\"from\":0,\"text\":\"B\"}}}\n" }
{}
