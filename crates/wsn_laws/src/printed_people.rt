//! Examples of the printed lines of `show` for people, computed from the definitions in
//! `wsn_shown_text/specs/PeopleText.antt`.

ghost use Rattle.std.specs.Prelude.{◌≡◌, true, false, None, Some, [], ◌∷◌, ◌++◌, codes};
ghost use Rattle.wsn_wire.specs.declared.endpoint.Role.TheVariants.{Client, Server};
ghost use Rattle.wsn_wire.specs.declared.opcode.Kind.TheVariants as kind;
ghost use Rattle.wsn_wire.specs.declared.opcode.Op.TheVariants.{Text, Continue, Close, Ping};
ghost use Rattle.wsn_wire.specs.declared.length_encoding.Form.TheVariants.{Shortest, Two};
ghost use Rattle.wsn_wire.specs.declared.refusal.Reason.TheVariants.{TextBad};
ghost use Rattle.wsn_rules.specs.Meaning.{Message, Control};
ghost use Rattle.wsn_rules.specs.ShownStream.Item.{Event, Head, Unfinished, UnfinishedHead, RefusedFrame, Tail};
ghost use Rattle.wsn_print.specs.ShownParts.EntryPosition.{InLine, AtEnd, InStream};
ghost use Rattle.wsn_shown_text.specs.PeopleText.{people_line, people_end_line};

/// The lines of items and of an end mark.
pub fn of_people()
    ensures text { people_line 48 Client (InLine 1 (Some (codes "0.000596"))) (Event 0 (Message kind.Text (codes "Hello")) 1) ≡ codes "client " ++ (0xe2 ∷ 0x86 ∷ 0x92 ∷ []) ++ codes "   0.000596          0  text           5  Hello\n" }
    ensures several_frames { people_line 48 Server (InLine 2 (Some (codes "0.001356"))) (Event 11 (Message kind.Text (codes "a\"b\\")) 4) ≡ codes "server " ++ (0xe2 ∷ 0x86 ∷ 0x92 ∷ []) ++ codes "   0.001356         11  text           4  in 4 frames  a\"b\\\\\n" }
    ensures in_a_stream { people_line 48 Server InStream (Event 3 (Control Ping (codes "hi")) 1) ≡ codes "server " ++ (0xe2 ∷ 0x86 ∷ 0x92 ∷ []) ++ codes "           3  ping           2  hi\n" }
    ensures close { people_line 48 Client (AtEnd None) (Event 0 (Control Close ((0x03 ∷ 0xef ∷ []))) 1) ≡ codes "client " ++ (0xe2 ∷ 0x86 ∷ 0x92 ∷ []) ++ codes "          -          0  close          2  1007\n" }
    ensures large { people_line 0 Client InStream (Unfinished 12345678901 (Message kind.Binary []) 1 None) ≡ codes "client " ++ (0xe2 ∷ 0x86 ∷ 0x92 ∷ []) ++ codes "  12345678901  unfinished     0  binary, next head incomplete  -\n" }
    ensures unfinished { people_line 48 Client (AtEnd None) (Unfinished 233 (Message kind.Text (codes "xxxx")) 1 (Some 10)) ≡ codes "client " ++ (0xe2 ∷ 0x86 ∷ 0x92 ∷ []) ++ codes "          -        233  unfinished     4  text, 10 bytes missing  xxxx\n" }
    ensures between_frames { people_line 48 Client InStream (Unfinished 0 (Message kind.Text (codes "x")) 2 (Some 0)) ≡ codes "client " ++ (0xe2 ∷ 0x86 ∷ 0x92 ∷ []) ++ codes "           0  unfinished     1  text  in 2 frames, more to come  x\n" }
    ensures head { people_line 48 Client InStream (UnfinishedHead 9) ≡ codes "client " ++ (0xe2 ∷ 0x86 ∷ 0x92 ∷ []) ++ codes "           9  unfinished     0  head, next head incomplete  -\n" }
    ensures frame { people_line 48 Client InStream (Head (record { offset = 0; fin = true; op = Text; key = Some (0x37 ∷ 0xfa ∷ 0x21 ∷ 0x3d ∷ []); form = Shortest; len = 5 })) ≡ codes "client " ++ (0xe2 ∷ 0x86 ∷ 0x92 ∷ []) ++ codes "           0  text           5  final, masked with 37fa213d\n" }
    ensures long_form { people_line 48 Server InStream (Head (record { offset = 300; fin = false; op = Continue; key = None; form = Two; len = 100 })) ≡ codes "server " ++ (0xe2 ∷ 0x86 ∷ 0x92 ∷ []) ++ codes "         300  cont         100  more to come, unmasked, length in two bytes\n" }
    ensures refused { people_line 48 Server (InLine 1 None) (RefusedFrame 7 (record { offset = 11; reason = TextBad }) (0x47 ∷ 0x72 ∷ 0xfc ∷ []) (Some (record { offset = 11; in_payload = 2; bytes = 0xfc ∷ []; earlier = [] }))) ≡ codes "server " ++ (0xe2 ∷ 0x86 ∷ 0x92 ∷ []) ++ codes "          -          7  refused   text-bad at 11: a peer should close with 1007  4772fc\n                                bad character fc at 2 of the payload, after \"Gr\"\n" }
    ensures unseen { people_line 0 Server InStream (RefusedFrame 7 (record { offset = 11; reason = TextBad }) (0x47 ∷ 0x72 ∷ 0xfc ∷ []) (Some (record { offset = 11; in_payload = 2; bytes = 0xfc ∷ []; earlier = [] }))) ≡ codes "server " ++ (0xe2 ∷ 0x86 ∷ 0x92 ∷ []) ++ codes "           7  refused   text-bad at 11: a peer should close with 1007\n                                bad character at 2 of the payload\n" }
    ensures tail { people_line 48 Client InStream (Tail 2 (0x81 ∷ [])) ≡ codes "client " ++ (0xe2 ∷ 0x86 ∷ 0x92 ∷ []) ++ codes "           2  tail           1  81\n" }
    ensures end_mark { people_end_line Server (InLine 4 None) 18 ≡ codes "server " ++ (0xe2 ∷ 0x86 ∷ 0x92 ∷ []) ++ codes "          -         18  end\n" }
{}
