//! Examples of what is shown of frames, and of the times at a capture's end, computed from the definitions in
//! `wsn_rules/specs/`.

ghost use Rattle.std.specs.Prelude.{◌≡◌, true, false, None, Some, [], ◌∷◌, codes, map};
ghost use Rattle.wsn_wire.specs.declared.endpoint.Role.TheVariants.{Client, Server};
ghost use Rattle.wsn_wire.specs.declared.opcode.Kind.TheVariants as kind;
ghost use Rattle.wsn_wire.specs.declared.opcode.Op.TheVariants.{Continue, Text, Binary, Close, Ping};
ghost use Rattle.wsn_wire.specs.declared.length_encoding.Form.TheVariants.{Shortest, Two};
ghost use Rattle.wsn_rules.specs.Meaning.{Message, Control};
ghost use Rattle.wsn_rules.specs.Entries.{Nothing, Bytes, Mark};
ghost use Rattle.wsn_rules.specs.Heads.{heads_of};
ghost use Rattle.wsn_rules.specs.ShownStream.{shown_of, shown_head, items_of_part, items_of_head, items_of_bytes};
ghost use Rattle.wsn_rules.specs.ShownStream.Item.{Event, Head, Unfinished, UnfinishedHead, Tail};
ghost use Rattle.wsn_rules.specs.ShownCapture.{IsTimeOfLast};
ghost use Rattle.wsn_laws.specs.PlanExamples.{server_frame};

/// What frames show: each event with its last byte, at the offset of its first frame.
pub fn of_frames()
    ensures hello { shown_of [] (server_frame true Text (codes "Hello") ∷ [])
        ≡ record { after = 7; item = Event 0 (Message kind.Text (codes "Hello")) 1 } ∷ [] }
    ensures not_final { shown_of [] (server_frame false Text (codes "Hel") ∷ []) ≡ [] }
    ensures ping_between { shown_of []
        (server_frame false Text (codes "Hel") ∷ server_frame true Ping [] ∷ server_frame true Continue (codes "lo") ∷ [])
        ≡ record { after = 7; item = Event 5 (Control Ping []) 1 }
        ∷ record { after = 11; item = Event 0 (Message kind.Text (codes "Hello")) 2 } ∷ [] }
    ensures second_message { shown_of []
        (server_frame true Binary (1 ∷ []) ∷ server_frame true Ping [] ∷ server_frame false Text (codes "H") ∷ server_frame true Continue (codes "i") ∷ [])
        ≡ record { after = 3; item = Event 0 (Message kind.Binary (1 ∷ [])) 1 }
        ∷ record { after = 5; item = Event 3 (Control Ping []) 1 }
        ∷ record { after = 11; item = Event 5 (Message kind.Text (codes "Hi")) 2 } ∷ [] }
    ensures interrupted { shown_of [] (server_frame false Text (codes "A") ∷ server_frame true Close [] ∷ [])
        ≡ record { after = 5; item = Unfinished 0 (Message kind.Text (codes "A")) 1 (Some 0) }
        ∷ record { after = 5; item = Event 3 (Control Close []) 1 } ∷ [] }
{}

/// What heads show: each with its last byte, at its own frame's offset.
pub fn of_heads()
    ensures ping_between { map shown_head
        (heads_of
        (server_frame false Text (codes "Hel") ∷ server_frame true Ping [] ∷ server_frame true Continue (codes "lo") ∷ []))
        ≡ record {
          after = 2;
          item = Head (record { offset = 0; fin = false; op = Text; key = None; form = Shortest; len = 3 });
        }
        ∷ record {
          after = 7;
          item = Head (record { offset = 5; fin = true; op = Ping; key = None; form = Shortest; len = 0 });
        }
        ∷ record {
          after = 9;
          item = Head (record { offset = 7; fin = true; op = Continue; key = None; form = Shortest; len = 2 });
        } ∷ [] }
    ensures masked { shown_head
        (record { offset = 3; fin = true; op = Binary; key = Some (1 ∷ 2 ∷ 3 ∷ 4 ∷ []); form = Two; len = 100 })
        ≡ record {
          after = 11;
          item =
              Head (record { offset = 3; fin = true; op = Binary; key = Some (1 ∷ 2 ∷ 3 ∷ 4 ∷ []); form = Two; len = 100 });
        } }
{}

/// What is left over of a stream that ends inside a frame or a message.
pub fn left_over()
    ensures first_frame { items_of_part []
        (record { offset = 0; fin = true; op = Binary; key = None; form = Shortest; len = 200 }) (0 ∷ 255 ∷ [])
        ≡ Unfinished 0 (Message kind.Binary (0 ∷ 255 ∷ [])) 1 (Some 198) ∷ [] }
    ensures next_frame { items_of_part (server_frame false Text (codes "A") ∷ [])
        (record { offset = 3; fin = true; op = Continue; key = None; form = Shortest; len = 5 }) (codes "BC")
        ≡ Unfinished 0 (Message kind.Text (codes "ABC")) 2 (Some 3) ∷ [] }
    ensures control { items_of_part (server_frame false Text (codes "A") ∷ [])
        (record { offset = 3; fin = true; op = Ping; key = None; form = Shortest; len = 2 }) (codes "p")
        ≡ Unfinished 0 (Message kind.Text (codes "A")) 1 (Some 0) ∷ Unfinished 3 (Control Ping (codes "p")) 1 (Some 1) ∷ [] }
    ensures between_frames { items_of_head (server_frame false Text (codes "A") ∷ []) []
        ≡ Unfinished 0 (Message kind.Text (codes "A")) 1 (Some 0) ∷ [] }
    ensures part_of_next_head { items_of_head (server_frame false Text (codes "A") ∷ []) (128 ∷ [])
        ≡ Unfinished 0 (Message kind.Text (codes "A")) 1 None ∷ [] }
    ensures part_of_a_head { items_of_head (server_frame true Text (codes "A") ∷ []) (129 ∷ [])
        ≡ UnfinishedHead 3 ∷ [] }
    ensures tail { items_of_bytes Tail 2 (129 ∷ 0 ∷ []) ≡ Tail 2 (129 ∷ 0 ∷ []) ∷ [] }
    ensures no_tail { items_of_bytes Tail 2 [] ≡ [] }
{}

/// The time that held when an endpoint's last bytes came: not a later one, and not that of the other endpoint.
pub fn last_times()
    ensures server { IsTimeOfLast Server
        (codes "# 1.5" ∷ codes "S 81" ∷ codes "# 2.5" ∷ codes "C 81" ∷ codes "# 3.5" ∷ [])
        (Nothing ∷ Bytes Server (0x81 ∷ []) ∷ Nothing ∷ Bytes Client (0x81 ∷ []) ∷ Nothing ∷ [])
        (Some (codes "1.5")) }
    ensures client { IsTimeOfLast Client
        (codes "# 1.5" ∷ codes "S 81" ∷ codes "# 2.5" ∷ codes "C 81" ∷ codes "# 3.5" ∷ [])
        (Nothing ∷ Bytes Server (0x81 ∷ []) ∷ Nothing ∷ Bytes Client (0x81 ∷ []) ∷ Nothing ∷ [])
        (Some (codes "2.5")) }
    ensures last_of_two { IsTimeOfLast Server
        (codes "# 1.5" ∷ codes "S 81" ∷ codes "# 2.5" ∷ codes "S 05" ∷ codes "C." ∷ [])
        (Nothing ∷ Bytes Server (0x81 ∷ []) ∷ Nothing ∷ Bytes Server (0x05 ∷ []) ∷ Mark Client ∷ [])
        (Some (codes "2.5")) }
    ensures before_a_time { IsTimeOfLast Server (codes "S 81" ∷ codes "# 2.5" ∷ [])
        (Bytes Server (0x81 ∷ []) ∷ Nothing ∷ []) None }
    ensures no_bytes { IsTimeOfLast Client (codes "# 1.5" ∷ codes "S 81" ∷ [])
        (Nothing ∷ Bytes Server (0x81 ∷ []) ∷ []) None }
{}
