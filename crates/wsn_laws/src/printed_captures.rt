//! Examples of what `show` prints of a whole capture, computed from the definition in `wsn_show/specs/Styles.antt`.

ghost use Rattle.std.specs.Prelude.{◌≡◌, false, None, Some, [], ◌∷◌, ◌++◌, codes};
ghost use Rattle.wsn_wire.specs.declared.endpoint.Role.TheVariants.{Client, Server};
ghost use Rattle.wsn_wire.specs.declared.opcode.Kind.TheVariants as kind;
ghost use Rattle.wsn_wire.specs.declared.opcode.Op.TheVariants.{Close};
ghost use Rattle.wsn_wire.specs.declared.refusal.Reason.TheVariants.{TextBad};
ghost use Rattle.wsn_rules.specs.declared.detail.Detail.TheVariants.{Events};
ghost use Rattle.wsn_rules.specs.declared.closing_handshake.Outcome.TheVariants.{Failed};
ghost use Rattle.wsn_rules.specs.declared.closing_handshake.Side.TheVariants as side;
ghost use Rattle.wsn_rules.specs.Meaning.{Message, Control};
ghost use Rattle.wsn_rules.specs.ShownStream.Item.{Event, RefusedFrame, Unread};
ghost use Rattle.wsn_rules.specs.ShownCapture.LineItem.{OfStream, End, Comment};
ghost use Rattle.wsn_print.specs.declared.format.Format.TheVariants as format;
ghost use Rattle.wsn_show.specs.Styles.{styled_capture};

/// The lines of a capture, what is left over at its end, and the report.
pub fn of_words()
    ensures { styled_capture
        (record { view = 48; detail = Events; format = format.Text })
        ((record { number = 2; time = Some (codes "0.25"); items = OfStream Server (Event 0 (Message kind.Text (codes "Hello")) 1) ∷ OfStream Server (RefusedFrame 7 (record { offset = 11; reason = TextBad }) (codes "Gr" ++ (0xfc ∷ [])) (Some (record { offset = 11; in_payload = 2; bytes = 0xfc ∷ []; earlier = [] }))) ∷ [] })
        ∷ (record { number = 4; time = Some (codes "0.5"); items = OfStream Client (Event 0 (Control Close ((0x03 ∷ 0xef ∷ []))) 1) ∷ [] })
        ∷ (record { number = 5; time = Some (codes "0.5"); items = End Client 8 ∷ [] })
        ∷ (record { number = 6; time = Some (codes "0.5"); items = Comment (codes "# reset") ∷ [] }) ∷ [])
        (record { time = Some (codes "0.5"); items = [] })
        (record { time = Some (codes "0.25"); items = Unread 12 (0xdf ∷ []) ∷ [] })
        None
        (record {
          client = side.Closed (Some 1007);
          server = side.Refused (record { offset = 11; reason = TextBad });
          first = Some Client;
          echo = None;
          client_sees = Some 1006;
          server_sees = Some 1007;
          outcome = Failed;
        }) ≡ codes "S 0.25 0 text 5 1 \"Hello\"\nS 0.25 7 refused 11 text-bad 1007 4772fc\nS 0.25 11 bad-character 2 fc \"Gr\\xfc\"\nC 0.5 0 close 2 1 1007\nC 0.5 8 end\n# reset\nS 0.25 12 unread 1 df\nclient closed 1007\nserver refused 11 text-bad 1007\nfirst client\necho -\nclient-sees 1006\nserver-sees 1007\noutcome failed\n" }
{}

/// The objects of a capture that the client ended: its lines by number, what is left over at its end, who ended the
/// connection, and the report.
pub fn of_objects()
    ensures { styled_capture
        (record { view = 48; detail = Events; format = format.Json })
        ((record { number = 1; time = None; items = OfStream Server (Event 0 (Message kind.Text (codes "Hello")) 1) ∷ [] })
        ∷ (record { number = 3; time = Some (codes "0.5"); items = End Client 8 ∷ [] })
        ∷ (record { number = 4; time = Some (codes "0.5"); items = Comment (codes "# reset") ∷ [] }) ∷ [])
        (record { time = Some (codes "0.5"); items = [] })
        (record { time = None; items = Unread 12 (0xdf ∷ []) ∷ [] })
        (Some (record { role = Client; reset = false }))
        (record {
          client = side.Closed (Some 1007);
          server = side.Ended;
          first = Some Client;
          echo = None;
          client_sees = Some 1006;
          server_sees = Some 1007;
          outcome = Failed;
        }) ≡ codes "{\"type\":\"event\",\"line\":1,\"side\":\"server\",\"time\":null,\"offset\":0,\"event\":\"text\",\"bytes\":5,\"frames\":1,\"text\":\"Hello\"}\n{\"type\":\"end\",\"line\":3,\"side\":\"client\",\"time\":0.5,\"offset\":8}\n{\"type\":\"comment\",\"line\":4,\"text\":\" reset\"}\n{\"type\":\"unread\",\"side\":\"server\",\"time\":null,\"offset\":12,\"bytes\":1,\"hex\":\"df\"}\n{\"type\":\"ended-by\",\"side\":\"client\",\"reset\":false}\n{\"type\":\"report\",\"client\":{\"state\":\"closed\",\"code\":1007},\"server\":{\"state\":\"ended\"},\"first\":\"client\",\"echo\":null,\"client_sees\":1006,\"server_sees\":1007,\"outcome\":\"failed\"}\n" }
{}
