//! Examples of printed objects, computed from the definitions in `Objects.antt` of `wsn_print` and `ShownObjects.antt` of
//! `wsn_shown_text`.

ghost use Rattle.std.specs.Prelude.{◌≡◌, true, false, None, Some, [], ◌∷◌, ◌++◌, codes};
ghost use Rattle.wsn_wire.specs.declared.endpoint.Role.TheVariants.{Client, Server};
ghost use Rattle.wsn_wire.specs.declared.length_encoding.Form.TheVariants.{Shortest, Two, Eight};
ghost use Rattle.wsn_wire.specs.declared.opcode.Kind.TheVariants as kind;
ghost use Rattle.wsn_wire.specs.declared.opcode.Op.TheVariants as op;
ghost use Rattle.wsn_wire.specs.declared.opcode.Op.TheVariants.{Close, Ping, Pong};
ghost use Rattle.wsn_wire.specs.declared.refusal.Reason.TheVariants.{TextBad};
ghost use Rattle.wsn_rules.specs.declared.compared.Compared.TheVariants.{Equal, Different, NotAccepted};
ghost use Rattle.wsn_rules.specs.declared.closing_handshake.Outcome.TheVariants as outcome;
ghost use Rattle.wsn_rules.specs.declared.closing_handshake.Side.TheVariants as side;
ghost use Rattle.wsn_rules.specs.declared.verdict.Verdict.TheVariants.{Accepted, Cut, Refused};
ghost use Rattle.wsn_rules.specs.Meaning.{Message, Control};
ghost use Rattle.wsn_rules.specs.ShownStream.Item.{Event, Head, Unfinished, UnfinishedHead, RefusedFrame, Unread, Tail};
ghost use Rattle.wsn_print.specs.Objects.{verdict_object, frame_object, report_object, comparison_object};
ghost use Rattle.wsn_shown_text.specs.ShownObjects.{item_object, end_object, comment_object};
ghost use Rattle.wsn_print.specs.ShownParts.EntryPosition.{InLine, AtEnd, InStream};

/// The objects of verdicts.
pub fn of_verdicts()
    ensures accepted { verdict_object (Accepted (record {
      used = 11;
      tail = 0;
      unfinished = None;
      frames = 3;
      messages = 1;
      pings = 1;
      pongs = 0;
      close = None;
    })) ≡ codes "{\"type\":\"verdict\",\"verdict\":\"accepted\",\"used\":11,\"tail\":0,\"unfinished\":null,\"frames\":3,\"messages\":1,\"pings\":1,\"pongs\":0,\"close\":null}\n" }
    ensures with_a_close { verdict_object (Accepted (record {
      used = 40;
      tail = 2;
      unfinished = Some 0;
      frames = 7;
      messages = 3;
      pings = 0;
      pongs = 2;
      close = Some (Some 1000);
    })) ≡ codes "{\"type\":\"verdict\",\"verdict\":\"accepted\",\"used\":40,\"tail\":2,\"unfinished\":0,\"frames\":7,\"messages\":3,\"pings\":0,\"pongs\":2,\"close\":{\"code\":1000}}\n" }
    ensures with_an_empty_close { verdict_object (Accepted (record {
      used = 2;
      tail = 0;
      unfinished = None;
      frames = 1;
      messages = 0;
      pings = 0;
      pongs = 0;
      close = Some None;
    })) ≡ codes "{\"type\":\"verdict\",\"verdict\":\"accepted\",\"used\":2,\"tail\":0,\"unfinished\":null,\"frames\":1,\"messages\":0,\"pings\":0,\"pongs\":0,\"close\":{\"code\":null}}\n" }
    ensures cut { verdict_object (Cut (record {
      used = 2;
      tail = 0;
      unfinished = Some 0;
      frames = 1;
      messages = 0;
      pings = 0;
      pongs = 0;
      close = None;
    })) ≡ codes "{\"type\":\"verdict\",\"verdict\":\"cut\",\"used\":2,\"unfinished\":0,\"frames\":1,\"messages\":0,\"pings\":0,\"pongs\":0}\n" }
    ensures refused { verdict_object (Refused (record { offset = 11; reason = TextBad })) ≡ codes "{\"type\":\"verdict\",\"verdict\":\"refused\",\"offset\":11,\"reason\":\"text-bad\",\"code\":1007}\n" }
{}

/// The objects of frames.
pub fn of_frames()
    ensures masked { frame_object (record {
      offset = 0;
      fin = true;
      op = op.Text;
      key = Some (0x37 ∷ 0xfa ∷ 0x21 ∷ 0x3d ∷ []);
      form = Shortest;
      len = 5;
    }) ≡ codes "{\"type\":\"frame\",\"offset\":0,\"fin\":true,\"opcode\":\"text\",\"key\":\"37fa213d\",\"length\":5,\"form\":\"shortest\"}\n" }
    ensures not_final { frame_object (record {
      offset = 0;
      fin = false;
      op = op.Binary;
      key = None;
      form = Two;
      len = 0;
    }) ≡ codes "{\"type\":\"frame\",\"offset\":0,\"fin\":false,\"opcode\":\"binary\",\"key\":null,\"length\":0,\"form\":\"two\"}\n" }
    ensures continued { frame_object (record {
      offset = 7;
      fin = true;
      op = op.Continue;
      key = None;
      form = Eight;
      len = 65535;
    }) ≡ codes "{\"type\":\"frame\",\"offset\":7,\"fin\":true,\"opcode\":\"cont\",\"key\":null,\"length\":65535,\"form\":\"eight\"}\n" }
    ensures small_key { frame_object (record {
      offset = 13;
      fin = true;
      op = op.Ping;
      key = Some (0x00 ∷ 0x00 ∷ 0x00 ∷ 0x01 ∷ []);
      form = Shortest;
      len = 0;
    }) ≡ codes "{\"type\":\"frame\",\"offset\":13,\"fin\":true,\"opcode\":\"ping\",\"key\":\"00000001\",\"length\":0,\"form\":\"shortest\"}\n" }
{}

/// The objects of reports.
pub fn of_reports()
    ensures failed { report_object (record {
      client = side.Closed (Some 1000);
      server = side.Refused (record { offset = 11; reason = TextBad });
      first = Some Client;
      echo = None;
      client_sees = Some 1006;
      server_sees = Some 1000;
      outcome = outcome.Failed;
    }) ≡ codes "{\"type\":\"report\",\"client\":{\"state\":\"closed\",\"code\":1000},\"server\":{\"state\":\"refused\",\"offset\":11,\"reason\":\"text-bad\",\"code\":1007},\"first\":\"client\",\"echo\":null,\"client_sees\":1006,\"server_sees\":1000,\"outcome\":\"failed\"}\n" }
    ensures clean { report_object (record {
      client = side.Closed (Some 1000);
      server = side.Closed (Some 1000);
      first = Some Client;
      echo = Some true;
      client_sees = Some 1000;
      server_sees = Some 1000;
      outcome = outcome.Clean;
    }) ≡ codes "{\"type\":\"report\",\"client\":{\"state\":\"closed\",\"code\":1000},\"server\":{\"state\":\"closed\",\"code\":1000},\"first\":\"client\",\"echo\":true,\"client_sees\":1000,\"server_sees\":1000,\"outcome\":\"clean\"}\n" }
    ensures complete { report_object (record {
      client = side.Closed (Some 1000);
      server = side.Closed None;
      first = Some Server;
      echo = Some false;
      client_sees = Some 1005;
      server_sees = Some 1000;
      outcome = outcome.Complete;
    }) ≡ codes "{\"type\":\"report\",\"client\":{\"state\":\"closed\",\"code\":1000},\"server\":{\"state\":\"closed\",\"code\":null},\"first\":\"server\",\"echo\":false,\"client_sees\":1005,\"server_sees\":1000,\"outcome\":\"complete\"}\n" }
    ensures ended { report_object (record {
      client = side.Running;
      server = side.Ended;
      first = None;
      echo = None;
      client_sees = Some 1006;
      server_sees = None;
      outcome = outcome.Abnormal;
    }) ≡ codes "{\"type\":\"report\",\"client\":{\"state\":\"running\"},\"server\":{\"state\":\"ended\"},\"first\":null,\"echo\":null,\"client_sees\":1006,\"server_sees\":null,\"outcome\":\"abnormal\"}\n" }
    ensures cut { report_object (record {
      client = side.Cut;
      server = side.Running;
      first = None;
      echo = None;
      client_sees = None;
      server_sees = Some 1006;
      outcome = outcome.Abnormal;
    }) ≡ codes "{\"type\":\"report\",\"client\":{\"state\":\"cut\"},\"server\":{\"state\":\"running\"},\"first\":null,\"echo\":null,\"client_sees\":null,\"server_sees\":1006,\"outcome\":\"abnormal\"}\n" }
{}

/// The objects of comparisons: of a stream that isn't accepted with its verdict.
pub fn of_comparisons()
    ensures equal { comparison_object Equal ≡ codes "{\"type\":\"comparison\",\"answer\":\"equal\"}\n" }
    ensures different { comparison_object (Different 3) ≡ codes "{\"type\":\"comparison\",\"answer\":\"different\",\"event\":3}\n" }
    ensures first { comparison_object (NotAccepted false (Cut (record {
      used = 2;
      tail = 0;
      unfinished = Some 0;
      frames = 1;
      messages = 0;
      pings = 0;
      pongs = 0;
      close = None;
    }))) ≡ codes "{\"type\":\"comparison\",\"answer\":\"first\",\"verdict\":{\"verdict\":\"cut\",\"used\":2,\"unfinished\":0,\"frames\":1,\"messages\":0,\"pings\":0,\"pongs\":0}}\n" }
    ensures second { comparison_object (NotAccepted true (Refused (record { offset = 5; reason = TextBad }))) ≡ codes "{\"type\":\"comparison\",\"answer\":\"second\",\"verdict\":{\"verdict\":\"refused\",\"offset\":5,\"reason\":\"text-bad\",\"code\":1007}}\n" }
{}

/// The objects of complete events, in a line of a capture, at its end and in a stream.
pub fn of_events()
    ensures text { item_object 48 Client (InLine 1 (Some (codes "0.001356"))) (Event 0 (Message kind.Text (codes "Hello")) 1) ≡ codes "{\"type\":\"event\",\"line\":1,\"side\":\"client\",\"time\":0.001356,\"offset\":0,\"event\":\"text\",\"bytes\":5,\"frames\":1,\"text\":\"Hello\"}\n" }
    ensures text_at_2 { item_object 2 Client (InLine 1 None) (Event 0 (Message kind.Text (codes "Hello")) 1) ≡ codes "{\"type\":\"event\",\"line\":1,\"side\":\"client\",\"time\":null,\"offset\":0,\"event\":\"text\",\"bytes\":5,\"frames\":1,\"text\":\"He\",\"truncated\":true}\n" }
    ensures text_at_0 { item_object 0 Client (InLine 1 None) (Event 0 (Message kind.Text (codes "Hello")) 1) ≡ codes "{\"type\":\"event\",\"line\":1,\"side\":\"client\",\"time\":null,\"offset\":0,\"event\":\"text\",\"bytes\":5,\"frames\":1,\"text\":\"\",\"truncated\":true}\n" }
    ensures escaped { item_object 48 Client (InLine 1 None) (Event 0 (Message kind.Text (codes "a\"\n")) 1) ≡ codes "{\"type\":\"event\",\"line\":1,\"side\":\"client\",\"time\":null,\"offset\":0,\"event\":\"text\",\"bytes\":3,\"frames\":1,\"text\":\"a\\\"\\u000a\"}\n" }
    ensures binary { item_object 48 Client (InLine 1 None) (Event 0 (Message kind.Binary (0x00 ∷ 0xff ∷ [])) 1) ≡ codes "{\"type\":\"event\",\"line\":1,\"side\":\"client\",\"time\":null,\"offset\":0,\"event\":\"binary\",\"bytes\":2,\"frames\":1,\"hex\":\"00ff\"}\n" }
    ensures binary_at_2 { item_object 2 Client (InLine 1 None) (Event 0 (Message kind.Binary (0x00 ∷ 0xff ∷ [])) 1) ≡ codes "{\"type\":\"event\",\"line\":1,\"side\":\"client\",\"time\":null,\"offset\":0,\"event\":\"binary\",\"bytes\":2,\"frames\":1,\"hex\":\"00\",\"truncated\":true}\n" }
    ensures ping { item_object 48 Server InStream (Event 3 (Control Ping (codes "hi")) 1) ≡ codes "{\"type\":\"event\",\"side\":\"server\",\"offset\":3,\"event\":\"ping\",\"bytes\":2,\"frames\":1,\"text\":\"hi\"}\n" }
    ensures pong_in_hexadecimal { item_object 48 Server InStream (Event 3 (Control Pong (0x68 ∷ 0x00 ∷ [])) 1) ≡ codes "{\"type\":\"event\",\"side\":\"server\",\"offset\":3,\"event\":\"pong\",\"bytes\":2,\"frames\":1,\"hex\":\"6800\"}\n" }
    ensures close { item_object 48 Client (InLine 1 None) (Event 0 (Control Close ((0x03 ∷ 0xe8 ∷ []) ++ codes "bye")) 1) ≡ codes "{\"type\":\"event\",\"line\":1,\"side\":\"client\",\"time\":null,\"offset\":0,\"event\":\"close\",\"bytes\":5,\"frames\":1,\"code\":1000,\"reason\":\"bye\"}\n" }
    ensures close_without_reason { item_object 48 Client (InLine 1 None) (Event 0 (Control Close (0x03 ∷ 0xef ∷ [])) 1) ≡ codes "{\"type\":\"event\",\"line\":1,\"side\":\"client\",\"time\":null,\"offset\":0,\"event\":\"close\",\"bytes\":2,\"frames\":1,\"code\":1007}\n" }
    ensures empty_close { item_object 48 Client (InLine 1 None) (Event 0 (Control Close []) 1) ≡ codes "{\"type\":\"event\",\"line\":1,\"side\":\"client\",\"time\":null,\"offset\":0,\"event\":\"close\",\"bytes\":0,\"frames\":1,\"code\":null}\n" }
    ensures closed_unseen { item_object 0 Client (InLine 1 None) (Event 0 (Control Close ((0x03 ∷ 0xe8 ∷ []) ++ codes "bye")) 1) ≡ codes "{\"type\":\"event\",\"line\":1,\"side\":\"client\",\"time\":null,\"offset\":0,\"event\":\"close\",\"bytes\":5,\"frames\":1,\"code\":null,\"truncated\":true}\n" }
{}

/// The objects of refusals, of what is unfinished, unread or a tail, of end marks and of frames.
pub fn of_other_entries()
    ensures refused { item_object 48 Server (InLine 1 None) (RefusedFrame 7 (record { offset = 11; reason = TextBad }) (0x47 ∷ 0x72 ∷ 0xfc ∷ []) None) ≡ codes "{\"type\":\"refused\",\"line\":1,\"side\":\"server\",\"time\":null,\"offset\":7,\"place\":11,\"reason\":\"text-bad\",\"code\":1007,\"hex\":\"4772fc\"}\n" }
    ensures refused_at_2 { item_object 2 Server (InLine 1 None) (RefusedFrame 7 (record { offset = 11; reason = TextBad }) (0x47 ∷ 0x72 ∷ 0xfc ∷ []) None) ≡ codes "{\"type\":\"refused\",\"line\":1,\"side\":\"server\",\"time\":null,\"offset\":7,\"place\":11,\"reason\":\"text-bad\",\"code\":1007,\"hex\":\"fc\",\"truncated\":true}\n" }
    ensures unfinished { item_object 4 Server (InLine 9 None) (Unfinished 17 (Message kind.Binary (0x00 ∷ 0xff ∷ 0x00 ∷ [])) 1 (Some 144)) ≡ codes "{\"type\":\"unfinished\",\"line\":9,\"side\":\"server\",\"time\":null,\"offset\":17,\"event\":\"binary\",\"bytes\":3,\"frames\":1,\"lacks\":144,\"hex\":\"00ff\",\"truncated\":true}\n" }
    ensures unfinished_text { item_object 48 Server (AtEnd None) (Unfinished 0 (Message kind.Text (codes "A")) 1 None) ≡ codes "{\"type\":\"unfinished\",\"side\":\"server\",\"time\":null,\"offset\":0,\"event\":\"text\",\"bytes\":1,\"frames\":1,\"lacks\":null,\"text\":\"A\"}\n" }
    ensures unfinished_ping { item_object 48 Server (AtEnd None) (Unfinished 3 (Control Ping (codes "p")) 1 (Some 1)) ≡ codes "{\"type\":\"unfinished\",\"side\":\"server\",\"time\":null,\"offset\":3,\"event\":\"ping\",\"bytes\":1,\"frames\":1,\"lacks\":1,\"hex\":\"70\"}\n" }
    ensures unfinished_head { item_object 48 Client (InLine 3 (Some (codes "1.5"))) (UnfinishedHead 9) ≡ codes "{\"type\":\"unfinished\",\"line\":3,\"side\":\"client\",\"time\":1.5,\"offset\":9,\"event\":\"head\",\"bytes\":0,\"frames\":0,\"lacks\":null,\"hex\":\"\"}\n" }
    ensures unread { item_object 48 Server (AtEnd None) (Unread 12 (0xdf ∷ 0x65 ∷ 0x88 ∷ 0x02 ∷ 0x03 ∷ 0xef ∷ [])) ≡ codes "{\"type\":\"unread\",\"side\":\"server\",\"time\":null,\"offset\":12,\"bytes\":6,\"hex\":\"df65880203ef\"}\n" }
    ensures unread_with_a_time { item_object 48 Server (AtEnd (Some (codes "1.5"))) (Unread 12 (0xdf ∷ 0x65 ∷ [])) ≡ codes "{\"type\":\"unread\",\"side\":\"server\",\"time\":1.5,\"offset\":12,\"bytes\":2,\"hex\":\"df65\"}\n" }
    ensures tail { item_object 0 Client InStream (Tail 2 (0x81 ∷ [])) ≡ codes "{\"type\":\"tail\",\"side\":\"client\",\"offset\":2,\"bytes\":1,\"hex\":\"\",\"truncated\":true}\n" }
    ensures end_mark { end_object Server (InLine 4 None) 18 ≡ codes "{\"type\":\"end\",\"line\":4,\"side\":\"server\",\"time\":null,\"offset\":18}\n" }
    ensures frame { item_object 48 Client (InLine 1 (Some (codes "0.5"))) (Head (record { offset = 0; fin = true; op = op.Text; key = None; form = Shortest; len = 5 })) ≡ codes "{\"type\":\"frame\",\"line\":1,\"side\":\"client\",\"time\":0.5,\"offset\":0,\"fin\":true,\"opcode\":\"text\",\"key\":null,\"length\":5,\"form\":\"shortest\"}\n" }
{}

/// The objects of refusals with a bad character.
pub fn of_bad_characters()
    ensures whole { item_object 48 Client (InLine 1 None) (RefusedFrame 0 (record { offset = 19; reason = TextBad }) (codes "{\"name\":\"Ren" ++ (0xe9 ∷ 0x20 ∷ [])) (Some (record { offset = 18; in_payload = 12; bytes = 0xe9 ∷ 0x20 ∷ []; earlier = [] }))) ≡ codes "{\"type\":\"refused\",\"line\":1,\"side\":\"client\",\"time\":null,\"offset\":0,\"place\":19,\"reason\":\"text-bad\",\"code\":1007,\"hex\":\"7b226e616d65223a2252656ee920\",\"character\":{\"offset\":18,\"in_payload\":12,\"hex\":\"e920\",\"before\":\"{\\\"name\\\":\\\"Ren\"}}\n" }
    ensures at_10 { item_object 10 Client (InLine 1 None) (RefusedFrame 0 (record { offset = 19; reason = TextBad }) (codes "{\"name\":\"Ren" ++ (0xe9 ∷ 0x20 ∷ [])) (Some (record { offset = 18; in_payload = 12; bytes = 0xe9 ∷ 0x20 ∷ []; earlier = [] }))) ≡ codes "{\"type\":\"refused\",\"line\":1,\"side\":\"client\",\"time\":null,\"offset\":0,\"place\":19,\"reason\":\"text-bad\",\"code\":1007,\"hex\":\"52656ee920\",\"truncated\":true,\"character\":{\"offset\":18,\"in_payload\":12,\"hex\":\"e920\",\"before\":\"Ren\",\"truncated\":true}}\n" }
    ensures at_0 { item_object 0 Client (InLine 1 None) (RefusedFrame 0 (record { offset = 19; reason = TextBad }) (codes "{\"name\":\"Ren" ++ (0xe9 ∷ 0x20 ∷ [])) (Some (record { offset = 18; in_payload = 12; bytes = 0xe9 ∷ 0x20 ∷ []; earlier = [] }))) ≡ codes "{\"type\":\"refused\",\"line\":1,\"side\":\"client\",\"time\":null,\"offset\":0,\"place\":19,\"reason\":\"text-bad\",\"code\":1007,\"hex\":\"\",\"truncated\":true,\"character\":{\"offset\":18,\"in_payload\":12,\"hex\":\"\",\"before\":\"\",\"truncated\":true}}\n" }
    ensures of_two_frames { item_object 48 Server InStream (RefusedFrame 4 (record { offset = 6; reason = TextBad }) (0x20 ∷ []) (Some (record { offset = 2; in_payload = 0; bytes = 0xe2 ∷ 0x82 ∷ 0x20 ∷ []; earlier = 0xe2 ∷ 0x82 ∷ [] }))) ≡ codes "{\"type\":\"refused\",\"side\":\"server\",\"offset\":4,\"place\":6,\"reason\":\"text-bad\",\"code\":1007,\"hex\":\"20\",\"character\":{\"offset\":2,\"in_payload\":0,\"hex\":\"e28220\",\"before\":\"\"}}\n" }
{}

/// The objects of comments: what follows the `#`, as a text, or in hexadecimal if it is not UTF-8.
pub fn of_comments()
    ensures as_it_is { comment_object 2 (codes "# reset by the server") ≡ codes "{\"type\":\"comment\",\"line\":2,\"text\":\" reset by the server\"}\n" }
    ensures escaped { comment_object 2 (codes "#\"\t\\") ≡ codes "{\"type\":\"comment\",\"line\":2,\"text\":\"\\\"\\u0009\\\\\"}\n" }
    ensures not_utf_8 { comment_object 2 (0x23 ∷ 0xe9 ∷ 0x5c ∷ 0x41 ∷ []) ≡ codes "{\"type\":\"comment\",\"line\":2,\"hex\":\"e95c41\"}\n" }
    ensures partly_utf_8 { comment_object 2 (0x23 ∷ 0x20 ∷ 0xfe ∷ []) ≡ codes "{\"type\":\"comment\",\"line\":2,\"hex\":\"20fe\"}\n" }
    ensures written_out { comment_object 2 (codes "#\\xfe") ≡ codes "{\"type\":\"comment\",\"line\":2,\"text\":\"\\\\xfe\"}\n" }
{}
