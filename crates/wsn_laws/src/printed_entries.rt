//! Examples of the printed lines of `show`, computed from the definitions in `ShownText.antt` and `CharacterText.antt` of
//! `wsn_shown_text`, and in `EscapedText.antt` of `wsn_print`.

ghost use Rattle.std.specs.Prelude.{◌≡◌, true, false, None, Some, [], ◌∷◌, ◌++◌, codes, replicate};
ghost use Rattle.wsn_wire.specs.declared.endpoint.Role.TheVariants.{Client, Server};
ghost use Rattle.wsn_wire.specs.declared.opcode.Kind.TheVariants as kind;
ghost use Rattle.wsn_wire.specs.declared.opcode.Op.TheVariants.{Text, Continue, Close, Ping, Pong};
ghost use Rattle.wsn_wire.specs.declared.length_encoding.Form.TheVariants.{Shortest, Two};
ghost use Rattle.wsn_wire.specs.declared.refusal.Reason.TheVariants.{ReservedBits, TextBad};
ghost use Rattle.wsn_rules.specs.Meaning.{Message, Control};
ghost use Rattle.wsn_rules.specs.ShownStream.Item.{Event, Head, Unfinished, UnfinishedHead, RefusedFrame, Unread, Tail};
ghost use Rattle.wsn_shown_text.specs.CharacterText.{character_line, item_lines};
ghost use Rattle.wsn_print.specs.declared.format.Format.TheVariants as format;
ghost use Rattle.wsn_shown_text.specs.EntryFormats.{item_entry};
ghost use Rattle.wsn_print.specs.ShownParts.EntryPosition.{AtEnd};
ghost use Rattle.wsn_shown_text.specs.ShownText.{item_line, text_view, hex_view, body_view, end_line};
ghost use Rattle.wsn_print.specs.EscapedText.{quoted, comment_line};

/// The lines of complete events: their offset is that of the first frame.
pub fn of_events()
    ensures text { item_line 48 Server None (Event 0 (Message kind.Text (codes "Hello")) 1) ≡ codes "S - 0 text 5 1 \"Hello\"\n" }
    ensures with_a_time { item_line 48 Client (Some (codes "0.001356")) (Event 11 (Message kind.Text (codes "Fragments of " ++ (0xe2 ∷ 0x82 ∷ 0xac ∷ []) ++ codes " a message")) 4) ≡ codes "C 0.001356 11 text 26 4 \"Fragments of " ++ (0xe2 ∷ 0x82 ∷ 0xac ∷ []) ++ codes " a message\"\n" }
    ensures no_text { item_line 48 Client None (Event 7 (Message kind.Text []) 2) ≡ codes "C - 7 text 0 2 \"\"\n" }
    ensures binary { item_line 48 Client None (Event 0 (Message kind.Binary ((0x00 ∷ 0xff ∷ []))) 1) ≡ codes "C - 0 binary 2 1 00ff\n" }
    ensures no_bytes { item_line 48 Client None (Event 0 (Message kind.Binary []) 1) ≡ codes "C - 0 binary 0 1 -\n" }
    ensures ping { item_line 48 Server None (Event 3 (Control Ping (codes "hi")) 1) ≡ codes "S - 3 ping 2 1 \"hi\"\n" }
    ensures pong_in_hexadecimal { item_line 48 Server None (Event 3 (Control Pong (codes "h" ++ (0x00 ∷ []))) 1) ≡ codes "S - 3 pong 2 1 6800\n" }
    ensures empty_ping { item_line 48 Server None (Event 3 (Control Ping []) 1) ≡ codes "S - 3 ping 0 1 \"\"\n" }
    ensures close { item_line 48 Client None (Event 367 (Control Close ((0x03 ∷ 0xe8 ∷ []) ++ codes "bye")) 1) ≡ codes "C - 367 close 5 1 1000 \"bye\"\n" }
    ensures close_without_reason { item_line 48 Client None (Event 0 (Control Close ((0x03 ∷ 0xef ∷ []))) 1) ≡ codes "C - 0 close 2 1 1007\n" }
    ensures empty_close { item_line 48 Client None (Event 0 (Control Close []) 1) ≡ codes "C - 0 close 0 1 -\n" }
    ensures reason_is_whole { item_line 2 Client None (Event 0 (Control Close ((0x03 ∷ 0xe8 ∷ []) ++ codes "bye")) 1) ≡ codes "C - 0 close 5 1 1000 \"bye\"\n" }
    ensures closed_unseen { item_line 0 Client None (Event 0 (Control Close ((0x03 ∷ 0xe8 ∷ []) ++ codes "bye")) 1) ≡ codes "C - 0 close 5 1 -\n" }
{}

/// The lines of frames: the offset is the frame's own, and the key is shown.
pub fn of_frames()
    ensures masked { item_line 48 Client (Some (codes "0.000596")) (Head (record { offset = 0; fin = true; op = Text; key = Some (0x37 ∷ 0xfa ∷ 0x21 ∷ 0x3d ∷ []); form = Shortest; len = 5 })) ≡ codes "C 0.000596 0 fin text 37fa213d 5\n" }
    ensures not_final { item_line 0 Server None (Head (record { offset = 300; fin = false; op = Continue; key = None; form = Two; len = 100 })) ≡ codes "S - 300 more cont - 100 two\n" }
{}

/// Views of 0 to 6 bytes, and of 48: characters are shown whole, and half as many bytes in hexadecimal as of a text.
pub fn of_views()
    ensures text_at_0 { text_view 0 (codes "Hello") ≡ codes "-" }
    ensures text_at_1 { text_view 1 (codes "Hello") ≡ codes "\"H\" .." }
    ensures text_at_2 { text_view 2 (codes "Hello") ≡ codes "\"He\" .." }
    ensures text_at_3 { text_view 3 (codes "Hello") ≡ codes "\"Hel\" .." }
    ensures text_at_4 { text_view 4 (codes "Hello") ≡ codes "\"Hell\" .." }
    ensures text_at_5 { text_view 5 (codes "Hello") ≡ codes "\"Hello\"" }
    ensures no_text_at_0 { text_view 0 [] ≡ codes "\"\"" }
    ensures bytes_at_0 { hex_view 0 ((0xab ∷ 0xcd ∷ 0xef ∷ [])) ≡ codes "-" }
    ensures bytes_at_1 { hex_view 1 ((0xab ∷ 0xcd ∷ 0xef ∷ [])) ≡ codes "- .." }
    ensures bytes_at_2 { hex_view 2 ((0xab ∷ 0xcd ∷ 0xef ∷ [])) ≡ codes "ab .." }
    ensures bytes_at_3 { hex_view 3 ((0xab ∷ 0xcd ∷ 0xef ∷ [])) ≡ codes "ab .." }
    ensures bytes_at_4 { hex_view 4 ((0xab ∷ 0xcd ∷ 0xef ∷ [])) ≡ codes "abcd .." }
    ensures bytes_at_6 { hex_view 6 ((0xab ∷ 0xcd ∷ 0xef ∷ [])) ≡ codes "abcdef" }
    ensures no_bytes_at_0 { hex_view 0 [] ≡ codes "-" }
    ensures exactly_48 { text_view 48 (replicate 48 120) ≡ codes "\"xxxxxxxxxxxxxxxxxxxxxxxxxxxxxxxxxxxxxxxxxxxxxxxx\"" }
    ensures over_48 { text_view 48 (replicate 126 120) ≡ codes "\"xxxxxxxxxxxxxxxxxxxxxxxxxxxxxxxxxxxxxxxxxxxxxxxx\" .." }
    ensures character_of_two_bytes_at_1 { text_view 1 ((0xc3 ∷ 0xa9 ∷ [])) ≡ codes "\"\" .." }
    ensures character_of_two_bytes_at_2 { text_view 2 ((0xc3 ∷ 0xa9 ∷ [])) ≡ codes "\"" ++ (0xc3 ∷ 0xa9 ∷ []) ++ codes "\"" }
    ensures character_of_three_bytes_at_1 { text_view 1 ((0xe2 ∷ 0x82 ∷ 0xac ∷ [])) ≡ codes "\"\" .." }
    ensures character_of_three_bytes_at_2 { text_view 2 ((0xe2 ∷ 0x82 ∷ 0xac ∷ [])) ≡ codes "\"\" .." }
    ensures character_of_three_bytes_at_3 { text_view 3 ((0xe2 ∷ 0x82 ∷ 0xac ∷ [])) ≡ codes "\"" ++ (0xe2 ∷ 0x82 ∷ 0xac ∷ []) ++ codes "\"" }
    ensures character_of_four_bytes_at_1 { text_view 1 ((0xf0 ∷ 0x9f ∷ 0x98 ∷ 0x80 ∷ [])) ≡ codes "\"\" .." }
    ensures character_of_four_bytes_at_2 { text_view 2 ((0xf0 ∷ 0x9f ∷ 0x98 ∷ 0x80 ∷ [])) ≡ codes "\"\" .." }
    ensures character_of_four_bytes_at_3 { text_view 3 ((0xf0 ∷ 0x9f ∷ 0x98 ∷ 0x80 ∷ [])) ≡ codes "\"\" .." }
    ensures character_of_four_bytes_at_4 { text_view 4 ((0xf0 ∷ 0x9f ∷ 0x98 ∷ 0x80 ∷ [])) ≡ codes "\"" ++ (0xf0 ∷ 0x9f ∷ 0x98 ∷ 0x80 ∷ []) ++ codes "\"" }
    ensures after_a_character { text_view 4 ((0xc3 ∷ 0xa9 ∷ 0xe2 ∷ 0x82 ∷ 0xac ∷ [])) ≡ codes "\"" ++ (0xc3 ∷ 0xa9 ∷ []) ++ codes "\" .." }
{}

/// Quoted texts: what is escaped in them, and what is not.
pub fn of_quoted_texts()
    ensures quotation_mark { quoted (codes "\"") ≡ codes "\"\\\"\"" }
    ensures backslash_last { quoted (codes "a\\") ≡ codes "\"a\\\\\"" }
    ensures line_feed { quoted (codes "a\nb") ≡ codes "\"a\\u000ab\"" }
    ensures escape_character { quoted (0x1b ∷ []) ≡ codes "\"\\u001b\"" }
    ensures delete { quoted (0x7f ∷ []) ≡ codes "\"\\u007f\"" }
    ensures u_009b { quoted ((0xc2 ∷ 0x9b ∷ [])) ≡ codes "\"\\u009b\"" }
    ensures u_061c { quoted ((0xd8 ∷ 0x9c ∷ [])) ≡ codes "\"\\u061c\"" }
    ensures u_200e { quoted ((0xe2 ∷ 0x80 ∷ 0x8e ∷ [])) ≡ codes "\"\\u200e\"" }
    ensures u_200f { quoted ((0xe2 ∷ 0x80 ∷ 0x8f ∷ [])) ≡ codes "\"\\u200f\"" }
    ensures u_2028 { quoted ((0xe2 ∷ 0x80 ∷ 0xa8 ∷ [])) ≡ codes "\"\\u2028\"" }
    ensures u_202e { quoted ((0xe2 ∷ 0x80 ∷ 0xae ∷ [])) ≡ codes "\"\\u202e\"" }
    ensures u_2066 { quoted ((0xe2 ∷ 0x81 ∷ 0xa6 ∷ [])) ≡ codes "\"\\u2066\"" }
    ensures u_2069 { quoted ((0xe2 ∷ 0x81 ∷ 0xa9 ∷ [])) ≡ codes "\"\\u2069\"" }
    ensures u_feff { quoted ((0xef ∷ 0xbb ∷ 0xbf ∷ [])) ≡ codes "\"\\ufeff\"" }
    ensures u_00a0_as_it_is { quoted ((0xc2 ∷ 0xa0 ∷ [])) ≡ codes "\"" ++ (0xc2 ∷ 0xa0 ∷ []) ++ codes "\"" }
    ensures u_200d_as_it_is { quoted ((0xe2 ∷ 0x80 ∷ 0x8d ∷ [])) ≡ codes "\"" ++ (0xe2 ∷ 0x80 ∷ 0x8d ∷ []) ++ codes "\"" }
    ensures u_2010_as_it_is { quoted ((0xe2 ∷ 0x80 ∷ 0x90 ∷ [])) ≡ codes "\"" ++ (0xe2 ∷ 0x80 ∷ 0x90 ∷ []) ++ codes "\"" }
    ensures u_2027_as_it_is { quoted ((0xe2 ∷ 0x80 ∷ 0xa7 ∷ [])) ≡ codes "\"" ++ (0xe2 ∷ 0x80 ∷ 0xa7 ∷ []) ++ codes "\"" }
    ensures u_202f_as_it_is { quoted ((0xe2 ∷ 0x80 ∷ 0xaf ∷ [])) ≡ codes "\"" ++ (0xe2 ∷ 0x80 ∷ 0xaf ∷ []) ++ codes "\"" }
    ensures u_00ad { quoted (0xc2 ∷ 0xad ∷ []) ≡ codes "\"\\u00ad\"" }
    ensures u_034f { quoted (0xcd ∷ 0x8f ∷ []) ≡ codes "\"\\u034f\"" }
    ensures u_115f { quoted (0xe1 ∷ 0x85 ∷ 0x9f ∷ []) ≡ codes "\"\\u115f\"" }
    ensures u_17b5 { quoted (0xe1 ∷ 0x9e ∷ 0xb5 ∷ []) ≡ codes "\"\\u17b5\"" }
    ensures u_180e { quoted (0xe1 ∷ 0xa0 ∷ 0x8e ∷ []) ≡ codes "\"\\u180e\"" }
    ensures u_200b { quoted (0xe2 ∷ 0x80 ∷ 0x8b ∷ []) ≡ codes "\"\\u200b\"" }
    ensures u_2060 { quoted (0xe2 ∷ 0x81 ∷ 0xa0 ∷ []) ≡ codes "\"\\u2060\"" }
    ensures u_206f { quoted (0xe2 ∷ 0x81 ∷ 0xaf ∷ []) ≡ codes "\"\\u206f\"" }
    ensures u_3164 { quoted (0xe3 ∷ 0x85 ∷ 0xa4 ∷ []) ≡ codes "\"\\u3164\"" }
    ensures u_ffa0 { quoted (0xef ∷ 0xbe ∷ 0xa0 ∷ []) ≡ codes "\"\\uffa0\"" }
    ensures u_fff0 { quoted (0xef ∷ 0xbf ∷ 0xb0 ∷ []) ≡ codes "\"\\ufff0\"" }
    ensures u_fff8 { quoted (0xef ∷ 0xbf ∷ 0xb8 ∷ []) ≡ codes "\"\\ufff8\"" }
    ensures u_1bca3 { quoted (0xf0 ∷ 0x9b ∷ 0xb2 ∷ 0xa3 ∷ []) ≡ codes "\"\\ud82f\\udca3\"" }
    ensures u_1d173 { quoted (0xf0 ∷ 0x9d ∷ 0x85 ∷ 0xb3 ∷ []) ≡ codes "\"\\ud834\\udd73\"" }
    ensures u_e0001 { quoted (0xf3 ∷ 0xa0 ∷ 0x80 ∷ 0x81 ∷ []) ≡ codes "\"\\udb40\\udc01\"" }
    ensures u_e01f0 { quoted (0xf3 ∷ 0xa0 ∷ 0x87 ∷ 0xb0 ∷ []) ≡ codes "\"\\udb40\\uddf0\"" }
    ensures u_e0fff { quoted (0xf3 ∷ 0xa0 ∷ 0xbf ∷ 0xbf ∷ []) ≡ codes "\"\\udb43\\udfff\"" }
    ensures u_180b_as_it_is { quoted (0xe1 ∷ 0xa0 ∷ 0x8b ∷ []) ≡ codes "\"" ++ (0xe1 ∷ 0xa0 ∷ 0x8b ∷ []) ++ codes "\"" }
    ensures u_200c_as_it_is { quoted (0xe2 ∷ 0x80 ∷ 0x8c ∷ []) ≡ codes "\"" ++ (0xe2 ∷ 0x80 ∷ 0x8c ∷ []) ++ codes "\"" }
    ensures u_3163_as_it_is { quoted (0xe3 ∷ 0x85 ∷ 0xa3 ∷ []) ≡ codes "\"" ++ (0xe3 ∷ 0x85 ∷ 0xa3 ∷ []) ++ codes "\"" }
    ensures u_fe0f_as_it_is { quoted (0xef ∷ 0xb8 ∷ 0x8f ∷ []) ≡ codes "\"" ++ (0xef ∷ 0xb8 ∷ 0x8f ∷ []) ++ codes "\"" }
    ensures u_fff9_as_it_is { quoted (0xef ∷ 0xbf ∷ 0xb9 ∷ []) ≡ codes "\"" ++ (0xef ∷ 0xbf ∷ 0xb9 ∷ []) ++ codes "\"" }
    ensures u_e0100_as_it_is { quoted (0xf3 ∷ 0xa0 ∷ 0x84 ∷ 0x80 ∷ []) ≡ codes "\"" ++ (0xf3 ∷ 0xa0 ∷ 0x84 ∷ 0x80 ∷ []) ++ codes "\"" }
    ensures u_e01ef_as_it_is { quoted (0xf3 ∷ 0xa0 ∷ 0x87 ∷ 0xaf ∷ []) ≡ codes "\"" ++ (0xf3 ∷ 0xa0 ∷ 0x87 ∷ 0xaf ∷ []) ++ codes "\"" }
    ensures u_1f600_as_it_is { quoted ((0xf0 ∷ 0x9f ∷ 0x98 ∷ 0x80 ∷ [])) ≡ codes "\"" ++ (0xf0 ∷ 0x9f ∷ 0x98 ∷ 0x80 ∷ []) ++ codes "\"" }
{}

/// Bodies of pings and pongs: as text only if each byte is printable ASCII.
pub fn of_pings()
    ensures tilde { body_view 48 (0x7e ∷ []) ≡ codes "\"~\"" }
    ensures byte_0x7f { body_view 48 (0x7f ∷ []) ≡ codes "7f" }
    ensures space { body_view 48 (0x20 ∷ []) ≡ codes "\" \"" }
    ensures byte_0x1f { body_view 48 (0x1f ∷ []) ≡ codes "1f" }
    ensures not_ascii { body_view 48 ((0xc3 ∷ 0xa9 ∷ [])) ≡ codes "c3a9" }
    ensures later_byte { body_view 2 (0x61 ∷ 0x62 ∷ 0x0a ∷ []) ≡ codes "61 .." }
{}

/// The lines of what is unfinished: of a text its whole characters, of all else the bytes in hexadecimal.
pub fn of_unfinished()
    ensures binary { item_line 48 Server None (Unfinished 17 (Message kind.Binary (0x00 ∷ 0xff ∷ [])) 1 (Some 144)) ≡ codes "S - 17 unfinished binary 2 1 lacks 144 00ff\n" }
    ensures text { item_line 48 Server None (Unfinished 0 (Message kind.Text (codes "a" ++ (0xe2 ∷ 0x82 ∷ []))) 2 (Some 0)) ≡ codes "S - 0 unfinished text 3 2 lacks 0 \"a\" ..\n" }
    ensures part_of_next_head { item_line 48 Server None (Unfinished 0 (Message kind.Text (codes "A")) 1 None) ≡ codes "S - 0 unfinished text 1 1 lacks - \"A\"\n" }
    ensures ping { item_line 48 Server None (Unfinished 3 (Control Ping (codes "p")) 1 (Some 1)) ≡ codes "S - 3 unfinished ping 1 1 lacks 1 70\n" }
    ensures close { item_line 48 Server None (Unfinished 3 (Control Close ((0x03 ∷ []))) 1 (Some 4)) ≡ codes "S - 3 unfinished close 1 1 lacks 4 03\n" }
    ensures nothing_yet { item_line 48 Server None (Unfinished 3 (Control Ping []) 1 (Some 4)) ≡ codes "S - 3 unfinished ping 0 1 lacks 4 -\n" }
    ensures head { item_line 48 Client (Some (codes "1.5")) (UnfinishedHead 9) ≡ codes "C 1.5 9 unfinished head 0 0 lacks - -\n" }
    ensures at_the_end { item_entry format.Text 48 Server (AtEnd (Some (codes "1.5"))) (Unfinished 17 (Message kind.Binary (0x00 ∷ 0xff ∷ [])) 1 (Some 144)) ≡ codes "S 1.5 17 unfinished binary 2 1 lacks 144 00ff\n" }
    ensures at_the_end_without_a_time { item_entry format.Text 48 Server (AtEnd None) (UnfinishedHead 9) ≡ codes "S - 9 unfinished head 0 0 lacks - -\n" }
{}

/// The lines of refusals and of the bytes after them, of tails and of end marks.
pub fn of_refusals()
    ensures refused { item_line 48 Server None (RefusedFrame 7 (record { offset = 11; reason = TextBad }) (codes "Gr" ++ (0xfc ∷ [])) None) ≡ codes "S - 7 refused 11 text-bad 1007 4772fc\n" }
    ensures refused_at_6 { item_line 6 Server None (RefusedFrame 7 (record { offset = 11; reason = TextBad }) (codes "Gr" ++ (0xfc ∷ [])) None) ≡ codes "S - 7 refused 11 text-bad 1007 4772fc\n" }
    ensures refused_at_5 { item_line 5 Server None (RefusedFrame 7 (record { offset = 11; reason = TextBad }) (codes "Gr" ++ (0xfc ∷ [])) None) ≡ codes "S - 7 refused 11 text-bad 1007 ..72fc\n" }
    ensures refused_at_2 { item_line 2 Server None (RefusedFrame 7 (record { offset = 11; reason = TextBad }) (codes "Gr" ++ (0xfc ∷ [])) None) ≡ codes "S - 7 refused 11 text-bad 1007 ..fc\n" }
    ensures refused_at_1 { item_line 1 Server None (RefusedFrame 7 (record { offset = 11; reason = TextBad }) (codes "Gr" ++ (0xfc ∷ [])) None) ≡ codes "S - 7 refused 11 text-bad 1007 ..\n" }
    ensures refused_at_0 { item_line 0 Server None (RefusedFrame 7 (record { offset = 11; reason = TextBad }) (codes "Gr" ++ (0xfc ∷ [])) None) ≡ codes "S - 7 refused 11 text-bad 1007 -\n" }
    ensures unread { item_line 48 Server None (Unread 12 ((0xdf ∷ []) ++ codes "e" ++ (0x88 ∷ 0x02 ∷ 0x03 ∷ 0xef ∷ []))) ≡ codes "S - 12 unread 6 df65880203ef\n" }
    ensures unread_at_4 { item_line 4 Server None (Unread 12 ((0xdf ∷ []) ++ codes "e" ++ (0x88 ∷ 0x02 ∷ 0x03 ∷ 0xef ∷ []))) ≡ codes "S - 12 unread 6 df65 ..\n" }
    ensures tail { item_line 0 Client None (Tail 2 ((0x81 ∷ []))) ≡ codes "C - 2 tail 1 -\n" }
    ensures end { end_line Server None 18 ≡ codes "S - 18 end\n" }
{}

/// The lines of bad characters: their bytes, and the text up to the last of these, cut to whole characters.
pub fn of_bad_characters()
    ensures whole { character_line 48 Client None (codes "{\"name\":\"Ren" ++ (0xe9 ∷ 0x20 ∷ [])) (record { offset = 18; in_payload = 12; bytes = 0xe9 ∷ 0x20 ∷ []; earlier = [] }) ≡ codes "C - 18 bad-character 12 e920 \"{\\\"name\\\":\\\"Ren\\xe9\\x20\"\n" }
    ensures at_28 { character_line 28 Client None (codes "{\"name\":\"Ren" ++ (0xe9 ∷ 0x20 ∷ [])) (record { offset = 18; in_payload = 12; bytes = 0xe9 ∷ 0x20 ∷ []; earlier = [] }) ≡ codes "C - 18 bad-character 12 e920 \"{\\\"name\\\":\\\"Ren\\xe9\\x20\"\n" }
    ensures at_27 { character_line 27 Client None (codes "{\"name\":\"Ren" ++ (0xe9 ∷ 0x20 ∷ [])) (record { offset = 18; in_payload = 12; bytes = 0xe9 ∷ 0x20 ∷ []; earlier = [] }) ≡ codes "C - 18 bad-character 12 e920 ..\"\\\"name\\\":\\\"Ren\\xe9\\x20\"\n" }
    ensures at_10 { character_line 10 Client None (codes "{\"name\":\"Ren" ++ (0xe9 ∷ 0x20 ∷ [])) (record { offset = 18; in_payload = 12; bytes = 0xe9 ∷ 0x20 ∷ []; earlier = [] }) ≡ codes "C - 18 bad-character 12 e920 ..\"Ren\\xe9\\x20\"\n" }
    ensures at_2 { character_line 2 Client None (codes "{\"name\":\"Ren" ++ (0xe9 ∷ 0x20 ∷ [])) (record { offset = 18; in_payload = 12; bytes = 0xe9 ∷ 0x20 ∷ []; earlier = [] }) ≡ codes "C - 18 bad-character 12 e920 ..\"\\xe9\\x20\"\n" }
    ensures at_1 { character_line 1 Client None (codes "{\"name\":\"Ren" ++ (0xe9 ∷ 0x20 ∷ [])) (record { offset = 18; in_payload = 12; bytes = 0xe9 ∷ 0x20 ∷ []; earlier = [] }) ≡ codes "C - 18 bad-character 12 e920 ..\"\\xe9\\x20\"\n" }
    ensures at_0 { character_line 0 Client None (codes "{\"name\":\"Ren" ++ (0xe9 ∷ 0x20 ∷ [])) (record { offset = 18; in_payload = 12; bytes = 0xe9 ∷ 0x20 ∷ []; earlier = [] }) ≡ codes "C - 18 bad-character 12 - -\n" }
    ensures with_a_time { character_line 48 Server (Some (codes "1.5")) (codes "Gr" ++ (0xfc ∷ [])) (record { offset = 11; in_payload = 2; bytes = 0xfc ∷ []; earlier = [] }) ≡ codes "S 1.5 11 bad-character 2 fc \"Gr\\xfc\"\n" }
    ensures cut_within_a_character { character_line 10 Server None (codes "a" ++ (0xe2 ∷ 0x82 ∷ 0xac ∷ []) ++ codes "b" ++ (0xe9 ∷ 0x20 ∷ [])) (record { offset = 7; in_payload = 5; bytes = 0xe9 ∷ 0x20 ∷ []; earlier = [] }) ≡ codes "S - 7 bad-character 5 e920 ..\"b\\xe9\\x20\"\n" }
    ensures cut_before_a_character { character_line 12 Server None (codes "a" ++ (0xe2 ∷ 0x82 ∷ 0xac ∷ []) ++ codes "b" ++ (0xe9 ∷ 0x20 ∷ [])) (record { offset = 7; in_payload = 5; bytes = 0xe9 ∷ 0x20 ∷ []; earlier = [] }) ≡ codes "S - 7 bad-character 5 e920 ..\"" ++ (0xe2 ∷ 0x82 ∷ 0xac ∷ []) ++ codes "b\\xe9\\x20\"\n" }
    ensures of_two_frames { character_line 48 Server None (0x20 ∷ []) (record { offset = 2; in_payload = 0; bytes = 0xe2 ∷ 0x82 ∷ 0x20 ∷ []; earlier = 0xe2 ∷ 0x82 ∷ [] }) ≡ codes "S - 2 bad-character 0 e28220 \"\\xe2\\x82\\x20\"\n" }
    ensures after_a_character_of_two_frames { character_line 48 Server None ((0x82 ∷ 0xac ∷ []) ++ codes "a" ++ (0xfc ∷ [])) (record { offset = 8; in_payload = 4; bytes = 0xfc ∷ []; earlier = 0xe2 ∷ [] }) ≡ codes "S - 8 bad-character 4 fc \"" ++ (0xe2 ∷ 0x82 ∷ 0xac ∷ []) ++ codes "a\\xfc\"\n" }
    ensures after_earlier_frames { character_line 48 Server None (0x20 ∷ []) (record { offset = 5; in_payload = 3; bytes = 0xe2 ∷ 0x82 ∷ 0x20 ∷ []; earlier = codes "abc" ++ (0xe2 ∷ 0x82 ∷ []) }) ≡ codes "S - 5 bad-character 3 e28220 \"abc\\xe2\\x82\\x20\"\n" }
    ensures after_earlier_frames_at_8 { character_line 8 Server None (0x20 ∷ []) (record { offset = 5; in_payload = 3; bytes = 0xe2 ∷ 0x82 ∷ 0x20 ∷ []; earlier = codes "abc" ++ (0xe2 ∷ 0x82 ∷ []) }) ≡ codes "S - 5 bad-character 3 e28220 ..\"c\\xe2\\x82\\x20\"\n" }
    ensures after_the_end_of_a_long_frame { character_line 200 Server None (0xfc ∷ []) (record { offset = 100; in_payload = 96; bytes = 0xfc ∷ []; earlier = codes "bcd" }) ≡ codes "S - 100 bad-character 96 fc ..\"bcd\\xfc\"\n" }
    ensures after_a_hidden_character { character_line 48 Server None (0x09 ∷ 0xfc ∷ []) (record { offset = 3; in_payload = 1; bytes = 0xfc ∷ []; earlier = [] }) ≡ codes "S - 3 bad-character 1 fc \"\\u0009\\xfc\"\n" }
    ensures after_its_refusal { item_lines 48 Server None (RefusedFrame 7 (record { offset = 11; reason = TextBad }) (codes "Gr" ++ (0xfc ∷ [])) (Some (record { offset = 11; in_payload = 2; bytes = 0xfc ∷ []; earlier = [] }))) ≡ codes "S - 7 refused 11 text-bad 1007 4772fc\nS - 11 bad-character 2 fc \"Gr\\xfc\"\n" }
    ensures without_one { item_lines 48 Server None (RefusedFrame 7 (record { offset = 7; reason = ReservedBits }) (0xc1 ∷ []) None) ≡ codes "S - 7 refused 7 reserved-bits 1002 c1\n" }
{}

/// The lines of comments: hidden characters are escaped; of what is not UTF-8, all bytes that are not printable ASCII. A
/// backslash is doubled.
pub fn of_comments()
    ensures as_it_is { comment_line (codes "# reset by \"the\" server") ≡ codes "# reset by \"the\" server\n" }
    ensures backslash { comment_line (codes "#C:\\x") ≡ codes "#C:\\\\x\n" }
    ensures not_ascii { comment_line (codes "#" ++ (0xc3 ∷ 0xa9 ∷ [])) ≡ codes "#" ++ (0xc3 ∷ 0xa9 ∷ []) ++ codes "\n" }
    ensures tab { comment_line (0x23 ∷ 0x09 ∷ []) ≡ codes "#\\u0009\n" }
    ensures u_009b { comment_line (0x23 ∷ 0xc2 ∷ 0x9b ∷ []) ≡ codes "#\\u009b\n" }
    ensures u_202e { comment_line (0x23 ∷ 0xe2 ∷ 0x80 ∷ 0xae ∷ []) ≡ codes "#\\u202e\n" }
    ensures not_utf_8 { comment_line (0x23 ∷ 0xe9 ∷ 0x09 ∷ []) ≡ codes "#\\xe9\\x09\n" }
    ensures written_out { comment_line (codes "#\\xe9\\u202e") ≡ codes "#\\\\xe9\\\\u202e\n" }
    ensures backslash_not_utf_8 { comment_line (0x23 ∷ 0x5c ∷ 0xe9 ∷ []) ≡ codes "#\\\\\\xe9\n" }
    ensures partly_utf_8 { comment_line (0x23 ∷ 0xc3 ∷ 0xa9 ∷ 0xe9 ∷ []) ≡ codes "#\\xc3\\xa9\\xe9\n" }
{}
