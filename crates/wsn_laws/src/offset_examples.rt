//! Examples of where items that are shown are in a stream, from the definitions in `wsn_rules/specs/ShownOffsets.antt`:
//! items that are where they say, and similar ones that are excluded.

ghost use Rattle.std.specs.Prelude.{ℕ, true, None, Some, [], ◌∷◌, codes};
ghost use Rattle.wsn_wire.specs.declared.opcode.Kind.TheVariants as kind;
ghost use Rattle.wsn_wire.specs.declared.opcode.Op.TheVariants.{Ping, Pong};
ghost use Rattle.wsn_wire.specs.declared.length_encoding.Form.TheVariants.{Shortest};
ghost use Rattle.wsn_wire.specs.declared.refusal.Reason.TheVariants.{ReservedBits};
ghost use Rattle.wsn_rules.specs.Meaning.{Message, Control};
ghost use Rattle.wsn_rules.specs.ShownStream.Item.{Event, Head, Unfinished, UnfinishedHead, RefusedFrame};
ghost use Rattle.wsn_rules.specs.ShownOffsets.{AreInPlace, AreHeadsInPlace};

/// A ping, and a text message with the ping between its frames.
pub fn in_place()
    ensures ping { AreInPlace (0x89 ∷ 0x00 ∷ []) (record { after = 2; item = Event 0 (Control Ping []) 1 } ∷ []) }
    ensures ping_between { AreInPlace (0x01 ∷ 0x01 ∷ 0x41 ∷ 0x89 ∷ 0x00 ∷ 0x80 ∷ 0x01 ∷ 0x42 ∷ [])
        (record { after = 5; item = Event 3 (Control Ping []) 1 }
        ∷ record { after = 8; item = Event 0 (Message kind.Text (codes "AB")) 2 } ∷ []) }
{}

/// A wrong offset, a wrong number of frames, and a wrong number of bytes with which an event is shown.
pub fn wrong_events()
    ensures offset { (after : ℕ) →
        ¬ (AreInPlace (0x89 ∷ 0x00 ∷ []) (record { after = after; item = Event 77 (Control Ping []) 1 } ∷ [])) }
    ensures count { (after : ℕ) →
        ¬ (AreInPlace (0x89 ∷ 0x00 ∷ []) (record { after = after; item = Event 0 (Control Ping []) 9 } ∷ [])) }
    ensures offset_and_count { (after : ℕ) →
        ¬ (AreInPlace (0x89 ∷ 0x00 ∷ []) (record { after = after; item = Event 77 (Control Ping []) 9 } ∷ [])) }
    ensures after { ¬ (AreInPlace (0x89 ∷ 0x00 ∷ []) (record { after = 1; item = Event 0 (Control Ping []) 1 } ∷ [])) }
    ensures two_messages { (after : ℕ) →
        ¬ (AreInPlace (0x81 ∷ 0x01 ∷ 0x41 ∷ 0x81 ∷ 0x01 ∷ 0x42 ∷ [])
        (record { after = after; item = Event 0 (Message kind.Text (codes "AB")) 2 } ∷ [])) }
    ensures order { ¬ (AreInPlace (0x89 ∷ 0x00 ∷ 0x8a ∷ 0x00 ∷ [])
        (record { after = 4; item = Event 2 (Control Pong []) 1 }
        ∷ record { after = 2; item = Event 0 (Control Ping []) 1 } ∷ [])) }
{}

/// Frames that lack one byte, shown with other counts; a message that a ping interrupts, and a part of a head before a
/// frame.
pub fn wrong_unfinished()
    ensures lacks { (after : ℕ) →
        ¬ (AreInPlace (0x89 ∷ 0x02 ∷ 0x41 ∷ [])
        (record { after = after; item = Unfinished 0 (Control Ping (0x41 ∷ [])) 1 (Some 5) } ∷ [])) }
    ensures lacks_nothing { (after : ℕ) →
        ¬ (AreInPlace (0x89 ∷ 0x02 ∷ 0x41 ∷ [])
        (record { after = after; item = Unfinished 0 (Control Ping (0x41 ∷ [])) 1 None } ∷ [])) }
    ensures count { (after : ℕ) →
        ¬ (AreInPlace (0x89 ∷ 0x02 ∷ 0x41 ∷ [])
        (record { after = after; item = Unfinished 0 (Control Ping (0x41 ∷ [])) 2 (Some 1) } ∷ [])) }
    ensures message_lacks { (after : ℕ) →
        ¬ (AreInPlace (0x81 ∷ 0x02 ∷ 0x41 ∷ [])
        (record { after = after; item = Unfinished 0 (Message kind.Text (0x41 ∷ [])) 1 (Some 7) } ∷ [])) }
    ensures not_interrupted { ¬ (AreInPlace (0x01 ∷ 0x01 ∷ 0x41 ∷ 0x89 ∷ 0x00 ∷ [])
        (record { after = 5; item = Unfinished 0 (Message kind.Text (0x41 ∷ [])) 1 (Some 0) }
        ∷ record { after = 5; item = Event 3 (Control Ping []) 1 } ∷ [])) }
    ensures head_in_front { ¬ (AreInPlace (0x89 ∷ 0x89 ∷ 0x00 ∷ [])
        (record { after = 1; item = UnfinishedHead 0 } ∷ record { after = 3; item = Event 1 (Control Ping []) 1 } ∷ [])) }
{}

/// A frame that is refused for its first byte, shown with other evidence or another offset of that byte, or together with
/// the frame before it.
pub fn wrong_refusals()
    ensures evidence { (after : ℕ) →
        ¬ (AreInPlace (0xc1 ∷ []) (record {
          after = after;
          item = RefusedFrame 0 (record { offset = 0; reason = ReservedBits }) (0xde ∷ 0xad ∷ []) None;
        } ∷ [])) }
    ensures offset { (after : ℕ) →
        ¬ (AreInPlace (0xc1 ∷ []) (record {
          after = after;
          item = RefusedFrame 0 (record { offset = 5; reason = ReservedBits }) (0xc1 ∷ []) None;
        } ∷ [])) }
    ensures two_frames { (after : ℕ) →
        ¬ (AreInPlace (0x89 ∷ 0x00 ∷ 0xc1 ∷ []) (record {
          after = after;
          item = RefusedFrame 0 (record { offset = 2; reason = ReservedBits }) (0xc1 ∷ []) None;
        } ∷ [])) }
{}

/// The head of a ping at another offset, and shown with other bytes.
pub fn wrong_heads()
    ensures offset { (after : ℕ) →
        ¬ (AreHeadsInPlace (0x89 ∷ 0x00 ∷ []) (record {
          after = after;
          item = Head (record { offset = 5; fin = true; op = Ping; key = None; form = Shortest; len = 0 });
        } ∷ [])) }
    ensures after { ¬ (AreHeadsInPlace (0x89 ∷ 0x00 ∷ []) (record {
      after = 1;
      item = Head (record { offset = 0; fin = true; op = Ping; key = None; form = Shortest; len = 0 });
    } ∷ [])) }
{}
