//! Laws of masking and of frames' bytes, over the definitions in `specs/`. The functions do nothing when called; their
//! contracts are proved.
ghost use Rattle.std.specs.Prelude.{◌≡◌, ℕ, ◌+◌, ◌<◌, ◌^◌, Bool, true, Option, None, List, [], ◌∷◌, ◌++◌, length, is_some};
ghost use Rattle.wsn_wire.specs.Frame.{Frame, IsBytes, IsEncodable, masked, opcode, first_byte, second_byte, len_form_of, length_bytes, head_bytes, frame_bytes, FormFits};
ghost use Rattle.wsn_wire.specs.ReceivedHead.{fin_bit, reserved_bits, opcode_field, mask_bit, len_form_at, length_count, encoded_length, HasLayout};
ghost use Rattle.wsn_wire.specs.HeadLaw.{IsEncodedFor};
ghost use Rattle.wsn_wire.specs.EvidenceInHeads.{HeadHasNoEvidence, IsNoCloseOfOneByte};
ghost use Rattle.wsn_wire.specs.declared.endpoint.Role.{Role};
ghost use Rattle.wsn_wire.specs.declared.opcode.Op.{Op};
ghost use Rattle.wsn_wire.specs.declared.length_encoding.Form.{Form};
ghost use Rattle.wsn_wire.specs.declared.length_encoding.Lengths.{Lengths};

/// Masking a payload in two parts, the second from the offset where the first ends, is masking it as a whole (RFC 6455
/// section 5.3).
pub fn masking_appends()
    ensures { (key : List ℕ) (start : ℕ) (xs ys : List ℕ) →
        masked key start (xs ++ ys) ≡ masked key start xs ++ masked key (start + length xs) ys }
{}

/// Masking is its own inverse (RFC 6455 section 5.3).
pub fn masking_twice_is_nothing()
    ensures { (key : List ℕ) (start : ℕ) (bytes : List ℕ) →
        masked key start (masked key start bytes) ≡ bytes }
{}

/// Masking keeps the length (RFC 6455 section 5.3).
pub fn masking_keeps_length()
    ensures { (key : List ℕ) (start : ℕ) (bytes : List ℕ) →
        length (masked key start bytes) ≡ length bytes }
{}

/// Masking with a key of four zeros changes nothing.
pub fn masking_by_zeros_is_nothing()
    ensures { (start : ℕ) (bytes : List ℕ) → masked (0 ∷ 0 ∷ 0 ∷ 0 ∷ []) start bytes ≡ bytes }
{}

/// Masking bytes with a key of bytes gives bytes.
pub fn masking_gives_bytes()
    ensures { (key : List ℕ) (start : ℕ) (bytes : List ℕ) →
        IsBytes key → IsBytes bytes → IsBytes (masked key start bytes) }
{}

/// The first byte of a frame determines FIN and the opcode, and has no reserved bit set (RFC 6455 section 5.2).
pub fn first_byte_decodes()
    ensures fin { (fin : Bool) (op : Op) → fin_bit (first_byte fin op) ≡ fin }
    ensures unreserved { (fin : Bool) (op : Op) → reserved_bits (first_byte fin op) ≡ 0 }
    ensures op { (fin : Bool) (op : Op) → opcode_field (first_byte fin op) ≡ opcode op }
    ensures determines { (fin other_fin : Bool) (op other_op : Op) →
        first_byte fin op ≡ first_byte other_fin other_op → (fin ≡ other_fin) × (op ≡ other_op) }
{}

/// The second byte of a frame determines whether there is a key, and the length form (RFC 6455 section 5.2).
pub fn second_byte_decodes()
    ensures mask { (key : Option (List ℕ)) (form : Form) (len : ℕ) → FormFits form len → len < 2 ^ 63 →
        mask_bit (second_byte key (len_form_of form len)) ≡ is_some key }
    ensures field { (key : Option (List ℕ)) (form : Form) (len : ℕ) → FormFits form len → len < 2 ^ 63 →
        len_form_at (second_byte key (len_form_of form len)) ≡ len_form_of form len }
{}

/// The length bytes determine the length, and their number is the one that the length field gives (RFC 6455 section
/// 5.2).
pub fn length_bytes_decode()
    ensures decoded { (form : Form) (len : ℕ) → FormFits form len → len < 2 ^ 63 →
        encoded_length (len_form_of form len) (length_bytes (len_form_of form len) len) ≡ len }
    ensures count { (form : Form) (len : ℕ) → FormFits form len → len < 2 ^ 63 →
        length (length_bytes (len_form_of form len) len) ≡ length_count (len_form_of form len) }
    ensures determines { (form other : Form) (len : ℕ) → FormFits form len → FormFits other len →
        len_form_of form len ≡ len_form_of other len → form ≡ other }
{}

/// The bytes of a frame have the layout of a frame (RFC 6455 section 5.2).
pub fn frames_have_the_layout()
    ensures { (f : Frame) → IsEncodable f → HasLayout (frame_bytes f) }
{}

/// The bytes of a frame, with any bytes after them, determine the frame and the bytes after it.
pub fn frame_bytes_determine_the_frame()
    ensures { (f g : Frame) (xs ys : List ℕ) → IsEncodable f → IsEncodable g →
        frame_bytes f ++ xs ≡ frame_bytes g ++ ys → (f ≡ g) × (xs ≡ ys) }
{}

/// The head of a frame that is encoded as its sender must, and isn't a Close with a body of one byte, is evidence for no
/// reason to refuse it.
pub fn owed_heads_have_no_evidence()
    ensures { (role : Role) (lengths : Lengths) (f : Frame) → IsEncodedFor role lengths f → IsNoCloseOfOneByte f →
        HeadHasNoEvidence role lengths (first_byte f.fin f.op)
        (second_byte f.key (len_form_of f.form (length f.payload)))
        (length_bytes (len_form_of f.form (length f.payload)) (length f.payload)) }
{}

/// A complete layout whose head is evidence for no refusal is the bytes of a frame that is encoded as its sender must,
/// and isn't a Close with a body of one byte.
pub fn layouts_without_evidence_are_frames()
    ensures { (role : Role) (lengths : Lengths) (bytes : List ℕ) (l : HasLayout bytes) →
        HeadHasNoEvidence role lengths l.first l.second l.len →
        (f : Frame) × IsEncodedFor role lengths f × IsNoCloseOfOneByte f × (frame_bytes f ≡ bytes) }
{}

/// A server's heads of final frames, byte for byte: at the lengths where the shortest encoding changes, and for a
/// payload of one byte with its length in two and in eight bytes (RFC 6455 section 5.2).
pub fn heads_byte_for_byte()
    ensures len_125 { head_bytes true Op.Binary None Form.Shortest 125 ≡ 0x82 ∷ 0x7d ∷ [] }
    ensures len_126 { head_bytes true Op.Binary None Form.Shortest 126 ≡ 0x82 ∷ 0x7e ∷ 0x00 ∷ 0x7e ∷ [] }
    ensures len_65535 { head_bytes true Op.Binary None Form.Shortest 65535 ≡ 0x82 ∷ 0x7e ∷ 0xff ∷ 0xff ∷ [] }
    ensures len_65536 { head_bytes true Op.Binary None Form.Shortest 65536
        ≡ 0x82 ∷ 0x7f ∷ 0x00 ∷ 0x00 ∷ 0x00 ∷ 0x00 ∷ 0x00 ∷ 0x01 ∷ 0x00 ∷ 0x00 ∷ [] }
    ensures in_two { head_bytes true Op.Text None Form.Two 1 ≡ 0x81 ∷ 0x7e ∷ 0x00 ∷ 0x01 ∷ [] }
    ensures in_eight { head_bytes true Op.Text None Form.Eight 1
        ≡ 0x81 ∷ 0x7f ∷ 0x00 ∷ 0x00 ∷ 0x00 ∷ 0x00 ∷ 0x00 ∷ 0x00 ∷ 0x00 ∷ 0x01 ∷ [] }
{}
