//! Laws of writing a recut and reading a plan step by step: one frame for each step, one step for each frame. The
//! functions do nothing when called; their contracts are proved.

ghost use Rattle.std.specs.Prelude.{◌≡◌, ℕ, ◌+◌, ◌-◌, ◌≤◌, true, false, Option, List, [], ◌∷◌, ◌++◌, length, take, drop};
ghost use Rattle.wsn_wire.specs.declared.endpoint.Role.{Role};
ghost use Rattle.wsn_wire.specs.declared.opcode.Op.{Op};
ghost use Rattle.wsn_wire.specs.declared.opcode.Kind.{Kind};
ghost use Rattle.wsn_wire.specs.declared.length_encoding.Form.{Form};
ghost use Rattle.wsn_wire.specs.Frame.{Frame, frame_bytes, head_bytes, wire_payload};
ghost use Rattle.wsn_rules.specs.declared.step.Step.{Step};
ghost use Rattle.wsn_rules.specs.Limits.{Limits};
ghost use Rattle.wsn_rules.specs.Meaning.{MeantEvent};
ghost use Rattle.wsn_rules.specs.NormalForm.{op_of};
ghost use Rattle.wsn_rules.specs.WalkedPlan.{HasWalked};
ghost use Rattle.wsn_rules.specs.Recut.{next_message, op_after, step_frame, recut, recut_bytes, step_of, plan_of};
ghost use Rattle.wsn_wire.specs.declared.opcode.Op.TheVariants.{Continue};
ghost use Rattle.wsn_wire.specs.declared.length_encoding.Form.TheVariants.{Shortest};
ghost use Rattle.wsn_rules.specs.declared.step.Step.TheVariants.{Piece, Last, Control};
ghost use Rattle.wsn_rules.specs.Meaning as meant;

/// A recut continues with one frame for each step. The frame depends on the Pieces that are pending and the events that
/// are left.
pub fn law_recut_goes_on()
    ensures nothing { (events : List MeantEvent) → recut_bytes [] events ≡ [] }
    ensures frame { (role : Role) (limits : Limits) (events : List MeantEvent) (plan : List Step) (count held : ℕ)
        (left : List MeantEvent) → HasWalked role limits events plan count held left → (step : Step) →
        recut (plan ++ step ∷ []) events ≡ recut plan events ++ step_frame count held left step ∷ [] }
    ensures bytes { (role : Role) (limits : Limits) (events : List MeantEvent) (plan : List Step) (count held : ℕ)
        (left : List MeantEvent) → HasWalked role limits events plan count held left → (step : Step) →
        recut_bytes (plan ++ step ∷ []) events ≡ recut_bytes plan events
        ++ frame_bytes (step_frame count held left step) }
{}

/// The first frame of a message has the opcode of its kind; the others are continuations.
pub fn law_opcodes_of_a_message()
    ensures first { (kind : Kind) → op_after 0 kind ≡ op_of kind }
    ensures others { (count : ℕ) (kind : Kind) → 1 ≤ count → op_after count kind ≡ Continue }
{}

/// The bytes of a step's frame: a head, and the payload as it is sent. A Piece and a Last contain bytes of the next
/// message, a Control the body of the next control.
pub fn law_bytes_of_a_step()
    ensures piece { (count held : ℕ) (left : List MeantEvent) (kind : Kind) (text : List ℕ) (len : ℕ)
        (key : Option (List ℕ)) (form : Form) → next_message left ≡ (kind, text) → held + len ≤ length text →
        frame_bytes (step_frame count held left (Piece len key form))
        ≡ head_bytes false (op_after count kind) key form len ++ wire_payload key (take len (drop held text)) }
    ensures last { (count held : ℕ) (later : List MeantEvent) (kind : Kind) (text : List ℕ) (key : Option (List ℕ))
        (form : Form) → frame_bytes (step_frame count held (meant.Message kind text ∷ later) (Last key form))
        ≡ head_bytes true (op_after count kind) key form (length text - held) ++ wire_payload key (drop held text) }
    ensures control { (count held : ℕ) (later : List MeantEvent) (op : Op) (body : List ℕ) (key : Option (List ℕ)) →
        frame_bytes (step_frame count held (meant.Control op body ∷ later) (Control key))
        ≡ head_bytes true op key Shortest (length body) ++ wire_payload key body }
{}

/// The plan of frames continues with one step for each frame.
pub fn law_plan_goes_on()
    ensures { (fs : List Frame) (f : Frame) → plan_of (fs ++ f ∷ []) ≡ plan_of fs ++ step_of f ∷ [] }
{}
