//! Sides of texts that are written out, computed from the definitions in `wsn_capture/specs/SideTexts.antt`.

ghost use Rattle.std.specs.Prelude.{◌≡◌, ℕ, [], ◌∷◌, ◌++◌, codes};
ghost use Rattle.wsn_wire.specs.declared.endpoint.Role.TheVariants.{Client, Server};
ghost use Rattle.wsn_capture.specs.declared.line_fault.LineFault.TheVariants.{BadForm, BadHex, AfterEnd};
ghost use Rattle.wsn_capture.specs.SideTexts.{sent_in, sentinel};

/// Sides of texts whose lines are all accepted.
pub fn accepted_sides()
    ensures nothing { sent_in Client [] ≡ [] }
    ensures client { sent_in Client (codes "C 0a0B\n#S 81\nS 0c\n\nC.\nS 0d") ≡ 10 ∷ 11 ∷ [] }
    ensures server { sent_in Server (codes "C 0a0B\n#S 81\nS 0c\n\nC.\nS 0d") ≡ 12 ∷ 13 ∷ [] }
    ensures cr { sent_in Server (codes "S 0c" ++ 13 ∷ 10 ∷ 13 ∷ []) ≡ 12 ∷ [] }
{}

/// Sides that end at a line that isn't accepted: its number and its fault.
pub fn faulty_sides()
    ensures form { sent_in Client (codes "C 0a\nX\nC 0b\n") ≡ 10 ∷ sentinel 2 BadForm ∷ [] }
    ensures hex { sent_in Client (codes "S 0\nC 0a") ≡ sentinel 1 BadHex ∷ [] }
    ensures bytes_after_end { sent_in Server (codes "S 0c\nS.\nS 0d") ≡ 12 ∷ sentinel 3 AfterEnd ∷ [] }
    ensures second_mark { sent_in Server (codes "C.\nS 0c\nC.") ≡ 12 ∷ sentinel 3 AfterEnd ∷ [] }
    ensures hex_after_end { sent_in Client (codes "C.\nC 8") ≡ sentinel 2 BadHex ∷ [] }
    ensures number { sentinel 2 BadForm ≡ 274 }
{}
