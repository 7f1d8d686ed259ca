//! Laws of payloads that are shown whole. The functions do nothing when called; their contracts are proved.

ghost use Rattle.std.specs.Prelude.{◌≡◌, ◌≤◌, ℕ, List, length, false};
ghost use Rattle.std.specs.Str.{IsUtf8};
ghost use Rattle.wsn_wire.specs.declared.opcode.Op.{Op};
ghost use Rattle.wsn_rules.specs.Limits.{Limits};
ghost use Rattle.wsn_print.specs.WholeViews.{whole_view};
ghost use Rattle.wsn_shown_text.specs.Views.{view_of_text, view_of_bytes, view_of_control};
ghost use Rattle.wsn_shown_text.specs.Views.Shown.{Text, Hex};

/// With the view that is for whole payloads, all of a payload is shown that a stream under these limits may have: of a text
/// message, of a binary message, and of a control, which has at most 125 bytes (RFC 6455 section 5.5).
pub fn law_whole_views()
    ensures text { (limits : Limits) (text : List ℕ) → length text ≤ limits.message → IsUtf8 text →
        view_of_text (whole_view limits) text ≡ record { shown = Text text; more = false } }
    ensures binary { (limits : Limits) (bytes : List ℕ) → length bytes ≤ limits.message →
        view_of_bytes (whole_view limits) bytes ≡ record { shown = Hex bytes; more = false } }
    ensures control { (limits : Limits) (op : Op) (body : List ℕ) → length body ≤ 125 →
        (view_of_control (whole_view limits) op body).more ≡ false }
{}
