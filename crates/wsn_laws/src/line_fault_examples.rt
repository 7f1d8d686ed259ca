//! Examples of the faults of a capture's lines, computed from the definitions in `wsn_capture/specs/LineFaults.antt`: the
//! first fault of a line, and the word of each.

ghost use Rattle.std.specs.Prelude.{◌≡◌, ℕ, List, [], ◌∷◌, ◌++◌, codes, length};
ghost use Rattle.wsn_wire.specs.declared.endpoint.Role.TheVariants.{Client, Server};
ghost use Rattle.wsn_rules.specs.Examples.{greatest};
ghost use Rattle.wsn_rules.specs.Entries.{Entry, without_cr};
ghost use Rattle.wsn_rules.specs.Entries.Entry.{Nothing, Bytes, Mark};
ghost use Rattle.wsn_rules.specs.Limits.{Limits};
ghost use Rattle.wsn_capture.specs.LineFaults.{IsFirstLineFault, IsAcceptedLine, fault_word};
ghost use Rattle.wsn_capture.specs.declared.line_fault.LineFault.{LineFault};
ghost use Rattle.wsn_capture.specs.declared.line_fault.LineFault.TheVariants.{TooManyLines, TooLong, BadForm, BadHex, AfterEnd, InputLimit};

/// The word of each fault.
pub fn words()
    ensures too_many_lines { fault_word TooManyLines ≡ codes "too-many-lines" }
    ensures too_long { fault_word TooLong ≡ codes "too-long" }
    ensures bad_form { fault_word BadForm ≡ codes "bad-form" }
    ensures bad_hex { fault_word BadHex ≡ codes "bad-hex" }
    ensures after_end { fault_word AfterEnd ≡ codes "after-end" }
    ensures input_limit { fault_word InputLimit ≡ codes "input-limit" }
{}

/// At most a million lines, whatever the next one is.
pub fn too_many_lines()
    ensures one_more { (given : List Entry) (line : List ℕ) → length given ≡ 1000000 →
        IsFirstLineFault greatest given line TooManyLines }
    ensures the_last { (given : List Entry) → length given ≡ 999999 → IsAcceptedLine greatest given [] Nothing }
{}

/// At most 8,194 bytes, whatever these are, and a CR.
pub fn too_long()
    ensures one_more { (line : List ℕ) → length (without_cr line) ≡ 8195 → IsFirstLineFault greatest [] line TooLong }
    ensures the_longest { (comment : List ℕ) → length (without_cr (35 ∷ comment)) ≡ 8194 →
        IsAcceptedLine greatest [] (35 ∷ comment) Nothing }
{}

/// Lines of no form.
pub fn bad_forms()
    ensures other_letter { IsFirstLineFault greatest [] (codes "X") BadForm }
    ensures letter_alone { IsFirstLineFault greatest [] (codes "C") BadForm }
    ensures small_letter { IsFirstLineFault greatest [] (codes "c 81") BadForm }
    ensures mark_and_space { IsFirstLineFault greatest [] (codes "C. ") BadForm }
    ensures mark_and_cr_twice { IsFirstLineFault greatest [] (codes "S.\r\r") BadForm }
    ensures no_space { IsFirstLineFault greatest [] (codes "S81") BadForm }
    ensures space_first { IsFirstLineFault greatest [] (codes " S 81") BadForm }
    ensures tab { IsFirstLineFault greatest [] (codes "S\t81") BadForm }
{}

/// What follows the space isn't one or more pairs of digits.
pub fn bad_digits()
    ensures none { IsFirstLineFault greatest [] (codes "C ") BadHex }
    ensures one { IsFirstLineFault greatest [] (codes "C 8") BadHex }
    ensures three { IsFirstLineFault greatest [] (codes "S 810") BadHex }
    ensures no_digit { IsFirstLineFault greatest [] (codes "C zz") BadHex }
    ensures space_after { IsFirstLineFault greatest [] (codes "S 81 ") BadHex }
    ensures two_spaces { IsFirstLineFault greatest [] (codes "S  81") BadHex }
{}

/// Nothing of an endpoint comes after its end mark.
pub fn after_the_end()
    ensures bytes { IsFirstLineFault greatest (Mark Client ∷ []) (codes "C 81") AfterEnd }
    ensures mark { IsFirstLineFault greatest (Mark Server ∷ []) (codes "S.") AfterEnd }
    ensures other_endpoint { IsAcceptedLine greatest (Mark Client ∷ []) (codes "S.") (Mark Server) }
    ensures comment { IsAcceptedLine greatest (Mark Client ∷ []) (codes "# C") Nothing }
{}

/// The bytes of one endpoint are at most the input limit.
pub fn over_the_input_limit()
    ensures two { (limits : Limits) → limits.input ≡ 1 → IsFirstLineFault limits [] (codes "S 8100") InputLimit }
    ensures one_more { (limits : Limits) → limits.input ≡ 1 →
        IsFirstLineFault limits (Bytes Client (0x81 ∷ []) ∷ []) (codes "C 00") InputLimit }
    ensures one { (limits : Limits) → limits.input ≡ 1 → IsAcceptedLine limits [] (codes "S 81") (Bytes Server (0x81 ∷ [])) }
    ensures of_each { (limits : Limits) → limits.input ≡ 1 →
        IsAcceptedLine limits (Bytes Client (0x81 ∷ []) ∷ []) (codes "S 81") (Bytes Server (0x81 ∷ [])) }
{}

/// Of a line's faults, the first in the order is reported.
pub fn order_of_faults()
    ensures many_before_long { (given : List Entry) (line : List ℕ) → length given ≡ 1000000 →
        length (without_cr line) ≡ 8195 → IsFirstLineFault greatest given line TooManyLines }
    ensures long_before_form { (rest : List ℕ) → length (without_cr (88 ∷ rest)) ≡ 8195 →
        IsFirstLineFault greatest [] (88 ∷ rest) TooLong }
    ensures digits_before_end { IsFirstLineFault greatest (Mark Client ∷ []) (codes "C zz") BadHex }
    ensures form_before_end { IsFirstLineFault greatest (Mark Client ∷ []) (codes "C. ") BadForm }
    ensures end_before_limit { (limits : Limits) → limits.input ≡ 1 →
        IsFirstLineFault limits (Mark Client ∷ []) (codes "C 8100") AfterEnd }
{}
