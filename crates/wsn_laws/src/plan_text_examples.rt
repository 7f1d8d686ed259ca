//! Examples of plan text, computed from the definitions in `wsn_plan_text/specs/PlanText.antt`: what is written, what
//! lines encode, the faults of lines, and what texts give.

ghost use Rattle.std.specs.Prelude.{◌≡◌, None, Some, Ok, Err, [], ◌∷◌, codes};
ghost use Rattle.wsn_wire.specs.declared.length_encoding.Form.TheVariants.{Shortest, Two, Eight};
ghost use Rattle.wsn_rules.specs.declared.step.Step.TheVariants.{Piece, Last, Control};
ghost use Rattle.wsn_plan_text.specs.PlanText.{step_line, plan_text, EncodesStep, IsLineFault, IsReadPlan};
ghost use Rattle.wsn_plan_text.specs.declared.plan_fault.LineWhy.TheVariants.{BadForm, BadNumber, BadKey, BadLength};
ghost use Rattle.wsn_plan_text.specs.declared.plan_fault.PlanFault.TheVariants.{Line};

/// The text of some plans.
pub fn written_plans()
    ensures none { plan_text [] ≡ [] }
    ensures three { plan_text (Piece 3 None Shortest ∷ Control None ∷ Last None Shortest ∷ [])
        ≡ codes "piece 3 -\ncontrol -\nlast -\n" }
    ensures masked { plan_text (Last (Some (0x37 ∷ 0xfa ∷ 0x21 ∷ 0x3d ∷ [])) Shortest ∷ []) ≡ codes "last 37fa213d\n" }
    ensures small_key { plan_text (Control (Some (0x00 ∷ 0x00 ∷ 0x00 ∷ 0x01 ∷ [])) ∷ []) ≡ codes "control 00000001\n" }
    ensures longer { plan_text (Piece 0 None Two ∷ Last None Eight ∷ []) ≡ codes "piece 0 - two\nlast - eight\n" }
    ensures longest { plan_text (Piece 18446744073709551615 (Some (0xff ∷ 0xff ∷ 0xff ∷ 0xff ∷ [])) Eight ∷ [])
        ≡ codes "piece 18446744073709551615 ffffffff eight\n" }
{}

/// The line that is written of each step.
pub fn written_steps()
    ensures piece { step_line (Piece 3 None Shortest) ≡ codes "piece 3 -\n" }
    ensures last { step_line (Last None Shortest) ≡ codes "last -\n" }
    ensures control { step_line (Control None) ≡ codes "control -\n" }
    ensures piece_with_key { step_line (Piece 65536 (Some (0x37 ∷ 0xfa ∷ 0x21 ∷ 0x3d ∷ [])) Shortest) ≡ codes "piece 65536 37fa213d\n" }
    ensures last_with_key { step_line (Last (Some (0x37 ∷ 0xfa ∷ 0x21 ∷ 0x3d ∷ [])) Shortest) ≡ codes "last 37fa213d\n" }
    ensures control_with_key { step_line (Control (Some (0x37 ∷ 0xfa ∷ 0x21 ∷ 0x3d ∷ []))) ≡ codes "control 37fa213d\n" }
    ensures piece_two { step_line (Piece 0 None Two) ≡ codes "piece 0 - two\n" }
    ensures piece_eight { step_line (Piece 0 (Some (0x37 ∷ 0xfa ∷ 0x21 ∷ 0x3d ∷ [])) Eight) ≡ codes "piece 0 37fa213d eight\n" }
    ensures last_two { step_line (Last (Some (0x37 ∷ 0xfa ∷ 0x21 ∷ 0x3d ∷ [])) Two) ≡ codes "last 37fa213d two\n" }
    ensures last_eight { step_line (Last None Eight) ≡ codes "last - eight\n" }
{}

/// Lines, without their LF, and the steps that they encode.
pub fn steps()
    ensures piece { EncodesStep (codes "piece 3 -") (Piece 3 None Shortest) }
    ensures last { EncodesStep (codes "last -") (Last None Shortest) }
    ensures control { EncodesStep (codes "control -") (Control None) }
    ensures lower_case { EncodesStep (codes "last 37fa213d") (Last (Some (0x37 ∷ 0xfa ∷ 0x21 ∷ 0x3d ∷ [])) Shortest) }
    ensures upper_case { EncodesStep (codes "last 37FA213D") (Last (Some (0x37 ∷ 0xfa ∷ 0x21 ∷ 0x3d ∷ [])) Shortest) }
    ensures either_case { EncodesStep (codes "control 37Fa213D") (Control (Some (0x37 ∷ 0xfa ∷ 0x21 ∷ 0x3d ∷ []))) }
    ensures nothing { EncodesStep (codes "piece 0 -") (Piece 0 None Shortest) }
    ensures piece_with_key { EncodesStep (codes "piece 12 01020304") (Piece 12 (Some (0x01 ∷ 0x02 ∷ 0x03 ∷ 0x04 ∷ [])) Shortest) }
    ensures longest { EncodesStep (codes "piece 18446744073709551615 -") (Piece 18446744073709551615 None Shortest) }
    ensures piece_two { EncodesStep (codes "piece 5 - two") (Piece 5 None Two) }
    ensures piece_eight { EncodesStep (codes "piece 5 01020304 eight") (Piece 5 (Some (0x01 ∷ 0x02 ∷ 0x03 ∷ 0x04 ∷ [])) Eight) }
    ensures last_two { EncodesStep (codes "last 01020304 two") (Last (Some (0x01 ∷ 0x02 ∷ 0x03 ∷ 0x04 ∷ [])) Two) }
    ensures last_eight { EncodesStep (codes "last - eight") (Last None Eight) }
{}

/// Lines that don't have the fields of a step.
pub fn bad_forms()
    ensures empty { IsLineFault [] BadForm }
    ensures word_alone { IsLineFault (codes "last") BadForm }
    ensures no_key { IsLineFault (codes "last ") BadForm }
    ensures two_spaces { IsLineFault (codes "last  -") BadForm }
    ensures no_number { IsLineFault (codes "piece -") BadForm }
    ensures piece_alone { IsLineFault (codes "piece") BadForm }
    ensures unknown { IsLineFault (codes "lasts -") BadForm }
    ensures capital { IsLineFault (codes "Last -") BadForm }
    ensures space_first { IsLineFault (codes " last -") BadForm }
    ensures space_after { IsLineFault (codes "last - ") BadForm }
    ensures a_space_after_a_form { IsLineFault (codes "last - two ") BadForm }
    ensures control_with_form { IsLineFault (codes "control - two") BadForm }
    ensures too_many { IsLineFault (codes "last - two two") BadForm }
    ensures too_many_of_a_piece { IsLineFault (codes "piece 3 - two two") BadForm }
    ensures tab { IsLineFault (codes "last\t-") BadForm }
{}

/// Numbers that aren't decimal without leading zeros, or don't fit 64 bits.
pub fn bad_numbers()
    ensures leading_zero { IsLineFault (codes "piece 03 -") BadNumber }
    ensures two_zeros { IsLineFault (codes "piece 00 -") BadNumber }
    ensures letter { IsLineFault (codes "piece x y") BadNumber }
    ensures minus { IsLineFault (codes "piece -1 -") BadNumber }
    ensures plus { IsLineFault (codes "piece +1 -") BadNumber }
    ensures too_large { IsLineFault (codes "piece 18446744073709551616 -") BadNumber }
    ensures hexadecimal { IsLineFault (codes "piece a -") BadNumber }
    ensures near { EncodesStep (codes "piece 30 -") (Piece 30 None Shortest) }
{}

/// Keys that are neither a dash nor eight hexadecimal digits.
pub fn bad_keys()
    ensures letters { IsLineFault (codes "piece 3 xyz") BadKey }
    ensures seven_digits { IsLineFault (codes "last 0102030") BadKey }
    ensures nine_digits { IsLineFault (codes "last 010203040") BadKey }
    ensures two_dashes { IsLineFault (codes "control --") BadKey }
    ensures no_digit { IsLineFault (codes "last 0102030g") BadKey }
    ensures near { EncodesStep (codes "last 01020304") (Last (Some (0x01 ∷ 0x02 ∷ 0x03 ∷ 0x04 ∷ [])) Shortest) }
{}

/// Fields after the key that are no form.
pub fn bad_lengths()
    ensures shortest { IsLineFault (codes "last - shortest") BadLength }
    ensures four { IsLineFault (codes "piece 3 - four") BadLength }
    ensures capital { IsLineFault (codes "last - Two") BadLength }
    ensures digit { IsLineFault (codes "piece 3 - 2") BadLength }
    ensures longer { IsLineFault (codes "last - eights") BadLength }
    ensures near { EncodesStep (codes "last - two") (Last None Two) }
{}

/// Of a line's faults, the first in the order is reported.
pub fn order_of_faults()
    ensures form_before_number { IsLineFault (codes "piece 03  -") BadForm }
    ensures form_before_key { IsLineFault (codes "last xyz two two") BadForm }
    ensures number_before_key { IsLineFault (codes "piece 03 xyz") BadNumber }
    ensures number_before_length { IsLineFault (codes "piece 03 - four") BadNumber }
    ensures key_before_length { IsLineFault (codes "piece 3 xyz four") BadKey }
    ensures last_key_before_length { IsLineFault (codes "last xyz four") BadKey }
{}

/// Texts, and the plan that each gives, or the number of its first faulty line, from 1, and that line's fault.
pub fn texts()
    ensures three { IsReadPlan (codes "piece 3 -\ncontrol -\nlast -") (Ok (Piece 3 None Shortest ∷ Control None ∷ Last None Shortest ∷ [])) }
    ensures three_ended { IsReadPlan (codes "piece 3 -\ncontrol -\nlast -\n") (Ok (Piece 3 None Shortest ∷ Control None ∷ Last None Shortest ∷ [])) }
    ensures none { IsReadPlan [] (Ok []) }
    ensures one { IsReadPlan (codes "last 37FA213D") (Ok (Last (Some (0x37 ∷ 0xfa ∷ 0x21 ∷ 0x3d ∷ [])) Shortest ∷ [])) }
    ensures longer_forms { IsReadPlan (codes "piece 3 - two\nlast - eight\n") (Ok (Piece 3 None Two ∷ Last None Eight ∷ [])) }
    ensures leading_zero { IsReadPlan (codes "piece 03 -") (Err (Line 1 BadNumber)) }
    ensures letter { IsReadPlan (codes "piece x y") (Err (Line 1 BadNumber)) }
    ensures lone_lf { IsReadPlan (codes "\n") (Err (Line 1 BadForm)) }
    ensures two_spaces { IsReadPlan (codes "last  -") (Err (Line 1 BadForm)) }
    ensures bad_key { IsReadPlan (codes "piece 3 xyz") (Err (Line 1 BadKey)) }
    ensures second_line { IsReadPlan (codes "last -\ncontrol - two\nlast xyz\n") (Err (Line 2 BadForm)) }
    ensures third_line { IsReadPlan (codes "piece 3 -\ncontrol -\nlast - four") (Err (Line 3 BadLength)) }
{}
