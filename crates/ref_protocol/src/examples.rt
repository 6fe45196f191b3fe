//! Rows of the definitions. Each function is empty: its contract states rows, and the check computes them.
#![tactic(auto)]

ghost use Rattle.std.specs.Prelude.{◌≡◌, [], codes, true, false, Some, None};
ghost use Rattle.ref_protocol.specs.Pieces.{is_first, with_comma};
ghost use Rattle.ref_protocol.specs.declared.encoding.Encoding.TheVariants.{Utf8, Utf16, Utf32};
ghost use Rattle.ref_protocol.specs.Positions.{encoding_of, name_of, units_of, offset_of, place_of};
ghost use Rattle.ref_protocol.specs.Edits.{with_range};
ghost use Rattle.ref_protocol.specs.Frames.{frame_in};
ghost use Rattle.ref_protocol.specs.Methods.{due_for};
ghost use Rattle.ref_protocol.specs.declared.frames.Frame.TheVariants.{Part, Whole, NoLength, TooLong};
ghost use Rattle.ref_protocol.specs.declared.methods.Phase.TheVariants.{New, Running, ShutDown};
ghost use Rattle.ref_protocol.specs.declared.methods.Method.TheVariants.{Initialize, Hover, DidOpen, Exit};
ghost use Rattle.ref_protocol.specs.declared.methods.Due.TheVariants.{Pass, Refuse, Do};
ghost use Rattle.ref_protocol.specs.declared.refusal.Refusal.TheVariants.{NoRequest, NoMethod, NotInitialized, AfterShutdown};
ghost use Rattle.ref_protocol.specs.Rows.{lines};

/// How many units a character has (RFC 3629, 3; RFC 2781, 2.1).
pub fn units()
    ensures ascii { units_of Utf8 97 ≡ 1 }
    ensures of_two_bytes { units_of Utf8 195 ≡ 2 }
    ensures of_three_bytes { units_of Utf8 226 ≡ 3 }
    ensures of_four_bytes { units_of Utf8 240 ≡ 4 }
    ensures in_the_basic_plane { units_of Utf16 226 ≡ 1 }
    ensures beyond_it { units_of Utf16 240 ≡ 2 }
    ensures one_character { units_of Utf32 240 ≡ 1 }
{}

/// Which offset a position means.
pub fn offsets()
    ensures beginning { offset_of Utf16 0 0 lines ≡ 0 }
    ensures beyond_the_first_line { offset_of Utf16 0 9 lines ≡ 1 }
    ensures second_line { offset_of Utf16 1 0 lines ≡ 2 }
    ensures after_two_bytes { offset_of Utf16 1 1 lines ≡ 4 }
    ensures after_three_bytes { offset_of Utf16 1 2 lines ≡ 7 }
    ensures within_a_pair { offset_of Utf16 1 3 lines ≡ 7 }
    ensures after_a_pair { offset_of Utf16 1 4 lines ≡ 11 }
    ensures before_a_carriage_return { offset_of Utf16 1 9 lines ≡ 12 }
    ensures in_bytes { offset_of Utf8 1 9 lines ≡ 11 }
    ensures within_bytes { offset_of Utf8 1 8 lines ≡ 7 }
    ensures in_characters { offset_of Utf32 1 3 lines ≡ 11 }
    ensures after_both { offset_of Utf16 2 0 lines ≡ 14 }
    ensures after_a_carriage_return { offset_of Utf16 3 0 lines ≡ 16 }
    ensures beyond_the_last_line { offset_of Utf16 9 5 lines ≡ 17 }
{}

/// Which position an offset has.
pub fn places()
    ensures beginning { place_of Utf16 0 0 0 lines ≡ (0, 0) }
    ensures end_of_a_line { place_of Utf16 0 0 1 lines ≡ (0, 1) }
    ensures second_line { place_of Utf16 0 0 2 lines ≡ (1, 0) }
    ensures in_pairs { place_of Utf16 0 0 11 lines ≡ (1, 4) }
    ensures in_bytes { place_of Utf8 0 0 11 lines ≡ (1, 9) }
    ensures in_characters { place_of Utf32 0 0 11 lines ≡ (1, 3) }
    ensures after_both { place_of Utf16 0 0 14 lines ≡ (2, 0) }
    ensures after_a_carriage_return { place_of Utf16 0 0 16 lines ≡ (3, 0) }
    ensures end { place_of Utf16 0 0 17 lines ≡ (3, 1) }
{}

/// What a change leaves.
pub fn changes()
    ensures within { with_range (codes "abcd") 1 3 (codes "xyz") ≡ codes "axyzd" }
    ensures at_the_end { with_range (codes "ab") 2 2 (codes "c") ≡ codes "abc" }
    ensures nothing { with_range (codes "ab") 1 1 (codes "") ≡ codes "ab" }
{}

/// What bytes begin with ("Base Protocol").
#[tactic(auto, unfolding(crate::specs::Frames::frame_in, crate::specs::Frames::says_length))]
pub fn frames()
    ensures whole { frame_in (codes "Content-Length: 2\r\n\r\n{}") ≡ Whole 21 23 }
    ensures in_any_case { frame_in (codes "content-length:2\r\n\r\n{}") ≡ Whole 20 22 }
    ensures after_another_line { frame_in (codes "A: x\r\nContent-Length: 0\r\n\r\n") ≡ Whole 27 27 }
    ensures a_part_of_the_head { frame_in (codes "Content-Length: 2\r\n") ≡ Part }
    ensures a_part_of_the_content { frame_in (codes "Content-Length: 2\r\n\r\n{") ≡ Part }
    ensures no_length { frame_in (codes "A: x\r\n\r\n") ≡ NoLength }
    ensures no_number { frame_in (codes "Content-Length: x\r\n\r\n") ≡ NoLength }
    ensures the_greatest { frame_in (codes "Content-Length: 268435456\r\n\r\n") ≡ Part }
    ensures beyond_it { frame_in (codes "Content-Length: 268435457\r\n\r\n") ≡ TooLong }
{}

/// What is done with a call ("Lifecycle Messages").
#[tactic(auto, unfolding(crate::specs::Methods::due_for))]
pub fn calls()
    ensures before_initialize { due_for New (Some Hover) true ≡ Refuse NotInitialized }
    ensures a_notification_before_it { due_for New (Some DidOpen) false ≡ Pass }
    ensures exit_before_it { due_for New (Some Exit) false ≡ Do Exit }
    ensures initialize { due_for New (Some Initialize) true ≡ Do Initialize }
    ensures a_second_one { due_for Running (Some Initialize) true ≡ Refuse NoRequest }
    ensures in_its_time { due_for Running (Some Hover) true ≡ Do Hover }
    ensures unknown { due_for Running None true ≡ Refuse NoMethod }
    ensures an_unknown_notification { due_for Running None false ≡ Pass }
    ensures a_notification_as_a_request { due_for Running (Some DidOpen) true ≡ Refuse NoRequest }
    ensures a_request_as_a_notification { due_for Running (Some Hover) false ≡ Pass }
    ensures after_shutdown { due_for ShutDown (Some Hover) true ≡ Refuse AfterShutdown }
    ensures exit_after_it { due_for ShutDown (Some Exit) false ≡ Do Exit }
{}

/// The pieces of JSON that is sent.
pub fn pieces()
    ensures first_of_all { is_first [] ≡ true }
    ensures first_of_a_list { is_first (codes "[") ≡ true }
    ensures another { with_comma (codes "[1") ≡ codes "[1," }
    ensures name { name_of Utf16 ≡ codes "utf-16" }
    ensures encoding { encoding_of (codes "utf-32") ≡ Some Utf32 }
    ensures none { encoding_of (codes "utf-7") ≡ None }
{}
