//! Rows of the definitions of lines and of what a service answers to them, as `docs/PROTOCOL.md` says. Each function is
//! empty: its contract states rows, and the check computes them.
#![tactic(auto, unfolding(crate::proofs::OnLiterals::ref_streams_on_literals))]

ghost use Rattle.std.specs.Prelude.{◌≡◌, [], ◌∷◌, codes, Some, None};
ghost use Rattle.ref_streams.specs.Lines.{lines, whole_lines};
ghost use Rattle.ref_streams.specs.Serving.{Answers, AnswersLine, AnswersSoFar, GaveAtLeast, Serves, ServedSoFar, out_of_memory};
ghost use Rattle.ref_streams.specs.Rows.{counts, first, second};

/// The lines of bytes: each ends at a line feed, and the last may end with the bytes.
pub fn cut()
    ensures none { lines [] ≡ [] }
    ensures unended { lines (97 ∷ []) ≡ first ∷ [] }
    ensures ended { lines (97 ∷ 10 ∷ []) ≡ first ∷ [] }
    ensures two { lines (97 ∷ 10 ∷ 98 ∷ []) ≡ first ∷ second ∷ [] }
    ensures empty { lines (10 ∷ 10 ∷ []) ≡ [] ∷ [] ∷ [] }
    ensures carriage_return { lines (97 ∷ 13 ∷ 10 ∷ []) ≡ (97 ∷ 13 ∷ []) ∷ [] }
    ensures whole { whole_lines (97 ∷ 10 ∷ 98 ∷ []) ≡ first ∷ [] }
    ensures whole_two { whole_lines (97 ∷ 10 ∷ 98 ∷ 10 ∷ []) ≡ first ∷ second ∷ [] }
    ensures none_whole { whole_lines (97 ∷ []) ≡ [] }
    ensures an_empty_one { whole_lines (10 ∷ []) ≡ [] ∷ [] }
{}

/// What a service that counts lines and gives each back may answer.
pub fn answers()
    ensures one { AnswersLine counts 0 first 1 first }
    ensures another_text { ¬ (AnswersLine counts 0 first 1 second) }
    ensures another_count { ¬ (AnswersLine counts 0 first 2 first) }
    ensures refused { AnswersLine counts 0 first 0 out_of_memory }
    ensures refused_and_counted { ¬ (AnswersLine counts 0 first 1 out_of_memory) }
    ensures none { Answers counts 3 [] 3 [] }
    ensures none_with_a_text { ¬ (Answers counts 3 [] 3 first) }
    ensures two { Answers counts 0 (first ∷ second ∷ []) 2 (codes "ab") }
    ensures served { Serves lines counts 0 2 (Some (97 ∷ 10 ∷ 98 ∷ [])) (Some []) (Some [])
        (Some (codes "ab")) }
    ensures served_so_far { ServedSoFar counts 0 1 (Some (97 ∷ 10 ∷ 98 ∷ [])) (Some (98 ∷ []))
        (Some []) (Some first) }
    ensures so_far { AnswersSoFar counts 0 0 None None [] }
    ensures three_bytes { GaveAtLeast 3 (Some (97 ∷ 98 ∷ 99 ∷ [])) (Some []) }
{}
