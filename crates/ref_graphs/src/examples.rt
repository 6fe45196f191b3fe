//! Rows that compute, of steps and of what they lead to.
ghost use Rattle.std.specs.Prelude.{◌≡◌, true, false, [], ◌∷◌};
ghost use Rattle.ref_graphs.specs.Circles.{is_circle};
ghost use Rattle.ref_graphs.specs.Closing.{is_other};
ghost use Rattle.ref_graphs.specs.Reaching.{leads_between};
ghost use Rattle.ref_graphs.specs.Rounds as told;
ghost use Rattle.ref_graphs.specs.Rounds.{leads_on};
ghost use Rattle.ref_graphs.specs.Using.{is_closed, numbers};
ghost use Rattle.ref_graphs.specs.Rows.{step, circle, lead, round};

/// Steps that come back to where they began.
pub fn steps_that_come_back()
    ensures to_itself { is_circle (step 3 3 ∷ []) (0 ∷ []) ≡ true }
    ensures of_two { is_circle (step 0 1 ∷ step 5 2 ∷ step 1 0 ∷ []) (2 ∷ 0 ∷ []) ≡ true }
    ensures not_back { is_circle (step 0 1 ∷ step 1 2 ∷ []) (0 ∷ 1 ∷ []) ≡ false }
    ensures apart { is_circle (step 0 1 ∷ step 2 0 ∷ []) (0 ∷ 1 ∷ []) ≡ false }
    ensures twice_around { is_circle (step 0 0 ∷ []) (0 ∷ 0 ∷ []) ≡ true }
    ensures of_no_steps { is_circle (step 0 0 ∷ []) [] ≡ false }
    ensures no_such_step { is_circle (step 0 0 ∷ []) (1 ∷ []) ≡ false }
{}

/// Steps that close circles, and others.
pub fn steps_that_close()
    ensures another { is_other 2 (step 0 1 ∷ step 1 0 ∷ []) (circle 1 2 (0 ∷ 1 ∷ []) ∷ []) 0
        ≡ true }
    ensures that_closes { is_other 2 (step 0 1 ∷ step 1 0 ∷ []) (circle 1 2 (0 ∷ 1 ∷ []) ∷ []) 1
        ≡ false }
    ensures of_a_circle_without_its_steps { is_other 1 (step 0 0 ∷ []) (circle 0 1 [] ∷ []) 0
        ≡ false }
    ensures of_no_circle { is_other 2 (step 0 1 ∷ []) [] 0 ≡ true }
    ensures to_no_place { is_other 2 (step 0 2 ∷ []) [] 0 ≡ false }
    ensures no_such_step { is_other 2 (step 0 1 ∷ []) [] 1 ≡ false }
{}

/// Steps that lead on from the first place.
pub fn steps_that_lead_on()
    ensures by_none { leads_between 1 [] [] 0 ≡ true }
    ensures by_one { leads_between 2 (step 0 1 ∷ []) (0 ∷ []) 1 ≡ true }
    ensures by_two { leads_between 3 (step 1 2 ∷ step 0 1 ∷ []) (1 ∷ 0 ∷ []) 2 ≡ true }
    ensures around { leads_between 2 (step 0 0 ∷ step 0 1 ∷ []) (0 ∷ 0 ∷ 1 ∷ []) 1 ≡ true }
    ensures from_another { leads_between 3 (step 1 2 ∷ []) (0 ∷ []) 2 ≡ false }
    ensures to_another { leads_between 3 (step 0 1 ∷ []) (0 ∷ []) 2 ≡ false }
    ensures by_no_place { leads_between 2 (step 0 5 ∷ step 5 1 ∷ []) (0 ∷ 1 ∷ []) 1 ≡ false }
    ensures no_such_step { leads_between 2 (step 0 1 ∷ []) (1 ∷ []) 1 ≡ false }
{}

/// Sets of definitions with what their uses lead to. Where one is without a definition, that isn't used.
pub fn definitions_that_are_used()
    ensures of_none { is_closed [] [] (true ∷ []) ≡ true }
    ensures not_used { is_closed (0 ∷ []) [] (true ∷ false ∷ []) ≡ true }
    ensures used { is_closed (0 ∷ []) (step 0 1 ∷ []) (true ∷ false ∷ []) ≡ false }
    ensures by_itself { is_closed (0 ∷ []) (step 1 1 ∷ []) (true ∷ false ∷ []) ≡ true }
    ensures by_one_another { is_closed (0 ∷ 0 ∷ []) (step 1 2 ∷ step 2 1 ∷ [])
        (true ∷ false ∷ false ∷ [])
        ≡ true }
    ensures by_one_that_is_used { is_closed (0 ∷ 0 ∷ []) (step 0 1 ∷ step 1 2 ∷ [])
        (true ∷ true ∷ false ∷ [])
        ≡ false }
    ensures by_one_that_is_not { is_closed (0 ∷ 0 ∷ []) (step 1 2 ∷ [])
        (true ∷ false ∷ false ∷ [])
        ≡ true }
    ensures into { is_closed (0 ∷ 1 ∷ []) (step 0 2 ∷ []) (true ∷ false ∷ true ∷ []) ≡ false }
    ensures from_within { is_closed (0 ∷ 1 ∷ []) (step 2 1 ∷ []) (true ∷ false ∷ false ∷ [])
        ≡ true }
    ensures to_none { is_closed (0 ∷ []) (step 0 7 ∷ []) (true ∷ false ∷ []) ≡ true }
    ensures without_what_is_in_none { is_closed [] [] (false ∷ []) ≡ false }
    ensures from_one_on { numbers (0 ∷ 1 ∷ []) ≡ 1 ∷ 2 ∷ [] }
{}

/// References that lead back to where the value comes to the first of them.
pub fn references_that_come_back()
    ensures to_itself { leads_on 1 (lead (0 ∷ []) 0 ∷ []) 0 (0 ∷ []) 0 ≡ true }
    ensures of_two { leads_on 2 (lead (0 ∷ []) 1 ∷ lead (1 ∷ []) 0 ∷ []) 0 (0 ∷ 1 ∷ []) 0 ≡ true }
    ensures from_one_of_several { leads_on 3 (lead (0 ∷ 2 ∷ []) 2 ∷ []) 2 (0 ∷ []) 2 ≡ true }
    ensures to_another { leads_on 2 (lead (0 ∷ []) 1 ∷ []) 0 (0 ∷ []) 0 ≡ false }
    ensures from_none { leads_on 1 (lead [] 0 ∷ []) 0 (0 ∷ []) 0 ≡ false }
    ensures to_no_place { leads_on 1 (lead (0 ∷ []) 1 ∷ lead (1 ∷ []) 0 ∷ []) 0 (0 ∷ 1 ∷ []) 0
        ≡ false }
    ensures of_no_such_reference { leads_on 1 [] 0 (0 ∷ []) 0 ≡ false }
    ensures that_is_told { told.is_other (round 1 2 (0 ∷ 1 ∷ []) ∷ []) 1 ≡ false }
    ensures that_is_not { told.is_other (round 1 2 (0 ∷ 1 ∷ []) ∷ []) 0 ≡ true }
{}
