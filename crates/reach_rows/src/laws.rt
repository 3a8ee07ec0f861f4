//! The laws of stars, each as the contract of a function without parameters.

ghost use Rattle.std.specs.Prelude.{◌≡◌, ◌↔◌, ◌⊎◌, ◌++◌, ℕ, List, Any, Contains};
ghost use Rattle.graph_base.specs.declared.Edge.{Edge};
ghost use Rattle.graph_base.specs.Walk.{HasCycle, Leads, Reaches};
ghost use Rattle.graph_base.specs.Closure.{HasEdge};
ghost use Rattle.reach_rows.specs.declared.Star.{Star};
ghost use Rattle.reach_rows.specs.Stars.{star_of, edges_of, Follows};

/// What one star adds: the closure gains the pairs that lead to a member and from the target, and
/// a cycle comes exactly where the target leads to a member.
pub fn further_star()
    ensures reaches { (edges : List Edge) (members : List ℕ) (target a b : ℕ) →
        Reaches (edges ++ star_of members target) a b
        ↔ (Reaches edges a b ⊎ (Any (λ m. Leads edges a m) members × Leads edges target b)) }
    ensures cycle { (edges : List Edge) (members : List ℕ) (target : ℕ) →
        HasCycle (edges ++ star_of members target) ↔ (HasCycle edges ⊎ Any (λ m. Leads edges target m) members) }
{}

/// Stars close a cycle exactly where their graph has one: its numbers are the places of the stars,
/// and an arrow leads from one star to another where the target of the first leads to a member of
/// the second.
pub fn graph_of_stars()
    ensures { (edges : List Edge) (stars : List Star) (arrows : List Edge) → ¬ HasCycle edges →
        ((i j : ℕ) → HasEdge arrows i j ↔ Follows edges stars i j) →
        HasCycle (edges ++ edges_of stars) ↔ HasCycle arrows }
{}

/// One union answers for each of many candidates. A candidate s is to come after all other members,
/// and after others that come before it already: that closes a cycle exactly where s is in the
/// union of what comes before the members.
pub fn candidates_of_one_union()
    ensures { (edges : List Edge) (members others : List ℕ) (s : ℕ) → ¬ HasCycle edges →
        ((m : ℕ) → Contains others m → ((Contains members m × ¬ m ≡ s) ⊎ Reaches edges m s)) →
        ((m : ℕ) → Contains members m → ¬ m ≡ s → Contains others m) →
        HasCycle (edges ++ star_of others s) ↔ Any (λ m. Reaches edges s m) members }
{}
