// Meshes over a forest of numbered triangles, as split sets: forced splits, merges, counts, and the optimum under a rule. This crate is a theory: its one
// function is there for its contract, which holds the laws up to the prover.
#![tactic(auto)]

ghost use Rattle.forest.specs.Laws.{EveryForest};

// The laws hold of every lawful forest.
fn laws_hold()
    ensures { EveryForest }
{}
