// What policies mean: the law of every numbering of triangles, the numberings of the five rules, and that these keep it. There is no code here:
// the trait above asks each implementation for a proof of the law, and takes it from a crate below.
#![tactic(auto)]
