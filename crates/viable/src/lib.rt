// How far a line that the strict grammar does not derive could still be gone on with, and what a walk over a piece of a line answers: all of it in specs/.
#![tactic(auto)]
