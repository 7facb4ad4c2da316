// The bench points of the loss marks, as a table that is computed: see specs/Points.antt.
#![tactic(auto)]
