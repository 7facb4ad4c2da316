// The bench points, one table: see specs/Bench.antt.
#![tactic(auto)]
