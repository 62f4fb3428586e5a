// What is claimed of a report, and no code: the report that a sheet gets, the orders of judging, the rules in exact fractions
// (demand 3), and the laws that lead from a report's word to them. The functions that judge are in `judge`.
#![tactic(auto)]
