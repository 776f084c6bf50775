// Definitions and theorems only: see specs/. Demand 3 is told in docs/DEMAND-3.md.
#![tactic(auto)]
