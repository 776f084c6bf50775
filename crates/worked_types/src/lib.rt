// Worked examples of chains, sizes, names and compatibility, each a theorem by computing (specs/). No code.
#![tactic(auto)]
