// Worked examples of the definitions, by computation: specs/ alone.
#![tactic(auto)]
