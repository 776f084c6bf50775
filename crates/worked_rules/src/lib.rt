// Document 01's examples, computed from its definitions: see specs/.
#![tactic(auto)]
