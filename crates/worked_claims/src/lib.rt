// Worked lists for the claims of the form "if .. then": one that meets the premise, and one that shows that it is needed. No function.
#![tactic(auto)]
