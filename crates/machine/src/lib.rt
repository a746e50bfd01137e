// The machine of paper 01: definitions and laws only.
#![tactic(auto)]
