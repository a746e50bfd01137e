// Lists of calls to which demand 3 has something to say, computed: definitions and laws only.
#![tactic(auto)]
