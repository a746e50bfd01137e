// What every crate above cites: five axes, bits and signs as definitions, and laws of choices by a test. No code.
#![tactic(auto)]
