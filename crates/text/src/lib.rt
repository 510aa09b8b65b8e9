// Text as bytes: definitions for the crates of the bench sheet (definition 8). No functions.
#![tactic(auto)]
