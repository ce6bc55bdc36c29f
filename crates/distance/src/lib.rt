// The exact credit, and how far the credit in whole pence can lie from it: specs/ and proofs/. There is nothing to run.
#![tactic(auto)]
