// The figures of G1 to G4, G6, H5, P8, N3 and L13, and some more that a misreading would change, as rows that are proved to follow from the
// definitions: specs/ and proofs/. There is nothing to run.
#![tactic(auto)]
