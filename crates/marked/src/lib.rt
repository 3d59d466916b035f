// The marked cases of document 01, proved as one record: specs/Marked states it, proofs/Marked proves it.
#![tactic(auto)]
