// What every crate uses, all of it definitions and laws: lists, counts, the first items of a sequence, choices, maps, chains, scans and tests.
#![tactic(auto)]
