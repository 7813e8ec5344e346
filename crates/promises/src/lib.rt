// What is promised of the product: no code, one page of statements (specs/Promises.antt) and that they hold (proofs/Kept.antt).
#![tactic(auto)]
