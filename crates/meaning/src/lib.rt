// The theorems about the paper's definitions; they stand in proofs/, and Headline.antt restates those that a user reads. There is no code here.
#![tactic(auto)]
