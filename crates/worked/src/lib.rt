// The paper's worked sheets: specs/ has them, and the theorems on them. Assumes nothing.
#![tactic(auto)]
