// What is promised of model files, as theorems. No code.
#![tactic(auto)]
