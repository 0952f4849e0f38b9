// What is promised of configurations and steps, as theorems. No code.
#![tactic(auto)]
