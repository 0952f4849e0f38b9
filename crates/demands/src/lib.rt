// The demands of the test desk, as theorems. No code.
#![tactic(auto)]
