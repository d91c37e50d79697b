// What the public calls promise, each determining its outcome. No code.
#![tactic(auto)]
