// Definitions and laws that know nothing of racks. No code.
#![tactic(auto)]
