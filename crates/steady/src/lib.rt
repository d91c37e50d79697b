// Theorems that every turn keeps a card sound. No code.
#![tactic(auto)]
