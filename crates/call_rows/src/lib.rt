//! Worked object calls and rollouts, which compute, and a rollout for which all premises hold.
#![tactic(auto)]
