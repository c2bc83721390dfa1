//! Worked rows of the race, which compute.
#![tactic(auto)]
