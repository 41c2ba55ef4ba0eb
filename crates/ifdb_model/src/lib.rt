//! The whole server, as definitions: its log, its sessions, what a line of a session comes to, runs, and what a script's
//! run writes. The folder `specs/` has them; no code stands here.
#![tactic(auto)]
