//! The sources of a project, what they name, and what they reach.
#![tactic(auto)]
