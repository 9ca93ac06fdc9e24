//! What the builders of a source are asked, and the jobs that come of it.
#![tactic(auto)]
