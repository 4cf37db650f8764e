// Answering a challenge (MS-NLMP 3.1.5.1.2).
#![tactic(auto)]

pub mod answer;
pub mod by_default;
pub mod decision;
pub mod domain;
