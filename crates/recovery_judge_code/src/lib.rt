// The steps of recovery after the scan: comparing, settling, judging.

#![tactic(auto)]

mod comparing;
pub mod judging;
pub mod settling;
