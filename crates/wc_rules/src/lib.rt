//! What goes by patterns: the verdicts on them, and the filters, which hide lines.
#![tactic(auto)]

mod flags;
mod plans;
mod rules;

pub use rules::Rules;
