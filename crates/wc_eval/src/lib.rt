//! Texts with forms in them evaluated, and conditions; patterns with verdicts on them.
#![tactic(auto)]

mod arguments;
mod blanks;
mod branches;
mod calls;
mod characters;
mod comparison;
mod compiler;
mod context;
mod cuts;
mod evaluation;
mod finder;
mod forms;
mod kept;
mod kind;
mod laws;
mod matches;
mod operator;
mod parts;
mod pattern;
mod pattern_cache;
mod pieces;
mod replaced;
mod scope;
mod search;
mod shared;
mod split;
mod sums;
mod turns;
mod values;
mod verdict;
mod verdicts;

pub use blanks::is_true;
pub use comparison::{Comparison, compare};
pub use compiler::{CompileRefused, Compiler};
pub use evaluation::{condition, eval};
pub use finder::Finder;
pub use laws::{forms_stay_within, values_stay_short};
pub use matches::{group_texts, matches_of};
pub use pattern::Pattern;
pub use scope::{Scope, value_of};
pub use search::{Span, all_groups, is_match};
pub use shared::Evaluation;
pub use sums::calc;
pub use verdict::Verdict;
pub use verdicts::Verdicts;
