//! How scripts write bytes and objects of the relay, and how these are shown again.
//!
//! A text is written as it is, but for escapes. An object is one word, `KIND:VALUE`; a list of
//! items goes on with words of its own up to the word `end`:
//!
//! - `chr:1 chr:A int:-5 lon:5 str:a\sb str: str:~ buf:b ptr:1f tim:5`, of which `~` is null;
//! - `arr:str:a,b arr:int htb:str:str:k=v,l=w`;
//! - `hda:a/b:n:int,t:str at:1/1f int:7 str:x at:2/20 int:8 str:y end`, with a word `at` for each
//!   item;
//! - `inf:name:value` and `inl:name item v=ptr:a w=int:1 item v=ptr:b end`.
#![tactic(auto)]

mod escapes;
mod lists;
mod objects;
mod sheet;
mod shown;
mod turns;
mod values;
mod wrong;

pub use escapes::{escape, put_either, put_named, put_quoted, unescape};
pub use objects::read_objects;
pub use sheet::Sheet;
pub use shown::show_objects;
pub use turns::{cut_word, end_answer, is_passed_over, two_texts};
pub use wrong::Wrong;
