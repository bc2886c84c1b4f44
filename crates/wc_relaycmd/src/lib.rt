//! The requests that a relay client writes, one a line, and its login.
#![tactic(auto)]

mod algorithm;
mod arguments;
mod escapes;
mod line;
mod lists;
mod login;
mod pads;
mod request;
mod rounds_sha256;
mod rounds_sha512;
mod word;

pub use algorithm::{Algorithm, choose_algorithm};
pub use line::{one_request, read_request};
pub use lists::last_value;
pub use login::{HashLogin, Login, check_login, read_login};
pub use request::{Command, Request};
pub use rounds_sha256::pbkdf2_sha256;
pub use rounds_sha512::pbkdf2_sha512;
