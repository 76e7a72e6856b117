//! Scripts: the requests to the office that the lines of a text make.
//!
//! A script is a sequence of bytes. Its lines are what is between line feeds (`lines`). A line that is empty or begins
//! with `#` requests nothing. Any other line consists of words with exactly one space between them (`words`): a key,
//! the team, the command and its fields `name=value`, where in a value `%` and two hexadecimal digits stand for a byte
//! (`escapes`, `fields`). As a key `-` stands for the number of its line, or is wrong ([`Dash`], `keys`). What the
//! fields give is the matter of `office_fields`. An import and a bundle name a file, which is read from a
//! [`FileSource`] (`files`, `filling`); that of a bundle has a line for each of its parts (`bundles`). [`arrivals_of`]
//! gives each line's arrival, with its content, or what is amiss at the first line at which something is.
//!
//! [`add_answer`] appends the line that an answer is printed as, and [`is_refused`] says whether it is a refusal.
//! [`add_echoes`] appends the echoes of arrivals with their answers: a line has the key, the command, what the command
//! names (a team, a node, a message, a signal, and else the network) and the answer. A bundle that was carried out has
//! a line for each part. [`add_longest_echoes`] appends lines that are at least as long, whatever is answered. Who
//! takes room for them before the first arrival loses no answer after it because memory runs out.
//!
//! The grammar is in `specs/`: `Lines.antt`, `Words.antt`, `Escapes.antt`, `Keys.antt` and `Fields.antt` define the
//! parts of a text, `Requests.antt` the request that a line makes, `Files.antt` what reading a file may give and the
//! arrival of a request, and `Script.antt` what a whole script requests. `Echoes.antt` defines the
//! lines of answers.
#![tactic(auto)]

mod answers;
mod bundles;
mod echoes;
mod escapes;
mod fields;
mod files;
mod filling;
mod headings;
mod keys;
mod lines;
mod requests;
mod script;
mod words;

pub use answers::{add_answer, is_refused};
pub use bundles::parts_in;
pub use echoes::{add_echoes, add_longest_echoes};
pub use escapes::unescape;
pub use fields::read_fields;
pub use files::{FileSource, PathFault};
pub use keys::{Dash, key_of};
pub use lines::{FirstLine, first_line, says_nothing};
pub use requests::bundle_file;
pub use script::{ScriptFault, arrivals_of};
pub use words::{FirstWord, first_word};
