//! A site's modules, from the files that the words name to kits that are ready to judge; and what
//! else is done of files and streams alone.
//!
//! - `kits`: from what the words configure and what the files have to kits.
//! - `verdict`: what is found of a module, and the line that tells it; `check`: of one module alone.
//! - `version`: which program this is.
//! - `device`, `folder`: standard input and output, and files, as `streams` has them.
#![tactic(auto)]

mod check;
mod device;
mod folder;
mod kits;
mod verdict;
mod version;

pub use check::{check_file, check_module};
pub use device::{Input, Output};
pub use folder::{Files, Folder};
pub use kits::{modules_in, named_in, site_kits};
pub use verdict::{Unaccepted, Verdict, accepted_in, verdict_on};
pub use version::tell_version;
