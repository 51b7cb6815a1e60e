//! Files that couldn't be opened or read, and lines that can't be counted: what their faults tell.
ghost use Rattle.std.specs.Prelude.{◌≡◌, ◌≤◌, length};
ghost use Rattle.fault_line.specs.Unread.{cause_words};

use crate::excerpt::Excerpt;
use quant::Name;

/// Why a file couldn't be opened or read, as far as the system says it.
#[derive(Clone, Copy)]
pub enum Cause {
    /// There is none of this name.
    Missing,
    /// It may not be opened.
    Denied,
    /// The name is none of a file.
    BadName,
    /// It could be opened, and a read of it failed.
    Unreadable,
    /// Another reason.
    Other,
}

impl Cause {
    /// The cause in words.
    pub fn words(self) -> &'static str
        ensures words { result.now ≡ cause_words self }
        ensures short { length result.now ≤ 50 }
    {
        match self {
            Cause::Missing => "no such file or directory",
            Cause::Denied => "permission denied",
            Cause::BadName => "not the name of a file",
            Cause::Unreadable => "opened, but it can't be read, as a directory",
            Cause::Other => "it can't be opened",
        }
    }
}

/// A file that couldn't be opened or read.
#[derive(Drop)]
pub struct FileFault {
    /// As much of its name as is told.
    pub file: Excerpt,
    pub cause: Cause,
}

/// The plugin whose file couldn't be opened or read.
#[derive(Drop)]
pub struct PluginUnread {
    pub plugin: Name,
    pub fault: FileFault,
}

/// A line of objects that can't be counted.
#[derive(Drop)]
pub struct LineUncounted {
    /// Its number, counted from 1.
    pub number: u64,
    /// How people know its object, which is empty where it has no name.
    pub object: Excerpt,
}
