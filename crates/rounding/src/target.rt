//! Where what is made goes.
use crate::naming::file_in;
use command_line::output::is_standard;
use command_line::refusal::Refusal;
use std::alloc::Global;

/// Where what is made goes.
#[derive(Clone, Copy)]
pub enum Target<'a> {
    Standard,
    /// All that is made, into one file.
    File(&'a str),
    /// Each map into a file of its name.
    Folder(&'a str),
}

/// Whether a path is that of a file of JSON by its name, and no folder.
fn is_file(path: &str) -> bool {
    path.ends_with(".json") || path.ends_with(".geojson")
}

impl<'a> Target<'a> {
    /// The target of so many files, where the words name this path, or none.
    pub fn of(path: Option<&'a str>, is_build: bool, files: usize) -> Target<'a> {
        match path {
            Some(path) => if is_build && is_standard(Some(path)) {
                Target::Standard
            } else if is_build || (files == 1 && is_file(path)) {
                Target::File(path)
            } else {
                Target::Folder(path)
            },
            None => Target::Standard,
        }
    }

    pub fn is_standard(&self) -> bool {
        matches!(self, Target::Standard)
    }

    pub fn is_folder(&self) -> bool {
        matches!(self, Target::Folder(_))
    }

    /// The file that a map of this name goes into; none where that is standard output.
    pub fn file(&self, alloc: Global, name: &str) -> Result<Option<String>, Refusal<'a>> {
        match self {
            Target::Standard => Ok(None),
            Target::File(file) => Ok(Some(String::from_str(alloc, *file)?)),
            Target::Folder(folder) => Ok(Some(file_in(alloc, *folder, name)?)),
        }
    }
}
