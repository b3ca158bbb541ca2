//! The names of layers and of files, in words `NAME=FILE`.
use command_line::refusal::Refusal;
use std::alloc::Global;

/// A file that the words name.
#[derive(Clone, Copy)]
pub struct NamedFile<'a> {
    /// The name of its layer: what the words say, else the file's own.
    pub name: &'a str,
    /// Whether the words say the name.
    pub is_named: bool,
    pub file: &'a str,
}

/// The name of a file without its folders, up to its first point: `provinces` for `in/provinces.geojson`.
fn stem(file: &str) -> &str {
    let name = match file.rsplit_once('/') {
        Some((_, name)) => name,
        None => file,
    };
    match name.split_once('.') {
        Some((stem, _)) => stem,
        None => name,
    }
}

/// Whether a file is a sequence of texts by its name.
pub fn is_sequence(file: &str) -> bool {
    file.ends_with(".ndjson") || file.ends_with(".geojsonl") || file.ends_with(".geojsons")
}

/// The name and the file of a word, split at the first `=`. Without one the name is the file's.
fn source_of<'a>(word: &'a str) -> NamedFile<'a> {
    let (name, file) = match word.split_once('=') {
        Some(source) => source,
        None => (stem(word), word),
    };
    let is_named = word.len() != file.len();
    NamedFile {
        name,
        is_named,
        file,
    }
}

/// The names and the files of words.
pub fn sources_of<'a>(alloc: Global, words: &[&'a str]) -> Result<Vec<NamedFile<'a>>, Refusal<'a>> {
    let mut sources = Vec::new(alloc);
    for word in words {
        sources.push(source_of(*word))?;
    }
    Ok(sources)
}

/// The files of sources.
pub fn files_of<'a>(alloc: Global, sources: &[NamedFile<'a>]) -> Result<Vec<&'a str>, Refusal<'a>> {
    let mut files = Vec::with_capacity(alloc, sources.len())?;
    for source in sources {
        files.push(source.file)?;
    }
    Ok(files)
}

/// The names of sources.
pub fn names_of<'a>(alloc: Global, sources: &[NamedFile<'a>]) -> Result<Vec<&'a str>, Refusal<'a>> {
    let mut names = Vec::with_capacity(alloc, sources.len())?;
    for source in sources {
        names.push(source.name)?;
    }
    Ok(names)
}

/// A name that occurs twice, if there is one.
pub(crate) fn find_doubled<'a>(
    alloc: Global,
    names: &[&'a str],
) -> Result<Option<&'a str>, Refusal<'a>> {
    let mut names = Vec::from_slice(alloc, names)?;
    names.sort()?;
    let mut last: Option<&'a str> = None;
    for name in &names {
        if last == Some(*name) {
            return Ok(last);
        }
        last = Some(*name);
    }
    Ok(None)
}

/// Whether a file in a folder can have a name.
pub(crate) fn is_file_name(name: &str) -> bool {
    !name.is_empty() && name != "." && name != ".." && !name.contains('/') && !name.contains('\0')
}

/// The file of a name in a folder: `out/provinces.json`.
pub(crate) fn file_in<'a>(alloc: Global, folder: &str, name: &str) -> Result<String, Refusal<'a>> {
    let mut file = String::from_str(alloc, folder)?;
    file.push_str("/")?;
    file.push_str(name)?;
    file.push_str(".json")?;
    Ok(file)
}
