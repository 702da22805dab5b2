//! The files that cases name. All are in one folder, and are read before the first case is checked.

use crate::case::named_files;
use case_texts::cases::{case_of, is_comment};
use case_texts::{CaseError, Mistake};
use std::rt::Files;
use std::{fs, io};

/// A file, by the name that cases give it.
#[derive(Drop)]
struct NamedFile {
    name: String,
    bytes: Vec<u8>,
}

/// The files that cases name.
#[derive(Drop)]
pub(crate) struct NamedFiles {
    files: Vec<NamedFile>,
}

impl NamedFiles {
    /// Returns the bytes of a file, if it could be read.
    pub(crate) fn bytes(&self, name: &str) -> Result<&[u8], CaseError> {
        self.find(name).ok_or(CaseError::Wrong(Mistake::NoFile))
    }

    fn find(&self, name: &str) -> Option<&[u8]> {
        for file in &self.files {
            if file.name.as_str() == name {
                return Some(file.bytes.as_slice());
            }
        }
        None
    }
}

/// Reads the files that the cases of tables name. A file that can't be read is left out, and so are those of a case
/// that isn't written as its table asks.
pub(crate) fn read_named<R: Files + AllocGlobal>(
    rt: &R,
    tables: &[&str],
) -> io::Result<NamedFiles> {
    let mut found = NamedFiles {
        files: Vec::new(rt.alloc()),
    };
    for table in tables {
        let text = fs::read_to_string(rt, *table)?;
        for paragraph in text.as_str().trim_end_matches('\n').split("\n\n") {
            add_files_of(rt, &mut found, paragraph)?;
        }
    }
    Ok(found)
}

/// Reads the files that a paragraph names, if it is a case.
fn add_files_of<R: Files + AllocGlobal>(
    rt: &R,
    found: &mut NamedFiles,
    paragraph: &str,
) -> io::Result<()> {
    if is_comment(paragraph) {
        return Ok(());
    }
    if let Ok(case) = case_of(paragraph) {
        for name in named_files(case) {
            if let Some(name) = name {
                add_file(rt, found, name)?;
            }
        }
    }
    Ok(())
}

/// Reads a file, unless it was read before.
fn add_file<R: Files + AllocGlobal>(rt: &R, found: &mut NamedFiles, name: &str) -> io::Result<()> {
    if found.find(name).is_some() {
        return Ok(());
    }
    let path = format!(in rt.alloc(); "commands/{name}")?;
    if let Ok(bytes) = fs::read(rt, path) {
        let name = String::from_str(rt.alloc(), name)?;
        found.files.push(NamedFile { name, bytes })?;
    }
    Ok(())
}
