//! Card files, by their names.

use std::alloc::AllocError;
use std::fs;

/// The endings of card files, each in either case.
const ENDINGS: [&str; 4] = [".ddd", ".c1b", ".tgd", ".esm"];

/// The card files that arguments name. A folder stands for those in it, ordered by the bytes of their names, without folders below. Any
/// other name, and that of a folder that can't be read, stands for itself.
pub fn card_files(rt: &HostRuntime, names: &[String]) -> Result<Vec<String>, AllocError> {
    let mut files = Vec::new(rt.alloc());
    for name in names {
        match in_folder(rt, name)? {
            Some(found) => files.extend(found)?,
            None => files.push(String::from_str(rt.alloc(), name)?)?,
        }
    }
    Ok(files)
}

/// The card files in a folder. Nothing if it is no folder, or can't be read.
fn in_folder(rt: &HostRuntime, folder: &str) -> Result<Option<Vec<String>>, AllocError> {
    let Ok(entries) = fs::read_dir(rt, folder) else {
        return Ok(None);
    };
    let mut found = Vec::new(rt.alloc());
    for entry in entries {
        let Ok(entry) = entry else {
            return Ok(None);
        };
        let path = entry.path();
        if has_card_ending(entry.file_name()) && is_file(rt, path.as_str()) {
            found.push(String::from_str(rt.alloc(), path.as_str())?)?;
        }
    }
    found.sort_unstable();
    Ok(Some(found))
}

/// Whether a name has the ending of a card file.
fn has_card_ending(name: &str) -> bool {
    let Some(start) = name.len().checked_sub(4) else {
        return false;
    };
    let ending = &name.as_bytes()[start..];
    ENDINGS
        .iter()
        .any(|known| ending.eq_ignore_ascii_case(known.as_bytes()))
}

/// Whether a path names a file.
fn is_file(rt: &HostRuntime, path: &str) -> bool {
    match fs::metadata(rt, path) {
        Ok(found) => found.is_file(),
        Err(_) => false,
    }
}
