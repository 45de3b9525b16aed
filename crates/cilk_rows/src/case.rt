//! A case: a call of the tool, and its expected reply.

use crate::folder::{File, bytes_of};
use crate::texts::texts;
use cilk_commands::disk::Disk;
use cilk_commands::files::{FileFault, Files};
use std::alloc::{AllocError, Global};

/// A call and its expected reply. A text that isn't in the case's file is empty.
#[derive(Drop)]
pub struct Case {
    /// The command line, one word to a line.
    pub words: String,
    /// The name of a file to make first, then the words of the call that prints it, one to a line.
    pub makes: String,
    /// Lines `NAME COUNT TEXT`: add the text that many times at the end of a file.
    fills: String,
    pub files: Vec<File>,
    /// The number of times that files are read, if the case says it.
    pub reads: Option<u64>,
    /// The number of reads after which each further one fails.
    pub left: u64,
    pub status: u8,
    pub out: Vec<u8>,
    pub err: Vec<u8>,
}

/// Returns the text of a file. It is empty where the file can't be read or isn't text.
pub fn text_of(rt: &HostRuntime, path: &str) -> Result<String, AllocError> {
    let bytes = match Disk::new(rt.alloc(), rt).read(rt.alloc(), path) {
        Ok(bytes) => bytes,
        Err(FileFault::Device) => Vec::new(rt.alloc()),
        Err(FileFault::Memory) => return Err(AllocError),
    };
    match std::str::from_utf8(bytes.as_slice()) {
        Ok(text) => String::from_str(rt.alloc(), text),
        Err(_) => Ok(String::new(rt.alloc())),
    }
}

/// Returns the text of a case with this name. It is empty where there is none, or its bytes are no text.
fn text<'a>(texts: &'a [File], name: &str) -> &'a str {
    std::str::from_utf8(bytes_of(texts, name)).unwrap_or("")
}

/// Returns whether a text of this name is no file of the call.
fn is_own(name: &str) -> bool {
    matches!(
        name,
        "about" | "words" | "makes" | "fills" | "unread" | "reads" | "status" | "out" | "err"
    )
}

/// Returns the case with these texts.
fn case_of(alloc: Global, texts: Vec<File>) -> Result<Case, AllocError> {
    let all = texts.as_slice();
    let words = String::from_str(alloc, text(all, "words"))?;
    let makes = String::from_str(alloc, text(all, "makes"))?;
    let fills = String::from_str(alloc, text(all, "fills"))?;
    let reads = text(all, "reads").trim().parse::<u64>().ok();
    let left = text(all, "unread")
        .trim()
        .parse::<u64>()
        .unwrap_or(u64::MAX);
    let status = text(all, "status").trim().parse::<u8>().unwrap_or(0);
    let out = bytes_of(all, "out").to_vec(alloc)?;
    let err = bytes_of(all, "err").to_vec(alloc)?;
    let mut files = Vec::new(alloc);
    for file in texts {
        if !is_own(file.name.as_str()) {
            files.push(file)?;
        }
    }
    Ok(Case {
        words,
        makes,
        fills,
        files,
        reads,
        left,
        status,
        out,
        err,
    })
}

/// Loads the case of a name.
pub fn loaded(rt: &HostRuntime, name: &str) -> Result<Case, AllocError> {
    let alloc = rt.alloc();
    let path = format!(in alloc; "{name}.case")?;
    let whole = text_of(rt, path.as_str())?;
    case_of(alloc, texts(alloc, whole.as_str())?)
}

impl Case {
    /// Fills the files as the case says.
    pub fn fill(&mut self, alloc: Global) -> Result<(), AllocError> {
        for line in self.fills.as_str().lines() {
            if let Some((name, rest)) = line.split_once(' ')
                && let Some((count, part)) = rest.split_once(' ')
            {
                let count = count.parse::<usize>().unwrap_or(0);
                append(alloc, &mut self.files, name, count, part)?;
            }
        }
        Ok(())
    }
}

/// Adds a text `count` times at the end of each file with this name, or of a new one if there is
/// none. `\n` in the text is a line feed.
fn append(
    alloc: Global,
    files: &mut Vec<File>,
    name: &str,
    count: usize,
    part: &str,
) -> Result<(), AllocError> {
    let part = part.replace(alloc, "\\n", "\n")?;
    let mut is_there = false;
    for file in files.iter_mut() {
        if file.name.as_str() == name {
            repeat(&mut file.bytes, count, part.as_bytes())?;
            is_there = true;
        }
    }
    if !is_there {
        let name = String::from_str(alloc, name)?;
        let mut bytes = Vec::new(alloc);
        repeat(&mut bytes, count, part.as_bytes())?;
        files.push(File { name, bytes })?;
    }
    Ok(())
}

/// Adds a text `count` times at the end of another.
fn repeat(bytes: &mut Vec<u8>, count: usize, part: &[u8]) -> Result<(), AllocError> {
    for _ in 0..count {
        bytes.extend_from_slice(part)?;
    }
    Ok(())
}
