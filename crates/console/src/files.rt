// Files read and written whole, with the reason in words where that fails.
use super::stop::{Stop, complain};
use std::fs;

// The bytes of a file.
pub fn load(rt: &HostRuntime, path: &str) -> Result<Vec<u8>, Stop> {
    fs::read(rt, path).map_err(|error| complain(rt, format_args!("can't read {path}: {error}")))
}

// A file's text.
pub fn load_text(rt: &HostRuntime, path: &str) -> Result<String, Stop> {
    String::from_utf8(load(rt, path)?).map_err(|_| complain(rt, format_args!("{path} is no text")))
}

pub fn store(rt: &HostRuntime, path: &str, bytes: &[u8]) -> Result<(), Stop> {
    fs::write(rt, path, bytes).map_err(|error| complain(
        rt,
        format_args!("can't write {path}: {error}"),
    ))
}
