//! What is told of texts that are read, and of changed ones; and lines of JSON.

use crate::fault::SampleFault;
use kb_catalog_text::{CheckedOverdue, TextFault, read, read_overdue};
use std::alloc::Global;

/// The states that an overdue text says.
pub fn overdue(alloc: Global, text: &str) -> Result<CheckedOverdue, SampleFault> {
    let checked = read_overdue(alloc, text.as_bytes().to_vec(alloc)?).ok();
    checked.ok_or(SampleFault::Catalog)
}

/// What is told of a catalog text: `ok`, or the number of its fault with the key, the rule and place, or the
/// length.
pub fn told(alloc: Global, text: &[u8]) -> Result<String, SampleFault> {
    let fault = read(alloc, text.to_vec(alloc)?).err();
    in_short(alloc, &fault)
}

/// What is told of an overdue text, in the same way.
pub fn told_overdue(alloc: Global, text: &[u8]) -> Result<String, SampleFault> {
    let fault = read_overdue(alloc, text.to_vec(alloc)?).err();
    in_short(alloc, &fault)
}

/// What is told of a text that has this fault, if it has one.
fn in_short(alloc: Global, fault: &Option<TextFault>) -> Result<String, SampleFault> {
    match fault {
        None => Ok(String::from_str(alloc, "ok")?),
        Some(fault) => numbered(alloc, fault),
    }
}

/// A fault by its number, with what it names.
fn numbered(alloc: Global, fault: &TextFault) -> Result<String, SampleFault> {
    let number = fault.number();
    match fault {
        TextFault::Missing(key) => with_key(alloc, number, key.as_slice()),
        TextFault::WrongKind(key) => with_key(alloc, number, key.as_slice()),
        TextFault::Unknown(key) => with_key(alloc, number, key.as_slice()),
        TextFault::Rule(rule, place) => Ok(format!(in alloc; "{number} {rule} {place}")?),
        TextFault::TooLong(count) => Ok(format!(in alloc; "{number} {count}")?),
        TextFault::NotToml | TextFault::Memory => Ok(format!(in alloc; "{number}")?),
    }
}

/// A fault by its number and its key.
fn with_key(alloc: Global, number: u32, key: &[u8]) -> Result<String, SampleFault> {
    let key = std::str::from_utf8(key).ok().ok_or(SampleFault::Word)?;
    Ok(format!(in alloc; "{number} {key}")?)
}

/// A text in which the first piece of this kind is another one.
pub fn changed(alloc: Global, text: &str, old: &str, new: &str) -> Result<String, SampleFault> {
    let (before, after) = split(text, old)?;
    Ok(format!(in alloc; "{before}{new}{after}")?)
}

/// What stands before the first piece of this kind, and what behind it.
pub fn split<'a>(text: &'a str, piece: &str) -> Result<(&'a str, &'a str), SampleFault> {
    text.split_once(piece).ok_or(SampleFault::Word)
}

/// A text in which what stands from one piece up to another is something else.
pub fn replaced(
    alloc: Global,
    text: &str,
    from: &str,
    to: &str,
    new: &str,
) -> Result<String, SampleFault> {
    let (before, rest) = split(text, from)?;
    let (_, after) = split(rest, to)?;
    Ok(format!(in alloc; "{before}{new}{to}{after}")?)
}

/// The bytes of a line of JSON, in which `'` stands for `"`.
pub fn line(alloc: Global, text: &str) -> Result<Vec<u8>, SampleFault> {
    let mut bytes = Vec::new(alloc);
    for byte in text.as_bytes() {
        bytes.push(if *byte == b'\'' { b'"' } else { *byte })?;
    }
    Ok(bytes)
}
