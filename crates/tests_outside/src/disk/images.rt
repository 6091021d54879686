//! What a crash may leave of a disk: the images that the rules give, by the definition, and images made by
//! hand from the record of a disk's calls.

use crate::compare::same;
use kb_disk::{Disk, DiskCall, DiskNote, MemoryDisk};
use std::alloc::{AllocError, Global};
use std::test::Fail;

/// Some calls: `w` writes bytes at a place, `c` cuts to a size, `s` syncs.
type Script = &'static [(char, u64, &'static [u8])];

/// The first bytes, the calls, the number of the call that fails, and how many lists of at most four bytes
/// below 3 are images in the end.
const ROWS: [(&[u8], Script, u64, usize); 9] = [
    (&[1, 1, 1], &[('w', 1, &[2, 2])], 0, 9),
    (&[1], &[('w', 1, &[2, 2])], 0, 13),
    (&[1, 1], &[('w', 0, &[2]), ('w', 1, &[2])], 0, 9),
    (
        &[1, 1],
        &[('w', 0, &[2]), ('s', 0, &[]), ('w', 1, &[2])],
        0,
        3,
    ),
    (&[1, 1, 1], &[('c', 1, &[])], 0, 3),
    (&[1, 1, 1], &[('c', 1, &[]), ('w', 1, &[2])], 0, 7),
    (&[1, 1], &[('w', 0, &[2])], 1, 3),
    (&[1, 1], &[('w', 0, &[2]), ('s', 0, &[])], 1, 1),
    (&[1, 1], &[('w', 0, &[2]), ('s', 0, &[])], 2, 3),
];

#[test]
fn images_made_by_hand_are_images(rt: HostRuntime) -> Result<(), Fail> {
    let alloc = rt.alloc();
    for (row, (first, script, failing, count)) in ROWS.iter().enumerate() {
        let failing = [*failing].to_vec(alloc)?;
        let mut disk = MemoryDisk::new(alloc, first.to_vec(alloc)?, failing)?;
        for (kind, at, bytes) in script.iter() {
            call(&mut disk, *kind, *at, bytes);
        }
        let notes = disk.notes().ok_or("all calls noted")?;
        let images = images_of(alloc, first, notes)?;
        let made = made_of(alloc, first, notes)?;
        let strange = made
            .iter()
            .filter(|image| !is_among(image, &images))
            .count();
        same(
            &rt,
            &(images.len(), strange, is_among(disk.bytes(), &images)),
            &(*count, 0, true),
            &row,
        );
    }
    Ok(())
}

/// Makes a call of a script, if it is in range.
fn call(disk: &mut MemoryDisk, kind: char, at: u64, bytes: &[u8]) {
    let is_in_range = at <= disk.bytes().len() as u64;
    let _answer = match kind {
        'w' if is_in_range => disk.write_at(at, bytes),
        'c' if is_in_range => disk.cut(at),
        _ => disk.sync(),
    };
}

fn is_among(bytes: &[u8], lists: &[Vec<u8>]) -> bool {
    lists.iter().any(|list| list.as_slice() == bytes)
}

/// By the definition: the images after some calls, among all lists of at most four bytes below 3.
fn images_of(alloc: Global, first: &[u8], notes: &[DiskNote]) -> Result<Vec<Vec<u8>>, AllocError> {
    let all = short_lists(alloc)?;
    let mut seen = first.to_vec(alloc)?;
    let mut images = Vec::new(alloc);
    images.push(first.to_vec(alloc)?)?;
    for note in notes {
        images = images_after(alloc, &all, &seen, images, note)?;
        if !note.failed {
            seen = bytes_after(alloc, &seen, &note.call)?;
        }
    }
    Ok(images)
}

/// All lists of at most four bytes below 3.
fn short_lists(alloc: Global) -> Result<Vec<Vec<u8>>, AllocError> {
    let mut all = Vec::new(alloc);
    all.push(Vec::new(alloc))?;
    // The first 40 are those of at most three bytes.
    for at in 0..40 {
        for byte in 0..3 {
            if let Some(shorter) = all.get(at) {
                let mut longer = shorter.to_vec(alloc)?;
                longer.push(byte)?;
                all.push(longer)?;
            }
        }
    }
    Ok(all)
}

/// The images after one call more.
fn images_after(
    alloc: Global,
    all: &[Vec<u8>],
    seen: &[u8],
    images: Vec<Vec<u8>>,
    note: &DiskNote,
) -> Result<Vec<Vec<u8>>, AllocError> {
    let mut after = Vec::new(alloc);
    for image in all {
        let is_image = match &note.call {
            DiskCall::Size | DiskCall::Read { .. } => is_among(image, &images),
            DiskCall::Write { at, bytes } => {
                let end = (*at as usize).saturating_add(bytes.len());
                images
                    .iter()
                    .any(|old| is_torn(*at as usize, end, old, image))
            }
            DiskCall::Cut { size } => images
                .iter()
                .any(|old| is_cut_down(*size as usize, old, image)),
            DiskCall::Sync if note.failed => is_among(image, &images),
            DiskCall::Sync => image.as_slice() == seen,
        };
        if is_image {
            after.push(image.to_vec(alloc)?)?;
        }
    }
    Ok(after)
}

/// Whether an image comes of another by a write of the bytes from one place up to another, cut short.
fn is_torn(at: usize, end: usize, old: &[u8], new: &[u8]) -> bool {
    let before = at.min(old.len());
    old.len() <= new.len()
        && new.len() <= old.len().max(end)
        && new[..before] == old[..before]
        && bytes_from(new, end) == bytes_from(old, end)
}

/// Whether an image comes of another by a cut to a size, cut short.
fn is_cut_down(size: usize, old: &[u8], new: &[u8]) -> bool {
    size.min(old.len()) <= new.len() && new.len() <= old.len() && &old[..new.len()] == new
}

fn bytes_from(bytes: &[u8], at: usize) -> &[u8] {
    &bytes[at.min(bytes.len())..]
}

/// What a call that succeeds makes of the bytes.
fn bytes_after(alloc: Global, bytes: &[u8], call: &DiskCall) -> Result<Vec<u8>, AllocError> {
    match call {
        DiskCall::Write { at, bytes: more } => {
            let start = (*at as usize).min(bytes.len());
            let mut after = bytes[..start].to_vec(alloc)?;
            after.extend_from_slice(more.as_slice())?;
            let end = start.saturating_add(more.len());
            after.extend_from_slice(bytes_from(bytes, end))?;
            Ok(after)
        }
        DiskCall::Cut { size } => bytes[..(*size as usize).min(bytes.len())].to_vec(alloc),
        _ => bytes.to_vec(alloc),
    }
}

/// By hand: for each range that isn't synced, all old, all new, or any mixture of its bytes.
fn made_of(alloc: Global, first: &[u8], notes: &[DiskNote]) -> Result<Vec<Vec<u8>>, AllocError> {
    let mut seen = first.to_vec(alloc)?;
    let mut made = Vec::new(alloc);
    made.push(first.to_vec(alloc)?)?;
    for note in notes {
        made = made_after(alloc, &seen, made, note)?;
        if !note.failed {
            seen = bytes_after(alloc, &seen, &note.call)?;
        }
    }
    Ok(made)
}

/// The images made by hand after one call more.
fn made_after(
    alloc: Global,
    seen: &[u8],
    made: Vec<Vec<u8>>,
    note: &DiskNote,
) -> Result<Vec<Vec<u8>>, AllocError> {
    let mut after = Vec::new(alloc);
    match &note.call {
        DiskCall::Write { at, bytes } => {
            for old in &made {
                for chosen in 0..1 << bytes.len().min(4) {
                    after.push(mixed(alloc, old, *at as usize, bytes.as_slice(), chosen)?)?;
                }
            }
        }
        DiskCall::Cut { size } => {
            for old in &made {
                for len in (*size as usize).min(old.len())..=old.len() {
                    after.push(old[..len.min(old.len())].to_vec(alloc)?)?;
                }
            }
        }
        DiskCall::Sync if !note.failed => after.push(seen.to_vec(alloc)?)?,
        _ => after = made,
    }
    Ok(after)
}

/// Old bytes with the chosen ones of others at a place, each of which is a bit of a number. A gap past the
/// end is filled with 0.
fn mixed(
    alloc: Global,
    old: &[u8],
    at: usize,
    bytes: &[u8],
    chosen: u8,
) -> Result<Vec<u8>, AllocError> {
    let mut image = old.to_vec(alloc)?;
    for (place, byte) in bytes.iter().take(4).enumerate() {
        if chosen >> place & 1 == 1 {
            let there = at.saturating_add(place);
            image = put(alloc, &image, there.min(8), *byte)?;
        }
    }
    Ok(image)
}

/// Bytes with one of them changed.
fn put(alloc: Global, bytes: &[u8], at: usize, byte: u8) -> Result<Vec<u8>, AllocError> {
    let mut after = bytes[..at.min(bytes.len())].to_vec(alloc)?;
    for _ in after.len()..at {
        after.push(0)?;
    }
    after.push(byte)?;
    after.extend_from_slice(bytes_from(bytes, at.saturating_add(1)))?;
    Ok(after)
}
