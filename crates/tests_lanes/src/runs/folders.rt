//! Folders whose lanes can't be opened, or can't be made.

use crate::shop_runs::holding::hold_words;
use crate::shop_runs::runs::APPLY;
use crate::shop_runs::shops::vault_of_two;
use std::alloc::Global;
use std::test::Fail;

/// The bytes of a folder's lane 0 and of its lane 1, and the last output line of a run over lines.
type Folder = (&'static [u8], &'static [u8], &'static str);

static FOLDERS: [Folder; 14] = [
    (b"", b"", "billd: journal 0 0\n"),
    (
        b"KBJRNL01\x00\x01\x00\x00\x00\x00\x00\x00",
        b"",
        "billd: journal 0 0\n",
    ),
    (
        b"KBJRNL02\x00\x01\x00\x00\x00\x00\x00\x00\x00",
        b"",
        "billd: journal 0 0\n",
    ),
    (
        b"KBJRNL01\x00\x00\x00\x00\x00\x00\x00\x00\x00",
        b"",
        "billd: journal 0 8\n",
    ),
    (
        b"KBJRNL01\x00\x41\x00\x00\x00\x00\x00\x00\x00",
        b"",
        "billd: journal 0 8\n",
    ),
    (
        b"KBJRNL01\x00\x02\x00\x01\x00\x00\x00\x00\x00",
        b"",
        "billd: journal 0 10\n",
    ),
    (
        b"KBJRNL01\x00\x01\x00\x00\x00\x00\x01\x00\x00",
        b"",
        "billd: journal 0 12\n",
    ),
    (
        b"KBJRNL01\x00\x01\x00\x00\x00\x00\x00\x00\x01",
        b"",
        "billd: journal 0 16\n",
    ),
    (
        b"KBJRNL01\x00\x01\x00\x00\x00\x00\x00\x00\x01\x00\x00\x00\x01\x07\x00",
        b"",
        "billd: journal 0 16\n",
    ),
    (
        b"KBJRNL01\x00\x02\x00\x00\x00\x00\x00\x00\x00",
        b"",
        "billd: journal 1 0\n",
    ),
    (
        b"KBJRNL01\x00\x02\x00\x00\x00\x00\x00\x00\x00",
        b"KBJRNL01\x00\x03\x00\x01\x00\x00\x00\x00\x00",
        "billd: journal 1 8\n",
    ),
    (
        b"KBJRNL01\x00\x02\x00\x00\x00\x00\x00\x00\x00",
        b"KBJRNL01\x00\x03\x00\x01\x00\x00\x00\x00\x01",
        "billd: journal 1 16\n",
    ),
    (
        b"KBJRNL01\x00\x02\x00\x00\x00\x00\x00\x00\x00",
        b"KBJRNL01\x00\x02\x00\x00\x00\x00\x00\x00\x00",
        "billd: journal 1 10\n",
    ),
    (
        b"KBJRNL01\x00\x02\x00\x00\x00\x00\x00\x00\x00",
        b"KBJRNL01\x00\x02\x00\x01\x00\x00\x00\x00\x00",
        "",
    ),
];

#[test]
fn folders_whose_lanes_cant_be_opened(rt: HostRuntime) -> Result<(), Fail> {
    for row in &FOLDERS {
        hold_folder(rt.alloc(), row)?;
    }
    Ok(())
}

fn hold_folder(alloc: Global, row: &Folder) -> Result<(), Fail> {
    let (first, second, last) = *row;
    let mut vault = vault_of_two(alloc, first, second)?;
    let status = if last == "" { 0 } else { 6 };
    // The lanes that were opened are given back: another run ends as the first one did.
    hold_words(alloc, &mut vault, 2, APPLY, "", (status, last))?;
    hold_words(alloc, &mut vault, 2, APPLY, "", (status, last))
}
