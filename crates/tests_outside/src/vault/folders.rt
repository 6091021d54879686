//! Folders of the system.

use crate::compare::same;
use crate::vault::keeping::kept_by;
use kb_disk::{FileFault, Vault};
use kb_system::FolderVault;
use std::fs;
use std::test::Fail;

#[test]
fn a_folder_keeps_what_was_written(rt: HostRuntime) -> Result<(), Fail> {
    let alloc = rt.alloc();
    fs::create_dir(&rt, "shop")?;
    let mut vault = FolderVault::new(alloc, &rt);
    let kept = kept_by(&mut vault, alloc)?;
    let written = fs::read(&rt, "shop/lane-03.kbj")?;
    same(
        &rt,
        &(kept, written.as_slice()),
        &((2, [7, 8, 0]), [7, 8].as_slice()),
        &"",
    );
    fs::remove_file(&rt, "shop/lane-03.kbj")?;
    Ok(fs::remove_dir(&rt, "shop")?)
}

#[test]
fn a_lane_that_is_out_is_no_one_elses(rt: HostRuntime) -> Result<(), Fail> {
    let alloc = rt.alloc();
    fs::create_dir(&rt, "store")?;
    let mut vault = FolderVault::new(alloc, &rt);
    let mut other = FolderVault::new(alloc, &rt);
    let disk = vault.lane(alloc, "store", 0)?;
    let Err(fault) = other.lane(alloc, "store", 0) else {
        return Err("a lane that another program has".into());
    };
    vault.back("store", 0, disk);
    let disk = other.lane(alloc, "store", 0)?;
    other.back("store", 0, disk);
    same(&rt, &fault, &FileFault::Failed, &"");
    fs::remove_file(&rt, "store/lane-00.kbj")?;
    Ok(fs::remove_dir(&rt, "store")?)
}

#[test]
fn a_folder_must_be_there(rt: HostRuntime) -> Result<(), Fail> {
    let alloc = rt.alloc();
    let mut vault = FolderVault::new(alloc, &rt);
    let Err(fault) = vault.lane(alloc, "nowhere", 0) else {
        return Err("a lane in no folder".into());
    };
    same(
        &rt,
        &(fault, vault.file(alloc, "nowhere").is_err()),
        &(FileFault::Failed, true),
        &"",
    );
    Ok(())
}

#[test]
fn a_long_text_is_cut(rt: HostRuntime) -> Result<(), Fail> {
    let alloc = rt.alloc();
    fs::write(&rt, "text", vec![in alloc; 7; 60_002]?.as_slice())?;
    let bytes = FolderVault::new(alloc, &rt).file(alloc, "text")?;
    same(&rt, &bytes.len(), &60_001, &"");
    fs::write(&rt, "text", "abc")?;
    let bytes = FolderVault::new(alloc, &rt).file(alloc, "text")?;
    same(&rt, &bytes.as_slice(), &b"abc".as_slice(), &"");
    Ok(fs::remove_file(&rt, "text")?)
}
