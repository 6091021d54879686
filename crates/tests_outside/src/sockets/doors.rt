//! A door in memory: the links that it hands out and gets back.

use kb_ports::{Door, Link, ListDoor, PairLink};
use std::alloc::{AllocError, Global};
use std::test::Fail;

/// The number of the call that fails, whether two calls for a link behind the first one give one, the links
/// that were handed out and given back, and the faults.
const ROWS: [(u64, bool, bool, usize, usize, u64); 4] = [
    (0, true, true, 2, 2, 0),
    (1, true, true, 2, 2, 1),
    (2, false, true, 1, 1, 1),
    (3, true, false, 1, 1, 1),
];

#[test]
fn links_go_out_and_come_back(rt: HostRuntime) -> Result<(), Fail> {
    let alloc = rt.alloc();
    for (failing, first, second, out, back, faults) in ROWS {
        let mut links = Vec::new(alloc);
        links.push(link(alloc, b"one")?)?;
        links.push(link(alloc, b"two")?)?;
        let mut door = ListDoor::new(alloc, links, [failing].to_vec(alloc)?);
        let _heard = door.listen(80);
        let answers = (serve(&mut door), serve(&mut door));
        assert_eq!(rt;
            (
                answers,
                door.handed_out().len(),
                door.given_back().len(),
                door.faults()
            ),
            ((first, second), out, back, faults),
            "call {failing} fails"
        );
    }
    Ok(())
}

/// Takes a link, reads a byte of it, and gives it back.
fn serve(door: &mut ListDoor) -> bool {
    match door.accept() {
        Ok(link) => {
            let mut link = link;
            let _count = link.read(&mut [0]);
            if door.given_back().len() < door.handed_out().len() {
                door.back(link);
            }
            true
        }
        Err(_) => false,
    }
}

fn link(alloc: Global, bytes: &[u8]) -> Result<PairLink, AllocError> {
    Ok(PairLink::new(
        alloc,
        bytes.to_vec(alloc)?,
        Vec::new(alloc),
        Vec::new(alloc),
    ))
}
