//! Lists whose members are shared.
ghost use Rattle.std.specs.Prelude.{◌≡◌, map, IfOk};
ghost use Rattle.std.specs.Arc.{arc_value};

use crate::fault::NoMemory;
use std::alloc::Global;
use std::sync::Arc;

/// A list of the same members, each shared and none copied: an edit of one list leaves the other as it is.
pub fn shared<T>(alloc: Global, members: &[Arc<T>]) -> Result<Vec<Arc<T>>, NoMemory>
where
    T: Drop,
    ensures same { IfOk result (λ copy. map arc_value copy.items ≡ map arc_value members.now) }
{
    let mut copy = Vec::new(alloc);
    for member in members {
        copy.push(Arc::try_clone(member)?)?;
    }
    Ok(copy)
}
