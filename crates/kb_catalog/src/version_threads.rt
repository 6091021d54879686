//! What threads may share: a version is handed to each of them.

use crate::valid::Valid;
use crate::version::Version;

/// May be moved to another thread, and be read there while others read it.
trait CrossesThreads: Send + Sync {}

impl CrossesThreads for Valid {}

impl CrossesThreads for Version {}
