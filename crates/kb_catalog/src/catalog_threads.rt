//! What threads may share: a catalog is handed to each of them.

use crate::catalog::Catalog;

/// May be moved to another thread, and be read there while others read it.
trait CrossesThreads: Send + Sync {}

impl CrossesThreads for Catalog {}
