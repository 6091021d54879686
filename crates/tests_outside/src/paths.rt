//! Paths, and where they lead: by the definition, and by a router of `matchit`.

mod requests;
mod routers;
