//! Doors, through which connections come: in memory, and over TCP.

mod doors;
mod sockets;
