//! A gateway over a connection: what is sent, what each line that answers tells, and that nothing is sent or
//! read once a call has failed.

mod links;
mod orders;
mod sockets;
