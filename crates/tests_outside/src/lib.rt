//! Tests of the outside: disks with their images, journals, vaults, gateways, sockets, HTTP and the lock.
#![tactic(auto)]

#[cfg(test)]
mod compare;
#[cfg(test)]
mod disk;
#[cfg(test)]
mod gateway;
#[cfg(test)]
mod http;
#[cfg(test)]
mod journal;
#[cfg(test)]
mod line_gateway;
#[cfg(test)]
mod lock;
#[cfg(test)]
mod paths;
#[cfg(test)]
mod sockets;
#[cfg(test)]
mod vault;
