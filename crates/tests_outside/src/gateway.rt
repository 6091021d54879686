//! Gateways in memory: orders and look-ups, and what names a payment there.

mod gateways;
mod ids;
