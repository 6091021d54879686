//! The payment gateway, as traits: what is asked of it, and what it tells; and one that is asked over a
//! connection, a line for each call.
//!
//! The rule kept here: a gateway notes each order that it is asked, whether it answers or fails, and looking
//! up an order asks nothing. It fails only where its count of faults rose. Over a connection a call writes
//! one line and reads one line that answers it; once a call has failed, nothing is written or read any more,
//! so that no answer that comes late is taken for the answer to another order. Layers above are proved
//! against the traits alone; the objects in memory serve their tests.
#![tactic(auto)]

mod answers;
mod exchange;
mod gateway;
mod id;
mod line_gateway;
mod list_gateway;
mod list_market;
mod market;
mod no_market;
mod order;
mod requests;
mod told;

pub use gateway::Gateway;
pub use id::{gateway_id, uuid_of};
pub use line_gateway::LineGateway;
pub use list_gateway::ListGateway;
pub use list_market::ListMarket;
pub use market::Market;
pub use no_market::{NoGateway, NoMarket};
pub use order::{Asked, Order};
pub use told::{Call, Heard, Saying, Seen, Told, status_of};
