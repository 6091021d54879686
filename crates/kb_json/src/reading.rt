//! Lines, read as requests.
ghost use Rattle.std.specs.Prelude.{◌≡◌, Some, IfOk, IfErr};
ghost use Rattle.serde_json.specs.View.{view, members_view};
ghost use Rattle.kb_json.specs.Callers.{IsCallers};
ghost use Rattle.kb_json.specs.Asked.{IsAsked};
ghost use Rattle.kb_json.specs.Requests.{kind_in, ask_of_kind, ask_of_object, ask_of_value, ask, json_of};
ghost use Rattle.kb_json.specs.Requests.{IsNoJson};

use crate::asked::asked;
use crate::fault::{JsonFault, RequestFault};
use crate::found::day_at;
use crate::kind::{Kind, kind_named};
use crate::member::Member;
use crate::object::{Object, has_unknown, value_named};
use crate::request::Request;
use crate::wrong::{Wrong, first_wrong};
use serde_json::Value;
use std::alloc::Global;

/// Reads a line: as the request that it says, or its first fault. A line that may not be `dated` asks for a
/// command alone, and names no day. A command that it asks for is one of a caller. `NoMemory` may come at
/// any point.
pub fn read_request(alloc: Global, line: &[u8], dated: bool) -> Result<Request, RequestFault>
    ensures asked { IsAsked result (ask dated line.now) }
    ensures callers { IfOk result (λ request. IsCallers request.what) }
{
    read_line(alloc, line, dated)
}

/// Reads a line.
#[tactic(auto, using(crate::proofs::Steps::lines))]
fn read_line(alloc: Global, line: &[u8], dated: bool) -> Result<Request, RequestFault>
    ensures { IsAsked result (ask dated line.now) }
{
    match json(alloc, line) {
        Ok(value) => request_of(alloc, &value, dated),
        Err(fault) => Err(fault),
    }
}

/// The JSON value that a line is.
#[tactic(auto, using(crate::proofs::Steps::texts))]
fn json(alloc: Global, line: &[u8]) -> Result<Value, RequestFault>
    ensures value { IfOk result (λ value. json_of line.now ≡ Some (view value)) }
    ensures fault { IfErr result (IsNoJson line.now) }
{
    match Value::from_slice(alloc, line) {
        Ok(value) => Ok(value),
        Err(error) => {
            if error.is_memory() {
                return Err(RequestFault::NoMemory);
            }
            Err(RequestFault::Json(JsonFault::NotJson))
        }
    }
}

/// What a value asks for.
#[tactic(auto, using(crate::proofs::Steps::values))]
fn request_of(alloc: Global, value: &Value, dated: bool) -> Result<Request, RequestFault>
    ensures { IsAsked result (ask_of_value dated (view value.now)) }
{
    match value.as_object() {
        None => Err(RequestFault::Json(JsonFault::NotAnObject)),
        Some(object) => request_of_object(alloc, object, dated),
    }
}

/// What an object asks for.
#[tactic(auto, using(crate::proofs::Steps::objects))]
fn request_of_object(alloc: Global, object: &Object, dated: bool) -> Result<Request, RequestFault>
    ensures { IsAsked result (ask_of_object dated (members_view object.now.entries)) }
{
    match kind_in(dated, object) {
        None => Err(RequestFault::Json(JsonFault::NoKind)),
        Some(kind) => request_of_kind(alloc, object, dated, kind),
    }
}

/// The kind of a request.
#[tactic(auto, unfolding(crate::specs::Requests::kind_in))]
fn kind_in(dated: bool, object: &Object) -> Option<Kind>
    ensures { result ≡ kind_in dated (members_view object.now.entries) }
{
    match value_named(object, "do") {
        None => None,
        Some(value) => match value.as_str() {
            None => None,
            Some(word) => kind_named(dated, word),
        },
    }
}

/// What an object of a kind asks for.
#[tactic(auto, unfolding(crate::specs::Requests::ask_of_kind))]
fn request_of_kind(
    alloc: Global,
    object: &Object,
    dated: bool,
    kind: Kind,
) -> Result<Request, RequestFault>
    ensures { IsAsked result (ask_of_kind dated (members_view object.now.entries) kind) }
{
    if has_unknown(dated, kind, object) {
        return Err(RequestFault::Json(JsonFault::Unknown));
    }
    match first_wrong(dated, kind, object) {
        Wrong::Missing => Err(RequestFault::Json(JsonFault::Missing)),
        Wrong::Type => Err(RequestFault::Json(JsonFault::WrongType)),
        Wrong::Name => Err(RequestFault::BadName),
        Wrong::Day => Err(RequestFault::BadDate),
        Wrong::Nothing => match asked(alloc, kind, object) {
            Ok(what) => Ok(Request {
                today: day_at(object, Member::Today),
                what,
            }),
            Err(fault) => Err(fault),
        },
    }
}
