//! The members of an object, by their names.
ghost use Rattle.std.specs.Prelude.{◌≡◌, ◌&&◌, bytes_eq, codes, option_map};
ghost use Rattle.serde_json.specs.Find.{get_member};
ghost use Rattle.serde_json.specs.View.{view, members_view};
ghost use Rattle.kb_json.specs.Wrongs.{value_at, is_among, is_known, has_unknown};

use crate::kind::{Kind, needed, optional};
use crate::member::Member;
use serde_json::{Map, Value};

/// A JSON object. Of two members with one name it has the last.
pub type Object = Map<String, Value>;

/// The value at a name.
pub fn value_named<'o>(object: &'o Object, name: &str) -> Option<&'o Value>
    ensures { option_map (λ value. view value.now) result
        ≡ get_member name.now (members_view object.now.entries) }
{
    object.get(name)
}

/// The value at a member.
pub fn value_at(object: &Object, member: Member) -> Option<&Value>
    ensures { option_map (λ value. view value.now) result
        ≡ value_at (members_view object.now.entries) member }
{
    value_named(object, member.name())
}

/// Whether an object has a member that a request of a kind may not have.
pub fn has_unknown(dated: bool, kind: Kind, object: &Object) -> bool
    ensures { result ≡ has_unknown (is_known dated kind) (members_view object.now.entries) }
{
    for (name, _) in object.iter() {
        if !is_known(dated, kind, name.as_str()) {
            return true;
        }
    }
    false
}

/// Whether a request of a kind may have a member of a name.
fn is_known(dated: bool, kind: Kind, name: &str) -> bool
    ensures { result ≡ is_known dated kind name.now }
{
    name == "do"
        || is_today(dated, name)
        || is_among(needed(kind), name)
        || is_among(optional(kind), name)
}

/// Whether a name is that of the day of a line that may be dated.
fn is_today(dated: bool, name: &str) -> bool
    ensures { result ≡ (dated && bytes_eq name.now (codes "today")) }
{
    dated && name == "today"
}

/// Whether a name is that of one of some members.
fn is_among(members: &[Member], name: &str) -> bool
    ensures { result ≡ is_among members.now name.now }
{
    for member in members {
        if name == member.name() {
            return true;
        }
    }
    false
}
