//! Which members a JSON object has.
#![tactic(auto)]

ghost use Rattle.std.specs.Prelude.{◌≡◌, ◌+◌, ◌<◌, option_map, length, map};
ghost use Rattle.std.specs.List.{list_all, count_by};
ghost use Rattle.serde_json.specs.View.{view};
ghost use Rattle.json_forms.specs.Forms.{lone_member, has, has_count, has_members};

use serde_json::Value;

fn has_so_many(value: &Value, count: usize) -> bool
    ensures { result ≡ has_count (view value.now) count }
{
    match value.as_object() {
        Some(members) => members.len() == count,
        None => false,
    }
}

/// Whether the value is an object with a member of this name.
pub fn contains(value: &Value, name: &str) -> bool
    ensures { result ≡ has (view value.now) name.now }
{
    value.get(name).is_some()
}

/// The name and the value of an object's only member. None where the value is no object, or has
/// another number of members.
pub fn only_member(value: &Value) -> Option<(&str, &Value)>
    ensures { option_map (λ m. (m.0.now, view m.1.now)) result ≡ lone_member (view value.now) }
{
    let members = value.as_object()?;
    if members.len() != 1 {
        return None;
    }
    let (name, member) = members.first_key_value()?;
    Some((name.as_str(), member))
}

fn contains_all(value: &Value, names: &[&str]) -> bool
    ensures { result ≡ list_all (λ n. has (view value.now) n.now) names.now }
{
    names.iter().all(|name| contains(value, name))
}

fn contained(value: &Value, names: &[&str]) -> usize
    ensures { result ≡ count_by (λ n. has (view value.now) n.now) names.now }
{
    names.iter().filter(|name| contains(value, name)).count()
}

/// Whether the value is an object with each of the required names, and with no name but those and
/// the optional ones. No name is listed twice. Fewer than 16 names are listed.
pub fn is_object_of(value: &Value, required: &[&str], optional: &[&str]) -> bool
    requires { length required.now + length optional.now < 16 }
    ensures { result ≡ has_members (map (λ n. n.now) required.now) (map (λ n. n.now) optional.now) (view value.now) }
{
    contains_all(value, required) && has_so_many(value, required.len() + contained(value, optional))
}
