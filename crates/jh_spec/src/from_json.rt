//! What a JSON value tells of a configuration.
ghost use Rattle.std.specs.Prelude.{◌≡◌, Option};
ghost use Rattle.serde_json.specs.Data.{Data};
ghost use Rattle.serde_json.specs.Find.{get};
ghost use Rattle.serde_json.specs.View.{view};
ghost use Rattle.jh_spec.specs.Json.{told_or};

use serde_json::Value;

/// A value of a configuration that a JSON value may tell.
pub trait FromJson: Copy {
    ghost tells: { Data → Option Self };

    /// What stands for a missing member.
    ghost missing: { Self };

    /// What the value tells; `None` where it tells nothing of this kind.
    fn from_json(value: &Value) -> Option<Self>
        ensures { result ≡ tells (view value.now) };

    /// What stands for a missing member: 0, and in a record or a list 0 in each place.
    fn missing() -> Self
        ensures { result ≡ missing };
}

/// What the object's member of this name tells, or what stands for a missing one; `None` where the member is at fault.
pub fn member<T: FromJson>(object: &Value, name: &str) -> Option<T>
    ensures { result ≡ told_or T.tells T.missing (get name.now (view object.now)) }
{
    match object.get(name) {
        Some(value) => T::from_json(value),
        None => Some(T::missing()),
    }
}
