// Lists of names: where a name stands, and the tests that an owner's lists have to pass. specs/ of the crate model says what each
// means.
#![tactic(auto)]

ghost use Rattle.std.specs.Prelude.{◌≡◌, Some, None, cond, map, length};
ghost use Rattle.model.specs.Names.{all_among, among, distinct, name_of, none_among, same_name, seat};

use model::{Name, Register};

// Whether two names are the same: what `==` answers, in the model's words.
pub fn same_name(a: Name, b: Name) -> bool
    ensures { result ≡ same_name a b }
{
    a == b
}

// Where a name stands first, if it stands there.
pub fn seat_of(name: Name, names: &[Name]) -> Option<usize>
    ensures { result ≡ cond (among name names.now) (Some (seat name names.now)) None }
{
    names.iter().position(|n| *n == name)
}

// Whether a name stands in a list.
pub fn is_among(name: Name, names: &[Name]) -> bool
    ensures { result ≡ among name names.now }
{
    seat_of(name, names).is_some()
}

// Whether no name stands twice: each stands first at its own place.
pub fn are_distinct(names: &[Name]) -> bool
    ensures { result ≡ distinct names.now }
{
    names
        .iter()
        .enumerate()
        .all(|(i, n)| seat_of(*n, names) == Some(i))
}

// Whether each of `these` stands among the names.
pub fn all_among(names: &[Name], these: &[Name]) -> bool
    ensures { result ≡ all_among names.now these.now }
{
    these.iter().all(|n| is_among(*n, names))
}

// Whether none of `these` stands among the names.
pub fn none_among(names: &[Name], these: &[Name]) -> bool
    ensures { result ≡ none_among names.now these.now }
{
    these.iter().all(|n| !is_among(*n, names))
}

// The names of registers.
pub fn names_of(registers: [Register; 16]) -> [Name; 16]
    ensures { result ≡ map name_of registers }
{
    registers.map(|r| r.name)
}
