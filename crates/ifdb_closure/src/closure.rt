// Stored closures.
ghost use Rattle.std.specs.Prelude.{◌≡◌, option_map};
ghost use Rattle.ifdb_closure.specs.Closures.{closure_named};

use crate::greeting::Greeting;
use crate::statements::Statement;
use ifdb_value::{Name, Sequence};
use std::marker::Model;

/// A closure: its name, who defined it, and its statements.
#[derive(Drop)]
pub(crate) struct Closure {
    pub(crate) name: Name,
    pub(crate) owner: Greeting,
    pub(crate) statements: Sequence<Statement>,
}

impl Model for Closure {
    ghost use Rattle.ifdb_closure.specs.Closures.{Closure};

    ghost Value = { Closure };

    ghost view = { λ c. record { name = c.name; owner = c.owner; statements = c.statements } };
}

/// The closure of a name.
pub(crate) fn closure_named<'a>(closures: &'a [Closure], name: &Name) -> Option<&'a Closure>
    ensures { option_map (λ c. c.now) result ≡ closure_named closures.entry.now name.now }
{
    for closure in closures {
        if closure.name == *name {
            return Some(closure);
        }
    }
    None
}
