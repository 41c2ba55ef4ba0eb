// Accepted HELLOs.
ghost use Rattle.std.specs.Prelude.{◌≡◌, IfOk, Ok};
ghost use Rattle.ifdb_db.specs.Reading.{read_line};
ghost use Rattle.ifdb_closure.specs.Closures.{hello_line, hello_of};

use crate::lines::line_of;
use ifdb_parse::{ParseFault, parse};
use ifdb_syntax::Request;
use ifdb_value::{Name, OutOfMemory, Word};
use std::alloc::Global;
use std::marker::Model;

/// What a HELLO says: a name and a key.
#[derive(Drop)]
pub(crate) struct Greeting {
    name: Name,
    key: Word,
}

impl Model for Greeting {
    ghost use Rattle.ifdb_closure.specs.Closures.{Greeting};

    ghost Value = { Greeting };

    ghost view = { λ g. record { name = g.name; key = g.key } };
}

impl Greeting {
    /// What a line says, if it is a HELLO. The only error is want of memory.
    pub(crate) fn read(alloc: Global, line: &[u8]) -> Result<Option<Greeting>, OutOfMemory>
        ensures { IfOk result (λ greeting. greeting ≡ hello_of (read_line line.now)) }
    {
        match parse(alloc, line) {
            Ok(request) => Greeting::of(alloc, &request),
            Err(ParseFault::Syntax(_) | ParseFault::Limit) => Ok(None),
            Err(ParseFault::OutOfMemory) => Err(OutOfMemory),
        }
    }

    /// What a request says, if it is a HELLO.
    fn of(alloc: Global, request: &Request) -> Result<Option<Greeting>, OutOfMemory>
        ensures { IfOk result (λ greeting. greeting ≡ hello_of (Ok request.now)) }
    {
        match request {
            Request::Hello { name, key } => Ok(Some(Greeting {
                name: name.share()?,
                key: key.share()?,
            })),
            _ => Ok(None),
        }
    }

    /// The same greeting.
    pub(crate) fn copy(&self, alloc: Global) -> Result<Greeting, OutOfMemory>
        ensures { IfOk result (λ greeting. greeting ≡ self.now) }
    {
        Ok(Greeting {
            name: self.name.share()?,
            key: self.key.share()?,
        })
    }

    /// The line that says it.
    pub(crate) fn line(&self, alloc: Global) -> Result<Vec<u8>, OutOfMemory>
        ensures { IfOk result (λ line. line.items ≡ hello_line self.now) }
    {
        let Greeting { name, key } = self.copy(alloc)?;
        line_of(alloc, Request::Hello { name, key })
    }
}
