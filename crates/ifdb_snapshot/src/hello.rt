// HELLO.
ghost use Rattle.std.specs.Prelude.{◌≡◌, IfOk, IfErr};
ghost use Rattle.ifdb_wire.specs.declared.reply.Reply.TheVariants.{Done};
ghost use Rattle.ifdb_model.specs.Session.{Session};
ghost use Rattle.ifdb_catalog.specs.Public.{clearance_of};
ghost use Rattle.ifdb_model.specs.Step.{hello, refuses, tells, welcomed};

use crate::OutOfMemory;
use crate::snapshot::Snapshot;
use ifdb_label::Label;
use ifdb_value::{Name, Principal, Word};
use ifdb_wire::Fault;

impl<'a> Snapshot<'a> {
    /// The principal whose name and key a session gave; `BadKey` where there is none. Takes no memory.
    #[tactic(auto, using(crate::proofs::Greeting::greeted_known, crate::proofs::Greeting::greeted_bad, crate::proofs::Greeting::greeted_none))]
    pub fn greeted(&self, name: &Name, key: &Word) -> Result<Principal, Fault>
        ensures known { IfOk result (λ n. (s : Session)
            → hello self.now.public s name.now key.now
            ≡ tells (welcomed self.now.public s n) Done) }
        ensures refused { IfErr result
            (λ fault. (s : Session) → hello self.now.public s name.now key.now ≡ refuses s fault) }
    {
        let catalog = self.public.catalog();
        let Some(principal) = catalog.principal(name) else {
            return Err(Fault::BadKey);
        };
        if !catalog.key_is(principal, key) {
            return Err(Fault::BadKey);
        }
        Ok(principal)
    }

    /// The clearance of a principal, which its session takes as its ceiling; `None` where it has none.
    pub fn clearance(&self, principal: Principal) -> Result<Option<Label>, OutOfMemory>
        ensures { IfOk result
            (λ clearance. clearance ≡ clearance_of self.now.public principal) }
    {
        match self.public.catalog().clearance(principal) {
            Some(label) => {
                let label = label.share()?;
                Ok(Some(label))
            }
            None => Ok(None),
        }
    }
}
