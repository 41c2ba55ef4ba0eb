// Requests in a transaction, answered from the transaction and the session alone.
ghost use Rattle.std.specs.Prelude.{◌≡◌, ℕ, IfOk, IsTrue, List, Option, length, option_copied};
ghost use Rattle.ifdb_label.specs.Tags.{AreMade};
ghost use Rattle.ifdb_syntax.specs.declared.request.Request.{Request as AnyRequest};
ghost use Rattle.ifdb_model.specs.Step.{form_of, looks, relabels, shows_label, writes};
ghost use Rattle.ifdb_snapshot.specs.Narrow.{is_narrow};
ghost use Rattle.ifdb_snapshot.specs.Writing.{are_fit};
ghost use Rattle.ifdb_db.specs.Client.{standing};
ghost use Rattle.ifdb_db.specs.Inside.{Finds, IsTold};

use super::Txn;
use crate::looks::{select, set_label, show_label};
use crate::told::Told;
use ifdb_label::Label;
use ifdb_syntax::Request;
use ifdb_txn::Written;
use ifdb_value::Principal;
use ifdb_wire::{Fault, Reply};

impl Txn {
    /// Answers a request of a principal at a label, under its ceiling if it has one, all but those that end the transaction.
    ///
    /// No database is among the arguments: what others do meanwhile can't matter. An error is a refusal or want of memory, and changes
    /// nothing.
    #[tactic(auto, using(crate::proofs::Inside::hello_inside, crate::proofs::Inside::refused_inside, crate::proofs::Inside::left))]
    pub fn ask(
        &mut self,
        asker: Principal,
        ceiling: Option<&Label>,
        label: &mut Label,
        request: Request,
    ) -> Result<Told, Fault>
        requires narrow { IsTrue (is_narrow request) }
        requires made { AreMade (length self.old.base.public.tags) label.old }
        ensures told { IsTold (standing asker (option_copied ceiling.entry) label.old) label.new
            self.old self.new request result }
        ensures made { AreMade (length self.new.base.public.tags) label.new }
    {
        match &request {
            Request::Hello { .. } => Err(Fault::HelloTwice),
            Request::CreatePrincipal { .. } => Err(Fault::InTransaction),
            Request::CreateTag { .. } => Err(Fault::InTransaction),
            Request::CreateTable { .. } => Err(Fault::InTransaction),
            Request::CreateView { .. } => Err(Fault::InTransaction),
            Request::Grant { .. } => Err(Fault::InTransaction),
            Request::Revoke { .. } => Err(Fault::InTransaction),
            Request::Begin => Err(Fault::InTransaction),
            Request::SetLabel { .. } => self.set_label(asker, ceiling, label, request),
            Request::ShowLabel => self.show_label(label),
            Request::Select(_) => self.select(asker, label, request),
            Request::Insert { .. } => self.change_rows(asker, label, request),
            Request::Update { .. } => self.change_rows(asker, label, request),
            Request::Delete { .. } => self.change_rows(asker, label, request),
            Request::Commit => Ok(Told::Commits),
            Request::Rollback => Ok(Told::RollsBack),
            Request::Bye => Ok(Told::Leaves),
        }
    }

    /// SET LABEL: by the authority that the principal had at the BEGIN.
    #[tactic(auto, using(crate::proofs::Inside::replied, crate::proofs::Inside::denied))]
    fn set_label(
        &self,
        asker: Principal,
        ceiling: Option<&Label>,
        label: &mut Label,
        request: Request,
    ) -> Result<Told, Fault>
        requires form { form_of request ≡ relabels }
        requires narrow { IsTrue (is_narrow request) }
        requires made { AreMade (length self.now.base.public.tags) label.old }
        ensures told { IsTold (standing asker (option_copied ceiling.entry) label.old) label.new
            self.now self.now request result }
        ensures made { AreMade (length self.now.base.public.tags) label.new }
    {
        let reply = set_label(&self.seen(), asker, ceiling, label, request)?;
        Ok(Told::Replies(reply))
    }

    /// SHOW LABEL, whoever asks and whatever the ceiling is.
    #[tactic(auto, using(crate::proofs::Inside::replied, crate::proofs::Inside::denied))]
    fn show_label(&self, label: &Label) -> Result<Told, Fault>
        ensures { (asker : ℕ) (c : Option (List ℕ)) (r : AnyRequest) → form_of r ≡ shows_label
            → IsTold (standing asker c label.now) label.now self.now self.now r result }
    {
        let reply = show_label(&self.seen(), label)?;
        Ok(Told::Replies(reply))
    }

    /// SELECT, over the rows of the BEGIN with the transaction's own writes.
    #[tactic(auto, using(crate::proofs::Inside::replied, crate::proofs::Inside::denied))]
    fn select(&self, asker: Principal, label: &Label, request: Request) -> Result<Told, Fault>
        requires form { form_of request ≡ looks }
        requires narrow { IsTrue (is_narrow request) }
        requires made { AreMade (length self.now.base.public.tags) label.now }
        ensures { (c : Option (List ℕ)) → IsTold (standing asker c label.now) label.now
            self.now self.now request result }
    {
        let reply = select(&self.seen(), asker, label, request)?;
        Ok(Told::Replies(reply))
    }

    /// INSERT, UPDATE and DELETE: the writes join the transaction's own.
    #[tactic(auto, using(crate::proofs::Inside::rows_changed, crate::proofs::Inside::rows_denied))]
    fn change_rows(
        &mut self,
        asker: Principal,
        label: &Label,
        request: Request,
    ) -> Result<Told, Fault>
        requires form { form_of request ≡ writes }
        requires narrow { IsTrue (is_narrow request) }
        requires made { AreMade (length self.old.base.public.tags) label.now }
        ensures { (c : Option (List ℕ)) → IsTold (standing asker c label.now) label.now
            self.old self.new request result }
    {
        let written = self.written(asker, label, request)?;
        let count = written.count();
        self.write(written.into_writes())?;
        Ok(Told::Replies(Reply::Count(count)))
    }

    /// What an INSERT, UPDATE or DELETE writes.
    #[tactic(auto, using(crate::proofs::Inside::found_written, crate::proofs::Inside::found_unbound))]
    fn written(&self, asker: Principal, label: &Label, request: Request) -> Result<Written, Fault>
        requires form { form_of request ≡ writes }
        requires narrow { IsTrue (is_narrow request) }
        requires made { AreMade (length self.now.base.public.tags) label.now }
        ensures found { Finds asker label.now self.now request result }
        ensures fit { IfOk result
            (λ written. IsTrue (are_fit self.now.base.public written.writes)) }
    {
        let seen = self.seen();
        let found = seen.bind(asker, request)?;
        let written = seen.written(asker, label, &found);
        drop(found);
        written
    }
}
