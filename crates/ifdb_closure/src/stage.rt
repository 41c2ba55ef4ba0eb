// A running script with closures: the server's room, the script's own sessions, and the closures.
ghost use Rattle.std.specs.Prelude.{◌≡◌, ◌≤◌, ◌∷◌, ℕ, List, [], length, IfErr, IfOk, None, OnErr, OnOk, Some, option_map};
ghost use Rattle.std.specs.Option.{is_some};
ghost use Rattle.ifdb_wire.specs.Script.{asked_by};
ghost use Rattle.ifdb_wire.specs.Text.{reply_text};
ghost use Rattle.ifdb_wire.specs.declared.reply.Reply.TheVariants as reply;
ghost use Rattle.ifdb_model.specs.Run.{asks, long, opens};
ghost use Rattle.ifdb_model.specs.Script.{line_step, line_steps};
ghost use Rattle.ifdb_model.specs.Step.{is_empty};
ghost use Rattle.ifdb_db.specs.Room.{client_in};
ghost use Rattle.ifdb_closure.specs.Closures.{World, calls, creates, faulty, greeting_in, plain, seated, session_fault, start};
ghost use Rattle.ifdb_closure.specs.Forms.{closure_form, said};
ghost use Rattle.ifdb_closure.specs.Standing.{Does, IsFor, IsSet, Plays, Stands, seat_at};
ghost use Rattle.ifdb_closure.specs.Turning.{CallTurned, CreateTurned};

use crate::call::run_call;
use crate::closure::{Closure, closure_named};
use crate::form::{Form, read_form};
use crate::greeting::Greeting;
use crate::lines::{Lines, label_line};
use crate::statements::Statement;
use ifdb_db::Room;
use ifdb_io::LONGEST_LINE;
use ifdb_value::{Name, OutOfMemory, Sequence};
use ifdb_wire::{Fault, Out, Reply, StepLine, step_line};
use std::alloc::Global;

/// A session of the script: its number among all sessions of the room, and its accepted HELLO.
#[derive(Drop)]
pub(crate) struct Seat {
    session: u64,
    greeting: Option<Greeting>,
}

/// A running script with closures. Its own sessions are counted from 1; those of its CALLs stand between them in the room.
#[derive(Drop)]
pub(crate) struct Stage {
    alloc: Global,
    room: Room,
    seats: Vec<Seat>,
    closures: Sequence<Closure>,
}

impl Stage {
    /// The opening, with no session and no closure.
    pub(crate) fn opening(alloc: Global) -> Result<Stage, OutOfMemory>
        ensures { IfOk result (λ stage. IsFor stage start) }
    {
        Ok(Stage {
            alloc,
            room: Room::opening(alloc)?,
            seats: Vec::new(alloc),
            closures: Sequence::new(alloc),
        })
    }

    /// Takes the step of a line, and puts what is to be written for it.
    pub(crate) fn take(&mut self, line: &[u8], out: &mut Out)
        requires short { length line.now ≤ LONGEST_LINE }
        requires set { IsSet self.old }
        ensures { Plays self.old self.new (line_steps line.now) out.new.text }
    {
        self.take_step(step_line(line), out);
    }

    /// Refuses a line that is too long.
    pub(crate) fn refuse_long(&mut self, out: &mut Out)
        ensures { Does self.old self.new long out.new.text }
    {
        refuse(out, 0, Fault::TooLong);
    }

    fn take_step(&mut self, line: StepLine<'_>, out: &mut Out)
        requires { IsSet self.old }
        ensures { Plays self.old self.new (line_step (asked_by line.entry)) out.new.text }
    {
        match line {
            StepLine::Skip => out.clear(),
            StepLine::Open => self.open(out),
            StepLine::Ask(number, request) => self.ask(number, request, out),
            // Lines of no session are answered to session 0.
            StepLine::Stray => refuse(out, 0, Fault::Syntax(0)),
        }
    }

    /// Opens the script's next session.
    fn open(&mut self, out: &mut Out)
        ensures { Does self.old self.new opens out.new.text }
    {
        let Some(session) = self.room.sessions().checked_add(1) else {
            // No memory holds so many sessions.
            return refuse(out, 0, Fault::OutOfMemory);
        };
        let seat = Seat {
            session,
            greeting: None,
        };
        if self.seats.push(seat).is_err() {
            return refuse(out, 0, Fault::OutOfMemory);
        }
        let shown = self.seats.len() as u64;
        if !self.room.open(shown, out) {
            self.seats.pop();
        }
    }

    /// Answers a line of a session.
    fn ask(&mut self, n: u64, line: &[u8], out: &mut Out)
        requires { IsSet self.old }
        ensures { Does self.old self.new (asks n line.now) out.new.text }
    {
        match read_form(self.alloc, line) {
            Ok(Form::Plain) => self.ask_plain(n, line, out),
            Ok(Form::Faulty(fault)) => self.refuse_form(n, fault, out),
            Ok(Form::Creates { name, statements }) => self.create(n, name, statements, out),
            Ok(Form::Calls(name)) => self.call(n, &name, out),
            Err(_) => refuse(out, n, Fault::OutOfMemory),
        }
    }

    /// Has the server answer a line of its own.
    fn ask_plain(&mut self, n: u64, line: &[u8], out: &mut Out)
        requires set { IsSet self.old }
        requires form { closure_form line.now ≡ plain }
        ensures { Does self.old self.new (asks n line.now) out.new.text }
    {
        if self.greeting(n).is_some() {
            let session = self.session(n);
            self.room.ask(session, Some(n), line, out);
            return;
        }
        self.ask_stranger(n, line, out);
    }

    /// The same of a session without a principal: a HELLO that is accepted is kept.
    fn ask_stranger(&mut self, n: u64, line: &[u8], out: &mut Out)
        requires set { IsSet self.old }
        requires form { closure_form line.now ≡ plain }
        requires stranger { (seat_at self.old.seats.items n).greeting ≡ None }
        ensures { Does self.old self.new (asks n line.now) out.new.text }
    {
        let Ok(greeting) = Greeting::read(self.alloc, line) else {
            return refuse(out, n, Fault::OutOfMemory);
        };
        let session = self.session(n);
        self.room.ask(session, Some(n), line, out);
        if self.room.has_principal(session) {
            self.seats[(n - 1) as usize].greeting = greeting;
        }
    }

    /// Refuses a line that is one of the forms of closures with a fault.
    fn refuse_form(&mut self, n: u64, fault: Fault, out: &mut Out)
        ensures { (line : List ℕ) → closure_form line ≡ faulty fault
            → Does self.old self.new (asks n line) out.new.text }
    {
        if self.room.is_open(self.session(n)) {
            return refuse(out, n, fault);
        }
        refuse(out, n, Fault::NoSession);
    }

    /// CREATE CLOSURE.
    fn create(&mut self, n: u64, name: Name, statements: Sequence<Statement>, out: &mut Out)
        ensures { (line : List ℕ) → closure_form line ≡ creates name statements
            → Does self.old self.new (asks n line) out.new.text }
    {
        match self.enter(n, name, statements) {
            Ok(()) => {
                out.speak_for(Some(n));
                out.put(&Reply::Done);
            }
            Err(fault) => refuse(out, n, fault),
        }
    }

    /// Enters a closure. An error enters nothing.
    fn enter(&mut self, n: u64, name: Name, statements: Sequence<Statement>) -> Result<(), Fault>
        ensures { CreateTurned self.old self.new n name statements result }
    {
        let owner = self.asker(n)?;
        if !self.has_empty_label(n) {
            return Err(Fault::LabelNotEmpty);
        }
        if closure_named(self.closures.items(), &name).is_some() {
            return Err(Fault::Taken);
        }
        let owner = owner.copy(self.alloc)?;
        self.closures.push(Closure {
            name,
            owner,
            statements,
        })?;
        Ok(())
    }

    /// CALL.
    fn call(&mut self, n: u64, name: &Name, out: &mut Out)
        requires { IsSet self.old }
        ensures { (line : List ℕ) → closure_form line ≡ calls name.now
            → Does self.old self.new (asks n line) out.new.text }
    {
        if let Err(fault) = self.try_call(n, name, out) {
            refuse(out, n, fault);
        }
    }

    /// Calls a closure, and puts the reply to its last statement. An error is the call's refusal.
    fn try_call(&mut self, n: u64, name: &Name, out: &mut Out) -> Result<(), Fault>
        requires { IsSet self.old }
        ensures { CallTurned self.old self.new n name.now out.new.text result }
    {
        self.asker(n)?;
        let caller = self.session(n);
        let Some(closure) = closure_named(self.closures.items(), name) else {
            return Err(Fault::UnknownName);
        };
        let hello = closure.owner.line(self.alloc)?;
        let label = label_line(self.alloc, &self.room, caller)?;
        let lines = Lines::of(self.alloc, &hello, &label, closure.statements.items())?;
        run_call(&mut self.room, caller, &lines, n, out)
    }

    /// Who asks in a session, where it may define and call closures: it is open, has a principal, and has no transaction.
    fn asker(&self, n: u64) -> Result<&Greeting, Fault>
        ensures may { IfOk result (λ greeting. (w : World) → IsFor self.now w
            → (session_fault (seated w n) ≡ None)
            × (greeting.now ≡ greeting_in w.greetings n)) }
        ensures fault { IfErr result (λ fault. (w : World) → IsFor self.now w
            → session_fault (seated w n) ≡ Some fault) }
    {
        let session = self.session(n);
        if !self.room.is_open(session) {
            return Err(Fault::NoSession);
        }
        let Some(greeting) = self.greeting(n) else {
            return Err(Fault::NotHello);
        };
        if self.room.in_transaction(session) {
            return Err(Fault::InTransaction);
        }
        Ok(greeting)
    }

    /// Whether a session's label has no tag.
    fn has_empty_label(&self, n: u64) -> bool
        ensures { result
            ≡ is_empty (client_in self.now.room (seat_at self.now.seats.items n).session).label }
    {
        match self.room.label(self.session(n)) {
            Some(label) => label.tags().is_empty(),
            None => true,
        }
    }

    /// The number of a session among all; 0, which no session has, where the script opened none of this number.
    fn session(&self, n: u64) -> u64
        ensures { result ≡ (seat_at self.now.seats.items n).session }
    {
        if n == 0 || self.seats.len() as u64 <= n - 1 {
            return 0;
        }
        self.seats[(n - 1) as usize].session
    }

    /// The accepted HELLO of a session.
    fn greeting(&self, n: u64) -> Option<&Greeting>
        ensures { option_map (λ g. g.now) result ≡ (seat_at self.now.seats.items n).greeting }
    {
        if n == 0 || self.seats.len() as u64 <= n - 1 {
            return None;
        }
        self.seats[(n - 1) as usize].greeting.as_ref()
    }
}

/// Puts a refusal for a session, or for none, which is 0.
fn refuse(out: &mut Out, session: u64, fault: Fault)
    ensures { out.new.text ≡ reply_text (Some session) (reply.Refused fault) }
{
    out.speak_for(Some(session));
    out.put(&Reply::Refused(fault));
}
