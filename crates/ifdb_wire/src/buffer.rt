// The text of one reply.
ghost use Rattle.std.specs.Prelude.{◌≡◌, ◌+◌, ◌≤◌, ◌++◌, [], true, false, IfOk, OnOk, None, length, decimal};
ghost use Rattle.ifdb_wire.specs.Fault.{fault_text, place_text};
ghost use Rattle.ifdb_wire.specs.Text.{line, line_head, rows_head, reply_text, IsUnbounded};

use crate::fault::Fault;
use crate::reply::{Reply, Table};
use crate::rows::{try_label, try_rows};
use itoa::Buffer;
use std::alloc::{AllocError, Global};
use std::marker::Model;

// As many bytes as every reply other than Label and Rows has at most.
const ROOM: usize = 128;

/// The text of a reply, and the session that it speaks for, which is none at first and on a connection. The buffer's room of 128 bytes is
/// taken once, so that no reply other than Label and Rows can lack memory.
///
/// Contracts see the text and the session.
#[derive(Drop)]
pub struct Out {
    text: Vec<u8>,
    session: Option<u64>,
}

impl Model for Out {
    ghost use Rattle.std.specs.Prelude.{◌≤◌, vec_capacity};
    ghost use Rattle.ifdb_wire.specs.declared.buffer.TheConstants.{ROOM};
    ghost use Rattle.ifdb_wire.specs.Spoken.{Spoken};

    ghost Value = { Spoken };

    ghost view = { λ out. record { text = out.text.items; session = out.session } };

    ghost invariant = { λ out. ROOM ≤ vec_capacity out.text };
}

impl Out {
    /// An empty text, for no session. The only call that takes memory for a reply other than Label and Rows.
    pub fn new(alloc: Global) -> Result<Self, AllocError>
        ensures text { IfOk result (λ out. out.text ≡ []) }
        ensures session { IfOk result (λ out. out.session ≡ None) }
    {
        Ok(Out {
            text: Vec::with_capacity(alloc, ROOM)?,
            session: None,
        })
    }

    /// The text.
    pub fn bytes(&self) -> &[u8]
        ensures { result.now ≡ self.now.text }
    {
        &self.text
    }

    /// Empties the text, and speaks for this session from now on. Takes no memory.
    pub fn speak_for(&mut self, session: Option<u64>)
        ensures text { self.new.text ≡ [] }
        ensures session { self.new.session ≡ session }
    {
        self.session = session;
        self.text.clear();
    }

    /// Empties the text.
    pub fn clear(&mut self)
        ensures text { self.new.text ≡ [] }
        ensures session { self.new.session ≡ self.old.session }
    {
        self.text.clear();
    }

    /// Puts the text of a reply in place of what stood there, with the session's number and a space before each line. False is want of memory,
    /// which only Label and Rows can meet, and the text is then that of error 20. In time the length of the text.
    pub fn put(&mut self, reply: &Reply) -> bool
        ensures text { result ≡ true → self.new.text ≡ reply_text self.old.session reply.now }
        ensures memory { result ≡ false
            → self.new.text ≡ reply_text self.old.session (Reply.Refused Fault.OutOfMemory) }
        ensures unbounded { result ≡ false → IsUnbounded reply.now }
        ensures session { self.new.session ≡ self.old.session }
    {
        match reply {
            Reply::Done => self.put_line(b"OK"),
            Reply::Count(count) => self.put_numbered(b"OK ", *count),
            Reply::Opened => self.put_line(b"OPEN"),
            Reply::Refused(fault) => self.put_fault(*fault),
            Reply::Label(names) => return self.put_label(names.as_str().as_bytes()),
            Reply::Rows(table) => return self.put_rows(table),
        }
        true
    }

    fn put_label(&mut self, names: &[u8]) -> bool
        ensures text { result ≡ true
            → self.new.text ≡ reply_text self.old.session (Reply.Label names.now) }
        ensures memory { result ≡ false
            → self.new.text ≡ reply_text self.old.session (Reply.Refused Fault.OutOfMemory) }
        ensures session { self.new.session ≡ self.old.session }
    {
        if try_label(self, names).is_ok() {
            return true;
        }
        self.put_fault(Fault::OutOfMemory);
        false
    }

    fn put_rows(&mut self, table: &Table) -> bool
        ensures text { result ≡ true
            → self.new.text ≡ reply_text self.old.session (Reply.Rows table.now) }
        ensures memory { result ≡ false
            → self.new.text ≡ reply_text self.old.session (Reply.Refused Fault.OutOfMemory) }
        ensures session { self.new.session ≡ self.old.session }
    {
        if try_rows(self, table).is_ok() {
            return true;
        }
        self.put_fault(Fault::OutOfMemory);
        false
    }

    fn put_fault(&mut self, fault: Fault)
        ensures text { self.new.text ≡ line self.old.session (fault_text fault) }
        ensures session { self.new.session ≡ self.old.session }
    {
        let (number, name) = fault.entry();
        self.put_head();
        self.add(b"ERR ");
        self.add_number(u64::from(number));
        self.add(b" ");
        self.add(name.as_bytes());
        self.add_place(fault);
        self.add(b"\n");
    }

    // The place of Syntax, behind a space.
    fn add_place(&mut self, fault: Fault)
        requires { length self.old.text + 21 ≤ ROOM }
        ensures text { self.new.text ≡ self.old.text ++ place_text fault }
        ensures session { self.new.session ≡ self.old.session }
        ensures short { length self.new.text ≤ length self.old.text + 21 }
    {
        if let Fault::Syntax(at) = fault {
            self.add(b" ");
            self.add_number(at as u64);
        }
    }

    // One line.
    fn put_line(&mut self, body: &[u8])
        requires { length body.now ≤ 32 }
        ensures text { self.new.text ≡ line self.old.session body.now }
        ensures session { self.new.session ≡ self.old.session }
    {
        self.put_head();
        self.add(body);
        self.add(b"\n");
    }

    // One line, which ends with a number.
    fn put_numbered(&mut self, words: &[u8], number: u64)
        requires { length words.now ≤ 32 }
        ensures text { self.new.text ≡ line self.old.session (words.now ++ decimal number) }
        ensures session { self.new.session ≡ self.old.session }
    {
        self.put_head();
        self.add(words);
        self.add_number(number);
        self.add(b"\n");
    }

    /// The first line of a table.
    pub(crate) fn put_rows_head(&mut self, table: &Table)
        ensures text { self.new.text ≡ line self.old.session (rows_head table.now) }
        ensures session { self.new.session ≡ self.old.session }
    {
        self.put_head();
        self.add(b"ROWS ");
        self.add_number(table.rows.len() as u64);
        self.add(b" ");
        self.add_number(table.columns);
        self.add(b"\n");
    }

    /// What stands before a line, in place of what stood there.
    pub(crate) fn put_head(&mut self)
        ensures text { self.new.text ≡ line_head self.old.session }
        ensures session { self.new.session ≡ self.old.session }
        ensures short { length self.new.text ≤ 21 }
    {
        self.text.clear();
        if let Some(number) = self.session {
            self.add_number(number);
            self.add(b" ");
        }
    }

    // Adds a number, for which there is room.
    fn add_number(&mut self, number: u64)
        requires { length self.old.text + 20 ≤ ROOM }
        ensures text { self.new.text ≡ self.old.text ++ decimal number }
        ensures session { self.new.session ≡ self.old.session }
        ensures short { length self.new.text ≤ length self.old.text + 20 }
    {
        let mut buffer = Buffer::new();
        self.add(buffer.format(number).as_bytes());
    }

    // Adds bytes for which there is room.
    fn add(&mut self, bytes: &[u8])
        requires { length self.old.text + length bytes.now ≤ ROOM }
        ensures text { self.new.text ≡ self.old.text ++ bytes.now }
        ensures session { self.new.session ≡ self.old.session }
        ensures len { length self.new.text ≡ length self.old.text + length bytes.now }
    {
        let _ = self.text.extend_from_slice(bytes);
    }

    /// Adds bytes, where there is memory for them.
    pub(crate) fn try_add(&mut self, bytes: &[u8]) -> Result<(), AllocError>
        ensures text { OnOk result (self.new.text ≡ self.old.text ++ bytes.now) }
        ensures session { self.new.session ≡ self.old.session }
    {
        self.text.extend_from_slice(bytes)
    }

    /// Adds what stands before a line, where there is memory for it.
    pub(crate) fn try_head(&mut self) -> Result<(), AllocError>
        ensures text { OnOk result (self.new.text ≡ self.old.text ++ line_head self.old.session) }
        ensures session { self.new.session ≡ self.old.session }
    {
        match self.session {
            None => Ok(()),
            Some(number) => {
                let mut buffer = Buffer::new();
                self.try_add(buffer.format(number).as_bytes())?;
                self.try_add(b" ")
            }
        }
    }
}
