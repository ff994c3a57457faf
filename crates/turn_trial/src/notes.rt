ghost use Rattle.std.specs.Prelude.{◌≡◌, ℕ, ◌<◌, ◌^◌, length, [], ◌∷◌, ◌++◌, Contains, IfSome, IfNone, MatchBool};
ghost use Rattle.turn_trial.specs.declared.notes.Note.TheVariants as Note;
ghost use Rattle.turn_trial.specs.Trial.{IsNew};

use std::alloc::Global;
use std::marker::Model;
use turn_lock::{Logged, Role};

/// What somebody noted.
#[derive(Drop)]
pub enum Note {
    /// Somebody of this role said a number.
    Said(Role, u32),
    /// A hand opened this session.
    Opened(u32),
    /// The hand that opened this session closed it.
    Closed(u32),
    /// The worker took this job.
    Taken(u32),
}

/// The notes so far. Contracts see them as their list.
#[derive(Drop)]
pub struct Notes {
    notes: Vec<Note>,
    opened: u32,
}

impl Model for Notes {
    ghost use Rattle.std.specs.Prelude.{List, All};
    ghost use Rattle.turn_trial.specs.declared.notes.Note.{Note};
    ghost use Rattle.turn_trial.specs.Trial.{IsWithin};

    ghost Value = { List Note };

    ghost view = { λ n. n.notes.items };

    ghost invariant = { λ n. All (IsWithin n.opened) n.notes.items };
}

impl Logged for Notes {
    ghost use Rattle.turn_trial.specs.Trial.{kind_of};

    type Entry = Note;

    ghost log = { λ n. n };

    ghost kind = { kind_of };

    ghost terms_of = { λ _. 0 };

    fn entries(&self) -> u64 {
        self.notes.len() as u64
    }

    fn terms(&self) -> u64 {
        0
    }
}

impl Notes {
    pub fn new(alloc: Global) -> Notes
        ensures { result ≡ [] }
    {
        Notes {
            notes: Vec::new(alloc),
            opened: 0,
        }
    }

    /// Adds a number that was said, and answers whether there was memory for it.
    pub fn say(&mut self, role: Role, number: u32) -> bool
        ensures { MatchBool result (self.new ≡ self.old ++ Note.Said role number ∷ []) (self.new ≡ self.old) }
    {
        self.notes.push(Note::Said(role, number)).is_ok()
    }

    /// Opens the next session, where there is memory and a number for it.
    pub fn open(&mut self) -> Option<u32>
        ensures opened { IfSome result (λ s. self.new ≡ self.old ++ Note.Opened s ∷ []) }
        ensures fresh { IfSome result (λ s. IsNew s self.old) }
        ensures none { IfNone result (self.new ≡ self.old) }
    {
        if self.opened == u32::MAX {
            return None;
        }
        let session = self.opened + 1;
        if self.notes.push(Note::Opened(session)).is_err() {
            return None;
        }
        self.opened = session;
        Some(session)
    }

    /// Closes a session, and answers whether there was memory for the note.
    pub fn close(&mut self, session: u32) -> bool
        requires { Contains self.old (Note.Opened session) }
        ensures { MatchBool result (self.new ≡ self.old ++ Note.Closed session ∷ []) (self.new ≡ self.old) }
    {
        self.notes.push(Note::Closed(session)).is_ok()
    }
}
