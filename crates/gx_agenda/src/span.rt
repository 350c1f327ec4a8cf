ghost use Rattle.std.specs.Prelude.{◌≡◌, ◌+◌, nat_lt, if◌then◌else◌};

use gx_ids::SessionId;

// Numbers of sessions: from the first on, and below the other.
#[derive(Clone, Copy)]
pub struct Span {
    pub from: usize,
    pub past: usize,
}

impl Span {
    // No session.
    pub(crate) fn none() -> Span
        ensures { result ≡ record { from = 256; past = 0 } }
    {
        Span { from: 256, past: 0 }
    }

    // It reaches to this session too.
    pub(crate) fn add(&mut self, session: SessionId)
        ensures from { self.new.from ≡ (if nat_lt session.0 self.old.from then session.0 else self.old.from) }
        ensures past { self.new.past ≡ (if nat_lt session.0 self.old.past then self.old.past else session.0 + 1) }
    {
        let number = usize::from(session.0);
        if number < self.from {
            self.from = number;
        }
        if number >= self.past {
            self.past = number + 1;
        }
    }
}
